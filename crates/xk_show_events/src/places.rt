//! Where the instructions of a program come from.

ghost use Rattle.std.specs.Prelude.{◌≡◌, IfOk};
ghost use Rattle.xk_unit_origins.specs.UnitOrigins.{offsets_at};
ghost use Rattle.xk_show_events.specs.Events.{no_text, origin_of, places_of};

use std::alloc::{AllocError, Global};
use std::marker::Model;
use xk_lines::{LineStarts, Position};
use xk_unit_origins::UnitOrigins;

/// A source text, and where the instructions of its units come from. A module alone has neither.
#[derive(Drop)]
pub struct Places<'t> {
    text: &'t [u8],
    lines: LineStarts<'t>,
    origins: &'t [UnitOrigins<'t>],
}

impl<'t> Model for Places<'t> {
    ghost use Rattle.std.specs.Prelude.{◌≡◌};
    ghost use Rattle.xk_show_events.specs.Events.{PlacesValue};

    ghost Value = { PlacesValue };

    ghost view = { λ p. record { text = p.text.now; origins = p.origins.now } };

    ghost invariant = { λ p. p.lines ≡ p.text.now };
}

impl<'t> Places<'t> {
    /// Those of a text whose units have these origins. Err where memory was refused.
    pub fn of_source(
        alloc: Global,
        text: &'t [u8],
        origins: &'t [UnitOrigins<'t>],
    ) -> Result<Places<'t>, AllocError>
        ensures { IfOk result (λ p. p ≡ places_of text.now origins.now) }
    {
        let lines = LineStarts::new(alloc, text)?;
        Ok(Places {
            text,
            lines,
            origins,
        })
    }

    /// Those of a module alone. Err where memory was refused.
    pub fn of_module(alloc: Global) -> Result<Places<'t>, AllocError>
        ensures { IfOk result (λ p. p ≡ no_text) }
    {
        Places::of_source(alloc, b"", &[])
    }

    /// Where the units come from; none of a module alone.
    pub fn origins(&self) -> &'t [UnitOrigins<'t>]
        ensures { result.now ≡ self.now.origins }
    {
        self.origins
    }

    /// Where the instructions of a unit come from; none where no origins are known.
    fn offsets(&self, unit: u16) -> &[usize]
        ensures { result.now ≡ offsets_at self.now.origins unit }
    {
        match self.origins.get(unit as usize) {
            Some(of_unit) => &of_unit.offsets,
            None => &[],
        }
    }

    /// The line and column that an instruction comes from, if the origins say it.
    pub fn origin(&self, unit: u16, place: u32) -> Option<Position>
        ensures { result ≡ origin_of self.now unit place }
    {
        match self.offsets(unit).get(place as usize) {
            Some(offset) => Some(self.lines.position((*offset).min(self.text.len()))),
            None => None,
        }
    }
}
