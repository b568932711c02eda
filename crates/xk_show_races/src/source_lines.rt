//! A source text with its lines, where the instructions of its units come from.

use std::alloc::{AllocError, Global};
use std::marker::Model;
use xk_lines::LineStarts;
use xk_show_events::Places;
use xk_unit_origins::UnitOrigins;

/// A source text, its lines, and where the instructions of its units come from.
#[derive(Drop)]
pub(crate) struct SourceLines<'t> {
    text: &'t [u8],
    lines: LineStarts<'t>,
    origins: &'t [UnitOrigins<'t>],
    places: Places<'t>,
}

impl<'t> Model for SourceLines<'t> {
    ghost use Rattle.std.specs.Prelude.{◌≡◌};
    ghost use Rattle.xk_show_events.specs.Events.{PlacesValue, places_of};

    ghost Value = { PlacesValue };

    ghost view = { λ s. record { text = s.text.now; origins = s.origins.now } };

    ghost invariant = { λ s. (s.lines ≡ s.text.now)
        × (s.places ≡ places_of s.text.now s.origins.now) };
}

impl<'t> SourceLines<'t> {
    ghost use Rattle.std.specs.Prelude.{◌≡◌, slice_get, IfOk};
    ghost use Rattle.xk_unit_origins.specs.UnitOrigins.{offsets_at};
    ghost use Rattle.xk_show_events.specs.Events.{places_of};
    ghost use Rattle.xk_show_races.specs.Text.{excerpt_at};

    /// Those of a text whose units have these origins. Err where memory was refused.
    pub(crate) fn new(
        alloc: Global,
        text: &'t [u8],
        origins: &'t [UnitOrigins<'t>],
    ) -> Result<SourceLines<'t>, AllocError>
        ensures { IfOk result (λ s. s ≡ places_of text.now origins.now) }
    {
        let lines = LineStarts::new(alloc, text)?;
        let places = Places::of_source(alloc, text, origins)?;
        Ok(SourceLines {
            text,
            lines,
            origins,
            places,
        })
    }

    /// Where its instructions come from, by lines and columns.
    pub(crate) fn places(&self) -> &Places<'t>
        ensures { result.now ≡ self.now }
    {
        &self.places
    }

    /// The offset that an instruction comes from, if the origins say it.
    fn offset(&self, unit: u16, place: u32) -> Option<usize>
        ensures { result ≡ slice_get (offsets_at self.now.origins unit) place }
    {
        match self.origins.get(unit as usize) {
            Some(of_unit) => of_unit.offsets.get(place as usize).copied(),
            None => None,
        }
    }

    /// The line that an instruction comes from, with a caret below it; nothing where no origin says it. Err where
    /// memory was refused.
    pub(crate) fn excerpt(
        &self,
        alloc: Global,
        unit: u16,
        place: u32,
    ) -> Result<Vec<u8>, AllocError>
        ensures { IfOk result (λ v. v.items ≡ excerpt_at self.now unit place) }
    {
        match self.offset(unit, place) {
            Some(offset) => {
                let at = offset.min(self.text.len());
                let mut excerpt = self.lines.excerpt(alloc, at, 1)?;
                excerpt.push(b'\n')?;
                Ok(excerpt)
            }
            None => Ok(Vec::new(alloc)),
        }
    }
}
