//! What is known of the program whose run is asked for.

use std::alloc::{AllocError, Global};
use std::marker::Model;
use xk_core::Core;
use xk_lines::{LineStarts, shown_front};
use xk_show_events::Places;
use xk_show_where::{named_standings_text, standings_text};
use xk_unit_origins::UnitOrigins;

/// How many signs of a line are shown.
const SHOWN: usize = 60;

/// A source text, where the instructions of its units come from, and the names of its shared numbers; or nothing of
/// these, as of a module alone.
#[derive(Drop)]
pub(crate) struct ProgramText<'t> {
    text: &'t [u8],
    lines: LineStarts<'t>,
    places: Places<'t>,
    shared: &'t [&'t [u8]],
    is_known: bool,
}

impl<'t> Model for ProgramText<'t> {
    ghost use Rattle.std.specs.Prelude.{◌≡◌, map};
    ghost use Rattle.xk_ask.specs.ProgramTexts.{ProgramTextValue};

    ghost Value = { ProgramTextValue };

    ghost view = { λ s. record {
      places = s.places;
      shared = map (λ x. x.now) s.shared.now;
      is_known = s.is_known;
    } };

    ghost invariant = { λ s. (s.lines ≡ s.text.now) × (s.places.text ≡ s.text.now) };
}

impl<'t> ProgramText<'t> {
    ghost use Rattle.std.specs.Prelude.{◌≡◌, ◌≤◌, length, map, slice_get, IfOk};
    ghost use Rattle.xk_unit_origins.specs.UnitOrigins.{offsets_at};
    ghost use Rattle.xk_ask.specs.ProgramTexts.{known_text, line_front, no_source, standings, statement};

    /// A source text whose units have these origins, and whose shared numbers these names. Err where memory was refused.
    pub(crate) fn of_source(
        alloc: Global,
        text: &'t [u8],
        origins: &'t [UnitOrigins<'t>],
        shared: &'t [&'t [u8]],
    ) -> Result<ProgramText<'t>, AllocError>
        ensures { IfOk result (λ s. s
            ≡ known_text text.now origins.now (map (λ x. x.now) shared.now)) }
    {
        let lines = LineStarts::new(alloc, text)?;
        let places = Places::of_source(alloc, text, origins)?;
        Ok(ProgramText {
            text,
            lines,
            places,
            shared,
            is_known: true,
        })
    }

    /// Where nothing is known. Err where memory was refused.
    pub(crate) fn of_module(alloc: Global) -> Result<ProgramText<'t>, AllocError>
        ensures { IfOk result (λ s. s ≡ no_source) }
    {
        let lines = LineStarts::new(alloc, b"")?;
        let places = Places::of_module(alloc)?;
        Ok(ProgramText {
            text: b"",
            lines,
            places,
            shared: &[],
            is_known: false,
        })
    }

    /// Where its instructions come from, by lines and columns.
    pub(crate) fn places(&self) -> &Places<'t>
        ensures { result.now ≡ self.now.places }
    {
        &self.places
    }

    /// How things are in a core. Err where memory was refused.
    pub(crate) fn standings(&self, alloc: Global, core: &Core<'_>) -> Result<Vec<u8>, AllocError>
        ensures { IfOk result (λ v. v.items
            ≡ standings self.now core.now.module_run core.now.world) }
    {
        if !self.is_known {
            return standings_text(alloc, &self.places, core, None);
        }
        named_standings_text(alloc, &self.places, self.shared, core, None)
    }

    /// The offset that an instruction comes from, if the origins say it.
    fn offset(&self, unit: u16, place: u32) -> Option<usize>
        ensures { result ≡ slice_get (offsets_at self.now.places.origins unit) place }
    {
        match self.places.origins().get(unit as usize) {
            Some(of_unit) => of_unit.offsets.get(place as usize).copied(),
            None => None,
        }
    }

    /// The line of an offset as it is shown.
    #[tactic(auto, unfolding(crate::specs::ProgramTexts::line_front))]
    fn line_front(&self, alloc: Global, at: usize) -> Result<Vec<u8>, AllocError>
        requires { at ≤ length self.now.places.text }
        ensures { IfOk result (λ v. v.items ≡ line_front self.now.places.text at) }
    {
        shown_front(alloc, self.lines.words_at(at), SHOWN)
    }

    /// The line that an instruction comes from, behind a colon; nothing where no origin says it. Err where memory was
    /// refused.
    pub(crate) fn statement(
        &self,
        alloc: Global,
        unit: u16,
        place: u32,
    ) -> Result<Vec<u8>, AllocError>
        ensures { IfOk result (λ v. v.items ≡ statement self.now.places unit place) }
    {
        let mut out = Vec::new(alloc);
        match self.offset(unit, place) {
            Some(offset) => {
                let line = self.line_front(alloc, offset.min(self.text.len()))?;
                out.extend_from_slice(b": ")?;
                out.extend_from_slice(&line)?;
                Ok(out)
            }
            None => Ok(out),
        }
    }
}
