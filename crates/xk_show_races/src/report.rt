//! The whole report.

ghost use Rattle.std.specs.Prelude.{◌≡◌, flat_map, map, IfOk};
ghost use Rattle.xk_show_events.specs.Events.{places_of};
ghost use Rattle.xk_show_names.specs.Accounts.{seen_accounts};
ghost use Rattle.xk_races.specs.Races.{is_race_free};
ghost use Rattle.xk_show_races.specs.Text.{named_races_text, race_lines};

use crate::accounts::racing;
use crate::source_lines::SourceLines;
use crate::text::lines_of;
use std::alloc::{AllocError, Global};
use xk_races::{Race, RaceReport, shown_races};
use xk_scheduler::Ended;
use xk_show_names::Names;
use xk_unit_origins::UnitOrigins;

/// The lines of these races of a run.
fn lines_told(
    alloc: Global,
    source: &SourceLines<'_>,
    names: &Names<'_>,
    races: &[Race],
    ended: &Ended<'_>,
) -> Result<Vec<u8>, AllocError>
    ensures { IfOk result (λ v. v.items ≡ flat_map (race_lines source.now names.now
        (seen_accounts
        ended.now.module.now ended.now.core.world.arguments ended.now.log.items)) races.now) }
{
    let steps = racing(alloc, races, ended)?;
    lines_of(alloc, source, names, &steps, races)
}

/// The races of a run of a source text's module, whose shared numbers have these names. Of each race, `race on total`,
/// and of both of its accesses what it did, with what was read or written then, as `step 15 act 2 at 7:5 write total 3`,
/// and the line of the text with a caret below it. Which races these are, which are told, and what stands behind them is
/// said at `xk_races::shown_races`, and the time that takes. The log is played once more, and what is kept of that are
/// the steps of the races that are told. Err where memory was refused.
pub fn source_races(
    alloc: Global,
    text: &[u8],
    origins: &[UnitOrigins<'_>],
    shared: &[&[u8]],
    ended: &Ended<'_>,
) -> Result<RaceReport, AllocError>
    ensures text { IfOk result (λ r. r.text.items ≡ named_races_text
        (places_of text.now origins.now) (map (λ x. x.now) shared.now)
        ended.now.module.now ended.now.core.world.arguments ended.now.log.items) }
    ensures free { IfOk result (λ r. r.free ≡ is_race_free
        ended.now.module.now ended.now.core.world.arguments ended.now.log.items) }
{
    let source = SourceLines::new(alloc, text, origins)?;
    let program = ended.module.module();
    let names = Names::by_steps(alloc, source.places(), origins, shared, program, &[])?;
    let shown = shown_races(alloc, source.places(), ended)?;
    let mut lines = lines_told(alloc, &source, &names, &shown.races, ended)?;
    lines.extend_from_slice(&shown.closing)?;
    Ok(RaceReport {
        text: lines,
        free: shown.free,
    })
}
