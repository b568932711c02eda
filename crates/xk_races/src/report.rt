//! The whole report.

ghost use Rattle.std.specs.Prelude.{◌≡◌, is_none, take, IfOk};
ghost use Rattle.xk_show_events.specs.Events.{no_text};
ghost use Rattle.xk_races.specs.Races.{gap_in, is_race_free, races_in, sights_of_run};
ghost use Rattle.xk_races.specs.Text.{are_all_shown, closing_text, most_shown, races_text};

use crate::deeds::deeds_of_run;
use crate::pairs::{Race, gap_in, races_in};
use crate::sights::sights_of;
use crate::text::{closing_text, most_shown, race_lines};
use std::alloc::{AllocError, Global};
use xk_scheduler::Ended;
use xk_show_events::Places;

/// What is told of the races of a run, and whether it has none.
#[derive(Drop)]
pub struct RaceReport {
    /// The lines.
    pub text: Vec<u8>,
    /// Whether the run has no race.
    pub free: bool,
}

/// The races of a run that are told, and what is told behind them.
#[derive(Drop)]
pub struct ShownRaces {
    /// Of all races the first 10,000, of each two places in the text and each shared number one.
    pub races: Vec<Race>,
    /// How many there are, where there is none whether the prints are in one order, and of which runs that holds.
    pub closing: Vec<u8>,
    /// Whether the run has no race.
    pub free: bool,
    /// Whether its prints are in one order: each comes before the next one.
    pub in_order: bool,
    /// Whether these are all of its races.
    pub whole: bool,
}

/// What the races and prints of a run say of all runs.
#[derive(Clone, Copy, Debug)]
pub struct Reach {
    /// It has no race: every run to its end prints these numbers.
    pub free: bool,
    /// Its prints are in one order: where it has no race, every run prints them in that order.
    pub in_order: bool,
}

/// What a run says of all runs, without the lines. Err where memory was refused.
pub fn reach_of(alloc: Global, ended: &Ended<'_>) -> Result<Reach, AllocError>
    ensures free { IfOk result (λ r. r.free ≡ is_race_free
        ended.now.module.now ended.now.core.world.arguments ended.now.log.items) }
    ensures in_order { IfOk result (λ r. r.in_order ≡ is_none (gap_in (sights_of_run
        ended.now.module.now ended.now.core.world.arguments ended.now.log.items))) }
{
    let deeds = deeds_of_run(alloc, ended)?;
    let sights = sights_of(alloc, &deeds)?;
    let races = races_in(alloc, &sights)?;
    Ok(Reach {
        free: races.is_empty(),
        in_order: gap_in(&sights).is_none(),
    })
}

/// The races of a run, as they are told: two accesses of one shared number, not both reads and not both additions,
/// neither of which had to come before the other. Of each two places in the text the first such pair of the run is one,
/// and of all pairs the first 10,000 are told. Behind them stands whether there are more; where there is none, whether
/// the prints are in one order, at these places, and that every schedule prints these numbers; else nothing is said of
/// other runs.
/// It takes time in proportion to the deeds of the run (its steps that others see, those of clocks counted once for each
/// clock) times its activities. For an access that is in a race there is, besides, time in proportion to how many
/// activities access its shared number at how many places of the text, and for each of these places once to how often
/// that shared number is accessed; each look whether two places are told already, and each sort, takes a logarithm of it
/// more. Err where memory was refused.
pub fn shown_races(
    alloc: Global,
    places: &Places<'_>,
    ended: &Ended<'_>,
) -> Result<ShownRaces, AllocError>
    ensures races { IfOk result (λ s. s.races.items ≡ take most_shown (races_in (sights_of_run
        ended.now.module.now ended.now.core.world.arguments ended.now.log.items))) }
    ensures closing { IfOk result (λ s. s.closing.items ≡ closing_text places.now
        (races_in (sights_of_run
        ended.now.module.now ended.now.core.world.arguments ended.now.log.items))
        (gap_in (sights_of_run
        ended.now.module.now ended.now.core.world.arguments ended.now.log.items))) }
    ensures free { IfOk result (λ s. s.free ≡ is_race_free
        ended.now.module.now ended.now.core.world.arguments ended.now.log.items) }
    ensures in_order { IfOk result (λ s. s.in_order ≡ is_none (gap_in (sights_of_run
        ended.now.module.now ended.now.core.world.arguments ended.now.log.items))) }
    ensures whole { IfOk result (λ s. s.whole ≡ are_all_shown (races_in (sights_of_run
        ended.now.module.now ended.now.core.world.arguments ended.now.log.items))) }
{
    let deeds = deeds_of_run(alloc, ended)?;
    let sights = sights_of(alloc, &deeds)?;
    let mut races = races_in(alloc, &sights)?;
    let gap = gap_in(&sights);
    let free = races.is_empty();
    let in_order = gap.is_none();
    let whole = races.len() <= most_shown();
    let closing = closing_text(alloc, places, &races, gap)?;
    races.truncate(most_shown());
    Ok(ShownRaces {
        races,
        closing,
        free,
        in_order,
        whole,
    })
}

/// The races of a run of a module, a line each, as `race shared 1: step 9 act 1 unit 0 place 4 write, step 19 act 2 unit
/// 1 place 2 read`, and what is told behind them. Err where memory was refused.
pub fn module_races(alloc: Global, ended: &Ended<'_>) -> Result<RaceReport, AllocError>
    ensures text { IfOk result (λ r. r.text.items ≡ races_text no_text
        ended.now.module.now ended.now.core.world.arguments ended.now.log.items) }
    ensures free { IfOk result (λ r. r.free ≡ is_race_free
        ended.now.module.now ended.now.core.world.arguments ended.now.log.items) }
{
    let places = Places::of_module(alloc)?;
    let shown = shown_races(alloc, &places, ended)?;
    let mut text = race_lines(alloc, &places, &shown.races)?;
    text.extend_from_slice(&shown.closing)?;
    Ok(RaceReport {
        text,
        free: shown.free,
    })
}
