//! The rounds of a run's steps, and a critical path.

ghost use Rattle.std.specs.Prelude.{◌≡◌, ◌++◌, IfOk, OnOk};
ghost use Rattle.xk_show_path.specs.Rounds.{if_step_round, is_critical, round_of, rounds_by, rounds_of_run};

use crate::marks::marks_of;
use std::alloc::{AllocError, Global};
use std::marker::Model;
use xk_races::{Deed, Part};
use xk_scheduler::Ended;
use xk_show_events::RunStep;
use xk_span::time_run;
use xk_span_summary::number_at;

/// The round of each step of a run, and the steps of a critical path.
#[derive(Drop)]
pub struct Rounds {
    /// The round of each step, in their order.
    rounds: Vec<usize>,
    /// The steps of the path, in their order.
    path: Vec<RunStep>,
    /// How many of these have each number.
    marks: Vec<usize>,
}

impl Model for Rounds {
    ghost use Rattle.xk_show_path.specs.Rounds.{Rounds as RoundsValue, AreMarks};

    ghost Value = { RoundsValue };

    ghost view = { λ r. record { rounds = r.rounds.items; path = r.path.items } };

    ghost invariant = { λ r. AreMarks r.path.items r.marks.items };
}

/// Adds the round of a deed, if it is a step itself.
fn push_if_step(rounds: &mut Vec<usize>, deed: &Deed, round: usize) -> Result<(), AllocError>
    ensures { OnOk result (rounds.new.items ≡ rounds.old.items ++ if_step_round deed.now round) }
{
    if matches!(deed.part, Part::Print) {
        rounds.push(round)?;
    }
    Ok(())
}

/// The rounds of the steps among these deeds, by the times of deeds.
fn rounds_by(alloc: Global, times: &[usize], deeds: &[Deed]) -> Result<Vec<usize>, AllocError>
    ensures { IfOk result (λ v. v.items ≡ rounds_by times.now deeds.now) }
{
    let mut rounds = Vec::new(alloc);
    for (i, deed) in deeds.iter().enumerate() {
        push_if_step(&mut rounds, deed, number_at(times, i))?;
    }
    Ok(rounds)
}

impl Rounds {
    /// Those of a run. Err where memory was refused.
    pub fn of(alloc: Global, ended: &Ended<'_>) -> Result<Rounds, AllocError>
        ensures { IfOk result (λ r. r ≡ rounds_of_run
            ended.now.module.now ended.now.core.world.arguments ended.now.log.items) }
    {
        let timing = time_run(alloc, ended)?;
        let rounds = rounds_by(alloc, &timing.times, &timing.deeds)?;
        let path = timing.path;
        let marks = marks_of(alloc, &path)?;
        Ok(Rounds {
            rounds,
            path,
            marks,
        })
    }

    /// The steps of the path, in their order.
    pub fn path(&self) -> &[RunStep]
        ensures { result.now ≡ self.now.path }
    {
        &self.path
    }

    /// The round of the step of this number.
    pub fn round_of(&self, number: u64) -> usize
        ensures { result ≡ round_of self.now number }
    {
        number_at(&self.rounds, number.saturating_sub(1) as usize)
    }

    /// Whether it is one of the path's.
    pub(crate) fn is_critical(&self, number: u64) -> bool
        ensures { result ≡ is_critical self.now number }
    {
        0 < number_at(&self.marks, number as usize)
    }
}
