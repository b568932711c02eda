//! How many outcomes a module has.

ghost use Rattle.std.specs.Prelude.{List, ℕ, IfOk, IfErr};
ghost use Rattle.xk_types.specs.World.{AreArguments};
ghost use Rattle.xk_answers.specs.Results.{ComesTo, Count, IsCountedOut};
ghost use Rattle.xk_program.specs.Refusals.{IsNotRun};

use std::alloc::{AllocError, Global};
use xk_answers::Done;
use xk_bounds::Verified;
use xk_outcome_count::{count_line, count_outcomes};
use xk_outcomes::Limit;
use xk_program::{Fault, runnable};
use xk_types::Module;

/// How many outcomes a module has that is given these arguments, if it is accepted and main takes as many.
pub fn counted(
    alloc: Global,
    sets: bool,
    limit: Option<u64>,
    m: Module,
    arguments: &[i64],
) -> Result<Done, Fault>
    ensures done { IfOk result (λ d. (logged : List ℕ)
        → ComesTo (Count sets limit) m arguments.now logged d) }
    ensures fault { IfErr result (IsNotRun m arguments.now) }
{
    let verified = runnable(alloc, m, arguments)?;
    let limit = Limit::of(limit, verified.activities());
    Ok(counted_out(alloc, sets, limit, &verified, arguments)?)
}

/// The same of an accepted module.
fn counted_out(
    alloc: Global,
    sets: bool,
    limit: Limit,
    verified: &Verified,
    arguments: &[i64],
) -> Result<Done, AllocError>
    requires { AreArguments verified.now arguments.now }
    ensures { IfOk result (IsCountedOut verified.now arguments.now sets limit) }
{
    let counted = count_outcomes(alloc, sets, verified, arguments, limit)?;
    let line = count_line(alloc, counted)?;
    Ok(Done::Outcomes {
        text: line.into_bytes(),
        whole: counted.complete,
        log: None,
    })
}
