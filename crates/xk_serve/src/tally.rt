//! What many runs by chance print.

ghost use Rattle.std.specs.Prelude.{ℕ, List, IfOk, IfErr};
ghost use Rattle.xk_program.specs.Refusals.{IsNotRun};
ghost use Rattle.xk_answers.specs.Results.{IsTelling, IsText, Tally};
ghost use Rattle.xk_jobs.specs.declared.job.Form.{Form as FormValue};

use std::alloc::Global;
use xk_answers::Done;
use xk_program::{Fault, runnable};
use xk_random::tally;
use xk_types::Module;

/// How often so many runs by chance, from this seed on, with these arguments, print what, if the module is accepted and main takes as many.
pub(crate) fn tallied(
    alloc: Global,
    seed: u64,
    runs: u64,
    m: Module,
    arguments: &[i64],
) -> Result<Done, Fault>
    ensures done { (form : FormValue) (file bytes logged : List ℕ) → IfOk result
        (IsText (IsTelling (Tally seed runs) form file bytes m arguments.now logged)) }
    ensures fault { IfErr result (IsNotRun m arguments.now) }
{
    let verified = runnable(alloc, m, arguments)?;
    Ok(Done::Told {
        text: tally(alloc, &verified, arguments, seed, runs)?,
        whole: true,
    })
}
