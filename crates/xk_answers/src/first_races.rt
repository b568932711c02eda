//! The races of the run in the order `first`.

ghost use Rattle.std.specs.Prelude.{ℕ, List, true, IfOk, IfErr};
ghost use Rattle.xk_types.specs.Acceptance.{IsAccepted};
ghost use Rattle.xk_types.specs.World.{AreArguments};
ghost use Rattle.xk_answers.specs.Results.{AreFirstRaces, IsTelling, IsText, Races};
ghost use Rattle.xk_jobs.specs.declared.job.Form.{Form as FormValue};
ghost use Rattle.xk_program.specs.Origins.{IsFrom};
ghost use Rattle.xk_program.specs.Refusals.{IsNotRun};

use crate::job_result::Done;
use crate::picture::{Tale, races_of};
use crate::runs::ended_by;
use std::alloc::{AllocError, Global};
use xk_bounds::Verified;
use xk_program::{Fault, Program, Provenance, runnable};
use xk_scheduler::First;

/// The races of the run in the order `first`, with these arguments, as a text or as a JSON value, of the program, if it is accepted and main takes as many.
pub fn raced(
    alloc: Global,
    json: bool,
    program: Program<'_>,
    arguments: &[i64],
) -> Result<Done, Fault>
    ensures done { (form : FormValue) (file bytes logged : List ℕ)
        → IsFrom true form bytes program.entry.from → IfOk result (IsText
        (IsTelling (Races json) form file bytes program.entry.module arguments.now logged)) }
    ensures fault { IfErr result (IsNotRun program.entry.module arguments.now) }
{
    let verified = runnable(alloc, program.module, arguments)?;
    let tale = first_races(alloc, json, &program.from, &verified, arguments)?;
    Ok(Done::Told {
        text: tale.text,
        whole: tale.whole,
    })
}

/// The same of an accepted module.
fn first_races(
    alloc: Global,
    json: bool,
    from: &Provenance<'_>,
    verified: &Verified,
    arguments: &[i64],
) -> Result<Tale, AllocError>
    requires accepted { IsAccepted verified.now }
    requires taken { AreArguments verified.now arguments.now }
    ensures { (form : FormValue) (bytes : List ℕ) → IsFrom true form bytes from.now
        → IfOk result (λ tale. AreFirstRaces json form bytes verified.now arguments.now
        (tale.text.items, tale.whole)) }
{
    let ended = ended_by(alloc, verified, arguments, &mut First)?;
    races_of(alloc, json, from, &ended)
}
