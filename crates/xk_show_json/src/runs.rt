//! What a run printed, as a value.

ghost use Rattle.std.specs.Prelude.{◌≡◌, IfOk, OnOk};
ghost use Rattle.xk_json.specs.Objects.{Gains, IsReadBack, json_line};
ghost use Rattle.xk_show_json.specs.Runs.{rounds_member, run_members, run_value};

use std::alloc::{AllocError, Global};
use xk_json::Object;

/// What a run printed that came to its end, in how many steps, and in how many rounds, where these were counted: a JSON
/// object on one line, `{"ended":true,"printed":[1,2],"steps":12}`. Err where memory was refused.
pub fn run_json(
    alloc: Global,
    printed: &[i64],
    steps: u64,
    rounds: Option<u64>,
) -> Result<Vec<u8>, AllocError>
    ensures text { IfOk result (λ v. v.items ≡ json_line (run_value printed.now steps rounds)) }
    ensures reads_back { OnOk result (IsReadBack (run_value printed.now steps rounds)) }
{
    let mut object = Object::new(alloc);
    put_run(alloc, &mut object, printed, steps)?;
    put_rounds(alloc, &mut object, rounds)?;
    object.line(alloc)
}

/// Adds what was printed, and in how many steps.
fn put_run(
    alloc: Global,
    object: &mut Object,
    printed: &[i64],
    steps: u64,
) -> Result<(), AllocError>
    ensures { OnOk result (Gains (run_members printed.now steps) object.old object.new) }
{
    object.put_truth(alloc, "ended", true)?;
    object.put_integers(alloc, "printed", printed)?;
    object.put_number(alloc, "steps", steps)
}

/// Adds how many rounds it took, where they were counted.
fn put_rounds(alloc: Global, object: &mut Object, rounds: Option<u64>) -> Result<(), AllocError>
    ensures { OnOk result (Gains (rounds_member rounds) object.old object.new) }
{
    match rounds {
        Some(rounds) => object.put_number(alloc, "rounds", rounds),
        None => Ok(()),
    }
}
