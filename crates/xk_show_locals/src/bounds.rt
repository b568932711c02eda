//! How far loops go up whose bound isn't a number of the text.

ghost use Rattle.std.specs.Prelude.{◌≡◌};
ghost use Rattle.xk_show_locals.specs.Locals.{bound_by, bound_in, lesser};

use xk_types::Instr;

/// The slot that a loop counts in, and the number of the text that it goes no further up than.
#[derive(Clone, Copy, Debug)]
pub struct Bound {
    pub slot: u16,
    pub most: i64,
}

/// Those of a loop that goes no further up than the number in this slot, if the instruction begins one.
fn bound_by(limit: u16, instr: &Instr) -> Option<Bound>
    ensures { result ≡ bound_by limit instr.now }
{
    match instr {
        Instr::ForTo { k, x, hi, .. } => {
            if *x == limit {
                return Some(Bound {
                    slot: *k,
                    most: *hi,
                });
            }
            None
        }
        _ => None,
    }
}

/// Those of the first loop among these instructions that goes no further up than the number in this slot, if there is one.
pub fn bound_in(limit: u16, code: &[Instr]) -> Option<Bound>
    ensures { result ≡ bound_in limit code.now }
{
    for instr in code {
        let found = bound_by(limit, instr);
        if found.is_some() {
            return found;
        }
    }
    None
}

/// The lesser of two numbers.
pub fn lesser(number: i64, most: i64) -> i64
    ensures { result ≡ lesser number most }
{
    if number < most { number } else { most }
}
