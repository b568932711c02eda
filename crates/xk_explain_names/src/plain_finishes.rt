//! The `finish` around a `clocked async` whose clock it could have.

ghost use Rattle.std.specs.Prelude.{◌≡◌, ◌++◌, option_map, IfOk, OnOk};
ghost use Rattle.xk_tree.specs.Tree.{clock_list, statement, statements};
ghost use Rattle.xk_explain_names.specs.PlainFinishes.{finish_among, finish_around, finish_notes, is_clocked_at, kept_in};

use std::alloc::{AllocError, Global};
use xk_explain::Note;
use xk_tree::{ClockList, Stmt, Written};

/// Whether the word `clocked` of a `clocked async` stands at an offset.
fn is_clocked_at(at: usize, clocks: &Option<ClockList<'_>>) -> bool
    ensures { result ≡ is_clocked_at at (option_map clock_list clocks.now) }
{
    match clocks {
        None => false,
        Some(clocks) => match clocks.written {
            Written::Listed(_, _) => false,
            Written::Ahead(word) => word == at,
        },
    }
}

/// The `finish` whose clock an activity would have, where this one is open.
fn kept_in(opened: Option<usize>, clocks: &Option<ClockList<'_>>) -> Option<usize>
    ensures { result ≡ kept_in opened (option_map clock_list clocks.now) }
{
    match clocks {
        None => None,
        Some(clocks) => match clocks.written {
            Written::Listed(_, _) => None,
            Written::Ahead(_) => opened,
        },
    }
}

/// The innermost `finish` around the `clocked async` at an offset, in a statement around which this one is open.
#[cycle(finishes)]
fn finish_around(at: usize, opened: Option<usize>, s: &Stmt<'_>) -> Option<usize>
    ensures { result ≡ finish_around at opened (statement s.now) }
{
    match s {
        Stmt::Block(_, ss) => finish_among(at, opened, ss),
        Stmt::If(_, _, _, _, s) => finish_around(at, opened, s),
        Stmt::IfElse(_, _, _, _, s, t) => match finish_around(at, opened, s) {
            Some(found) => Some(found),
            None => finish_around(at, opened, t),
        },
        Stmt::For(_, _, _, _, s) => finish_around(at, opened, s),
        Stmt::Async(_, clocks, s) => {
            if is_clocked_at(at, clocks) {
                opened
            } else {
                finish_around(at, kept_in(opened, clocks), s)
            }
        }
        Stmt::Finish(word, s) => finish_around(at, Some(*word), s),
        Stmt::Empty => None,
        Stmt::Declare(..) => None,
        Stmt::Assign(..) => None,
        Stmt::Atomic(..) => None,
        Stmt::Call(..) => None,
        Stmt::Resume(..) => None,
        Stmt::Drop(..) => None,
        Stmt::AdvanceAll(..) => None,
        Stmt::Print(..) => None,
    }
}

/// The same in statements, one after another.
#[cycle(finishes)]
pub(crate) fn finish_among(at: usize, opened: Option<usize>, ss: &[Stmt<'_>]) -> Option<usize>
    ensures { result ≡ finish_among at opened (statements ss.now) }
{
    for s in ss {
        if let Some(found) = finish_around(at, opened, s) {
            return Some(found);
        }
    }
    None
}

/// Adds the note on a `finish` without a clock, if there is one.
pub(crate) fn push_finish(
    alloc: Global,
    notes: &mut Vec<Note>,
    finish: Option<usize>,
) -> Result<(), AllocError>
    ensures { OnOk result (notes.new.items ≡ notes.old.items ++ finish_notes finish) }
{
    if let Some(word) = finish {
        let text = "this `finish` has no clock".as_bytes().to_vec(alloc)?;
        let repair = "write `clocked finish` in place of this `finish`"
            .as_bytes()
            .to_vec(alloc)?;
        notes.push(Note {
            at: Some(word),
            text,
            repair: Some(repair),
        })?;
    }
    Ok(())
}
