//! Names that no text has.

ghost use Rattle.std.specs.Prelude.{◌≡◌, suc, IfOk};
ghost use Rattle.xk_tree.specs.Tree.{statement, word};
ghost use Rattle.xk_syntax.specs.Spelling.{clocked_finish, hidden_text};

use std::alloc::{AllocError, Global};
use xk_tree::{Binding, Name, Right, Stmt, Verb};

/// As many spaces as a method has levels.
static SPACES: [u8; 64] = [b' '; 64];

/// A name for what the text has none for. It stands at this offset, and so many levels are left behind the statement that needs it.
///
/// Its letters are spaces, which no token has: one for each level that is left, the statement's own among them. So statements in one another have
/// different ones.
pub(crate) fn hidden_name<'t>(at: usize, levels: u32) -> Name<'t>
    ensures place { result.at ≡ at }
    ensures spaces { result.text.now ≡ hidden_text (suc levels) }
{
    let spaces = (levels as usize + 1).min(SPACES.len());
    Name {
        at,
        text: &SPACES[..spaces],
    }
}

/// What a `clocked finish` of this statement stands for, whose `finish` stands at this offset, with this name for its clock.
#[inline(never)]
pub(crate) fn clocked_finish<'t>(
    alloc: Global,
    at: usize,
    clock: Name<'t>,
    stmt: Stmt<'t>,
) -> Result<Stmt<'t>, AllocError>
    ensures { IfOk result (λ s. statement s ≡ clocked_finish at (word clock.entry)
        (statement stmt.entry)) }
{
    let verb = Verb {
        at: clock.at,
        paren: clock.at,
    };
    let made = Stmt::Declare(Binding::Hidden, clock, None, Right::Make(clock.at, verb));
    let stmts = Vec::from_array(alloc, [made, stmt, Stmt::Drop(clock, verb)])?;
    let block = Box::new(alloc, Stmt::Block(at, stmts))?;
    Ok(Stmt::Finish(at, block))
}
