//! The names that expressions use.

ghost use Rattle.std.specs.Prelude.{◌≡◌};
ghost use Rattle.std.specs.List.{flat_map};
ghost use Rattle.xk_tree.specs.Tree.{expression, word};
ghost use Rattle.xk_names.specs.Uses.{numbers, start_of, use_as, values};
ghost use Rattle.xk_names.specs.FaultList.{least, use_faults};

use crate::binding::Want;
use crate::least_fault::{Search, note, note_if};
use crate::scope::Scope;
use xk_tree::{Expr, FrontRule, Name};

/// A name that is used must be visible, fit what its place wants, and be seen from inside the `async` bodies round it.
pub fn check_use<'t>(worst: &mut Search, scope: &Scope<'t>, name: Name<'t>, want: Want)
    ensures { worst.new ≡ least worst.old (use_faults scope.now (use_as want (word name.entry))) }
{
    match scope.find(name.text) {
        None => {
            // A name without letters stands for the clock of a `clocked async` where none is hidden.
            let rule = if name.text.is_empty() {
                FrontRule::NoHiddenClock
            } else {
                FrontRule::UnknownName
            };
            note(worst, rule, name.at);
        }
        Some(known) => {
            let fits = known.kind.fits(want);
            note_if(!fits, worst, FrontRule::WrongKind, name.at);
            let is_seen = scope.sees(name.text, known);
            note_if(!is_seen, worst, FrontRule::NotCaptured, name.at);
        }
    }
}

/// Each name in an expression must be a number of the activity's own.
pub fn check_numbers<'t>(worst: &mut Search, scope: &Scope<'t>, e: &Expr<'t>)
    ensures { worst.new ≡ least worst.old
        (flat_map (use_faults scope.now) (numbers (expression e.now))) }
{
    match e {
        Expr::Number(_) => {}
        Expr::Name(x) => check_use(worst, scope, *x, Want::Number),
        Expr::Paren(_, e) => check_numbers(worst, scope, e),
        Expr::Negation(_, e) => check_numbers(worst, scope, e),
        Expr::Binary(_, l, _, r) => {
            check_numbers(worst, scope, l);
            check_numbers(worst, scope, r);
        }
    }
}

/// The same, but where the whole expression is one name, it may be a shared number, too.
pub fn check_values<'t>(worst: &mut Search, scope: &Scope<'t>, e: &Expr<'t>)
    ensures { worst.new ≡ least worst.old
        (flat_map (use_faults scope.now) (values (expression e.now))) }
{
    match e {
        Expr::Name(x) => check_use(worst, scope, *x, Want::Readable),
        _ => check_numbers(worst, scope, e),
    }
}

/// The offset at which an expression begins.
pub fn start_of(e: &Expr<'_>) -> usize
    ensures { result ≡ start_of (expression e.now) }
{
    match e {
        Expr::Number(n) => n.minus.unwrap_or(n.at),
        Expr::Name(x) => x.at,
        Expr::Paren(at, _) => *at,
        Expr::Negation(at, _) => *at,
        Expr::Binary(_, l, _, _) => start_of(l),
    }
}
