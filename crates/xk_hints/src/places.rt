//! What is known of an activity at the places of its text.

ghost use Rattle.std.specs.Prelude.{◌≡◌, option_map};
ghost use Rattle.xk_tree.specs.Tree.{bound, clock_list, method_value, statement, statements};
ghost use Rattle.xk_hints.specs.Hints.{behind, behind_declared, in_body, in_branch, in_finish, in_loop, in_method, is_main, place_value};
ghost use Rattle.xk_hints.specs.Hints.{turns_again};

use crate::accesses::surely_turns;
use crate::deeds::{Deed, make_clock, makes_clock, some_among};
use crate::remark::Place;
use xk_tree::{Binding, Bound, ClockList, Method, Number, Stmt};

/// Whether a program begins with the method.
pub(crate) fn is_main(method: &Method<'_>) -> bool
    ensures { result ≡ is_main (method_value method.now) }
{
    method.name.text == b"main".as_slice()
}

/// Where a method begins.
pub(crate) fn in_method(method: &Method<'_>) -> Place
    ensures { place_value result ≡ in_method (method_value method.now) }
{
    Place {
        is_clockless: is_main(method) && !make_clock(&method.body),
        is_shared: false,
        is_turned: false,
        is_many: false,
    }
}

/// Whether a loop with these bounds has more than one turn, whatever an expression comes to.
fn turns_again(lo: Number, limit: &Bound<'_>) -> bool
    ensures { result ≡ turns_again lo (bound limit.now) }
{
    match limit {
        Bound::UpTo(n) => lo.value < n.value,
        Bound::Least(..) => false,
    }
}

/// In a loop with these bounds.
pub(crate) fn in_loop(place: Place, lo: Number, limit: &Bound<'_>) -> Place
    ensures { place_value result ≡ in_loop (place_value place) lo (bound limit.now) }
{
    Place {
        is_clockless: place.is_clockless,
        is_shared: place.is_shared,
        is_turned: turns_again(lo, limit),
        is_many: place.is_many && surely_turns(lo, limit),
    }
}

/// In a branch.
pub(crate) fn in_branch(place: Place) -> Place
    ensures { place_value result ≡ in_branch (place_value place) }
{
    Place {
        is_clockless: place.is_clockless,
        is_shared: place.is_shared,
        is_turned: false,
        is_many: false,
    }
}

/// In the body of an `async` with these clocks.
pub(crate) fn in_body(place: Place, clocks: &Option<ClockList<'_>>, body: &Stmt<'_>) -> Place
    ensures { place_value result ≡ in_body (place_value place)
        (option_map clock_list clocks.now) (statement body.now) }
{
    Place {
        is_clockless: clocks.is_none() && !makes_clock(body),
        is_shared: false,
        is_turned: false,
        is_many: clocks.is_none() && (place.is_turned || place.is_many),
    }
}

/// In a finish.
pub(crate) fn in_finish(place: Place) -> Place
    ensures { place_value result ≡ in_finish (place_value place) }
{
    Place {
        is_clockless: place.is_clockless,
        is_shared: false,
        is_turned: false,
        is_many: place.is_many,
    }
}

/// Behind what such a word declares, before these statements.
fn behind_declared(place: Place, binding: Binding, x: &[u8], rest: &[Stmt<'_>]) -> Place
    ensures { place_value result
        ≡ behind_declared (place_value place) binding x.now (statements rest.now) }
{
    match binding {
        Binding::Hidden => Place {
            is_clockless: place.is_clockless,
            is_shared: some_among(Deed::Give, x, rest),
            is_turned: place.is_turned,
            is_many: place.is_many,
        },
        Binding::Val => place,
        Binding::Var => place,
    }
}

/// Behind a statement, before these.
pub(crate) fn behind(place: Place, s: &Stmt<'_>, rest: &[Stmt<'_>]) -> Place
    ensures { place_value result
        ≡ behind (place_value place) (statement s.now) (statements rest.now) }
{
    match s {
        Stmt::Declare(binding, x, _, _) => behind_declared(place, *binding, x.text, rest),
        Stmt::Block(..)
        | Stmt::Empty
        | Stmt::Assign(..)
        | Stmt::Atomic(..)
        | Stmt::If(..)
        | Stmt::IfElse(..)
        | Stmt::For(..)
        | Stmt::Async(..)
        | Stmt::Finish(..)
        | Stmt::Call(..)
        | Stmt::Resume(..)
        | Stmt::Drop(..)
        | Stmt::AdvanceAll(..)
        | Stmt::Print(..) => place,
    }
}
