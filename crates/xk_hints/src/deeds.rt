//! What statements do with a name.

ghost use Rattle.std.specs.Prelude.{◌≡◌, map, option_map};
ghost use Rattle.std.specs.List.{list_any};
ghost use Rattle.xk_tree.specs.Tree.{bound, clock_list, expression, expressions, method_value, source, statement, statements, word};
ghost use Rattle.xk_tree.specs.Tree.{words};
ghost use Rattle.xk_hints.specs.Deeds.{advance_first, bound_mentions, calls, does, gives, is_advance, is_made, is_named, lists};
ghost use Rattle.xk_hints.specs.Deeds.{make_clock, makes_clock, mentions, some_among, some_in, some_in_method, some_of_methods};
ghost use Rattle.xk_hints.specs.Deeds.{some_within, source_mentions, uses, waits, writes};

use xk_tree::{Bound, ClockList, Expr, Method, Name, Right, Stmt};

/// What may be done with a name.
#[derive(Clone, Copy)]
pub enum Deed {
    /// The number is read, or the clock given to others or resumed.
    Use,
    /// The clock is given to others.
    Give,
    /// The number is written.
    Write,
    /// The method is called.
    Call,
    /// The activity may wait at all of its clocks, whatever the name is.
    Wait,
}

/// Whether this is the name.
pub(crate) fn is_named(x: &[u8], w: Name<'_>) -> bool
    ensures { result ≡ is_named x.now (word w.entry) }
{
    w.text == x
}

/// Whether the name stands in an expression.
pub(crate) fn mentions(x: &[u8], e: &Expr<'_>) -> bool
    ensures { result ≡ mentions x.now (expression e.now) }
{
    match e {
        Expr::Number(_) => false,
        Expr::Name(w) => is_named(x, *w),
        Expr::Paren(_, e) => mentions(x, e),
        Expr::Negation(_, e) => mentions(x, e),
        Expr::Binary(_, l, _, r) => mentions(x, l) || mentions(x, r),
    }
}

/// Whether it stands in one of these.
fn is_mentioned(x: &[u8], es: &[Expr<'_>]) -> bool
    ensures { result ≡ list_any (mentions x.now) (expressions es.now) }
{
    for e in es {
        if mentions(x, e) {
            return true;
        }
    }
    false
}

/// Whether it stands behind the `=` of a declaration.
fn source_mentions(x: &[u8], r: &Right<'_>) -> bool
    ensures { result ≡ source_mentions x.now (source r.now) }
{
    match r {
        Right::Make(..) => false,
        Right::Expr(e) => mentions(x, e),
    }
}

/// Whether it stands in a loop's bound.
fn bound_mentions(x: &[u8], b: &Bound<'_>) -> bool
    ensures { result ≡ bound_mentions x.now (bound b.now) }
{
    match b {
        Bound::UpTo(_) => false,
        Bound::Least(_, _, e, _) => mentions(x, e),
    }
}

/// Whether it is one of these names.
pub(crate) fn is_among(x: &[u8], ws: &[Name<'_>]) -> bool
    ensures { result ≡ list_any (is_named x.now) (words ws.now) }
{
    for w in ws {
        if is_named(x, *w) {
            return true;
        }
    }
    false
}

/// Whether it is among the clocks of an `async`.
fn lists(x: &[u8], cs: &Option<ClockList<'_>>) -> bool
    ensures { result ≡ lists x.now (option_map clock_list cs.now) }
{
    match cs {
        None => false,
        Some(l) => is_among(x, &l.names),
    }
}

/// Whether a statement itself uses the name.
fn uses(x: &[u8], s: &Stmt<'_>) -> bool
    ensures { result ≡ uses x.now (statement s.now) }
{
    match s {
        Stmt::Declare(_, _, _, r) => source_mentions(x, r),
        Stmt::Assign(_, e) => mentions(x, e),
        Stmt::Atomic(_, _, _, e) => mentions(x, e),
        Stmt::If(_, l, _, r, _) => mentions(x, l) || mentions(x, r),
        Stmt::IfElse(_, l, _, r, _, _) => mentions(x, l) || mentions(x, r),
        Stmt::For(_, _, _, b, _) => bound_mentions(x, b),
        Stmt::Async(_, cs, _) => lists(x, cs),
        Stmt::Call(_, _, es) => is_mentioned(x, es),
        Stmt::Resume(c, _) => is_named(x, *c),
        Stmt::Print(_, _, e) => mentions(x, e),
        Stmt::Block(..) => false,
        Stmt::Empty => false,
        Stmt::Finish(..) => false,
        Stmt::Drop(..) => false,
        Stmt::AdvanceAll(..) => false,
    }
}

/// Whether it gives the clock to others.
fn gives(x: &[u8], s: &Stmt<'_>) -> bool
    ensures { result ≡ gives x.now (statement s.now) }
{
    match s {
        Stmt::Async(_, cs, _) => lists(x, cs),
        Stmt::Call(_, _, es) => is_mentioned(x, es),
        Stmt::Block(..)
        | Stmt::Empty
        | Stmt::Declare(..)
        | Stmt::Assign(..)
        | Stmt::Atomic(..)
        | Stmt::If(..)
        | Stmt::IfElse(..)
        | Stmt::For(..)
        | Stmt::Finish(..)
        | Stmt::Resume(..)
        | Stmt::Drop(..)
        | Stmt::AdvanceAll(..)
        | Stmt::Print(..) => false,
    }
}

/// Whether it writes the number.
fn writes(x: &[u8], s: &Stmt<'_>) -> bool
    ensures { result ≡ writes x.now (statement s.now) }
{
    match s {
        Stmt::Assign(w, _) => is_named(x, *w),
        Stmt::Atomic(w, _, _, _) => is_named(x, *w),
        Stmt::Block(..)
        | Stmt::Empty
        | Stmt::Declare(..)
        | Stmt::If(..)
        | Stmt::IfElse(..)
        | Stmt::For(..)
        | Stmt::Async(..)
        | Stmt::Finish(..)
        | Stmt::Call(..)
        | Stmt::Resume(..)
        | Stmt::Drop(..)
        | Stmt::AdvanceAll(..)
        | Stmt::Print(..) => false,
    }
}

/// Whether it calls the method.
fn calls(x: &[u8], s: &Stmt<'_>) -> bool
    ensures { result ≡ calls x.now (statement s.now) }
{
    match s {
        Stmt::Call(g, _, _) => is_named(x, *g),
        Stmt::Block(..)
        | Stmt::Empty
        | Stmt::Declare(..)
        | Stmt::Assign(..)
        | Stmt::Atomic(..)
        | Stmt::If(..)
        | Stmt::IfElse(..)
        | Stmt::For(..)
        | Stmt::Async(..)
        | Stmt::Finish(..)
        | Stmt::Resume(..)
        | Stmt::Drop(..)
        | Stmt::AdvanceAll(..)
        | Stmt::Print(..) => false,
    }
}

/// Whether its activity may wait there at all of its clocks.
fn waits(s: &Stmt<'_>) -> bool
    ensures { result ≡ waits (statement s.now) }
{
    match s {
        Stmt::Call(..) => true,
        Stmt::AdvanceAll(..) => true,
        Stmt::Block(..)
        | Stmt::Empty
        | Stmt::Declare(..)
        | Stmt::Assign(..)
        | Stmt::Atomic(..)
        | Stmt::If(..)
        | Stmt::IfElse(..)
        | Stmt::For(..)
        | Stmt::Async(..)
        | Stmt::Finish(..)
        | Stmt::Resume(..)
        | Stmt::Drop(..)
        | Stmt::Print(..) => false,
    }
}

/// Whether a statement itself does this with the name.
fn does(deed: Deed, x: &[u8], s: &Stmt<'_>) -> bool
    ensures { result ≡ does deed x.now (statement s.now) }
{
    match deed {
        Deed::Use => uses(x, s),
        Deed::Give => gives(x, s),
        Deed::Write => writes(x, s),
        Deed::Call => calls(x, s),
        Deed::Wait => waits(s),
    }
}

/// Whether one that it holds does so.
#[cycle(deeds)]
fn some_within(deed: Deed, x: &[u8], s: &Stmt<'_>) -> bool
    ensures { result ≡ some_within (does deed x.now) (statement s.now) }
{
    match s {
        Stmt::Block(_, ss) => some_among(deed, x, ss),
        Stmt::If(_, _, _, _, s) => some_in(deed, x, s),
        Stmt::IfElse(_, _, _, _, s, t) => some_in(deed, x, s) || some_in(deed, x, t),
        Stmt::For(_, _, _, _, s) => some_in(deed, x, s),
        Stmt::Async(_, _, s) => some_in(deed, x, s),
        Stmt::Finish(_, s) => some_in(deed, x, s),
        Stmt::Empty => false,
        Stmt::Declare(..) => false,
        Stmt::Assign(..) => false,
        Stmt::Atomic(..) => false,
        Stmt::Call(..) => false,
        Stmt::Resume(..) => false,
        Stmt::Drop(..) => false,
        Stmt::AdvanceAll(..) => false,
        Stmt::Print(..) => false,
    }
}

/// Whether it does so, or one that it holds.
#[cycle(deeds)]
fn some_in(deed: Deed, x: &[u8], s: &Stmt<'_>) -> bool
    ensures { result ≡ some_in (does deed x.now) (statement s.now) }
{
    does(deed, x, s) || some_within(deed, x, s)
}

/// Whether one of these statements does so, or one that they hold.
#[cycle(deeds)]
pub(crate) fn some_among(deed: Deed, x: &[u8], ss: &[Stmt<'_>]) -> bool
    ensures { result ≡ some_among (does deed x.now) (statements ss.now) }
{
    for s in ss {
        if some_in(deed, x, s) {
            return true;
        }
    }
    false
}

/// The same in the body of a method.
#[tactic(auto, unfolding(crate::specs::Deeds::some_in_method))]
fn some_in_method(deed: Deed, x: &[u8], method: &Method<'_>) -> bool
    ensures { result ≡ some_in_method (does deed x.now) (method_value method.now) }
{
    some_among(deed, x, method.body.as_slice())
}

/// The same in the bodies of methods.
pub(crate) fn some_of_methods(deed: Deed, x: &[u8], methods: &[Method<'_>]) -> bool
    ensures { result
        ≡ some_of_methods (does deed x.now) (map method_value methods.now) }
{
    for method in methods {
        if some_in_method(deed, x, method) {
            return true;
        }
    }
    false
}

/// Whether this is an `advanceAll`.
fn is_advance(s: &Stmt<'_>) -> bool
    ensures { result ≡ is_advance (statement s.now) }
{
    match s {
        Stmt::AdvanceAll(..) => true,
        Stmt::Block(..)
        | Stmt::Empty
        | Stmt::Declare(..)
        | Stmt::Assign(..)
        | Stmt::Atomic(..)
        | Stmt::If(..)
        | Stmt::IfElse(..)
        | Stmt::For(..)
        | Stmt::Async(..)
        | Stmt::Finish(..)
        | Stmt::Call(..)
        | Stmt::Resume(..)
        | Stmt::Drop(..)
        | Stmt::Print(..) => false,
    }
}

/// Whether the first of these statements is one.
pub(crate) fn advance_first(ss: &[Stmt<'_>]) -> bool
    ensures { result ≡ advance_first (statements ss.now) }
{
    match ss.first() {
        Some(s) => is_advance(s),
        None => false,
    }
}

/// Whether a clock is made there.
fn is_made(r: &Right<'_>) -> bool
    ensures { result ≡ is_made (source r.now) }
{
    match r {
        Right::Make(..) => true,
        Right::Expr(_) => false,
    }
}

/// Whether the activity that runs the statement makes a clock there.
#[cycle(clocks)]
pub(crate) fn makes_clock(s: &Stmt<'_>) -> bool
    ensures { result ≡ makes_clock (statement s.now) }
{
    match s {
        Stmt::Declare(_, _, _, r) => is_made(r),
        Stmt::Block(_, ss) => make_clock(ss),
        Stmt::If(_, _, _, _, s) => makes_clock(s),
        Stmt::IfElse(_, _, _, _, s, t) => makes_clock(s) || makes_clock(t),
        Stmt::For(_, _, _, _, s) => makes_clock(s),
        Stmt::Finish(_, s) => makes_clock(s),
        Stmt::Async(..) => false,
        Stmt::Empty => false,
        Stmt::Assign(..) => false,
        Stmt::Atomic(..) => false,
        Stmt::Call(..) => false,
        Stmt::Resume(..) => false,
        Stmt::Drop(..) => false,
        Stmt::AdvanceAll(..) => false,
        Stmt::Print(..) => false,
    }
}

/// The same of statements, one after another.
#[cycle(clocks)]
pub(crate) fn make_clock(ss: &[Stmt<'_>]) -> bool
    ensures { result ≡ make_clock (statements ss.now) }
{
    for s in ss {
        if makes_clock(s) {
            return true;
        }
    }
    false
}
