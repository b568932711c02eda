//! What the body of an `async` takes from outside.
#![tactic(auto, using(crate::proofs::CaptureStepLemmas::put_besides, crate::proofs::FaultAppendLemmas::put_texts_append))]

ghost use Rattle.std.specs.Prelude.{◌≡◌, [], ◌∷◌, ◌++◌, map, OnOk, IfOk};
ghost use Rattle.std.specs.List.{flat_map};
ghost use Rattle.xk_tree.specs.Tree.{bound, expression, expressions, shared_value, source, statement, statements, word};
ghost use Rattle.xk_names.specs.Scope.{find};
ghost use Rattle.xk_names.specs.Uses.{given_to};
ghost use Rattle.xk_names.specs.StatementParts.{arguments as given_words};
ghost use Rattle.xk_names.specs.Captures.{argument_words, bound_words, loop_words, captures, number_words, outer_among, shared_texts};
ghost use Rattle.xk_names.specs.Captures.{outer_words, own_behind, source_words, words_besides};
ghost use Rattle.xk_names.specs.Captures.{words_used};
ghost use Rattle.xk_names.specs.FaultList.{put_texts};

use crate::arguments::{Argument, arguments};
use crate::methods::Methods;
use crate::table::Texts;
use std::alloc::{AllocError, Global};
use xk_tree::{Bound, Expr, Name, Right, Shared, Stmt};
use xk_types::ParamKind;

/// Adds a number to `out`, unless it is one of the body's own.
fn take<'t>(own: &Texts<'t>, out: &mut Texts<'t>, x: Name<'t>) -> Result<(), AllocError>
    ensures { OnOk result (out.new
        ≡ put_texts out.old (words_besides own.now (word x.entry ∷ []))) }
{
    if !own.contains(x.text) {
        let _is_new = out.put(x.text)?;
    }
    Ok(())
}

/// Adds the numbers that an expression uses.
fn take_numbers<'t>(own: &Texts<'t>, out: &mut Texts<'t>, e: &Expr<'t>) -> Result<(), AllocError>
    ensures { OnOk result (out.new ≡ put_texts out.old
        (words_besides own.now (number_words (expression e.now)))) }
{
    match e {
        Expr::Number(_) => Ok(()),
        Expr::Name(x) => take(own, out, *x),
        Expr::Paren(_, e) => take_numbers(own, out, e),
        Expr::Negation(_, e) => take_numbers(own, out, e),
        Expr::Binary(_, l, _, r) => {
            take_numbers(own, out, l)?;
            take_numbers(own, out, r)
        }
    }
}

/// Adds the numbers that the two sides of a comparison use.
fn take_both<'t>(
    own: &Texts<'t>,
    out: &mut Texts<'t>,
    l: &Expr<'t>,
    r: &Expr<'t>,
) -> Result<(), AllocError>
    ensures { OnOk result (out.new ≡ put_texts out.old
        (words_besides own.now
        (number_words (expression l.now) ++ number_words (expression r.now)))) }
{
    take_numbers(own, out, l)?;
    take_numbers(own, out, r)?;
    Ok(())
}

/// Adds the numbers that the right side of a declaration uses. `Clock.make()` uses none.
fn take_right<'t>(own: &Texts<'t>, out: &mut Texts<'t>, r: &Right<'t>) -> Result<(), AllocError>
    ensures { OnOk result (out.new ≡ put_texts out.old
        (words_besides own.now (source_words (source r.now)))) }
{
    match r {
        Right::Make(_, _) => Ok(()),
        Right::Expr(e) => take_numbers(own, out, e),
    }
}

/// Adds the numbers that a loop's bound uses.
fn take_bound<'t>(own: &Texts<'t>, out: &mut Texts<'t>, limit: &Bound<'t>) -> Result<(), AllocError>
    ensures { OnOk result (out.new ≡ put_texts out.old
        (words_besides own.now (bound_words (bound limit.now)))) }
{
    match limit {
        Bound::UpTo(_) => Ok(()),
        Bound::Least(_, _, e, _) => take_numbers(own, out, e),
    }
}

/// Makes the names that a loop declares the body's own: its variable, and its limit if it has one.
fn put_loop<'t>(own: &mut Texts<'t>, x: Name<'t>, limit: &Bound<'t>) -> Result<(), AllocError>
    ensures { OnOk result (own.new ≡ put_texts own.old
        (loop_words (word x.entry) (bound limit.now))) }
{
    let _is_new = own.put(x.text)?;
    match limit {
        Bound::UpTo(_) => Ok(()),
        Bound::Least(y, _, _, _) => {
            let _is_new = own.put(y.text)?;
            Ok(())
        }
    }
}

/// Adds the numbers that an argument uses. A clock is no number, so an argument for a clock adds none.
fn take_argument<'t>(
    own: &Texts<'t>,
    out: &mut Texts<'t>,
    takes: ParamKind,
    value: &Expr<'t>,
) -> Result<(), AllocError>
    ensures { OnOk result (out.new ≡ put_texts out.old
        (words_besides own.now (argument_words takes (expression value.now)))) }
{
    match takes {
        ParamKind::Number => take_numbers(own, out, value),
        ParamKind::Clock => Ok(()),
    }
}

/// Adds the numbers that the arguments of a call use.
fn take_arguments<'t>(
    own: &Texts<'t>,
    out: &mut Texts<'t>,
    given: &[Argument<'_, 't>],
) -> Result<(), AllocError>
    ensures { OnOk result (out.new ≡ put_texts out.old
        (words_besides own.now (flat_map (λ a. argument_words a.0 a.1) (given_words given.now)))) }
{
    for argument in given {
        take_argument(own, out, argument.takes, argument.value)?;
    }
    Ok(())
}

/// Adds the numbers that a call uses. Where the method doesn't exist nobody knows which arguments are numbers, and none is added.
fn take_call<'t>(
    alloc: Global,
    own: &Texts<'t>,
    out: &mut Texts<'t>,
    methods: &Methods<'_, 't>,
    g: Name<'t>,
    values: &[Expr<'t>],
) -> Result<(), AllocError>
    ensures { OnOk result (out.new ≡ put_texts out.old (words_besides own.now
        (flat_map (λ a. argument_words a.0 a.1) (given_to (find methods.now g.entry.text.now)
        (expressions values.now))))) }
{
    match methods.find(g.text) {
        None => Ok(()),
        Some(params) => {
            let given = arguments(alloc, params, values)?;
            take_arguments(own, out, given.as_slice())?;
            Ok(())
        }
    }
}

/// Adds the numbers that a statement uses, without the statements inside it.
fn take_own<'t>(
    alloc: Global,
    own: &Texts<'t>,
    out: &mut Texts<'t>,
    methods: &Methods<'_, 't>,
    s: &Stmt<'t>,
) -> Result<(), AllocError>
    ensures { OnOk result (out.new ≡ put_texts out.old
        (words_besides own.now (words_used methods.now (statement s.now)))) }
{
    match s {
        Stmt::Declare(_, _, _, r) => take_right(own, out, r),
        Stmt::Assign(x, e) => {
            take(own, out, *x)?;
            take_numbers(own, out, e)
        }
        Stmt::Atomic(_, _, _, e) => take_numbers(own, out, e),
        Stmt::If(_, l, _, r, _) => take_both(own, out, l, r),
        Stmt::IfElse(_, l, _, r, _, _) => take_both(own, out, l, r),
        Stmt::Call(g, _, values) => take_call(alloc, own, out, methods, *g, values.as_slice()),
        Stmt::Print(_, _, e) => take_numbers(own, out, e),
        Stmt::Block(..) => Ok(()),
        Stmt::Empty => Ok(()),
        Stmt::For(_, _, _, limit, _) => take_bound(own, out, limit),
        Stmt::Async(_, _, _) => Ok(()),
        Stmt::Finish(..) => Ok(()),
        Stmt::Resume(_, _) => Ok(()),
        Stmt::Drop(_, _) => Ok(()),
        Stmt::AdvanceAll(_, _) => Ok(()),
    }
}

/// Adds the numbers that a statement takes from outside, with the statements inside it. Behind it `own` has what it declares, too.
#[cycle(taken)]
fn take_all<'t>(
    alloc: Global,
    own: &mut Texts<'t>,
    out: &mut Texts<'t>,
    methods: &Methods<'_, 't>,
    s: &Stmt<'t>,
) -> Result<(), AllocError>
    ensures out { OnOk result (out.new ≡ put_texts out.old
        (outer_words methods.now own.old (statement s.now))) }
    ensures own { OnOk result (own.new ≡ own_behind own.old (statement s.now)) }
{
    take_own(alloc, own, out, methods, s)?;
    match s {
        Stmt::Declare(_, x, _, _) => {
            let _is_new = own.put(x.text)?;
            Ok(())
        }
        Stmt::Block(_, ss) => take_block(alloc, own, out, methods, ss.as_slice()),
        Stmt::If(_, _, _, _, s) => take_held(alloc, own, out, methods, s),
        Stmt::IfElse(_, _, _, _, s, t) => {
            take_held(alloc, own, out, methods, s)?;
            take_held(alloc, own, out, methods, t)
        }
        Stmt::For(_, x, _, limit, s) => take_loop(alloc, own, out, methods, *x, limit, s),
        Stmt::Async(_, _, body) => take_held(alloc, own, out, methods, body),
        Stmt::Finish(_, s) => take_held(alloc, own, out, methods, s),
        Stmt::Empty => Ok(()),
        Stmt::Assign(_, _) => Ok(()),
        Stmt::Atomic(_, _, _, _) => Ok(()),
        Stmt::Call(_, _, _) => Ok(()),
        Stmt::Resume(_, _) => Ok(()),
        Stmt::Drop(_, _) => Ok(()),
        Stmt::AdvanceAll(_, _) => Ok(()),
        Stmt::Print(_, _, _) => Ok(()),
    }
}

/// Adds what the statements of a block take from outside. What they declare is forgotten at the end of the block.
#[cycle(taken)]
fn take_block<'t>(
    alloc: Global,
    own: &mut Texts<'t>,
    out: &mut Texts<'t>,
    methods: &Methods<'_, 't>,
    ss: &[Stmt<'t>],
) -> Result<(), AllocError>
    ensures out { OnOk result (out.new ≡ put_texts out.old
        (outer_among methods.now own.old (statements ss.now))) }
    ensures own { OnOk result (own.new ≡ own.old) }
{
    let outside = own.len();
    for s in ss {
        take_all(alloc, own, out, methods, s)?;
    }
    own.cut(outside);
    Ok(())
}

/// Adds what an inner statement takes from outside. What it declares is forgotten behind it.
#[cycle(taken)]
fn take_held<'t>(
    alloc: Global,
    own: &mut Texts<'t>,
    out: &mut Texts<'t>,
    methods: &Methods<'_, 't>,
    s: &Stmt<'t>,
) -> Result<(), AllocError>
    ensures out { OnOk result (out.new ≡ put_texts out.old
        (outer_words methods.now own.old (statement s.now))) }
    ensures own { OnOk result (own.new ≡ own.old) }
{
    let outside = own.len();
    take_all(alloc, own, out, methods, s)?;
    own.cut(outside);
    Ok(())
}

/// Adds what the body of a loop takes from outside; the names that the loop declares are its own.
#[cycle(taken)]
fn take_loop<'t>(
    alloc: Global,
    own: &mut Texts<'t>,
    out: &mut Texts<'t>,
    methods: &Methods<'_, 't>,
    x: Name<'t>,
    limit: &Bound<'t>,
    s: &Stmt<'t>,
) -> Result<(), AllocError>
    ensures out { OnOk result (out.new ≡ put_texts out.old
        (outer_words methods.now (put_texts own.old (loop_words (word x.entry) (bound limit.now)))
        (statement s.now))) }
    ensures own { OnOk result (own.new ≡ own.old) }
{
    let outside = own.len();
    put_loop(own, x, limit)?;
    take_all(alloc, own, out, methods, s)?;
    own.cut(outside);
    Ok(())
}

/// Makes the shared numbers the body's own: they are read where they are, and never taken.
fn put_shared<'t>(own: &mut Texts<'t>, shared: &[Shared<'t>]) -> Result<(), AllocError>
    ensures { OnOk result (own.new ≡ put_texts own.old (map (λ s. word s.name) shared.now)) }
{
    for number in shared {
        let _is_new = own.put(number.name.text)?;
    }
    Ok(())
}

/// What `out` has then, as a list: what it had, and behind that what the body takes from outside, but for the names in `own` and
/// the shared numbers.
fn take_listed<'t>(
    alloc: Global,
    own: &mut Texts<'t>,
    out: &mut Texts<'t>,
    methods: &Methods<'_, 't>,
    shared: &[Shared<'t>],
    body: &Stmt<'t>,
) -> Result<Vec<&'t [u8]>, AllocError>
    ensures { IfOk result (λ taken. map (λ x. x.now) taken.items ≡ put_texts out.old
        (outer_words methods.now (put_texts own.old (map (λ s. word s.name) shared.now))
        (statement body.now))) }
{
    put_shared(own, shared)?;
    take_all(alloc, own, out, methods, body)?;
    out.to_vec(alloc)
}

/// The numbers that the body of an `async` takes from outside: those that it uses and doesn't declare, inner bodies included, by their names, each
/// once, in the order of their first use. Neither the numbers in `shared` nor clocks are among them. `methods` tells which arguments are numbers.
/// The only error is want of memory.
#[tactic(auto, using(crate::proofs::CaptureLemmas::captures_kept))]
pub fn captures<'t>(
    alloc: Global,
    methods: &Methods<'_, 't>,
    shared: &[Shared<'t>],
    body: &Stmt<'t>,
) -> Result<Vec<&'t [u8]>, AllocError>
    ensures { IfOk result (λ taken. map (λ x. x.now) taken.items ≡
        captures methods.now (shared_texts (map shared_value shared.now)) (statement body.now)) }
{
    let mut own = Texts::new(alloc);
    let mut out = Texts::new(alloc);
    take_listed(alloc, &mut own, &mut out, methods, shared, body)
}
