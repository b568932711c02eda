//! Calls, and lists of clocks.

ghost use Rattle.std.specs.Prelude.{◌≡◌, [], map, OnOk, IfOk};
ghost use Rattle.std.specs.List.{flat_map};
ghost use Rattle.xk_tree.specs.Tree.{expression, expressions, param_value, word, words};
ghost use Rattle.xk_names.specs.Faults.{fault};
ghost use Rattle.xk_names.specs.Scope.{find, has};
ghost use Rattle.xk_names.specs.Uses.{argument_clocks, argument_misfits, argument_uses, given, use_as};
ghost use Rattle.xk_names.specs.FaultList.{least, put_text, put_texts, repeats, use_faults, when};
ghost use Rattle.xk_names.specs.StatementParts.{arguments, call_all};

use crate::binding::Want;
use crate::exprs::{check_numbers, check_use, start_of};
use crate::least_fault::{Search, note, note_if};
use crate::methods::Methods;
use crate::scope::Scope;
use crate::table::Texts;
use std::alloc::{AllocError, Global};
use xk_tree::{Expr, FrontRule, Name, Param};
use xk_types::ParamKind;

/// An argument, and the kind of its parameter.
#[derive(Clone, Copy)]
pub struct Argument<'a, 't> {
    pub takes: ParamKind,
    pub value: &'a Expr<'t>,
}

/// Pairs the arguments with the kinds of their parameters, as far as both lists go.
pub fn arguments<'a, 't>(
    alloc: Global,
    params: &[Param<'t>],
    values: &'a [Expr<'t>],
) -> Result<Vec<Argument<'a, 't>>, AllocError>
    ensures { IfOk result (λ v. arguments v.items ≡
        given (map param_value params.now) (expressions values.now)) }
{
    let mut given = Vec::new(alloc);
    let n = if params.len() < values.len() {
        params.len()
    } else {
        values.len()
    };
    for i in 0..n {
        given.push(Argument {
            takes: params[i].takes.kind,
            value: &values[i],
        })?;
    }
    Ok(given)
}

/// Each name that an argument uses must be visible and of the kind that its place wants.
fn check_argument<'t>(worst: &mut Search, scope: &Scope<'t>, takes: ParamKind, value: &Expr<'t>)
    ensures { worst.new ≡ least worst.old
        (flat_map (use_faults scope.now) (argument_uses takes (expression value.now))) }
{
    match takes {
        ParamKind::Number => check_numbers(worst, scope, value),
        ParamKind::Clock => match value {
            Expr::Name(x) => check_use(worst, scope, *x, Want::Clock),
            _ => check_numbers(worst, scope, value),
        },
    }
}

/// Where the parameter is a clock, the argument must be a bare name.
fn check_misfit(worst: &mut Search, takes: ParamKind, value: &Expr<'_>)
    ensures { worst.new ≡ least worst.old
        (map (fault FrontRule.WrongKind) (argument_misfits takes (expression value.now))) }
{
    match takes {
        ParamKind::Number => {}
        ParamKind::Clock => match value {
            Expr::Name(_) => {}
            _ => note(worst, FrontRule::WrongKind, start_of(value)),
        },
    }
}

/// A clock must not be listed twice: it must not be among `clocks`, to which it is added.
fn check_again<'t>(
    worst: &mut Search,
    clocks: &mut Texts<'t>,
    c: Name<'t>,
) -> Result<(), AllocError>
    ensures faults { OnOk result (worst.new ≡ least worst.old
        (when (has clocks.old c.entry.text.now) FrontRule.SameClockTwice c.entry.at)) }
    ensures clocks { OnOk result (clocks.new ≡ put_text clocks.old c.entry.text.now) }
{
    let is_new = clocks.put(c.text)?;
    note_if(!is_new, worst, FrontRule::SameClockTwice, c.at);
    Ok(())
}

/// Applies `check_again` to the clock that an argument gives, if it gives one.
fn check_clock<'t>(
    worst: &mut Search,
    clocks: &mut Texts<'t>,
    takes: ParamKind,
    value: &Expr<'t>,
) -> Result<(), AllocError>
    ensures faults { OnOk result (worst.new ≡ least worst.old
        (repeats clocks.old (argument_clocks takes (expression value.now)))) }
    ensures clocks { OnOk result (clocks.new ≡
        put_texts clocks.old (argument_clocks takes (expression value.now))) }
{
    match takes {
        ParamKind::Number => Ok(()),
        ParamKind::Clock => match value {
            Expr::Name(x) => check_again(worst, clocks, *x),
            _ => Ok(()),
        },
    }
}

/// Applies `check_argument` to each argument.
fn check_uses<'t>(worst: &mut Search, scope: &Scope<'t>, given: &[Argument<'_, 't>])
    ensures { worst.new ≡ least worst.old
        (flat_map (use_faults scope.now)
        (flat_map (λ a. argument_uses a.0 a.1) (arguments given.now))) }
{
    for argument in given {
        check_argument(worst, scope, argument.takes, argument.value);
    }
}

/// Applies `check_misfit` to each argument.
fn check_misfits(worst: &mut Search, given: &[Argument<'_, '_>])
    ensures { worst.new ≡ least worst.old
        (map (fault FrontRule.WrongKind)
        (flat_map (λ a. argument_misfits a.0 a.1) (arguments given.now))) }
{
    for argument in given {
        check_misfit(worst, argument.takes, argument.value);
    }
}

/// The clocks that the arguments give must differ from each other and from those in `clocks`, to which they are added.
fn check_clocks<'t>(
    worst: &mut Search,
    clocks: &mut Texts<'t>,
    given: &[Argument<'_, 't>],
) -> Result<(), AllocError>
    ensures faults { OnOk result (worst.new ≡ least worst.old
        (repeats clocks.old (flat_map (λ a. argument_clocks a.0 a.1) (arguments given.now)))) }
    ensures clocks { OnOk result (clocks.new ≡ put_texts clocks.old
        (flat_map (λ a. argument_clocks a.0 a.1) (arguments given.now))) }
{
    for argument in given {
        check_clock(worst, clocks, argument.takes, argument.value)?;
    }
    Ok(())
}

/// The clocks of a list must differ from each other and from those in `clocks`, to which they are added.
pub fn check_list<'t>(
    worst: &mut Search,
    clocks: &mut Texts<'t>,
    names: &[Name<'t>],
) -> Result<(), AllocError>
    ensures faults { OnOk result (worst.new ≡ least worst.old
        (repeats clocks.old (words names.now))) }
    ensures clocks { OnOk result (clocks.new ≡ put_texts clocks.old (words names.now)) }
{
    for name in names {
        check_again(worst, clocks, *name)?;
    }
    Ok(())
}

/// The names of a list must be visible clocks.
pub fn check_listed<'t>(worst: &mut Search, scope: &Scope<'t>, names: &[Name<'t>])
    ensures { worst.new ≡ least worst.old
        (flat_map (use_faults scope.now) (map (use_as Want.Clock) (words names.now))) }
{
    for name in names {
        check_use(worst, scope, *name, Want::Clock);
    }
}

/// The arguments of a call of the method `g`, which has these parameters: the names that they use, their kinds, their number, and
/// that no clock is given twice.
fn check_arguments<'t>(
    alloc: Global,
    worst: &mut Search,
    scope: &Scope<'t>,
    g: Name<'t>,
    params: &[Param<'t>],
    values: &[Expr<'t>],
) -> Result<(), AllocError>
    ensures { OnOk result (worst.new ≡ least worst.old
        (call_all scope.now (word g.entry)
        (Some (map param_value params.now)) (expressions values.now))) }
{
    let given = arguments(alloc, params, values)?;
    let given = given.as_slice();
    check_uses(worst, scope, given);
    check_misfits(worst, given);
    note_if(params.len() != values.len(), worst, FrontRule::Arity, g.at);
    check_clocks(worst, &mut Texts::new(alloc), given)
}

/// A call: a method of that name must exist, and the arguments must fit its parameters.
pub fn check_call<'t>(
    alloc: Global,
    worst: &mut Search,
    scope: &Scope<'t>,
    methods: &Methods<'_, 't>,
    g: Name<'t>,
    values: &[Expr<'t>],
) -> Result<(), AllocError>
    ensures { OnOk result (worst.new ≡ least worst.old
        (call_all scope.now (word g.entry)
        (find methods.now g.entry.text.now) (expressions values.now))) }
{
    match methods.find(g.text) {
        None => {
            note(worst, FrontRule::UnknownName, g.at);
            Ok(())
        }
        Some(params) => check_arguments(alloc, worst, scope, g, params, values),
    }
}

/// The clocks that an `async` is given, each once.
pub fn clocks_of<'t>(alloc: Global, names: &[Name<'t>]) -> Result<Texts<'t>, AllocError>
    ensures { IfOk result (λ clocks. clocks ≡ put_texts [] (words names.now)) }
{
    let mut clocks = Texts::new(alloc);
    for name in names {
        let _is_new = clocks.put(name.text)?;
    }
    Ok(clocks)
}
