//! What is so in a program.

ghost use Rattle.std.specs.Prelude.{◌≡◌, [], ◌++◌, flat_map, map, IfOk, OnOk};
ghost use Rattle.std.specs.List.{list_any};
ghost use Rattle.xk_tree.specs.Program.{tree_value};
ghost use Rattle.xk_tree.specs.Tree.{expression, method_value, param_value, shared_value, source, statement, statements, word, words};
ghost use Rattle.xk_hints.specs.Hints.{all_placed, meeting_remark, place_among, placed, remark_value};
ghost use Rattle.xk_hints.specs.Hints.{all_remarks, declared_remarks, ends_late, here, is_used, is_waited_at, method_remarks};
ghost use Rattle.xk_hints.specs.Hints.{name_read_remarks, number_remarks, on, param_remarks, place_value, read_remarks, remarks};
ghost use Rattle.xk_hints.specs.Hints.{remarks_among, remarks_here, remarks_in, shared_number_remarks, shared_read_remarks};
ghost use Rattle.xk_hints.specs.Meetings.{meeting_value, meetings_here};
ghost use Rattle.xk_hints.specs.Hints.{shared_remarks, source_remarks, unjoined, when};

use crate::deeds::{Deed, advance_first, is_among, some_among, some_of_methods};
use crate::meeting::Meeting;
use crate::meetings::{all_meetings, first_meetings};
use crate::places::{behind, in_body, in_branch, in_finish, in_loop, in_method, is_main};
use crate::remark::{Matter, Place, Remark};
use crate::shared_numbers::{add_left, is_shared_number, is_written_back};
use std::alloc::{AllocError, Global};
use xk_tree::{Binding, Expr, Method, Name, Param, Right, Shared, Stmt, Tree};
use xk_types::ParamKind;

/// The last offset at which a method may end in a text that is told of.
const MOST_BYTES: usize = 65_536;

/// Adds what is so of a name, if it is.
fn add_if<'t>(
    out: &mut Vec<Remark<'t>>,
    holds: bool,
    matter: Matter,
    name: Name<'t>,
) -> Result<(), AllocError>
    ensures { OnOk result (remarks_here out.new.items
        ≡ remarks_here out.old.items ++ when holds (on matter (word name.entry))) }
{
    if holds {
        out.push(Remark { matter, name })?;
    }
    Ok(())
}

/// Adds what is so at a place, if it is.
fn add_here(
    out: &mut Vec<Remark<'_>>,
    holds: bool,
    matter: Matter,
    at: usize,
) -> Result<(), AllocError>
    ensures { OnOk result (remarks_here out.new.items
        ≡ remarks_here out.old.items ++ when holds (here matter at)) }
{
    add_if(out, holds, matter, Name { at, text: b"" })
}

/// Adds what is told of a number, by whether it is used and whether it is written.
fn add_number<'t>(
    out: &mut Vec<Remark<'t>>,
    name: Name<'t>,
    used: bool,
    written: bool,
) -> Result<(), AllocError>
    ensures { OnOk result (remarks_here out.new.items
        ≡ remarks_here out.old.items ++ number_remarks (word name.entry) used written) }
{
    if used {
        return Ok(());
    }
    if written {
        return add_if(out, true, Matter::Unread, name);
    }
    add_if(out, true, Matter::Unused, name)
}

/// Adds what is told of a clock that nobody is on but its maker.
fn add_unjoined<'t>(
    out: &mut Vec<Remark<'t>>,
    holds: bool,
    binding: Binding,
    name: Name<'t>,
) -> Result<(), AllocError>
    ensures { OnOk result (remarks_here out.new.items
        ≡ remarks_here out.old.items ++ when holds (unjoined binding (word name.entry))) }
{
    match binding {
        Binding::Hidden => add_here(out, holds, Matter::UnjoinedFinish, name.at),
        Binding::Val => add_if(out, holds, Matter::Unjoined, name),
        Binding::Var => add_if(out, holds, Matter::Unjoined, name),
    }
}

/// Adds what is told of what is declared before these statements.
fn add_declared<'t>(
    out: &mut Vec<Remark<'t>>,
    binding: Binding,
    name: Name<'t>,
    right: &Right<'t>,
    rest: &[Stmt<'t>],
) -> Result<(), AllocError>
    ensures { OnOk result (remarks_here out.new.items ≡ remarks_here out.old.items
        ++ declared_remarks binding (word name.entry) (source right.now) (statements rest.now)) }
{
    match right {
        Right::Make(..) => {
            let given = some_among(Deed::Give, name.text, rest);
            add_unjoined(out, !given, binding, name)
        }
        Right::Expr(_) => {
            let used = some_among(Deed::Use, name.text, rest);
            let written = some_among(Deed::Write, name.text, rest);
            add_number(out, name, used, written)
        }
    }
}

/// Adds what is told of a shared number x that is read into t, before these statements.
fn add_shared_read<'t>(
    out: &mut Vec<Remark<'t>>,
    left: &[Name<'t>],
    place: Place,
    t: Name<'t>,
    x: Name<'t>,
    rest: &[Stmt<'t>],
) -> Result<(), AllocError>
    ensures { OnOk result (remarks_here out.new.items ≡ remarks_here out.old.items
        ++ shared_read_remarks (place_value place) (words left.now)
        (word t.entry) (word x.entry) (statements rest.now)) }
{
    let is_left = is_among(x.text, left);
    add_if(out, is_left, Matter::Unawaited, x)?;
    let is_lost = place.is_many && is_written_back(x.text, t.text, rest);
    add_if(out, is_lost, Matter::Overwritten, x)
}

/// The same of a name, if it is that of a shared number.
fn add_name_read<'t>(
    out: &mut Vec<Remark<'t>>,
    shared: &[Shared<'t>],
    left: &[Name<'t>],
    place: Place,
    t: Name<'t>,
    x: Name<'t>,
    rest: &[Stmt<'t>],
) -> Result<(), AllocError>
    ensures { OnOk result (remarks_here out.new.items ≡ remarks_here out.old.items
        ++ name_read_remarks (place_value place) (map shared_value shared.now) (words left.now)
        (word t.entry) (word x.entry) (statements rest.now)) }
{
    if is_shared_number(shared, x.text) {
        return add_shared_read(out, left, place, t, x, rest);
    }
    Ok(())
}

/// The same of an expression.
fn add_read<'t>(
    out: &mut Vec<Remark<'t>>,
    shared: &[Shared<'t>],
    left: &[Name<'t>],
    place: Place,
    t: Name<'t>,
    e: &Expr<'t>,
    rest: &[Stmt<'t>],
) -> Result<(), AllocError>
    ensures { OnOk result (remarks_here out.new.items ≡ remarks_here out.old.items
        ++ read_remarks (place_value place) (map shared_value shared.now) (words left.now)
        (word t.entry) (expression e.now) (statements rest.now)) }
{
    match e {
        Expr::Name(x) => add_name_read(out, shared, left, place, t, *x, rest),
        Expr::Number(_) => Ok(()),
        Expr::Paren(..) => Ok(()),
        Expr::Negation(..) => Ok(()),
        Expr::Binary(..) => Ok(()),
    }
}

/// The same of what is behind the `=` of a declaration.
fn add_source<'t>(
    out: &mut Vec<Remark<'t>>,
    shared: &[Shared<'t>],
    left: &[Name<'t>],
    place: Place,
    t: Name<'t>,
    right: &Right<'t>,
    rest: &[Stmt<'t>],
) -> Result<(), AllocError>
    ensures { OnOk result (remarks_here out.new.items ≡ remarks_here out.old.items
        ++ source_remarks (place_value place) (map shared_value shared.now) (words left.now)
        (word t.entry) (source right.now) (statements rest.now)) }
{
    match right {
        Right::Make(..) => Ok(()),
        Right::Expr(e) => add_read(out, shared, left, place, t, e, rest),
    }
}

/// Adds what is told of a statement, and of those that it holds; these stand behind it. The names that are left are written in activities
/// that were started before and that nothing has waited for.
#[cycle(remarks)]
fn add_remarks<'t>(
    out: &mut Vec<Remark<'t>>,
    shared: &[Shared<'t>],
    left: &[Name<'t>],
    place: Place,
    s: &Stmt<'t>,
    rest: &[Stmt<'t>],
) -> Result<(), AllocError>
    ensures { OnOk result (remarks_here out.new.items ≡ remarks_here out.old.items
        ++ remarks_in (place_value place) (map shared_value shared.now) (words left.now)
        (statement s.now) (statements rest.now)) }
{
    match s {
        Stmt::Declare(binding, name, _, right) => {
            add_declared(out, *binding, *name, right, rest)?;
            add_source(out, shared, left, place, *name, right, rest)
        }
        Stmt::Assign(name, e) => add_read(out, shared, left, place, *name, e, rest),
        Stmt::Block(_, ss) => add_all_remarks(out, shared, left, place, ss),
        Stmt::If(_, _, _, _, s) => add_remarks(out, shared, left, in_branch(place), s, &[]),
        Stmt::IfElse(_, _, _, _, s, t) => {
            add_remarks(out, shared, left, in_branch(place), s, &[])?;
            add_remarks(out, shared, left, in_branch(place), t, &[])
        }
        Stmt::For(at, _, lo, limit, s) => {
            add_here(out, !limit.has_turns(*lo), Matter::Turnless, *at)?;
            add_remarks(out, shared, left, in_loop(place, *lo, limit), s, &[])
        }
        Stmt::Async(at, clocks, s) => {
            let beside = place.is_shared && clocks.is_none();
            add_here(out, beside, Matter::Beside, *at)?;
            add_remarks(out, shared, &[], in_body(place, clocks, s), s, &[])
        }
        Stmt::Finish(_, s) => add_remarks(out, shared, left, in_finish(place), s, &[]),
        Stmt::Resume(c, _) => add_if(out, advance_first(rest), Matter::Resumed, *c),
        Stmt::AdvanceAll(at, _) => add_here(out, place.is_clockless, Matter::Clockless, *at),
        Stmt::Empty | Stmt::Call(..) | Stmt::Drop(..) | Stmt::Print(..) => Ok(()),
        Stmt::Atomic(..) => Ok(()),
    }
}

/// The same of statements, one after another.
#[cycle(remarks)]
fn add_all_remarks<'t>(
    out: &mut Vec<Remark<'t>>,
    shared: &[Shared<'t>],
    left: &[Name<'t>],
    place: Place,
    ss: &[Stmt<'t>],
) -> Result<(), AllocError>
    ensures { OnOk result (remarks_here out.new.items ≡ remarks_here out.old.items
        ++ remarks_among (place_value place) (map shared_value shared.now) (words left.now)
        (statements ss.now)) }
{
    let mut place = place;
    let mut here = Vec::from_slice(*out.allocator(), left)?;
    for (i, s) in ss.iter().enumerate() {
        let rest = &ss[i + 1..];
        add_remarks(out, shared, &here, place, s, rest)?;
        add_left(&mut here, s)?;
        place = behind(place, s, rest);
    }
    Ok(())
}

/// Whether a parameter of the kind is used by who waits at all clocks of the activity.
fn is_waited_at(kind: ParamKind, method: &Method<'_>) -> bool
    ensures { result ≡ is_waited_at kind (method_value method.now) }
{
    match kind {
        ParamKind::Number => false,
        ParamKind::Clock => some_among(Deed::Wait, b"", &method.body),
    }
}

/// Whether a parameter of a method is used.
fn is_used(method: &Method<'_>, param: &Param<'_>) -> bool
    ensures { result ≡ is_used (method_value method.now) (param_value param.now) }
{
    some_among(Deed::Use, param.name.text, &method.body) || is_waited_at(param.takes.kind, method)
}

/// Adds what is told of a parameter of a method.
fn add_param<'t>(
    out: &mut Vec<Remark<'t>>,
    method: &Method<'t>,
    param: &Param<'t>,
) -> Result<(), AllocError>
    ensures { OnOk result (remarks_here out.new.items ≡ remarks_here out.old.items
        ++ param_remarks (method_value method.now) (param_value param.now)) }
{
    add_if(out, !is_used(method, param), Matter::Unused, param.name)
}

/// The same of all of its parameters.
fn add_params<'t>(out: &mut Vec<Remark<'t>>, method: &Method<'t>) -> Result<(), AllocError>
    ensures { OnOk result (remarks_here out.new.items ≡ remarks_here out.old.items
        ++ flat_map (param_remarks (method_value method.now))
        (map param_value method.now.params.items)) }
{
    for param in &method.params {
        add_param(out, method, param)?;
    }
    Ok(())
}

/// Adds what is told of a method, where these are all shared numbers and methods.
#[tactic(auto, unfolding(crate::specs::Hints::method_remarks))]
fn add_method<'t>(
    out: &mut Vec<Remark<'t>>,
    shared: &[Shared<'t>],
    methods: &[Method<'t>],
    method: &Method<'t>,
) -> Result<(), AllocError>
    ensures { OnOk result (remarks_here out.new.items ≡ remarks_here out.old.items
        ++ method_remarks (map shared_value shared.now) (map method_value methods.now)
        (method_value method.now)) }
{
    let called = some_of_methods(Deed::Call, method.name.text, methods);
    add_if(
        out,
        !is_main(method) && !called,
        Matter::Uncalled,
        method.name,
    )?;
    add_params(out, method)?;
    add_all_remarks(out, shared, &[], in_method(method), &method.body)
}

/// The same of all methods.
fn add_methods<'t>(
    out: &mut Vec<Remark<'t>>,
    shared: &[Shared<'t>],
    methods: &[Method<'t>],
) -> Result<(), AllocError>
    ensures { OnOk result (remarks_here out.new.items ≡ remarks_here out.old.items
        ++ flat_map (method_remarks (map shared_value shared.now) (map method_value methods.now))
        (map method_value methods.now)) }
{
    for method in methods {
        add_method(out, shared, methods, method)?;
    }
    Ok(())
}

/// Adds what is told of a shared number, by whether it is read and whether it is written.
fn add_shared_number<'t>(
    out: &mut Vec<Remark<'t>>,
    number: &Shared<'t>,
    read: bool,
    written: bool,
) -> Result<(), AllocError>
    ensures { OnOk result (remarks_here out.new.items ≡ remarks_here out.old.items
        ++ shared_number_remarks (shared_value number.now) read written) }
{
    if !read {
        return add_number(out, number.name, false, written);
    }
    if written {
        return Ok(());
    }
    let is_zero = number.start.value == 0;
    add_if(out, is_zero, Matter::Unwritten, number.name)
}

/// Adds what is told of a shared number, where these are the methods.
#[tactic(auto, unfolding(crate::specs::Hints::shared_remarks))]
fn add_shared<'t>(
    out: &mut Vec<Remark<'t>>,
    methods: &[Method<'t>],
    number: &Shared<'t>,
) -> Result<(), AllocError>
    ensures { OnOk result (remarks_here out.new.items ≡ remarks_here out.old.items
        ++ shared_remarks (map method_value methods.now) (shared_value number.now)) }
{
    let read = some_of_methods(Deed::Use, number.name.text, methods);
    let written = some_of_methods(Deed::Write, number.name.text, methods);
    add_shared_number(out, number, read, written)
}

/// The same of all shared numbers.
fn add_all_shared<'t>(
    out: &mut Vec<Remark<'t>>,
    methods: &[Method<'t>],
    shared: &[Shared<'t>],
) -> Result<(), AllocError>
    ensures { OnOk result (remarks_here out.new.items ≡ remarks_here out.old.items
        ++ flat_map (shared_remarks (map method_value methods.now))
        (map shared_value shared.now)) }
{
    for number in shared {
        add_shared(out, methods, number)?;
    }
    Ok(())
}

/// Whether a method ends behind so many bytes that nothing is told.
fn ends_late(method: &Method<'_>) -> bool
    ensures { result ≡ ends_late (method_value method.now) }
{
    method.close > MOST_BYTES
}

/// Whether one of them does.
fn is_long(methods: &[Method<'_>]) -> bool
    ensures { result ≡ list_any ends_late (map method_value methods.now) }
{
    for method in methods {
        if ends_late(method) {
            return true;
        }
    }
    false
}

/// What is told of a number in which two activities meet.
fn meeting_remark(meeting: Meeting<'_>) -> Remark<'_>
    ensures { remark_value result ≡ meeting_remark (meeting_value meeting.entry) }
{
    Remark {
        matter: Matter::Unordered(meeting.here.act, meeting.there),
        name: meeting.here.name,
    }
}

/// How many remarks stand before the first one that is further on in the text than this place.
fn place_among(at: usize, remarks: &[Remark<'_>]) -> usize
    ensures { result ≡ place_among at remarks.now }
{
    remarks.iter().take_while(|r| !(at < r.name.at)).count()
}

/// Adds a remark where it belongs by its place in the text.
#[tactic(auto, using(crate::proofs::RemarkLemmas::remarks_insert))]
fn place<'t>(out: &mut Vec<Remark<'t>>, remark: Remark<'t>) -> Result<(), AllocError>
    ensures { OnOk result (remarks_here out.new.items
        ≡ placed (remark_value remark.entry) (remarks_here out.old.items)) }
{
    let i = place_among(remark.name.at, out);
    match out.insert(i, remark) {
        Ok(()) => Ok(()),
        Err(_) => Err(AllocError),
    }
}

/// Adds what is told of meetings, each where it belongs.
fn place_all<'t>(out: &mut Vec<Remark<'t>>, meetings: &[Meeting<'t>]) -> Result<(), AllocError>
    ensures { OnOk result (remarks_here out.new.items
        ≡ all_placed (meetings_here meetings.now) (remarks_here out.old.items)) }
{
    for meeting in meetings {
        place(out, meeting_remark(*meeting))?;
    }
    Ok(())
}

/// All that is told of shared numbers and methods, in the order of the text.
fn all_remarks<'t>(
    alloc: Global,
    shared: &[Shared<'t>],
    methods: &[Method<'t>],
) -> Result<Vec<Remark<'t>>, AllocError>
    ensures { IfOk result (λ v. remarks_here v.items
        ≡ all_remarks (map shared_value shared.now) (map method_value methods.now)) }
{
    let mut out = Vec::new(alloc);
    add_all_shared(&mut out, methods, shared)?;
    add_methods(&mut out, shared, methods)?;
    let found = all_meetings(alloc, methods)?;
    let told = first_meetings(alloc, &found, shared)?;
    place_all(&mut out, &told)?;
    Ok(out)
}

/// All that is told of a tree.
pub(crate) fn remarks<'t>(alloc: Global, tree: &Tree<'t>) -> Result<Vec<Remark<'t>>, AllocError>
    ensures { IfOk result (λ v. remarks_here v.items ≡ remarks (tree_value tree.now)) }
{
    if is_long(&tree.methods) {
        return Ok(Vec::new(alloc));
    }
    all_remarks(alloc, &tree.shared, &tree.methods)
}
