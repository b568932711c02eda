//! Numbers in which two activities meet, so that the schedule alone orders what they do.

ghost use Rattle.std.specs.Prelude.{◌≡◌, [], ◌∷◌, ◌++◌, flat_map, map, IfOk, OnOk};
ghost use Rattle.xk_tree.specs.Tree.{method_value, shared_value, statement, statements};
ghost use Rattle.xk_hints.specs.Accesses.{access_value, accesses, own_accesses};
ghost use Rattle.xk_hints.specs.Meetings.{all_meetings, behind_wait, do_meet, first_in, meetings_among, meetings_here, meetings_in};
ghost use Rattle.xk_hints.specs.Meetings.{meeting_value, met, method_meetings, started_by};

use crate::access::Access;
use crate::accesses::{
    add_first_accesses, add_own_accesses, is_order_seen, may_wait, surely_turns,
};
use crate::deeds::is_named;
use crate::meeting::Meeting;
use std::alloc::{AllocError, Global};
use xk_tree::{Method, Shared, Stmt};

/// Whether it counts which of the two comes first.
fn do_meet(a: Access<'_>, b: Access<'_>) -> bool
    ensures { result ≡ do_meet (access_value a.entry) (access_value b.entry) }
{
    is_named(a.name.text, b.name) && is_order_seen(a.act, b.act)
}

/// Adds a meeting.
#[tactic(auto, using(crate::proofs::AccessLemmas::meetings_push))]
fn add_meeting<'t>(out: &mut Vec<Meeting<'t>>, meeting: Meeting<'t>) -> Result<(), AllocError>
    ensures { OnOk result (meetings_here out.new.items
        ≡ meetings_here out.old.items ++ meeting_value meeting.entry ∷ []) }
{
    out.push(meeting)?;
    Ok(())
}

/// Adds the meeting with the first of these that meets what is done here.
fn add_met<'t>(
    out: &mut Vec<Meeting<'t>>,
    beside: &[Access<'t>],
    here: Access<'t>,
) -> Result<(), AllocError>
    ensures { OnOk result (meetings_here out.new.items
        ≡ meetings_here out.old.items ++ met (accesses beside.now) (access_value here.entry)) }
{
    for other in beside {
        if do_meet(here, *other) {
            let there = other.act;
            return add_meeting(out, Meeting { here, there });
        }
    }
    Ok(())
}

/// The same of all that a statement does, apart from those that it holds.
fn add_own_met<'t>(
    out: &mut Vec<Meeting<'t>>,
    beside: &[Access<'t>],
    s: &Stmt<'t>,
) -> Result<(), AllocError>
    ensures { OnOk result (meetings_here out.new.items ≡ meetings_here out.old.items
        ++ flat_map (met (accesses beside.now)) (own_accesses (statement s.now))) }
{
    let mut own = Vec::new(*out.allocator());
    add_own_accesses(&mut own, s)?;
    for access in &own {
        add_met(out, beside, *access)?;
    }
    Ok(())
}

/// Adds what the activity does first that a statement starts.
fn add_started<'t>(out: &mut Vec<Access<'t>>, s: &Stmt<'t>) -> Result<(), AllocError>
    ensures { OnOk result (accesses out.new.items
        ≡ accesses out.old.items ++ started_by (statement s.now)) }
{
    match s {
        Stmt::Async(_, _, s) => add_first_accesses(out, s),
        Stmt::Block(..)
        | Stmt::Empty
        | Stmt::Declare(..)
        | Stmt::Assign(..)
        | Stmt::Atomic(..)
        | Stmt::If(..)
        | Stmt::IfElse(..)
        | Stmt::For(..)
        | Stmt::Finish(..)
        | Stmt::Call(..)
        | Stmt::Resume(..)
        | Stmt::Drop(..)
        | Stmt::AdvanceAll(..)
        | Stmt::Print(..) => Ok(()),
    }
}

/// Forgets these behind a statement, if its activity may have waited there.
fn forget_behind_wait(those: &mut Vec<Access<'_>>, s: &Stmt<'_>)
    ensures { accesses those.new.items
        ≡ behind_wait (statement s.now) (accesses those.old.items) }
{
    if may_wait(s) {
        those.clear();
    }
}

/// Adds the meetings in a statement. What is done beside it is done by activities that were started before the one that runs it, and
/// nothing has waited since, neither who started them nor this one; the others were started by this one before, in the same block.
#[cycle(meetings)]
fn add_meetings<'t>(
    out: &mut Vec<Meeting<'t>>,
    beside: &[Access<'t>],
    started: &[Access<'t>],
    s: &Stmt<'t>,
) -> Result<(), AllocError>
    ensures { OnOk result (meetings_here out.new.items ≡ meetings_here out.old.items
        ++ meetings_in (accesses beside.now) (accesses started.now) (statement s.now)) }
{
    match s {
        Stmt::Block(_, ss) => add_all_meetings(out, beside, ss),
        Stmt::If(_, _, _, _, s) => add_meetings(out, &[], &[], s),
        Stmt::IfElse(_, _, _, _, s, t) => {
            add_meetings(out, &[], &[], s)?;
            add_meetings(out, &[], &[], t)
        }
        Stmt::For(_, _, lo, limit, s) => {
            if surely_turns(*lo, limit) {
                return add_meetings(out, beside, &[], s);
            }
            add_meetings(out, &[], &[], s)
        }
        Stmt::Async(_, _, s) => add_meetings(out, started, &[], s),
        Stmt::Finish(_, s) => add_meetings(out, beside, &[], s),
        Stmt::Declare(..) => add_own_met(out, beside, s),
        Stmt::Assign(..) => add_own_met(out, beside, s),
        Stmt::Atomic(..) => add_own_met(out, beside, s),
        Stmt::Empty => Ok(()),
        Stmt::Call(..) => Ok(()),
        Stmt::Resume(..) => Ok(()),
        Stmt::Drop(..) => Ok(()),
        Stmt::AdvanceAll(..) => Ok(()),
        Stmt::Print(..) => Ok(()),
    }
}

/// The same of statements, one after another, with which a block begins.
#[cycle(meetings)]
fn add_all_meetings<'t>(
    out: &mut Vec<Meeting<'t>>,
    beside: &[Access<'t>],
    ss: &[Stmt<'t>],
) -> Result<(), AllocError>
    ensures { OnOk result (meetings_here out.new.items ≡ meetings_here out.old.items
        ++ meetings_among (accesses beside.now) [] (statements ss.now)) }
{
    let mut here = Vec::from_slice(*out.allocator(), beside)?;
    let mut started = Vec::new(*out.allocator());
    for s in ss {
        add_meetings(out, &here, &started, s)?;
        forget_behind_wait(&mut here, s);
        forget_behind_wait(&mut started, s);
        add_started(&mut started, s)?;
    }
    Ok(())
}

/// The meetings in methods, in the order of the text.
pub(crate) fn all_meetings<'t>(
    alloc: Global,
    methods: &[Method<'t>],
) -> Result<Vec<Meeting<'t>>, AllocError>
    ensures { IfOk result (λ v. meetings_here v.items
        ≡ all_meetings (map method_value methods.now)) }
{
    let mut out = Vec::new(alloc);
    for method in methods {
        add_method_meetings(&mut out, method)?;
    }
    Ok(out)
}

/// Adds those of a method.
#[tactic(auto, unfolding(crate::specs::Meetings::method_meetings))]
fn add_method_meetings<'t>(
    out: &mut Vec<Meeting<'t>>,
    method: &Method<'t>,
) -> Result<(), AllocError>
    ensures { OnOk result (meetings_here out.new.items
        ≡ meetings_here out.old.items ++ method_meetings (method_value method.now)) }
{
    add_all_meetings(out, &[], &method.body)
}

/// Adds the first one in the shared number.
fn add_first_in<'t>(
    out: &mut Vec<Meeting<'t>>,
    found: &[Meeting<'t>],
    number: &Shared<'t>,
) -> Result<(), AllocError>
    ensures { OnOk result (meetings_here out.new.items ≡ meetings_here out.old.items
        ++ first_in (meetings_here found.now) (shared_value number.now)) }
{
    for meeting in found {
        if is_named(number.name.text, meeting.here.name) {
            return add_meeting(out, *meeting);
        }
    }
    Ok(())
}

/// Of each of these shared numbers the first one in it.
pub(crate) fn first_meetings<'t>(
    alloc: Global,
    found: &[Meeting<'t>],
    shared: &[Shared<'t>],
) -> Result<Vec<Meeting<'t>>, AllocError>
    ensures { IfOk result (λ v. meetings_here v.items
        ≡ flat_map (first_in (meetings_here found.now)) (map shared_value shared.now)) }
{
    let mut out = Vec::new(alloc);
    for number in shared {
        add_first_in(&mut out, found, number)?;
    }
    Ok(out)
}
