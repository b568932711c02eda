//! The search, in breadth: what stands before an index has been looked at, and what is new goes to the end.

ghost use Rattle.std.specs.Prelude.{◌≡◌, ◌<◌, ◌≤◌, ℕ, true, false, length, slice_get, IfOk, IfSome, OnOk, Some};
ghost use Rattle.xk_types.specs.Schedule.{is_enabled};
ghost use Rattle.xk_ranks.specs.Reads.{IsCounting};
ghost use Rattle.xk_outcomes.specs.Alikeness.{counted};
ghost use Rattle.xk_outcomes.specs.Found.{FoundValue, first_found};
ghost use Rattle.xk_outcomes.specs.Links.{AreLinked};
ghost use Rattle.xk_outcomes.specs.Search.{AreAllFound, AreAtRest, AreDifferent, AreExpanded, AreFound};
ghost use Rattle.xk_outcomes.specs.Search.{HasAfter, IsExpanded, IsGrown};
ghost use Rattle.xk_outcomes.specs.Ways.{IsLone, IsOnlyTried, IsTrip, is_tried};

use crate::entries::Entries;
use crate::found::Found;
use crate::order::Order;
use std::alloc::{AllocError, Global};
use xk_closed_sets::{Footprints, closed_set};
use xk_core::Core;
use xk_rank_digests::rank_of;
use xk_readings::Edge;
use xk_types::Act;

/// So many steps to which there is no choice are taken at most before what they lead to is kept. Private steps behind each
/// don't count.
const LONGEST_WAY: u32 = 1_000;

/// What was found, and whether that is all.
#[derive(Drop)]
pub struct Explored<'m> {
    /// What was found.
    pub found: Entries<'m>,
    /// How one leads to another.
    pub links: Vec<Edge>,
    /// Whether nothing is left to look at.
    pub complete: bool,
}

/// The number that stands behind these, if one does.
fn behind(before: &[i64], all: &[i64]) -> Option<i64>
    ensures { result ≡ slice_get all.now (length before.now) }
{
    all.get(before.len()).copied()
}

/// Adds what a way leads to from here, the one of a number, that begins with a step of the activity, if none like that is there yet; and
/// the link to it. The number of the one that is.
fn link_after(
    alloc: Global,
    all: &mut Entries<'_>,
    links: &mut Vec<Edge>,
    number: usize,
    here: &Found<'_>,
    act: Act,
    way: Vec<u32>,
    new: &Found<'_>,
) -> Result<usize, AllocError>
    requires there { slice_get all.old.all number ≡ Some here.now }
    requires trip { IsTrip here.now.core.module_run here.now act way.items new.now }
    ensures start { all.new.start ≡ all.old.start }
    ensures like { all.new.like ≡ all.old.like }
    ensures grown { IsGrown all.old.all all.new.all }
    ensures more { IsGrown links.old.items links.new.items }
    ensures linked { OnOk result (AreLinked (counted all.old.like) here.now.core.module_run
        all.old.ways all.old.all links.old.items → AreLinked (counted all.new.like)
        here.now.core.module_run all.new.ways all.new.all links.new.items) }
    ensures after { OnOk result (HasAfter here.now.core.module_run all.new.like
        all.new.all links.new.items number here.now act) }
    ensures new { IfOk result (λ to. length all.old.all ≤ to
        → slice_get all.new.all to ≡ Some new.now) }
{
    links.reserve(1)?;
    let printed = behind(&here.printed, &new.printed);
    let way = all.add_way(way)?;
    let to = all.add(alloc, number, way, new)?;
    links.push_reserved(Edge {
        from: number,
        act: way,
        printed,
        to,
    });
    Ok(to)
}

/// Who alone of these can take a step, if one alone can; or of all, if none is told.
fn lone_among(core: &Core<'_>, members: &[bool]) -> Option<Act>
    ensures { IfSome result (IsOnlyTried core.now.module_run core.now.world members.now) }
{
    let mut found = None;
    for a in 0..core.activities() {
        if is_tried(members, Act(a)) && core.enabled(Act(a)) {
            if found.is_some() {
                return None;
            }
            found = Some(Act(a));
        }
    }
    found
}

/// Who alone is to be tried here, if there is no choice.
fn lone_act(
    alloc: Global,
    footprints: &Footprints<'_>,
    core: &Core<'_>,
) -> Result<Option<Act>, AllocError>
    requires { footprints.now.module_run ≡ core.now.module_run }
    ensures { IfOk result (λ o. IfSome o (IsLone core.now.module_run core.now.world)) }
{
    match closed_set(alloc, footprints, core)? {
        Some(set) => Ok(lone_among(core, set.members())),
        None => Ok(lone_among(core, &[])),
    }
}

/// A step more on the way, if there is no choice and nothing was printed on it. Whether there was one.
fn go_further(
    alloc: Global,
    footprints: &Footprints<'_>,
    before: usize,
    way: &mut Vec<u32>,
    to: &mut Found<'_>,
) -> Result<bool, AllocError>
    requires { footprints.now.module_run ≡ to.old.core.module_run }
    ensures module { OnOk result (to.new.core.module_run ≡ to.old.core.module_run) }
    ensures trip { OnOk result ((x : FoundValue) (a : ℕ) → length x.printed ≡ before
        → x.core.module_run ≡ to.old.core.module_run
        → IsTrip x.core.module_run x a way.old.items to.old
        → IsTrip x.core.module_run x a way.new.items to.new) }
{
    if to.printed.len() > before {
        return Ok(false);
    }
    match lone_act(alloc, footprints, &to.core)? {
        Some(act) => {
            // For the law that private steps print nothing: the module is accepted.
            let _activities = to.core.activities();
            way.push(rank_of(&to.core, act))?;
            to.go_on(act)?;
            Ok(true)
        }
        None => Ok(false),
    }
}

/// Goes on as long as there is no choice and nothing was printed on the way, some steps at most.
fn go_alone(
    alloc: Global,
    footprints: &Footprints<'_>,
    before: usize,
    way: &mut Vec<u32>,
    to: &mut Found<'_>,
) -> Result<(), AllocError>
    requires { footprints.now.module_run ≡ to.old.core.module_run }
    ensures { OnOk result ((x : FoundValue) (a : ℕ) → length x.printed ≡ before
        → x.core.module_run ≡ to.old.core.module_run
        → IsTrip x.core.module_run x a way.old.items to.old
        → IsTrip x.core.module_run x a way.new.items to.new) }
{
    for turn in 0..LONGEST_WAY {
        if !go_further(alloc, footprints, before, way, to)? {
            return Ok(());
        }
    }
    Ok(())
}

/// A step of the activity, which can take it: the way that begins with it, and where that leads.
fn begin_way<'m>(
    alloc: Global,
    here: &Found<'m>,
    act: Act,
) -> Result<(Vec<u32>, Found<'m>), AllocError>
    requires { is_enabled here.now.core.module_run here.now.core.world act ≡ true }
    ensures { IfOk result
        (λ r. IsTrip here.now.core.module_run here.now act r.0.items r.1) }
{
    // For the law that private steps print nothing: the module is accepted.
    let _activities = here.core.activities();
    let mut way = Vec::new(alloc);
    way.push(rank_of(&here.core, act))?;
    let to = here.after(alloc, act)?;
    Ok((way, to))
}

/// Adds what a step of the activity leads to from here, the one of a number, if it can take one, and steps behind it to which there is no
/// choice, if none like that is there yet; and the link to it.
fn try_act<'m>(
    alloc: Global,
    footprints: &Footprints<'_>,
    all: &mut Entries<'m>,
    links: &mut Vec<Edge>,
    number: usize,
    here: &Found<'m>,
    act: Act,
) -> Result<(), AllocError>
    requires there { slice_get all.old.all number ≡ Some here.now }
    requires footprints { footprints.now.module_run ≡ here.now.core.module_run }
    ensures start { all.new.start ≡ all.old.start }
    ensures like { all.new.like ≡ all.old.like }
    ensures grown { IsGrown all.old.all all.new.all }
    ensures more { IsGrown links.old.items links.new.items }
    ensures linked { OnOk result (AreLinked (counted all.old.like) here.now.core.module_run
        all.old.ways all.old.all links.old.items → AreLinked (counted all.new.like)
        here.now.core.module_run all.new.ways all.new.all links.new.items) }
    ensures after { OnOk result (HasAfter here.now.core.module_run all.new.like
        all.new.all links.new.items number here.now act) }
{
    if !here.core.enabled(act) {
        return Ok(());
    }
    let count = all.len();
    let (mut way, mut next) = begin_way(alloc, here, act)?;
    go_alone(alloc, footprints, here.printed.len(), &mut way, &mut next)?;
    let to = link_after(alloc, all, links, number, here, act, way, &next)?;
    if to < count {
        return Ok(());
    }
    all.keep(to, next)
}

/// Whether the steps of the activity are tried: it is one of these, if they are told.
fn is_tried(members: &[bool], act: Act) -> bool
    ensures { result ≡ is_tried members.now act }
{
    members.is_empty() || members.get(act.0 as usize).copied().unwrap_or(false)
}

/// The same if steps of the activity are tried.
fn try_one<'m>(
    alloc: Global,
    footprints: &Footprints<'_>,
    all: &mut Entries<'m>,
    links: &mut Vec<Edge>,
    number: usize,
    here: &Found<'m>,
    members: &[bool],
    act: Act,
) -> Result<(), AllocError>
    requires there { slice_get all.old.all number ≡ Some here.now }
    requires footprints { footprints.now.module_run ≡ here.now.core.module_run }
    ensures start { all.new.start ≡ all.old.start }
    ensures like { all.new.like ≡ all.old.like }
    ensures grown { IsGrown all.old.all all.new.all }
    ensures more { IsGrown links.old.items links.new.items }
    ensures linked { OnOk result (AreLinked (counted all.old.like) here.now.core.module_run
        all.old.ways all.old.all links.old.items → AreLinked (counted all.new.like)
        here.now.core.module_run all.new.ways all.new.all links.new.items) }
    ensures after { OnOk result (is_tried members.now act ≡ true
        → HasAfter here.now.core.module_run all.new.like
        all.new.all links.new.items number here.now act) }
{
    if !is_tried(members, act) {
        return Ok(());
    }
    try_act(alloc, footprints, all, links, number, here, act)
}

/// Adds what the ways lead to from here, the one of a number, that begin with the steps that are tried.
fn look_by<'m>(
    alloc: Global,
    footprints: &Footprints<'_>,
    all: &mut Entries<'m>,
    links: &mut Vec<Edge>,
    number: usize,
    here: &Found<'m>,
    members: &[bool],
) -> Result<(), AllocError>
    requires there { slice_get all.old.all number ≡ Some here.now }
    requires footprints { footprints.now.module_run ≡ here.now.core.module_run }
    ensures start { all.new.start ≡ all.old.start }
    ensures like { all.new.like ≡ all.old.like }
    ensures grown { IsGrown all.old.all all.new.all }
    ensures more { IsGrown links.old.items links.new.items }
    ensures linked { OnOk result (AreLinked (counted all.old.like) here.now.core.module_run
        all.old.ways all.old.all links.old.items → AreLinked (counted all.new.like)
        here.now.core.module_run all.new.ways all.new.all links.new.items) }
    ensures after { OnOk result ((a : ℕ) → is_tried members.now a ≡ true
        → HasAfter here.now.core.module_run all.new.like
        all.new.all links.new.items number here.now a) }
{
    for a in 0..here.core.activities() {
        try_one(alloc, footprints, all, links, number, here, members, Act(a))?;
    }
    Ok(())
}

/// Adds what the ways lead to from here, the one of a number, that begin with steps of a closed set, or with any.
fn look<'m>(
    alloc: Global,
    footprints: &Footprints<'_>,
    all: &mut Entries<'m>,
    links: &mut Vec<Edge>,
    number: usize,
    here: &Found<'m>,
) -> Result<(), AllocError>
    requires there { slice_get all.old.all number ≡ Some here.now }
    requires footprints { footprints.now.module_run ≡ here.now.core.module_run }
    ensures start { all.new.start ≡ all.old.start }
    ensures like { all.new.like ≡ all.old.like }
    ensures grown { IsGrown all.old.all all.new.all }
    ensures more { IsGrown links.old.items links.new.items }
    ensures linked { OnOk result (AreLinked (counted all.old.like) here.now.core.module_run
        all.old.ways all.old.all links.old.items → AreLinked (counted all.new.like)
        here.now.core.module_run all.new.ways all.new.all links.new.items) }
    ensures expanded { OnOk result (IsExpanded here.now.core.module_run all.new.like
        all.new.all links.new.items number here.now) }
{
    match closed_set(alloc, footprints, &here.core)? {
        Some(set) => look_by(alloc, footprints, all, links, number, here, set.members()),
        None => look_by(alloc, footprints, all, links, number, here, &[]),
    }
}

/// Adds what the ways lead to from the one of a number, that begin with steps of a closed set, or with any.
fn expand<'m>(
    alloc: Global,
    footprints: &Footprints<'_>,
    all: &mut Entries<'m>,
    links: &mut Vec<Edge>,
    number: usize,
) -> Result<(), AllocError>
    requires there { number < length all.old.all }
    requires footprints { footprints.now.module_run ≡ all.old.start.module_run }
    ensures start { all.new.start ≡ all.old.start }
    ensures like { all.new.like ≡ all.old.like }
    ensures grown { IsGrown all.old.all all.new.all }
    ensures more { IsGrown links.old.items links.new.items }
    ensures linked { OnOk result (AreLinked (counted all.old.like) all.old.start.module_run
        all.old.ways all.old.all links.old.items → AreLinked (counted all.new.like)
        all.old.start.module_run all.new.ways all.new.all links.new.items) }
    ensures expanded { OnOk result ((x : FoundValue) → slice_get all.old.all number ≡ Some x
        → IsExpanded all.old.start.module_run all.new.like
        all.new.all links.new.items number x) }
{
    // For the module of those that were found.
    let _count = all.len();
    let here = all.get(alloc, number)?;
    look(alloc, footprints, all, links, number, &here)
}

/// Goes on until nothing is left to look at, or more are kept than the limit says. Whether nothing is left.
fn search<'m>(
    alloc: Global,
    footprints: &Footprints<'_>,
    all: &mut Entries<'m>,
    links: &mut Vec<Edge>,
    limit: usize,
) -> Result<bool, AllocError>
    requires { footprints.now.module_run ≡ all.old.start.module_run }
    ensures start { all.new.start ≡ all.old.start }
    ensures like { all.new.like ≡ all.old.like }
    ensures grown { IsGrown all.old.all all.new.all }
    ensures linked { OnOk result (AreLinked (counted all.old.like) all.old.start.module_run
        all.old.ways all.old.all links.old.items → AreLinked (counted all.new.like)
        all.old.start.module_run all.new.ways all.new.all links.new.items) }
    ensures expanded { IfOk result (λ complete. complete ≡ true
        → AreExpanded all.old.start.module_run all.new.like
        all.new.all links.new.items (length all.new.all)) }
    ensures limit { IfOk result (λ complete. complete ≡ false → limit < length all.new.all) }
{
    let mut next: usize = 0;
    while next < all.len() && all.len() <= limit {
        expand(alloc, footprints, all, links, next)?;
        next += 1;
    }
    Ok(next == all.len())
}

/// Finds worlds that legal schedules lead to from the start, each with the numbers that are printed by then, and the links between them,
/// until nothing is left to look at, or more are kept than the limit says.
pub fn explore<'m>(
    alloc: Global,
    order: Order,
    start: Core<'m>,
    limit: usize,
) -> Result<Explored<'m>, AllocError>
    requires { start.world.steps ≡ 0 }
    ensures start { IfOk result (λ r. r.found.start ≡ start.entry) }
    ensures found { IfOk result (λ r. AreFound start.entry r.found.all) }
    ensures linked { IfOk result
        (λ r. AreLinked (counted r.found.like) start.entry.module_run
        r.found.ways r.found.all r.links.items) }
    ensures told { IfOk result (λ r. r.found.like.order ≡ order) }
    ensures counting { IfOk result
        (λ r. IsCounting start.entry.module_run (counted r.found.like)) }
    ensures all { IfOk result (λ r. r.complete ≡ true
        → AreAllFound order start.entry r.found.all r.links.items) }
    ensures limit { IfOk result (λ r. r.complete ≡ false → limit < length r.found.all) }
    ensures rest { IfOk result (λ r. AreAtRest r.found.all) }
    ensures different { IfOk result (λ r. AreDifferent r.found.like r.found.all) }
    ensures begins { IfOk result (λ r. slice_get r.found.all 0 ≡ Some (first_found start.entry)) }
{
    let verified = start.module();
    // For the law that nothing is missed: the module is accepted.
    let _accepted = verified.module();
    let mut found = Entries::open(alloc, order, start)?;
    let mut links = Vec::new(alloc);
    let footprints = Footprints::of(alloc, verified)?;
    let complete = search(alloc, &footprints, &mut found, &mut links, limit)?;
    // For `found`, `rest`, `different` and `counting`.
    let _count = found.len();
    Ok(Explored {
        found,
        links,
        complete,
    })
}
