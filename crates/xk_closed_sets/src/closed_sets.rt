//! A closed set of activities of a running core.

ghost use Rattle.std.specs.Prelude.{◌≡◌, IsTrue, IfOk, IfSome};
ghost use Rattle.xk_closed_sets.specs.ClosedSets.{HasEnabled, IsSparing, is_in};
ghost use Rattle.xk_closed_sets.specs.Footprints.{AreFootprints};
ghost use Rattle.xk_closed_sets.specs.Places.{phase_in, rest_in};

use crate::closedness::is_closed;
use crate::footprints::Footprints;
use crate::growth::{claims, reaches, smallest};
use crate::holding::is_in;
use crate::places::Row;
use std::alloc::{AllocError, Global};
use std::marker::Model;
use xk_core::Core;
use xk_types::Act;

/// A set of activities.
#[derive(Drop)]
pub struct ClosedSet {
    members: Vec<bool>,
}

impl Model for ClosedSet {
    ghost use Rattle.std.specs.Prelude.{Bool, List};

    ghost Value = { List Bool };

    ghost view = { λ s. s.members.items };
}

impl ClosedSet {
    /// Whether the activity is in it.
    pub fn has(&self, act: Act) -> bool
        ensures { result ≡ is_in self.now act }
    {
        match self.members.get(act.0 as usize) {
            Some(inside) => *inside,
            None => false,
        }
    }

    /// For each activity whether it is in it.
    pub fn members(&self) -> &[bool]
        ensures { result.now ≡ self.now }
    {
        &self.members
    }
}

/// Whether somebody can take a step who is a member, or is none.
fn has_enabled(core: &Core<'_>, members: &[bool], inside: bool) -> bool
    ensures { IsTrue result
        → HasEnabled core.now.module_run core.now.world (is_in members.now) inside }
{
    for a in 0..core.activities() {
        let act = Act(a);
        if is_in(members, act) == inside && core.enabled(act) {
            return true;
        }
    }
    false
}

/// The smallest set that is grown, if it is closed, and somebody else can take a step.
fn sparing_set(
    alloc: Global,
    rows: &[Row],
    core: &Core<'_>,
) -> Result<Option<ClosedSet>, AllocError>
    requires { AreFootprints core.now.module_run (rest_in rows.now) (phase_in rows.now) }
    ensures { IfOk result (λ o. IfSome o (λ set.
        IsSparing core.now.module_run core.now.world (is_in set))) }
{
    let reaches = reaches(alloc, rows, core)?;
    let members = smallest(alloc, core, &reaches)?;
    if !has_enabled(core, &members, true) {
        return Ok(None);
    }
    if !has_enabled(core, &members, false) {
        return Ok(None);
    }
    let others = claims(core, &members, &reaches);
    let closed = is_closed(rows, core, &members, &others)?;
    if closed {
        Ok(Some(ClosedSet { members }))
    } else {
        Ok(None)
    }
}

/// A closed set of activities of which one can take a step, and another that isn't in it can, too: whoever tries the steps of its
/// members alone misses nothing. None where no such set was found; there may be one. Err where memory was refused.
pub fn closed_set(
    alloc: Global,
    footprints: &Footprints<'_>,
    core: &Core<'_>,
) -> Result<Option<ClosedSet>, AllocError>
    requires { footprints.now.module_run ≡ core.now.module_run }
    ensures { IfOk result (λ o. IfSome o (λ set.
        IsSparing core.now.module_run core.now.world (is_in set))) }
{
    match footprints.rows() {
        Some(rows) => sparing_set(alloc, rows, core),
        None => Ok(None),
    }
}
