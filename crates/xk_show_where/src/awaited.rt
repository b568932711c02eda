//! Whom each activity awaits at an `endfinish`.

ghost use Rattle.std.specs.Prelude.{◌≡◌, false, [], ◌∷◌, ◌+◌, ◌<◌, ◌^◌, length, replicate, slice_index_or, slice_set, IfOk, OnOk};
ghost use Rattle.xk_show_events.specs.Worlds.{each_below};
ghost use Rattle.xk_show_where.specs.Awaited.{AreAwaited, is_in_innermost};
ghost use Rattle.xk_show_where.specs.Excerpts.{excerpt_of, noted};

use crate::excerpts::Excerpt;
use std::alloc::{AllocError, Global};
use xk_core::Core;
use xk_types::Act;

/// Whether an activity is under the finish that its governor opened last.
fn is_in_innermost(core: &Core<'_>, act: Act) -> bool
    requires { act < length core.now.world.activities }
    ensures { result ≡ is_in_innermost core.now.world act }
{
    // For the clause `core`: a governor has a smaller number.
    let _there = core.activities();
    match core.governor(act) {
        None => false,
        Some(governor) => core.is_under(governor, act),
    }
}

/// The same of all activities.
fn those_in_innermost(alloc: Global, core: &Core<'_>) -> Result<Vec<bool>, AllocError>
    ensures { IfOk result (λ v. v.items
        ≡ each_below (λ b. is_in_innermost core.now.world b ∷ [])
        (length core.now.world.activities)) }
{
    let mut are = Vec::new(alloc);
    for act in 0..core.activities() {
        are.push(is_in_innermost(core, Act(act)))?;
    }
    Ok(are)
}

/// So many excerpts of no activities.
fn empty_excerpts(alloc: Global, count: u32) -> Result<Vec<Excerpt>, AllocError>
    ensures { IfOk result (λ v. v.items ≡ replicate count (excerpt_of [])) }
{
    let mut table = Vec::new(alloc);
    for _ in 0..count {
        table.push(Excerpt::new(alloc))?;
    }
    Ok(table)
}

/// Adds an activity to the excerpt of this number, if it belongs there.
fn note_at(table: &mut Vec<Excerpt>, owner: Act, act: u32, belongs: bool) -> Result<(), AllocError>
    requires there { owner < length table.old.items }
    requires room { (slice_index_or table.old.items owner (excerpt_of [])).count < 2 ^ 32 }
    ensures { OnOk result (table.new.items ≡ slice_set table.old.items owner
        (noted belongs act (slice_index_or table.old.items owner (excerpt_of [])))) }
{
    if let Some(excerpt) = table.get_mut(owner.0 as usize) {
        excerpt.note(act, belongs)?;
    }
    Ok(())
}

/// Whether a number is marked.
fn is_marked(marks: &[bool], number: u32) -> bool
    ensures { result ≡ slice_index_or marks.now number false }
{
    match marks.get(number as usize) {
        Some(is) => *is,
        None => false,
    }
}

/// Adds an activity, if it lives, to the excerpts of all who await it: it goes up from governor to governor, and is
/// noted for each that governs the one below it by the finish that it opened last.
fn note_awaited(
    core: &Core<'_>,
    in_innermost: &[bool],
    table: &mut Vec<Excerpt>,
    act: u32,
) -> Result<(), AllocError>
    requires there { act < length core.now.world.activities }
    requires innermost { in_innermost.now
        ≡ each_below (λ b. is_in_innermost core.now.world b ∷ [])
        (length core.now.world.activities) }
    requires before { AreAwaited core.now.world act table.old.items }
    ensures { OnOk result (AreAwaited core.now.world (act + 1) table.new.items) }
{
    // For the clause `core`: a governor has a smaller number.
    let _there = core.activities();
    if !core.is_living(Act(act)) {
        return Ok(());
    }
    let mut member = act;
    'up: while let Some(owner) = core.governor(Act(member)) {
        let belongs = is_marked(in_innermost, member);
        note_at(table, owner, act, belongs)?;
        member = owner.0;
    }
    Ok(())
}

/// Whom each activity awaits: each living activity is looked at once, with those above it. Err where memory was refused.
pub fn all_awaited(alloc: Global, core: &Core<'_>) -> Result<Vec<Excerpt>, AllocError>
    ensures { IfOk result (λ v. AreAwaited core.now.world
        (length core.now.world.activities) v.items) }
{
    let in_innermost = those_in_innermost(alloc, core)?;
    let count = core.activities();
    let mut table = empty_excerpts(alloc, count)?;
    for act in 0..count {
        note_awaited(core, &in_innermost, &mut table, act)?;
    }
    Ok(table)
}
