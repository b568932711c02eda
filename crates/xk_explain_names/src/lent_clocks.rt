//! What is told where a method starts an activity on a clock that is hidden from it.

ghost use Rattle.std.specs.Prelude.{◌≡◌, ◌-◌, None, drop, map, option_map, take, IfOk};
ghost use Rattle.xk_tree.specs.Program.{tree_value};
ghost use Rattle.xk_tree.specs.Tree.{method_value};
ghost use Rattle.xk_explain_kinds.specs.Declarations.{declared_here};
ghost use Rattle.xk_explain_names.specs.LentClocks.{clock_name, has_finish, is_lender, last_method, lent_by, lent_note, lent_notes};
ghost use Rattle.xk_explain_names.specs.LentClocks.{lent_text, unseen_text};

use crate::plain_finishes::{finish_among, push_finish};
use std::alloc::{AllocError, Global};
use xk_explain::Note;
use xk_explain_kinds::{Declaration, around_name, declarations, is_taken, params_text, push_text};
use xk_explain_words::{begins, is_same, told_name};
use xk_tree::{Method, Tree};

/// The method that an offset stands in.
fn last_method<'m, 't>(at: usize, methods: &'m [Method<'t>]) -> Option<&'m Method<'t>>
    ensures { option_map (λ m. method_value m.now) result
        ≡ last_method at None (map method_value methods.now) }
{
    let mut found = None;
    for method in methods {
        if method.name.at < at {
            found = Some(method);
        }
    }
    found
}

/// Whether a `finish` stands there.
fn has_finish(text: &[u8]) -> bool
    ensures { result ≡ has_finish text.now }
{
    let mut rest = text;
    while let [_, after @ ..] = rest {
        if begins(rest, b"finish") {
            return true;
        }
        rest = after;
    }
    false
}

/// What stands from one offset up to another one.
fn part(text: &[u8], from: usize, at: usize) -> &[u8]
    ensures { result.now ≡ take (at - from) (drop from text.now) }
{
    match text.get(from..) {
        Some(rest) => &rest[..rest.len().min(at.saturating_sub(from))],
        None => b"",
    }
}

/// Whether the method may be called in a `clocked finish`, and has none itself.
fn is_lender(text: &[u8], at: usize, method: &Method<'_>) -> bool
    ensures { result ≡ is_lender text.now at (method_value method.now) }
{
    !is_same(method.name.text, b"main") && !has_finish(part(text, method.name.at, at))
}

/// A name for its clock.
fn clock_name(all: &[Declaration<'_>]) -> &'static [u8]
    ensures { result.now ≡ clock_name (declared_here all.now) }
{
    if is_taken(b"c", all) {
        return b"clock";
    }
    b"c"
}

/// The head to write, and the `async`.
#[tactic(auto, unfolding(crate::specs::LentClocks::lent_text))]
fn lent_text(alloc: Global, clock: &[u8], method: &Method<'_>) -> Result<Vec<u8>, AllocError>
    ensures { IfOk result (λ v. v.items ≡ lent_text clock.now (method_value method.now)) }
{
    let params = params_text(alloc, &method.params)?;
    let mut out = Vec::new(alloc);
    let told = told_name(alloc, method.name.text)?;
    push_text(&mut out, "take the clock as a parameter, `def ")?;
    out.extend_from_slice(&told)?;
    push_text(&mut out, "(")?;
    out.extend_from_slice(&params)?;
    out.extend_from_slice(clock)?;
    push_text(&mut out, ": Clock)`, and write `async clocked (")?;
    out.extend_from_slice(clock)?;
    push_text(&mut out, ")`")?;
    Ok(out)
}

/// What a method doesn't see.
#[tactic(auto, unfolding(crate::specs::LentClocks::unseen_text))]
fn unseen_text(alloc: Global, name: &[u8]) -> Result<Vec<u8>, AllocError>
    ensures { IfOk result (λ v. v.items ≡ unseen_text name.now) }
{
    around_name(
        alloc,
        "`",
        name,
        "` doesn't see the clocks of those that call it",
    )
}

/// The note on a method.
fn lent_note(alloc: Global, clock: &[u8], method: &Method<'_>) -> Result<Note, AllocError>
    ensures { IfOk result (λ n. n ≡ lent_note clock.now (method_value method.now)) }
{
    let text = unseen_text(alloc, method.name.text)?;
    let repair = lent_text(alloc, clock, method)?;
    Ok(Note {
        at: Some(method.name.at),
        text,
        repair: Some(repair),
    })
}

/// What is told beside a `clocked async` without a clock. Err where memory was refused.
pub(crate) fn lent_notes(
    alloc: Global,
    tree: &Tree<'_>,
    text: &[u8],
    at: usize,
) -> Result<Vec<Note>, AllocError>
    ensures { IfOk result (λ notes. notes.items ≡ lent_notes (tree_value tree.now) text.now at) }
{
    let mut notes = Vec::new(alloc);
    let Some(method) = last_method(at, &tree.methods) else {
        return Ok(notes);
    };
    if !is_lender(text, at, method) {
        push_finish(alloc, &mut notes, finish_among(at, None, &method.body))?;
        return Ok(notes);
    }
    let all = declarations(alloc, tree)?;
    notes.push(lent_note(alloc, clock_name(&all), method)?)?;
    Ok(notes)
}
