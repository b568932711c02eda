//! A path by lines of the text.

ghost use Rattle.std.specs.Prelude.{◌≡◌, ◌++◌, flat_map, IfOk, OnOk, string_bytes};
ghost use Rattle.xk_show_span.specs.Text.{at_line, count_words, line_of, lines_line, lines_of, lines_text, more_words};

use std::alloc::{AllocError, Global};
use xk_lines::Position;
use xk_show_events::{Places, RunStep};
use xk_span_summary::{Count, add_one, greatest_few};

/// One more at the line of this position, if there is one.
fn add_at(counts: &mut Vec<usize>, position: Option<Position>) -> Result<(), AllocError>
    ensures { OnOk result (counts.new.items ≡ at_line position counts.old.items) }
{
    match position {
        None => Ok(()),
        Some(position) => add_one(counts, position.line),
    }
}

/// How many steps of a path come from each line. Err where memory was refused.
pub fn lines_of(
    alloc: Global,
    places: &Places<'_>,
    path: &[RunStep],
) -> Result<Vec<usize>, AllocError>
    ensures { IfOk result (λ v. v.items ≡ lines_of places.now path.now) }
{
    let mut counts = Vec::new(alloc);
    for step in path {
        add_at(&mut counts, places.origin(step.unit, step.place))?;
    }
    Ok(counts)
}

/// ` 4 with 52`.
#[tactic(auto, unfolding(crate::specs::Text::count_words))]
fn count_words(alloc: Global, count: Count) -> Result<String, AllocError>
    ensures { IfOk result (λ text. string_bytes text ≡ count_words count) }
{
    let number = count.number;
    let many = count.many;
    format!(in alloc; " {number} with {many}")
}

/// Adds a count behind another one.
fn push_more(alloc: Global, out: &mut Vec<u8>, count: Count) -> Result<(), AllocError>
    ensures { OnOk result (out.new.items ≡ out.old.items ++ more_words count) }
{
    out.extend_from_slice(b",")?;
    let words = count_words(alloc, count)?;
    out.extend_from_slice(words.as_bytes())?;
    Ok(())
}

/// Adds these behind another one.
fn push_each(alloc: Global, out: &mut Vec<u8>, counts: &[Count]) -> Result<(), AllocError>
    ensures { OnOk result (out.new.items ≡ out.old.items ++ flat_map more_words counts.now) }
{
    for count in counts {
        push_more(alloc, out, *count)?;
    }
    Ok(())
}

/// The line of one and these behind it.
fn line_of(alloc: Global, first: Count, rest: &[Count]) -> Result<Vec<u8>, AllocError>
    ensures { IfOk result (λ v. v.items ≡ line_of first rest.now) }
{
    let words = count_words(alloc, first)?;
    let mut out = Vec::new(alloc);
    out.extend_from_slice(b"path lines")?;
    out.extend_from_slice(words.as_bytes())?;
    push_each(alloc, &mut out, rest)?;
    out.extend_from_slice(b"\n")?;
    Ok(out)
}

/// The line of these, if there are any.
fn lines_line(alloc: Global, counts: &[Count]) -> Result<Vec<u8>, AllocError>
    ensures { IfOk result (λ v. v.items ≡ lines_line counts.now) }
{
    match counts {
        [] => Ok(Vec::new(alloc)),
        [first, rest @ ..] => line_of(alloc, *first, rest),
    }
}

/// The lines with the most steps of a path.
pub(crate) fn lines_text(
    alloc: Global,
    places: &Places<'_>,
    path: &[RunStep],
) -> Result<Vec<u8>, AllocError>
    ensures { IfOk result (λ v. v.items ≡ lines_text places.now path.now) }
{
    let counts = lines_of(alloc, places, path)?;
    let few = greatest_few(alloc, counts, 5)?;
    lines_line(alloc, &few)
}
