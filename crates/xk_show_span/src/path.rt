//! A path by stretches, a line each.

ghost use Rattle.std.specs.Prelude.{◌≡◌, flat_map, IfOk, string_bytes};
ghost use Rattle.xk_show_span.specs.Text.{cause, cause_words, most_shown, path_text, rest_line, stretch_line};

use crate::spots::spot;
use std::alloc::{AllocError, Global};
use xk_show_events::Places;
use xk_span_summary::Stretch;
use xk_types::Event;

/// Why the first step of a stretch comes behind one of another activity.
fn cause(event: Event) -> &'static str
    ensures { result.now ≡ cause event }
{
    match event {
        Event::Passed => ", passes a clock that waited for act ",
        Event::Closed => ", closes a finish that waited for act ",
        _ => ", started by act ",
    }
}

/// The same, with whose step that is, if there is one.
fn cause_words(alloc: Global, behind: Option<u32>, event: Event) -> Result<String, AllocError>
    ensures { IfOk result (λ text. string_bytes text ≡ cause_words behind event) }
{
    match behind {
        None => Ok(String::new(alloc)),
        Some(act) => {
            let cause = cause(event);
            format!(in alloc; "{cause}{act}")
        }
    }
}

/// The line of a stretch.
#[tactic(auto, unfolding(crate::specs::Text::stretch_line))]
fn stretch_line(alloc: Global, places: &Places<'_>, stretch: &Stretch) -> Result<String, AllocError>
    ensures { IfOk result (λ text. string_bytes text ≡ stretch_line places.now stretch.now) }
{
    let start = stretch.start;
    let stop = stretch.stop;
    let act = stretch.first.act;
    let first = spot(alloc, places, &stretch.first)?;
    let last = spot(alloc, places, &stretch.last)?;
    let cause = cause_words(alloc, stretch.behind, stretch.first.event)?;
    format!(in alloc; "path rounds {start} to {stop} act {act} from {first} to {last}{cause}\n")
}

/// The lines of stretches.
fn stretch_lines(
    alloc: Global,
    places: &Places<'_>,
    list: &[Stretch],
) -> Result<Vec<u8>, AllocError>
    ensures { IfOk result (λ v. v.items ≡ flat_map (stretch_line places.now) list.now) }
{
    let mut out = Vec::new(alloc);
    for stretch in list {
        let line = stretch_line(alloc, places, stretch)?;
        out.extend_from_slice(line.as_bytes())?;
    }
    Ok(out)
}

/// So many stretches are shown at most.
#[tactic(auto, unfolding(crate::specs::Text::most_shown))]
fn most_shown() -> usize
    ensures { result ≡ most_shown }
{
    200
}

/// How many aren't shown.
fn rest_line(alloc: Global, n: usize) -> Result<String, AllocError>
    ensures { IfOk result (λ text. string_bytes text ≡ rest_line n) }
{
    if n == 0 {
        return Ok(String::new(alloc));
    }
    format!(in alloc; "path and {n} stretches more\n")
}

/// The lines of the first stretches, and how many more there are.
pub(crate) fn path_text(
    alloc: Global,
    places: &Places<'_>,
    list: &[Stretch],
) -> Result<Vec<u8>, AllocError>
    ensures { IfOk result (λ v. v.items ≡ path_text places.now list.now) }
{
    let shown = &list[..list.len().min(most_shown())];
    let mut out = stretch_lines(alloc, places, shown)?;
    let rest = rest_line(alloc, list.len().saturating_sub(most_shown()))?;
    out.extend_from_slice(rest.as_bytes())?;
    Ok(out)
}
