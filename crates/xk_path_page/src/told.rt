//! What a page has of a critical path.

ghost use Rattle.std.specs.Prelude.{◌≡◌, ◌++◌, flat_map, IfOk, OnOk, string_bytes};
ghost use Rattle.xk_path_page.specs.PathPage.{line_if_any, line_words, lines_told, path_told, step_line, steps_told, told_with};

use std::alloc::{AllocError, Global};
use xk_scheduler::Ended;
use xk_show_events::{Places, RunStep};
use xk_show_lanes::{Window, push_text};
use xk_show_path::{Rounds, boxes_of};
use xk_show_span::{lines_of, span};
use xk_span_summary::number_at;

/// The line of a step: `step 77 act 3 round 43`.
#[tactic(auto, unfolding(crate::specs::PathPage::step_line))]
fn step_line(alloc: Global, rounds: &Rounds, step: &RunStep) -> Result<String, AllocError>
    ensures { IfOk result (λ t. string_bytes t ≡ step_line rounds.now step.now) }
{
    let number = step.number;
    let act = step.act;
    let round = rounds.round_of(number);
    format!(in alloc; "step {number} act {act} round {round}\n")
}

/// Adds the lines of these steps.
fn push_each(
    alloc: Global,
    out: &mut Vec<u8>,
    rounds: &Rounds,
    steps: &[RunStep],
) -> Result<(), AllocError>
    ensures { OnOk result (out.new.items
        ≡ out.old.items ++ flat_map (step_line rounds.now) steps.now) }
{
    for step in steps {
        let line = step_line(alloc, rounds, step)?;
        push_text(out, line.as_str())?;
    }
    Ok(())
}

/// Adds the lines of the path's steps that the page has.
fn push_steps(
    alloc: Global,
    out: &mut Vec<u8>,
    rounds: &Rounds,
    window: Window,
) -> Result<(), AllocError>
    ensures { OnOk result (out.new.items ≡ out.old.items ++ steps_told window rounds.now) }
{
    let boxes = boxes_of(alloc, window, rounds.path())?;
    push_each(alloc, out, rounds, &boxes)
}

/// `line 4 with 52`.
#[tactic(auto, unfolding(crate::specs::PathPage::line_words))]
fn line_words(alloc: Global, line: usize, many: usize) -> Result<String, AllocError>
    ensures { IfOk result (λ t. string_bytes t ≡ line_words line many) }
{
    format!(in alloc; "line {line} with {many}\n")
}

/// The line that tells how many steps come from a line of the source text, if any do.
fn line_if_any(alloc: Global, counts: &[usize], line: usize) -> Result<String, AllocError>
    ensures { IfOk result (λ t. string_bytes t ≡ line_if_any counts.now line) }
{
    let many = number_at(counts, line);
    if many == 0 {
        return Ok(String::new(alloc));
    }
    line_words(alloc, line, many)
}

/// Adds of each line how many steps come from it, by how many do.
fn push_lines(alloc: Global, out: &mut Vec<u8>, counts: &[usize]) -> Result<(), AllocError>
    ensures { OnOk result (out.new.items ≡ out.old.items ++ lines_told counts.now) }
{
    for line in 0..counts.len() {
        let words = line_if_any(alloc, counts, line)?;
        push_text(out, words.as_str())?;
    }
    Ok(())
}

/// Adds to what `span` tells what is told of the path's steps.
fn push_told(
    alloc: Global,
    out: &mut Vec<u8>,
    rounds: &Rounds,
    places: &Places<'_>,
    window: Window,
) -> Result<(), AllocError>
    ensures { OnOk result (out.new.items
        ≡ told_with out.old.items rounds.now places.now window) }
{
    let counts = lines_of(alloc, places, rounds.path())?;
    push_steps(alloc, out, rounds, window)?;
    push_lines(alloc, out, &counts)
}

/// What the page has of a run's path.
pub(crate) fn path_told(
    alloc: Global,
    places: &Places<'_>,
    ended: &Ended<'_>,
    window: Window,
) -> Result<Vec<u8>, AllocError>
    ensures { IfOk result (λ v. v.items ≡ path_told places.now window
        ended.now.module.now ended.now.core.world.arguments ended.now.log.items) }
{
    let rounds = Rounds::of(alloc, ended)?;
    let report = span(alloc, places, ended)?;
    let mut out = report.text;
    push_told(alloc, &mut out, &rounds, places, window)?;
    Ok(out)
}
