//! What is told of the races of a run.

ghost use Rattle.std.specs.Prelude.{◌≡◌, ◌++◌, flat_map, length, IfOk, OnOk, string_bytes};
ghost use Rattle.xk_races.specs.Text.{access_words, closing_text, count_line, most_shown, print_line, print_line_if_free, race_line, scope_line, step_words};

use crate::pairs::{Gap, Race};
use std::alloc::{AllocError, Global};
use xk_show_events::{Places, RunStep, event_words, place_words};

/// A step, and where it was taken: `step 9 act 1 at 13:9`.
#[tactic(auto, unfolding(crate::specs::Text::step_words))]
fn step_words(alloc: Global, places: &Places<'_>, step: &RunStep) -> Result<String, AllocError>
    ensures { IfOk result (λ text. string_bytes text ≡ step_words places.now step.now) }
{
    let number = step.number;
    let act = step.act;
    let origin = places.origin(step.unit, step.place);
    let place = place_words(alloc, step.unit, step.place, origin)?;
    format!(in alloc; "step {number} act {act} {place}")
}

/// An access: `step 9 act 1 at 13:9 write`.
#[tactic(auto, unfolding(crate::specs::Text::access_words))]
fn access_words(alloc: Global, places: &Places<'_>, step: &RunStep) -> Result<String, AllocError>
    ensures { IfOk result (λ text. string_bytes text ≡ access_words places.now step.now) }
{
    let front = step_words(alloc, places, step)?;
    let words = event_words(alloc, step)?;
    format!(in alloc; "{front} {words}")
}

/// The line of a race.
#[tactic(auto, unfolding(crate::specs::Text::race_line))]
fn race_line(alloc: Global, places: &Places<'_>, race: &Race) -> Result<String, AllocError>
    ensures { IfOk result (λ text. string_bytes text ≡ race_line places.now race.now) }
{
    let cell = race.cell;
    let first = access_words(alloc, places, &race.first)?;
    let second = access_words(alloc, places, &race.second)?;
    format!(in alloc; "race shared {cell}: {first}, {second}\n")
}

/// The lines of races.
pub fn race_lines(alloc: Global, places: &Places<'_>, races: &[Race]) -> Result<Vec<u8>, AllocError>
    ensures { IfOk result (λ v. v.items ≡ flat_map (race_line places.now) races.now) }
{
    let mut out = Vec::new(alloc);
    for race in races {
        let line = race_line(alloc, places, race)?;
        out.extend_from_slice(line.as_bytes())?;
    }
    Ok(out)
}

/// So many races are shown at most.
#[tactic(auto, unfolding(crate::specs::Text::most_shown))]
pub(crate) fn most_shown() -> usize
    ensures { result ≡ most_shown }
{
    10_000
}

/// How many races there are, or that there are more than are shown.
#[tactic(auto, unfolding(crate::specs::Text::count_line))]
fn count_line(alloc: Global, count: usize) -> Result<String, AllocError>
    ensures { IfOk result (λ text. string_bytes text ≡ count_line count) }
{
    let most = most_shown();
    if count > most {
        return format!(in alloc; "races {most} and more\n");
    }
    format!(in alloc; "races {count}\n")
}

/// Whether the prints are in one order.
#[tactic(auto, unfolding(crate::specs::Text::print_line))]
fn print_line(alloc: Global, places: &Places<'_>, gap: Option<Gap>) -> Result<String, AllocError>
    ensures { IfOk result (λ text. string_bytes text ≡ print_line places.now gap) }
{
    match gap {
        None => format!(in alloc; "prints in one order\n"),
        Some(gap) => {
            let first = step_words(alloc, places, &gap.first)?;
            let second = step_words(alloc, places, &gap.second)?;
            format!(in alloc; "prints not in one order: {first}, {second}\n")
        }
    }
}

/// The same, where there is no race.
fn print_line_if_free(
    alloc: Global,
    places: &Places<'_>,
    races: &[Race],
    gap: Option<Gap>,
) -> Result<String, AllocError>
    ensures { IfOk result
        (λ text. string_bytes text ≡ print_line_if_free places.now races.now gap) }
{
    if races.is_empty() {
        return print_line(alloc, places, gap);
    }
    Ok(String::new(alloc))
}

/// Of which runs it holds.
fn scope_line(races: &[Race], gap: Option<Gap>) -> &'static str
    ensures { result.now ≡ scope_line races.now gap }
{
    if !races.is_empty() {
        return "of this run alone\n";
    }
    match gap {
        None => "every schedule prints these numbers in this order\n",
        Some(_) => "every schedule prints these numbers\n",
    }
}

/// What is told behind the races of a run that has these, and this gap among its prints.
pub fn closing_text(
    alloc: Global,
    places: &Places<'_>,
    races: &[Race],
    gap: Option<Gap>,
) -> Result<Vec<u8>, AllocError>
    ensures { IfOk result (λ v. v.items ≡ closing_text places.now races.now gap) }
{
    let mut out = Vec::new(alloc);
    let count = count_line(alloc, races.len())?;
    out.extend_from_slice(count.as_bytes())?;
    let prints = print_line_if_free(alloc, places, races, gap)?;
    out.extend_from_slice(prints.as_bytes())?;
    out.extend_from_slice(scope_line(races, gap).as_bytes())?;
    Ok(out)
}
