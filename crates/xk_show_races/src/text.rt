//! What is told of races, each by two accesses.

ghost use Rattle.std.specs.Prelude.{◌≡◌, ◌++◌, flat_map, option_map, IfOk, OnOk, string_bytes};
ghost use Rattle.xk_show_names.specs.Events.{subject_word};
ghost use Rattle.xk_show_races.specs.Accounts.{kept_lines};
ghost use Rattle.xk_show_races.specs.Text.{access_line, access_lines, head_line, pair_lines};

use crate::accounts::ByNumber;
use crate::source_lines::SourceLines;
use std::alloc::{AllocError, Global};
use xk_races::Race;
use xk_show_events::place_words;
use xk_show_names::{Account, Names, Subject, account_words, clock_word, shared_word};

/// What a step was about, by its name.
fn subject_word(alloc: Global, names: &Names<'_>, subject: Subject) -> Result<String, AllocError>
    ensures { IfOk result (λ text. string_bytes text ≡ subject_word names.now subject) }
{
    match subject {
        Subject::Nothing => Ok(String::new(alloc)),
        Subject::Clock(clock) => clock_word(alloc, names, clock),
        Subject::Shared(number) => shared_word(alloc, names, number),
    }
}

/// The line over a race: `race on total`.
#[tactic(auto, unfolding(crate::specs::Text::head_line))]
fn head_line(alloc: Global, names: &Names<'_>, account: &Account) -> Result<String, AllocError>
    ensures { IfOk result (λ text. string_bytes text ≡ head_line names.now account.now) }
{
    let name = subject_word(alloc, names, account.subject)?;
    format!(in alloc; "race on {name}\n")
}

/// The line of an access: `step 15 act 2 at 7:5 write total 3`.
#[tactic(auto, unfolding(crate::specs::Text::access_line))]
fn access_line(
    alloc: Global,
    source: &SourceLines<'_>,
    names: &Names<'_>,
    account: &Account,
) -> Result<String, AllocError>
    ensures { IfOk result
        (λ text. string_bytes text ≡ access_line source.now names.now account.now) }
{
    let number = account.step.number;
    let act = account.step.act;
    let origin = source
        .places()
        .origin(account.step.unit, account.step.place);
    let place = place_words(alloc, account.step.unit, account.step.place, origin)?;
    let words = account_words(alloc, names, account)?;
    format!(in alloc; "step {number} act {act} {place} {words}\n")
}

/// Adds the line of an access, and that of the text with a caret below it.
fn push_access(
    alloc: Global,
    out: &mut Vec<u8>,
    source: &SourceLines<'_>,
    names: &Names<'_>,
    account: &Account,
) -> Result<(), AllocError>
    ensures { OnOk result (out.new.items ≡ out.old.items
        ++ access_lines source.now names.now account.now) }
{
    let line = access_line(alloc, source, names, account)?;
    out.extend_from_slice(line.as_bytes())?;
    let excerpt = source.excerpt(alloc, account.step.unit, account.step.place)?;
    out.extend_from_slice(&excerpt)
}

/// The lines of two steps that raced.
fn two_accesses(
    alloc: Global,
    source: &SourceLines<'_>,
    names: &Names<'_>,
    first: &Account,
    second: &Account,
) -> Result<Vec<u8>, AllocError>
    ensures { IfOk result (λ v. v.items ≡ head_line names.now first.now
        ++ (access_lines source.now names.now first.now
        ++ access_lines source.now names.now second.now)) }
{
    let mut out = Vec::new(alloc);
    let head = head_line(alloc, names, first)?;
    out.extend_from_slice(head.as_bytes())?;
    push_access(alloc, &mut out, source, names, first)?;
    push_access(alloc, &mut out, source, names, second)?;
    Ok(out)
}

/// The same, where both are known.
fn pair_lines(
    alloc: Global,
    source: &SourceLines<'_>,
    names: &Names<'_>,
    first: Option<&Account>,
    second: Option<&Account>,
) -> Result<Vec<u8>, AllocError>
    ensures { IfOk result (λ v. v.items ≡ pair_lines source.now names.now
        (option_map (λ a. a.now) first.entry) (option_map (λ a. a.now) second.entry)) }
{
    match first {
        None => Ok(Vec::new(alloc)),
        Some(first) => match second {
            None => Ok(Vec::new(alloc)),
            Some(second) => two_accesses(alloc, source, names, first, second),
        },
    }
}

/// Adds the lines of a race.
fn push_race(
    alloc: Global,
    out: &mut Vec<u8>,
    source: &SourceLines<'_>,
    names: &Names<'_>,
    steps: &ByNumber,
    race: &Race,
) -> Result<(), AllocError>
    ensures { OnOk result (out.new.items ≡ out.old.items
        ++ kept_lines source.now names.now steps.now race.now) }
{
    let first = steps.get(&race.first.number);
    let second = steps.get(&race.second.number);
    let lines = pair_lines(alloc, source, names, first, second)?;
    out.extend_from_slice(&lines)
}

/// The lines of races, whose steps are looked up there. Err where memory was refused.
pub(crate) fn lines_of(
    alloc: Global,
    source: &SourceLines<'_>,
    names: &Names<'_>,
    steps: &ByNumber,
    races: &[Race],
) -> Result<Vec<u8>, AllocError>
    ensures { IfOk result
        (λ v. v.items ≡ flat_map (kept_lines source.now names.now steps.now) races.now) }
{
    let mut out = Vec::new(alloc);
    for race in races {
        push_race(alloc, &mut out, source, names, steps, race)?;
    }
    Ok(out)
}
