//! The lines of steps, as they stand among those of a run.

ghost use Rattle.std.specs.Prelude.{◌≡◌, ◌++◌, flat_map, length, slice_get, take, option_map, IfOk, OnOk, string_bytes};
ghost use Rattle.xk_show_names.specs.Accounts.{is_shared, puts, seen_accounts, writer, writer_for, writes};
ghost use Rattle.xk_show_names.specs.Events.{account_line, line_at, source_by, step_words, writer_words};
ghost use Rattle.xk_why.specs.Lines.{count_line, is_number, line_if, lines_for, most_shown, why_lines};

use std::alloc::{AllocError, Global};
use xk_core::Core;
use xk_scheduler::Ended;
use xk_show_events::{LegalRun, Places, RunStep, is_seen, place_words};
use xk_show_names::{Account, Names, Recount, Subject, account_words, recount_run};
use xk_types::Event;

/// Tells of the steps that other activities can see.
struct SeenAccounts;

impl Recount<Account> for SeenAccounts {
    ghost use Rattle.xk_show_names.specs.Accounts.{account_if_seen};

    ghost recount = { λ recounter m v a. account_if_seen a };

    fn push(
        &self,
        _alloc: Global,
        out: &mut Vec<Account>,
        _core: &Core<'_>,
        account: &Account,
    ) -> Result<(), AllocError> {
        if is_seen(account.step.event) {
            out.push(*account)?;
        }
        Ok(())
    }
}

/// The steps of a run that other activities can see, and what they were about. The log is played again for it.
/// Err where memory was refused.
pub(crate) fn seen_accounts(alloc: Global, ended: &Ended<'_>) -> Result<Vec<Account>, AllocError>
    ensures { IfOk result (λ v. v.items ≡ seen_accounts
        ended.now.module.now ended.now.core.world.arguments ended.now.log.items) }
{
    let mut list = Vec::new(alloc);
    recount_run(&SeenAccounts, alloc, &mut list, &LegalRun::of(ended))?;
    Ok(list)
}

/// Whether a step changed a shared number.
fn puts(event: Event) -> bool
    ensures { result ≡ puts event }
{
    matches!(event, Event::Put | Event::Added)
}

/// Whether it is this shared number.
fn is_shared(number: u16, subject: Subject) -> bool
    ensures { result ≡ is_shared number subject }
{
    match subject {
        Subject::Shared(other) => other == number,
        _ => false,
    }
}

/// Whether a step wrote or added to this shared number.
fn writes(number: u16, account: &Account) -> bool
    ensures { result ≡ writes number account.now }
{
    puts(account.step.event) && is_shared(number, account.subject)
}

/// Which of these steps wrote or added to a shared number last; 0, if none did.
fn writer(steps: &[Account], number: u16) -> u64
    ensures { result ≡ writer number 0 steps.now }
{
    let mut last = 0;
    for account in steps {
        if writes(number, account) {
            last = account.step.number;
        }
    }
    last
}

/// Which of these steps wrote last what a step is about.
fn writer_for(steps: &[Account], subject: Subject) -> u64
    ensures { result ≡ writer_for steps.now subject }
{
    match subject {
        Subject::Shared(number) => writer(steps, number),
        _ => 0,
    }
}

/// A step, and where it was taken: `step 4 act 0 at 6:5`.
#[tactic(auto, unfolding(xk_show_names::specs::Events::step_words))]
fn step_words(alloc: Global, places: &Places<'_>, step: &RunStep) -> Result<String, AllocError>
    ensures { IfOk result (λ text. string_bytes text ≡ step_words places.now step.now) }
{
    let number = step.number;
    let act = step.act;
    let origin = places.origin(step.unit, step.place);
    let place = place_words(alloc, step.unit, step.place, origin)?;
    format!(in alloc; "step {number} act {act} {place}")
}

/// Which step wrote what is read, after a blank.
fn writer_words(alloc: Global, writer: u64) -> Result<String, AllocError>
    ensures { IfOk result (λ text. string_bytes text ≡ writer_words writer) }
{
    if writer == 0 {
        return format!(in alloc; " (opening)");
    }
    format!(in alloc; " (step {writer})")
}

/// The same of a step that reads; nothing of others.
fn source_by(alloc: Global, writer: u64, event: Event) -> Result<String, AllocError>
    ensures { IfOk result (λ text. string_bytes text ≡ source_by writer event) }
{
    match event {
        Event::Got => writer_words(alloc, writer),
        _ => Ok(String::new(alloc)),
    }
}

/// The line of a step; this one wrote last what it is about.
#[tactic(auto, unfolding(xk_show_names::specs::Events::account_line))]
fn account_line(
    alloc: Global,
    places: &Places<'_>,
    names: &Names<'_>,
    writer: u64,
    account: &Account,
) -> Result<String, AllocError>
    ensures { IfOk result (λ text. string_bytes text
        ≡ account_line places.now names.now writer account.now) }
{
    let front = step_words(alloc, places, &account.step)?;
    let words = account_words(alloc, names, account)?;
    let source = source_by(alloc, writer, account.step.event)?;
    format!(in alloc; "{front} {words}{source}\n")
}

/// The line of step i of these.
fn line_at(
    alloc: Global,
    places: &Places<'_>,
    names: &Names<'_>,
    steps: &[Account],
    i: usize,
) -> Result<String, AllocError>
    ensures { IfOk result (λ text. string_bytes text
        ≡ line_at places.now names.now steps.now i) }
{
    if i >= steps.len() {
        return Ok(String::new(alloc));
    }
    let account = steps[i];
    let writer = writer_for(&steps[..i], account.subject);
    account_line(alloc, places, names, writer, &account)
}

/// Whether step i of these has this number.
fn is_number(steps: &[Account], number: u64, i: usize) -> bool
    ensures { result ≡ is_number number (slice_get steps.now i) }
{
    match steps.get(i) {
        Some(account) => account.step.number == number,
        None => false,
    }
}

/// Puts a piece behind a text.
pub(crate) fn put(text: &mut String, piece: &str) -> Result<(), AllocError>
    ensures { OnOk result (string_bytes text.new ≡ string_bytes text.old ++ piece.now) }
{
    text.push_str(piece)?;
    Ok(())
}

/// Adds the line of step i of these, if it has this number.
fn put_line_if(
    text: &mut String,
    alloc: Global,
    places: &Places<'_>,
    names: &Names<'_>,
    steps: &[Account],
    number: u64,
    i: usize,
) -> Result<(), AllocError>
    ensures { OnOk result (string_bytes text.new ≡ string_bytes text.old
        ++ line_if places.now names.now steps.now number i) }
{
    if !is_number(steps, number, i) {
        return Ok(());
    }
    let line = line_at(alloc, places, names, steps, i)?;
    put(text, line.as_str())
}

/// Adds the line of the one of these steps that has this number.
fn put_line_for(
    text: &mut String,
    alloc: Global,
    places: &Places<'_>,
    names: &Names<'_>,
    steps: &[Account],
    number: u64,
) -> Result<(), AllocError>
    ensures { OnOk result (string_bytes text.new ≡ string_bytes text.old
        ++ lines_for places.now names.now steps.now number) }
{
    for i in 0..steps.len() {
        put_line_if(text, alloc, places, names, steps, number, i)?;
    }
    Ok(())
}

/// So many lines are shown at most.
#[tactic(auto, unfolding(crate::specs::Lines::most_shown))]
fn most_shown() -> usize
    ensures { result ≡ most_shown }
{
    100
}

/// How many steps it rests on, and how many of them are shown.
#[tactic(auto, unfolding(crate::specs::Lines::most_shown))]
pub(crate) fn count_line(alloc: Global, count: usize) -> Result<String, AllocError>
    ensures { IfOk result (λ text. string_bytes text ≡ count_line count) }
{
    if count > 100 {
        return format!(in alloc; "rests on steps {count}, the last 100 shown\n");
    }
    format!(in alloc; "rests on steps {count}\n")
}

/// Adds the lines of these steps.
fn put_lines(
    text: &mut String,
    alloc: Global,
    places: &Places<'_>,
    names: &Names<'_>,
    steps: &[Account],
    numbers: &[u64],
) -> Result<(), AllocError>
    ensures { OnOk result (string_bytes text.new ≡ string_bytes text.old
        ++ flat_map (lines_for places.now names.now steps.now) numbers.now) }
{
    for number in numbers {
        put_line_for(text, alloc, places, names, steps, *number)?;
    }
    Ok(())
}

/// The first of these numbers: so many as are shown.
pub(crate) fn first_shown(numbers: &[u64]) -> &[u64]
    ensures { result.now ≡ take most_shown numbers.now }
{
    &numbers[..numbers.len().min(most_shown())]
}

/// The line of a step, those of the steps that it rests on, and how many these are.
pub(crate) fn why_lines(
    alloc: Global,
    places: &Places<'_>,
    names: &Names<'_>,
    steps: &[Account],
    number: u64,
    rest: &[u64],
) -> Result<String, AllocError>
    ensures { IfOk result (λ text. string_bytes text
        ≡ why_lines places.now names.now steps.now number rest.now) }
{
    let mut text = String::new(alloc);
    put_line_for(&mut text, alloc, places, names, steps, number)?;
    put_lines(&mut text, alloc, places, names, steps, first_shown(rest))?;
    let count = count_line(alloc, rest.len())?;
    put(&mut text, count.as_str())?;
    Ok(text)
}
