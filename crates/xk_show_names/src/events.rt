//! The steps of a run of a source text's module, a line each, with the names of what they were about, and with values.

ghost use Rattle.std.specs.Prelude.{◌≡◌, ◌++◌, codes, map, IfOk, OnOk, string_bytes};
ghost use Rattle.xk_show_events.specs.Events.{places_of};
ghost use Rattle.xk_show_names.specs.Accounts.{seen_accounts};
ghost use Rattle.xk_show_names.specs.ClockNames.{names_in_run};
ghost use Rattle.xk_show_names.specs.Events.{account_words, change_words, clock_word, number_word, shared_word, subject_word, value_words};
ghost use Rattle.xk_show_names.specs.Events.{account_line, lines_of, named_events_text, source_by, step_words, writer_words};

use crate::accounts::{Account, Subject, seen_accounts};
use crate::clock_names::Names;
use crate::letters::cut_name;
use crate::writers::Writers;
use std::alloc::{AllocError, Global};
use xk_show_events::{LegalRun, Places, RunStep, event_words, place_words};
use xk_types::Event;
use xk_unit_origins::UnitOrigins;

/// A shared number by its name, or `shared 0`. Err where memory was refused.
#[tactic(auto, unfolding(crate::specs::Events::shared_word))]
pub fn shared_word(alloc: Global, names: &Names<'_>, number: u16) -> Result<String, AllocError>
    ensures { IfOk result (λ text. string_bytes text ≡ shared_word names.now number) }
{
    match names.shared_name(number) {
        Some(name) => {
            let letters = cut_name(alloc, name)?;
            String::from_utf8_lossy(alloc, &letters)
        }
        None => format!(in alloc; "shared {number}"),
    }
}

/// A clock by its name, or `clock 0`. Err where memory was refused.
#[tactic(auto, unfolding(crate::specs::Events::clock_word))]
pub fn clock_word(alloc: Global, names: &Names<'_>, clock: u32) -> Result<String, AllocError>
    ensures { IfOk result (λ text. string_bytes text ≡ clock_word names.now clock) }
{
    match names.clock_name(clock) {
        Some(name) => String::from_utf8_lossy(alloc, name),
        None => format!(in alloc; "clock {clock}"),
    }
}

/// What a step was about, by its name.
fn subject_word(alloc: Global, names: &Names<'_>, subject: Subject) -> Result<String, AllocError>
    ensures { IfOk result (λ text. string_bytes text ≡ subject_word names.now subject) }
{
    match subject {
        Subject::Nothing => Ok(String::new(alloc)),
        Subject::Clock(clock) => clock_word(alloc, names, clock),
        Subject::Shared(number) => shared_word(alloc, names, number),
    }
}

/// A number, after a blank.
fn number_word(alloc: Global, number: Option<i64>) -> Result<String, AllocError>
    ensures { IfOk result (λ text. string_bytes text ≡ number_word number) }
{
    match number {
        Some(number) => format!(in alloc; " {number}"),
        None => Ok(String::new(alloc)),
    }
}

/// What a step was about, and what the shared number was behind it: ` total 2`.
#[tactic(auto, unfolding(crate::specs::Events::value_words))]
fn value_words(alloc: Global, names: &Names<'_>, account: &Account) -> Result<String, AllocError>
    ensures { IfOk result (λ text. string_bytes text ≡ value_words names.now account.now) }
{
    let name = subject_word(alloc, names, account.subject)?;
    let after = number_word(alloc, account.after)?;
    format!(in alloc; " {name}{after}")
}

/// The same, and what it was before: ` total 3 -> 8`.
#[tactic(auto, unfolding(crate::specs::Events::change_words))]
fn change_words(alloc: Global, names: &Names<'_>, account: &Account) -> Result<String, AllocError>
    ensures { IfOk result (λ text. string_bytes text ≡ change_words names.now account.now) }
{
    let name = subject_word(alloc, names, account.subject)?;
    let before = number_word(alloc, account.before)?;
    let after = number_word(alloc, account.after)?;
    format!(in alloc; " {name}{before} ->{after}")
}

/// This word, and what a step was about.
fn with_value(
    alloc: Global,
    word: &str,
    names: &Names<'_>,
    account: &Account,
) -> Result<String, AllocError>
    ensures { IfOk result
        (λ text. string_bytes text ≡ word.now ++ value_words names.now account.now) }
{
    let value = value_words(alloc, names, account)?;
    format!(in alloc; "{word}{value}")
}

/// `add`, and what a step was about.
fn with_change(alloc: Global, names: &Names<'_>, account: &Account) -> Result<String, AllocError>
    ensures { IfOk result (λ text. string_bytes text
        ≡ codes "add" ++ change_words names.now account.now) }
{
    let change = change_words(alloc, names, account)?;
    format!(in alloc; "add{change}")
}

/// What a step did: `make c`, `arrive`, `print -5`, `read total 2`, `add total 3 -> 8`. Err where memory was refused.
pub fn account_words(
    alloc: Global,
    names: &Names<'_>,
    account: &Account,
) -> Result<String, AllocError>
    ensures { IfOk result (λ text. string_bytes text ≡ account_words names.now account.now) }
{
    match account.step.event {
        Event::Made => with_value(alloc, "make", names, account),
        Event::Resumed => with_value(alloc, "resume", names, account),
        Event::Dropped => with_value(alloc, "drop", names, account),
        Event::Got => with_value(alloc, "read", names, account),
        Event::Put => with_value(alloc, "write", names, account),
        Event::Added => with_change(alloc, names, account),
        _ => event_words(alloc, &account.step),
    }
}

/// A step, and where it was taken: `step 4 act 0 at 6:5`.
#[tactic(auto, unfolding(crate::specs::Events::step_words))]
fn step_words(alloc: Global, places: &Places<'_>, step: &RunStep) -> Result<String, AllocError>
    ensures { IfOk result (λ text. string_bytes text ≡ step_words places.now step.now) }
{
    let number = step.number;
    let act = step.act;
    let origin = places.origin(step.unit, step.place);
    let place = place_words(alloc, step.unit, step.place, origin)?;
    format!(in alloc; "step {number} act {act} {place}")
}

/// Which step wrote what is read, after a blank.
fn writer_words(alloc: Global, writer: u64) -> Result<String, AllocError>
    ensures { IfOk result (λ text. string_bytes text ≡ writer_words writer) }
{
    if writer == 0 {
        return format!(in alloc; " (opening)");
    }
    format!(in alloc; " (step {writer})")
}

/// The same of a step that reads; nothing of others.
fn source_by(alloc: Global, writer: u64, event: Event) -> Result<String, AllocError>
    ensures { IfOk result (λ text. string_bytes text ≡ source_by writer event) }
{
    match event {
        Event::Got => writer_words(alloc, writer),
        _ => Ok(String::new(alloc)),
    }
}

/// The line of a step; this one wrote last what it is about.
#[tactic(auto, unfolding(crate::specs::Events::account_line))]
fn account_line(
    alloc: Global,
    places: &Places<'_>,
    names: &Names<'_>,
    writer: u64,
    account: &Account,
) -> Result<String, AllocError>
    ensures { IfOk result (λ text. string_bytes text
        ≡ account_line places.now names.now writer account.now) }
{
    let front = step_words(alloc, places, &account.step)?;
    let words = account_words(alloc, names, account)?;
    let source = source_by(alloc, writer, account.step.event)?;
    format!(in alloc; "{front} {words}{source}\n")
}

/// Puts a piece behind a text.
fn put(text: &mut String, piece: String) -> Result<(), AllocError>
    ensures { OnOk result
        (string_bytes text.new ≡ string_bytes text.old ++ string_bytes piece) }
{
    text.push_str(piece.as_str())?;
    Ok(())
}

/// The lines of these steps.
fn lines_of(
    alloc: Global,
    places: &Places<'_>,
    names: &Names<'_>,
    steps: &[Account],
) -> Result<String, AllocError>
    ensures { IfOk result
        (λ text. string_bytes text ≡ lines_of places.now names.now steps.now) }
{
    let mut text = String::new(alloc);
    let mut writers = Writers::new(alloc);
    for account in steps {
        let writer = writers.of(account.subject);
        let line = account_line(alloc, places, names, writer, account)?;
        put(&mut text, line)?;
        writers.note(account)?;
    }
    Ok(text)
}

/// What the shared numbers and clocks of a run are called, by those of its steps that other activities can see.
fn seen_names<'t>(
    alloc: Global,
    places: &Places<'_>,
    origins: &[UnitOrigins<'_>],
    shared: &'t [&'t [u8]],
    legal: &LegalRun<'_, '_>,
    steps: &[Account],
) -> Result<Names<'t>, AllocError>
    requires origins { places.now.origins ≡ origins.now }
    requires steps { steps.now ≡ seen_accounts
        legal.now.module.now legal.now.core.now.world.arguments legal.now.log.now }
    ensures { IfOk result (λ n. n ≡ names_in_run places.now (map (λ x. x.now) shared.now)
        legal.now.module.now legal.now.core.now.world.arguments legal.now.log.now) }
{
    let program = legal.module.module();
    Names::by_steps(alloc, places, origins, shared, program, steps)
}

/// The steps of a run of a source text's module that other activities can see, a line each, with names and values: `step
/// 9 act 1 at 7:9 read total 2 (step 3)`. What was read, written or added to is told by the shared number's name, which
/// is given, with what it was then; what was read, also with the step that wrote or added to it last, or `(opening)`; and
/// clocks by the names that they were made under. Err where memory was refused.
pub fn named_events(
    alloc: Global,
    text: &[u8],
    origins: &[UnitOrigins<'_>],
    shared: &[&[u8]],
    legal: &LegalRun<'_, '_>,
) -> Result<String, AllocError>
    ensures { IfOk result (λ lines. string_bytes lines ≡ named_events_text
        (places_of text.now origins.now) (map (λ x. x.now) shared.now)
        legal.now.module.now legal.now.core.now.world.arguments legal.now.log.now) }
{
    let places = Places::of_source(alloc, text, origins)?;
    let steps = seen_accounts(alloc, legal)?;
    let names = seen_names(alloc, &places, origins, shared, legal, &steps)?;
    lines_of(alloc, &places, &names, &steps)
}
