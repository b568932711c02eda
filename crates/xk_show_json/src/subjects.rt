//! What a step was about, as members of a value.

ghost use Rattle.std.specs.Prelude.{◌≡◌, OnOk, option_map};
ghost use Rattle.xk_json.specs.Objects.{Gains};
ghost use Rattle.xk_show_names.specs.Events.{clock_word, shared_word};
ghost use Rattle.xk_show_json.specs.Events.{name_member, subject_members, value_member};

use std::alloc::{AllocError, Global};
use xk_json::Object;
use xk_show_names::{Names, Subject, clock_word, shared_word};

/// Adds the clock or the shared number that a step was about, by its number, and by its name where names are known. Err where memory
/// was refused.
pub fn put_subject(
    alloc: Global,
    object: &mut Object,
    names: Option<&Names<'_>>,
    subject: Subject,
) -> Result<(), AllocError>
    ensures { OnOk result (Gains
        (subject_members (option_map (λ n. n.now) names.entry) subject)
        object.old object.new) }
{
    match subject {
        Subject::Nothing => Ok(()),
        Subject::Clock(clock) => {
            object.put_number(alloc, "clock", clock as u64)?;
            put_clock_name(alloc, object, names, clock)
        }
        Subject::Shared(number) => {
            object.put_number(alloc, "shared", number as u64)?;
            put_shared_name(alloc, object, names, number)
        }
    }
}

/// Adds a clock's name, where names are known.
fn put_clock_name(
    alloc: Global,
    object: &mut Object,
    names: Option<&Names<'_>>,
    clock: u32,
) -> Result<(), AllocError>
    ensures { OnOk result (Gains
        (name_member (option_map (λ n. clock_word n.now clock) names.entry))
        object.old object.new) }
{
    match names {
        Some(names) => {
            let name = clock_word(alloc, names, clock)?;
            object.put_text(alloc, "name", name.as_str())
        }
        None => Ok(()),
    }
}

/// Adds a shared number's name, where names are known.
fn put_shared_name(
    alloc: Global,
    object: &mut Object,
    names: Option<&Names<'_>>,
    number: u16,
) -> Result<(), AllocError>
    ensures { OnOk result (Gains
        (name_member (option_map (λ n. shared_word n.now number) names.entry))
        object.old object.new) }
{
    match names {
        Some(names) => {
            let name = shared_word(alloc, names, number)?;
            object.put_text(alloc, "name", name.as_str())
        }
        None => Ok(()),
    }
}

/// Adds what a shared number was, if the step was about one.
pub(crate) fn put_value(
    alloc: Global,
    object: &mut Object,
    key: &str,
    value: Option<i64>,
) -> Result<(), AllocError>
    ensures { OnOk result (Gains (value_member key.now value) object.old object.new) }
{
    match value {
        Some(number) => object.put_integer(alloc, key, number),
        None => Ok(()),
    }
}
