//! The words of a picture: of a source text's module with names and values.

ghost use Rattle.std.specs.Prelude.{◌≡◌, ◌<◌, length, max, IfOk, string_bytes};
ghost use Rattle.xk_show_picture.specs.Picture.{label_of, signs_of, widest_name, words_of};

use std::alloc::{AllocError, Global};
use xk_core::Core;
use xk_show_events::event_words;
use xk_show_lanes::{bar_label, named_label};
use xk_show_names::{Account, Names, account_words, clock_word};
use xk_types::ClockId;

/// What a step did. Err where memory was refused.
pub fn words_of(
    alloc: Global,
    names: &Option<Names<'_>>,
    account: &Account,
) -> Result<String, AllocError>
    ensures { IfOk result (λ text. string_bytes text ≡ words_of names.now account.now) }
{
    match names {
        Some(names) => account_words(alloc, names, account),
        None => event_words(alloc, &account.step),
    }
}

/// What is said of the bar of a clock, which advanced in a step of this activity. Err where memory was refused.
pub fn label_of(
    alloc: Global,
    core: &Core<'_>,
    names: &Option<Names<'_>>,
    act: u32,
    clock: ClockId,
) -> Result<String, AllocError>
    requires { clock < length core.now.world.clocks }
    ensures { IfOk result (λ text. string_bytes text
        ≡ label_of names.now core.now.world act clock) }
{
    match names {
        Some(names) => named_label(alloc, core, names, act, clock),
        None => bar_label(alloc, core, act, clock),
    }
}

/// The greater one of two numbers.
fn greater(a: usize, b: usize) -> usize
    ensures { result ≡ max a b }
{
    a.max(b)
}

/// How long the longest of the names of the first clocks is.
fn widest_name(alloc: Global, names: &Names<'_>, clocks: u32) -> Result<usize, AllocError>
    ensures { IfOk result (λ n. n ≡ widest_name names.now clocks) }
{
    let mut most = 0;
    for clock in 0..clocks {
        let name = clock_word(alloc, names, clock)?;
        most = greater(most, name.len());
    }
    Ok(most)
}

/// For how many signs there is room behind the bar of one of so many clocks.
pub(crate) fn signs_of(
    alloc: Global,
    names: &Option<Names<'_>>,
    clocks: u32,
) -> Result<u16, AllocError>
    ensures { IfOk result (λ n. n ≡ signs_of names.now clocks) }
{
    match names {
        Some(names) => {
            let widest = widest_name(alloc, names, names.named_clocks(clocks))?;
            Ok(22 + widest.min(100) as u16)
        }
        None => Ok(32),
    }
}
