//! The pieces of a picture that are drawn for rounds and path.

ghost use Rattle.std.specs.Prelude.{◌≡◌, ◌+◌, ◌<◌, ◌^◌, IfOk, string_bytes};
ghost use Rattle.xk_show_path.specs.PathPicture.{described_first, first_piece, legend, next_piece, no_others, number, step_words};

use crate::rounds::Rounds;
use std::alloc::{AllocError, Global};
use xk_show_events::RunStep;

/// A number, or words, that end at a place.
#[tactic(auto, unfolding(crate::specs::PathPicture::number))]
pub(crate) fn number(alloc: Global, x: u64, y: u64, words: &str) -> Result<String, AllocError>
    ensures { IfOk result (λ t. string_bytes t ≡ number x y words.now) }
{
    format!(in alloc; "<text class='number' x='{x}' y='{y}'>{words}</text>\n")
}

/// The line begins at a box, and goes down along it.
#[tactic(auto, unfolding(crate::specs::PathPicture::first_piece))]
pub(crate) fn first_piece(alloc: Global, x: u64, y: u64) -> Result<String, AllocError>
    requires { y < 2 ^ 60 }
    ensures { IfOk result (λ t. string_bytes t ≡ first_piece x y) }
{
    let down = y + 2;
    format!(in alloc; "<path class='critical' d='M{x} {down}v20")
}

/// The line goes on to another box.
#[tactic(auto, unfolding(crate::specs::PathPicture::next_piece))]
pub(crate) fn next_piece(alloc: Global, x: u64, y: u64) -> Result<String, AllocError>
    ensures { IfOk result (λ t. string_bytes t ≡ next_piece x y) }
{
    format!(in alloc; "V{y}H{x}v22")
}

/// What is told to who doesn't see the picture, up to the steps of the path.
#[tactic(auto, unfolding(crate::specs::PathPicture::described_first))]
pub(crate) fn described_first(
    alloc: Global,
    activities: u32,
    rows: usize,
    rounds: usize,
) -> Result<String, AllocError>
    ensures { IfOk result (λ t. string_bytes t ≡ described_first activities rows rounds) }
{
    format!(in alloc;
        "<title id='title'>The lanes of a run, and its critical path</title>\n\
         <desc id='desc'>A lane for each of {activities} activities, and {rows} rows, from the top: \
         one for each step that others see, and one for each advance of a clock. \
         Along a critical path of {rounds} steps goes a line, by these of them:"
    )
}

/// ` step 77 act 3 round 43;`.
#[tactic(auto, unfolding(crate::specs::PathPicture::step_words))]
pub(crate) fn step_words(
    alloc: Global,
    rounds: &Rounds,
    step: &RunStep,
) -> Result<String, AllocError>
    ensures { IfOk result (λ t. string_bytes t ≡ step_words rounds.now step.now) }
{
    let number = step.number;
    let act = step.act;
    let round = rounds.round_of(number);
    format!(in alloc; " step {number} act {act} round {round};")
}

/// What stands behind the last of the steps of the path.
#[tactic(auto, unfolding(crate::specs::PathPicture::no_others))]
pub(crate) fn no_others() -> &'static str
    ensures { result.now ≡ no_others }
{
    " no others.</desc>\n"
}

/// How the line looks, in light and in dark, and what it means.
#[tactic(auto, unfolding(crate::specs::PathPicture::legend))]
pub(crate) fn legend() -> &'static str
    ensures { result.now ≡ legend }
{
    "\
<style>\n\
.critical{fill:none;stroke:#d4006a;stroke-width:4;pointer-events:none}\n\
@media (prefers-color-scheme:dark){.critical{stroke:#ff5ca8}}\n\
</style>\n\
<path class='critical' d='M16 79h32'/><text x='60' y='83'>a critical path</text>\n"
}
