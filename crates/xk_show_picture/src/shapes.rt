//! The pieces of a picture, each a line of SVG or less.

ghost use Rattle.std.specs.Prelude.{◌≡◌, ◌+◌, ◌*◌, IfOk, string_bytes};
ghost use Rattle.xk_show_picture.specs.Shapes.{arrow, box_frame, box_head, box_words, described, front, label, lane_title, shape, stroke, svg_head, too_large, top};

use std::alloc::{AllocError, Global};

/// How far down a row begins.
pub fn top(row: u32) -> u64
    ensures { result ≡ top row }
{
    112 + 24 * u64::from(row)
}

/// One of the shapes that stand in the head.
#[tactic(auto, unfolding(crate::specs::Shapes::shape))]
pub(crate) fn shape(alloc: Global, name: &str, x: u64, y: u64) -> Result<String, AllocError>
    ensures { IfOk result (λ t. string_bytes t ≡ shape name.now x y) }
{
    format!(in alloc; "<use href='#{name}' x='{x}' y='{y}'/>\n")
}

/// A stroke of a bar.
#[tactic(auto, unfolding(crate::specs::Shapes::stroke))]
pub(crate) fn stroke(alloc: Global, x: u64, y: u64, long: u16) -> Result<String, AllocError>
    ensures { IfOk result (λ t. string_bytes t ≡ stroke x y long) }
{
    format!(in alloc; "<path class='bar' d='M{x} {y}h{long}'/>\n")
}

/// The arrow of a start, to the right.
#[tactic(auto, unfolding(crate::specs::Shapes::arrow))]
pub(crate) fn arrow(alloc: Global, x: u64, y: u64, to: u64) -> Result<String, AllocError>
    ensures { IfOk result (λ t. string_bytes t ≡ arrow x y to) }
{
    format!(in alloc; "<path class='start' d='M{x} {y}H{to}'/>\n")
}

/// Words that begin at a place.
#[tactic(auto, unfolding(crate::specs::Shapes::label))]
pub(crate) fn label(alloc: Global, x: u64, y: u64, words: &str) -> Result<String, AllocError>
    ensures { IfOk result (λ t. string_bytes t ≡ label x y words.now) }
{
    format!(in alloc; "<text x='{x}' y='{y}'>{words}</text>\n")
}

/// The title of a lane.
#[tactic(auto, unfolding(crate::specs::Shapes::lane_title))]
pub(crate) fn lane_title(alloc: Global, x: u64, words: &str) -> Result<String, AllocError>
    ensures { IfOk result (λ t. string_bytes t ≡ lane_title x words.now) }
{
    format!(in alloc; "<text class='lane' x='{x}' y='104'>{words}</text>\n")
}

/// A step's number and place.
#[tactic(auto, unfolding(crate::specs::Shapes::front))]
pub(crate) fn front(alloc: Global, y: u64, number: u64, spot: &str) -> Result<String, AllocError>
    ensures { IfOk result (λ t. string_bytes t ≡ front y number spot.now) }
{
    format!(in alloc;
        "<text class='number' x='80' y='{y}'>{number}</text><text class='at' x='88' y='{y}'>{spot}</text>\n"
    )
}

/// What kind of step a box is for, and what is told of it where it is pointed at.
#[tactic(auto, unfolding(crate::specs::Shapes::box_head))]
pub(crate) fn box_head(
    alloc: Global,
    kind: &str,
    number: u64,
    act: u32,
    spot: &str,
    words: &str,
) -> Result<String, AllocError>
    ensures { IfOk result (λ t. string_bytes t
        ≡ box_head kind.now number act spot.now words.now) }
{
    format!(in alloc; "<g class='{kind}'><title>step {number} act {act} at {spot} {words}</title>")
}

/// The frame of a box.
#[tactic(auto, unfolding(crate::specs::Shapes::box_frame))]
pub(crate) fn box_frame(alloc: Global, x: u64, y: u64, wide: u32) -> Result<String, AllocError>
    ensures { IfOk result (λ t. string_bytes t ≡ box_frame x y wide) }
{
    format!(in alloc; "<rect x='{x}' y='{y}' width='{wide}' height='20' rx='3'/>")
}

/// The words in a box.
#[tactic(auto, unfolding(crate::specs::Shapes::box_words))]
pub(crate) fn box_words(alloc: Global, x: u64, y: u64, words: &str) -> Result<String, AllocError>
    ensures { IfOk result (λ t. string_bytes t ≡ box_words x y words.now) }
{
    format!(in alloc; "<text class='words' x='{x}' y='{y}'>{words}</text></g>\n")
}

/// How large the picture is. Err where memory was refused.
#[tactic(auto, unfolding(crate::specs::Shapes::svg_head))]
pub fn svg_head(alloc: Global, wide: u64, high: u64) -> Result<String, AllocError>
    ensures { IfOk result (λ t. string_bytes t ≡ svg_head wide high) }
{
    format!(in alloc;
        "<svg xmlns='http://www.w3.org/2000/svg' width='{wide}' height='{high}' viewBox='0 0 {wide} {high}' role='img' aria-labelledby='title desc'>\n"
    )
}

/// What is told to who doesn't see the picture.
#[tactic(auto, unfolding(crate::specs::Shapes::described))]
pub(crate) fn described(alloc: Global, activities: u32, rows: usize) -> Result<String, AllocError>
    ensures { IfOk result (λ t. string_bytes t ≡ described activities rows) }
{
    format!(in alloc;
        "<title id='title'>The lanes of a run</title>\n<desc id='desc'>A lane for each of {activities} activities, and {rows} rows, from the top: one for each step that others see, and one for each advance of a clock.</desc>\n"
    )
}

/// What is told in the place of a picture that would be too large.
#[tactic(auto, unfolding(crate::specs::Shapes::too_large))]
pub(crate) fn too_large(alloc: Global, rows: usize, activities: u32) -> Result<String, AllocError>
    ensures { IfOk result (λ t. string_bytes t ≡ too_large rows activities) }
{
    format!(in alloc;
        "picture too large: {rows} rows, {activities} activities; at most 2000 and 64 are drawn, and --from and --to ask for fewer rows\n"
    )
}
