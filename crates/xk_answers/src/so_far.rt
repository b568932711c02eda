//! What is told of a run in which not all may have ended.

ghost use Rattle.std.specs.Prelude.{◌≡◌, map, IfOk};
ghost use Rattle.xk_answers.specs.Explanation.{drawn_so_far, events_so_far, image_so_far, lanes_so_far, page_so_far, told_so_far};

use crate::picture::{Tale, events_of, image_of, lanes_of, page_of};
use std::alloc::{AllocError, Global};
use xk_program::Provenance;
use xk_show_events::LegalRun;
use xk_show_lanes::Window;

/// What is told, with a line behind it where not all have ended. Then it isn't whole.
fn with_ending(alloc: Global, legal: &LegalRun<'_, '_>, tale: Tale) -> Result<Tale, AllocError>
    ensures { IfOk result (λ told. (told.text.items, told.whole)
        ≡ told_so_far legal.now.core.now.world (tale.text.items, tale.whole)) }
{
    if legal.core.ended() {
        return Ok(tale);
    }
    let words = legal.ending(alloc)?;
    let mut text = tale.text;
    text.extend_from_slice(words.as_bytes())?;
    text.extend_from_slice(b"\n")?;
    Ok(Tale { text, whole: false })
}

/// What says so itself. It isn't whole where not all have ended.
fn if_ended(legal: &LegalRun<'_, '_>, tale: Tale) -> Tale
    ensures { (result.text.items, result.whole)
        ≡ drawn_so_far legal.now.core.now.world (tale.text.items, tale.whole) }
{
    let ended = legal.core.ended();
    Tale {
        text: tale.text,
        whole: tale.whole && ended,
    }
}

/// What others see of its steps.
pub(crate) fn events_so_far(
    alloc: Global,
    from: &Provenance<'_>,
    legal: &LegalRun<'_, '_>,
) -> Result<Tale, AllocError>
    ensures { IfOk result (λ tale. (tale.text.items, tale.whole)
        ≡ events_so_far from.now.text.now legal.now.module.now
        legal.now.core.now.world.arguments legal.now.log.now legal.now.core.now.world
        (map (λ x. x.now) from.now.shared.items) from.now.origins) }
{
    let tale = events_of(alloc, from, legal)?;
    with_ending(alloc, legal, tale)
}

/// The same, with a lane for each activity, of the steps in this window.
pub(crate) fn lanes_so_far(
    alloc: Global,
    from: &Provenance<'_>,
    legal: &LegalRun<'_, '_>,
    window: Window,
) -> Result<Tale, AllocError>
    ensures { IfOk result (λ tale. (tale.text.items, tale.whole)
        ≡ lanes_so_far from.now.text.now window legal.now.module.now legal.now.log.now
        legal.now.core.now.world (map (λ x. x.now) from.now.shared.items) from.now.origins) }
{
    let tale = lanes_of(alloc, from, legal, window)?;
    with_ending(alloc, legal, tale)
}

/// The same as an image.
pub(crate) fn image_so_far(
    alloc: Global,
    from: &Provenance<'_>,
    legal: &LegalRun<'_, '_>,
    window: Window,
) -> Result<Tale, AllocError>
    ensures { IfOk result (λ tale. (tale.text.items, tale.whole)
        ≡ image_so_far from.now.text.now window legal.now.module.now legal.now.log.now
        legal.now.core.now.world (map (λ x. x.now) from.now.shared.items) from.now.origins) }
{
    let tale = image_of(alloc, from, legal, window)?;
    Ok(if_ended(legal, tale))
}

/// The same as a page of the file.
pub fn page_so_far(
    alloc: Global,
    file: &str,
    from: &Provenance<'_>,
    legal: &LegalRun<'_, '_>,
    window: Window,
) -> Result<Tale, AllocError>
    ensures { IfOk result (λ tale. (tale.text.items, tale.whole)
        ≡ page_so_far file.now from.now.text.now window legal.now.module.now legal.now.log.now
        legal.now.core.now.world (map (λ x. x.now) from.now.shared.items) from.now.origins) }
{
    let tale = page_of(alloc, file, from, legal, window)?;
    Ok(if_ended(legal, tale))
}
