//! The whole page.

ghost use Rattle.std.specs.Prelude.{◌≡◌, ◌++◌, length, map, option_map, None, IfOk, OnOk};
ghost use Rattle.xk_show_events.specs.Events.{no_text, places_of};
ghost use Rattle.xk_show_picture.specs.Picture.{is_drawn, names_for, picture_in, picture_text};
ghost use Rattle.xk_show_page.specs.Page.{behind_picture, behind_source, escaped, moments, named_page_text, page_by, page_head, page_of, page_tail, page_text};

use crate::moments::{MomentTeller, push_opening};
use crate::texts::{push_escaped, push_head, push_lists, push_moments_begin, push_tail};
use std::alloc::{AllocError, Global};
use xk_show_events::{Both, LegalRun, Places};
use xk_show_lanes::{Drawing, Window};
use xk_show_names::recount_run_by_both;
use xk_show_picture::{PictureTeller, Planned, plan_for};
use xk_unit_origins::UnitOrigins;

/// A file's source text, where its units' instructions come from, and what its shared numbers are called. A module alone has none
/// of it.
#[derive(Clone, Copy)]
struct Source<'f, 't> {
    file: &'f str,
    text: &'t [u8],
    origins: &'t [UnitOrigins<'t>],
    shared: Option<&'t [&'t [u8]]>,
}

/// Adds all that stands before the picture.
fn push_front(out: &mut Vec<u8>, source: &Source<'_, '_>) -> Result<(), AllocError>
    ensures { OnOk result (out.new.items ≡ ((out.old.items ++ page_head source.now.file.now)
        ++ escaped source.now.text.now) ++ behind_source) }
{
    push_head(out, source.file)?;
    push_escaped(out, source.text)?;
    push_lists(out)
}

/// Adds what stands between the picture and the moments, and all that comes then.
fn push_rest(out: &mut Vec<u8>, moments: &[u8]) -> Result<(), AllocError>
    ensures { OnOk result (out.new.items
        ≡ ((out.old.items ++ behind_picture) ++ moments.now) ++ page_tail) }
{
    push_moments_begin(out)?;
    out.extend_from_slice(moments)?;
    push_tail(out)
}

/// Adds the picture of a run, and its moments to a list of their own. The log is played again for both, once.
fn push_picture(
    alloc: Global,
    out: &mut Vec<u8>,
    told: &mut Vec<u8>,
    both: &Both<'_, PictureTeller<'_, '_>, MomentTeller<'_, '_>>,
    legal: &LegalRun<'_, '_>,
) -> Result<(), AllocError>
    requires { both.now.first.now.plan.now.activities
        ≡ length legal.now.core.now.world.activities }
    ensures picture { OnOk result (out.new.items ≡ out.old.items ++ picture_in
        both.now.first.now.plan.now.sheet both.now.first.now.plan.now.rows.items
        both.now.first.now.places.now both.now.first.now.names.now
        legal.now.module.now legal.now.log.now legal.now.core.now.world) }
    ensures moments { OnOk result (told.new.items ≡ told.old.items ++ moments
        both.now.second.now.window both.now.second.now.places.now both.now.second.now.names.now
        legal.now.module.now legal.now.log.now legal.now.core.now.world) }
{
    both.first.plan.push_front(alloc, out)?;
    push_opening(alloc, told, both.second.places, both.second.names, legal)?;
    recount_run_by_both(both, alloc, out, told, legal)?;
    both.first.plan.push_end(alloc, out, legal)
}

/// The page of a run, by its source text, the picture and the moments.
fn page_of(
    alloc: Global,
    source: &Source<'_, '_>,
    picture: &PictureTeller<'_, '_>,
    legal: &LegalRun<'_, '_>,
    window: Window,
) -> Result<Vec<u8>, AllocError>
    requires { picture.now.plan.now.activities ≡ length legal.now.core.now.world.activities }
    ensures { IfOk result (λ v. v.items ≡ page_of source.now.file.now source.now.text.now
        (picture_in picture.now.plan.now.sheet picture.now.plan.now.rows.items
        picture.now.places.now picture.now.names.now
        legal.now.module.now legal.now.log.now legal.now.core.now.world)
        (moments window picture.now.places.now picture.now.names.now
        legal.now.module.now legal.now.log.now legal.now.core.now.world)) }
{
    let both = Both {
        first: picture,
        second: &MomentTeller {
            window,
            places: picture.places,
            names: picture.names,
        },
    };
    let mut out = Vec::new(alloc);
    let mut moments = Vec::new(alloc);
    push_front(&mut out, source)?;
    push_picture(alloc, &mut out, &mut moments, &both, legal)?;
    push_rest(&mut out, &moments)?;
    Ok(out)
}

/// The page of these steps of a run, or what is told in its place.
fn page(
    alloc: Global,
    source: &Source<'_, '_>,
    places: &Places<'_>,
    legal: &LegalRun<'_, '_>,
    window: Window,
) -> Result<Drawing, AllocError>
    requires { places.now.origins ≡ source.now.origins.now }
    ensures text { IfOk result (λ d. d.text.items ≡ page_by
        (is_drawn window legal.now.module.now legal.now.log.now legal.now.core.now.world)
        source.now.file.now source.now.text.now
        (picture_text places.now (names_for places.now
        (option_map (λ l. map (λ x. x.now) l.now) source.now.shared) window
        legal.now.module.now legal.now.log.now legal.now.core.now.world) window
        legal.now.module.now legal.now.log.now legal.now.core.now.world)
        (moments window places.now (names_for places.now
        (option_map (λ l. map (λ x. x.now) l.now) source.now.shared) window
        legal.now.module.now legal.now.log.now legal.now.core.now.world)
        legal.now.module.now legal.now.log.now legal.now.core.now.world)) }
    ensures whole { IfOk result (λ d. d.whole ≡ is_drawn window
        legal.now.module.now legal.now.log.now legal.now.core.now.world) }
{
    match plan_for(alloc, places, source.origins, source.shared, legal, window)? {
        Planned::Drawn(plan) => {
            let picture = PictureTeller {
                plan: &plan,
                places,
                names: &plan.names,
            };
            let text = page_of(alloc, source, &picture, legal, window)?;
            Ok(Drawing { text, whole: true })
        }
        Planned::TooLarge(text) => Ok(Drawing { text, whole: false }),
    }
}

/// A page of HTML on these steps of a run of the module of a source text that was read from this file, whose name stands in its title and
/// heading; where that is `-`, standard input, none does. It shows the source text, the run's picture, and
/// for each step that others can see what was done, where each activity stands behind it and what its own numbers are, who
/// waits for whom, the phases of the clocks, the shared numbers by their names, and what was printed up to there. What was read, written or added to is told
/// by the shared number's name, which is given, with what it was then; and clocks by the names that they were made under.
/// It fetches nothing. Where the picture would have more than 2,000 rows or 64 activities a line says so in the page's
/// place, and it isn't whole. Err where memory was refused.
pub fn source_page(
    alloc: Global,
    file: &str,
    text: &[u8],
    origins: &[UnitOrigins<'_>],
    shared: &[&[u8]],
    legal: &LegalRun<'_, '_>,
    window: Window,
) -> Result<Drawing, AllocError>
    ensures text { IfOk result (λ d. d.text.items ≡ named_page_text file.now
        (places_of text.now origins.now) (map (λ x. x.now) shared.now) window
        legal.now.module.now legal.now.log.now legal.now.core.now.world) }
    ensures whole { IfOk result (λ d. d.whole ≡ is_drawn window
        legal.now.module.now legal.now.log.now legal.now.core.now.world) }
{
    let places = Places::of_source(alloc, text, origins)?;
    let source = Source {
        file,
        text,
        origins,
        shared: Some(shared),
    };
    page(alloc, &source, &places, legal, window)
}

/// The same of a module without a text, with the unit and place of each step, and with the numbers of what it was about.
/// Err where memory was refused.
pub fn module_page(
    alloc: Global,
    file: &str,
    legal: &LegalRun<'_, '_>,
    window: Window,
) -> Result<Drawing, AllocError>
    ensures text { IfOk result (λ d. d.text.items ≡ page_text file.now no_text None window
        legal.now.module.now legal.now.log.now legal.now.core.now.world) }
    ensures whole { IfOk result (λ d. d.whole ≡ is_drawn window
        legal.now.module.now legal.now.log.now legal.now.core.now.world) }
{
    let places = Places::of_module(alloc)?;
    let source = Source {
        file,
        text: b"",
        origins: &[],
        shared: None,
    };
    page(alloc, &source, &places, legal, window)
}
