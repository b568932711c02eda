//! The whole page.

ghost use Rattle.std.specs.Prelude.{◌≡◌, ◌++◌, map, option_map, None, Some, IfOk, OnOk};
ghost use Rattle.xk_show_events.specs.Events.{no_text, places_of};
ghost use Rattle.xk_show_picture.specs.Picture.{is_drawn, names_for};
ghost use Rattle.xk_show_path.specs.PathPicture.{path_picture_text};
ghost use Rattle.xk_show_page.specs.Page.{behind_picture, behind_source, escaped, moments};
ghost use Rattle.xk_path_page.specs.PathPage.{behind_moments, path_head, path_page_by, path_page_of, path_page_text, path_tail, path_told};

use crate::furniture::{PATH_LOOK, PATH_SCRIPT, behind_moments, policy, script_begins};
use crate::told::path_told;
use std::alloc::{AllocError, Global};
use xk_scheduler::Ended;
use xk_show_events::{LegalRun, Places};
use xk_show_lanes::{Drawing, Window, push_text};
use xk_show_page::{
    first_lines, moments_of, page_ends, push_body_head, push_escaped, push_lists, push_look,
    push_moments_begin, push_script, style_ends,
};
use xk_show_path::{PathForm, columns_for, path_drawn};
use xk_unit_origins::UnitOrigins;

/// A file's source text, where its units' instructions come from, and what its shared numbers are called. A module alone has none
/// of it.
#[derive(Clone, Copy)]
struct Source<'f, 't> {
    file: &'f str,
    text: &'t [u8],
    origins: &'t [UnitOrigins<'t>],
    shared: Option<&'t [&'t [u8]]>,
}

/// Adds what stands before the source text of a file.
#[tactic(auto, unfolding(crate::specs::PathPage::path_head))]
fn push_head(out: &mut Vec<u8>, file: &str) -> Result<(), AllocError>
    ensures { OnOk result (out.new.items ≡ out.old.items ++ path_head file.now) }
{
    push_text(out, first_lines())?;
    push_text(out, policy())?;
    push_look(out, file)?;
    push_text(out, PATH_LOOK)?;
    push_text(out, style_ends())?;
    push_body_head(out, file)
}

/// Adds all that stands before the picture.
fn push_front(out: &mut Vec<u8>, source: &Source<'_, '_>) -> Result<(), AllocError>
    ensures { OnOk result (out.new.items ≡ ((out.old.items ++ path_head source.now.file.now)
        ++ escaped source.now.text.now) ++ behind_source) }
{
    push_head(out, source.file)?;
    push_escaped(out, source.text)?;
    push_lists(out)
}

/// Adds what stands behind what is told of the path.
#[tactic(auto, unfolding(crate::specs::PathPage::path_tail))]
fn push_tail(out: &mut Vec<u8>) -> Result<(), AllocError>
    ensures { OnOk result (out.new.items ≡ out.old.items ++ path_tail) }
{
    push_text(out, script_begins())?;
    push_script(out)?;
    push_text(out, PATH_SCRIPT)?;
    push_text(out, page_ends())
}

/// Adds what stands between the picture and the moments, and all that comes then.
fn push_rest(out: &mut Vec<u8>, moments: &[u8], path: &[u8]) -> Result<(), AllocError>
    ensures { OnOk result (out.new.items ≡ ((((out.old.items ++ behind_picture)
        ++ moments.now) ++ behind_moments) ++ path.now) ++ path_tail) }
{
    push_moments_begin(out)?;
    out.extend_from_slice(moments)?;
    push_text(out, behind_moments())?;
    out.extend_from_slice(path)?;
    push_tail(out)
}

/// The page of a file, with this picture, these moments, and what is told of a path.
fn page_of(
    alloc: Global,
    source: &Source<'_, '_>,
    picture: &[u8],
    moments: &[u8],
    path: &[u8],
) -> Result<Vec<u8>, AllocError>
    ensures { IfOk result (λ v. v.items ≡ path_page_of source.now.file.now source.now.text.now
        picture.now moments.now path.now) }
{
    let mut out = Vec::new(alloc);
    push_front(&mut out, source)?;
    out.extend_from_slice(picture)?;
    push_rest(&mut out, moments, path)?;
    Ok(out)
}

/// How things stand behind each step of a run that is asked for.
fn moments_for(
    alloc: Global,
    source: &Source<'_, '_>,
    places: &Places<'_>,
    legal: &LegalRun<'_, '_>,
    window: Window,
) -> Result<Vec<u8>, AllocError>
    requires { places.now.origins ≡ source.now.origins.now }
    ensures { IfOk result (λ v. v.items ≡ moments window places.now (names_for places.now
        (option_map (λ l. map (λ x. x.now) l.now) source.now.shared) window
        legal.now.module.now legal.now.log.now legal.now.core.now.world)
        legal.now.module.now legal.now.log.now legal.now.core.now.world) }
{
    let origins = source.origins;
    let columns = columns_for(alloc, places, origins, source.shared, legal, window)?;
    moments_of(alloc, places, &columns.names, legal, window)
}

/// The page of a run whose picture is this one.
fn page_with(
    alloc: Global,
    source: &Source<'_, '_>,
    places: &Places<'_>,
    ended: &Ended<'_>,
    window: Window,
    picture: &[u8],
) -> Result<Vec<u8>, AllocError>
    requires { places.now.origins ≡ source.now.origins.now }
    ensures { IfOk result (λ v. v.items ≡ path_page_of source.now.file.now source.now.text.now
        picture.now (moments window places.now (names_for places.now
        (option_map (λ l. map (λ x. x.now) l.now) source.now.shared) window
        ended.now.module.now ended.now.log.items ended.now.core.world)
        ended.now.module.now ended.now.log.items ended.now.core.world)
        (path_told places.now window
        ended.now.module.now ended.now.core.world.arguments ended.now.log.items)) }
{
    let moments = moments_for(alloc, source, places, &LegalRun::of(ended), window)?;
    let path = path_told(alloc, places, ended, window)?;
    page_of(alloc, source, picture, &moments, &path)
}

/// The page of these steps of a run, or what is told in its place.
fn page(
    alloc: Global,
    source: &Source<'_, '_>,
    places: &Places<'_>,
    ended: &Ended<'_>,
    window: Window,
) -> Result<Drawing, AllocError>
    requires { places.now.origins ≡ source.now.origins.now }
    ensures text { IfOk result (λ d. d.text.items ≡ path_page_by
        (is_drawn window ended.now.module.now ended.now.log.items ended.now.core.world)
        source.now.file.now source.now.text.now
        (path_picture_text places.now
        (option_map (λ l. map (λ x. x.now) l.now) source.now.shared) window
        ended.now.module.now ended.now.log.items ended.now.core.world)
        (moments window places.now (names_for places.now
        (option_map (λ l. map (λ x. x.now) l.now) source.now.shared) window
        ended.now.module.now ended.now.log.items ended.now.core.world)
        ended.now.module.now ended.now.log.items ended.now.core.world)
        (path_told places.now window
        ended.now.module.now ended.now.core.world.arguments ended.now.log.items)) }
    ensures whole { IfOk result (λ d. d.whole ≡ is_drawn window
        ended.now.module.now ended.now.log.items ended.now.core.world) }
{
    let form = PathForm::Picture;
    let origins = source.origins;
    let picture = path_drawn(alloc, form, places, origins, source.shared, ended, window)?;
    if !picture.whole {
        return Ok(picture);
    }
    let text = page_with(alloc, source, places, ended, window, &picture.text)?;
    Ok(Drawing { text, whole: true })
}

/// A page of HTML on these steps of a run of the module of a source text that was read from this file, as `source_page` of
/// `xk_show_page` makes it; but the picture is that of `source_path` of `xk_show_path`, with the rounds and a critical path, and
/// the page has what `source_span` of `xk_show_span` tells, which of the path's steps it shows, and how many of all of them come
/// from each line of the text. Its script marks these, goes from one to the next, and leaves the path out on demand. Err where
/// memory was refused.
pub fn source_path_page(
    alloc: Global,
    file: &str,
    text: &[u8],
    origins: &[UnitOrigins<'_>],
    shared: &[&[u8]],
    ended: &Ended<'_>,
    window: Window,
) -> Result<Drawing, AllocError>
    ensures text { IfOk result (λ d. d.text.items ≡ path_page_text file.now
        (places_of text.now origins.now) (Some (map (λ x. x.now) shared.now)) window
        ended.now.module.now ended.now.log.items ended.now.core.world) }
    ensures whole { IfOk result (λ d. d.whole ≡ is_drawn window
        ended.now.module.now ended.now.log.items ended.now.core.world) }
{
    let places = Places::of_source(alloc, text, origins)?;
    let source = Source {
        file,
        text,
        origins,
        shared: Some(shared),
    };
    page(alloc, &source, &places, ended, window)
}

/// The same of a module without a text, with the unit and place of each step, and with the numbers of what it was about.
/// Err where memory was refused.
pub fn module_path_page(
    alloc: Global,
    file: &str,
    ended: &Ended<'_>,
    window: Window,
) -> Result<Drawing, AllocError>
    ensures text { IfOk result (λ d. d.text.items ≡ path_page_text file.now no_text None window
        ended.now.module.now ended.now.log.items ended.now.core.world) }
    ensures whole { IfOk result (λ d. d.whole ≡ is_drawn window
        ended.now.module.now ended.now.log.items ended.now.core.world) }
{
    let places = Places::of_module(alloc)?;
    let source = Source {
        file,
        text: b"",
        origins: &[],
        shared: None,
    };
    page(alloc, &source, &places, ended, window)
}
