//! A run with its critical path, as lanes or as a picture.

ghost use Rattle.std.specs.Prelude.{◌≡◌, map, option_map, None, Some, IfOk};
ghost use Rattle.xk_show_events.specs.Events.{no_text, places_of};
ghost use Rattle.xk_show_path.specs.Forms.{form_of, is_path_whole, path_text};

use crate::lanes::path_lanes;
use crate::picture::path_picture;
use std::alloc::{AllocError, Global};
use xk_scheduler::Ended;
use xk_show_events::Places;
use xk_show_lanes::{Drawing, Window};
use xk_unit_origins::UnitOrigins;

/// How a run is drawn with its critical path.
#[derive(Clone, Copy)]
pub enum PathForm {
    /// As lanes: before each step's number its round, and before what the steps of the path did a `*`.
    Lanes,
    /// As a picture: with a column of rounds, and one line from box to box along the path.
    Picture,
}

/// As lanes, or as a picture.
pub fn form_of(picture: bool) -> PathForm
    ensures { result ≡ form_of picture }
{
    if picture {
        PathForm::Picture
    } else {
        PathForm::Lanes
    }
}

/// These steps of a run in this form, with the places that these origins give. Err where memory was refused.
pub fn path_drawn(
    alloc: Global,
    form: PathForm,
    places: &Places<'_>,
    origins: &[UnitOrigins<'_>],
    shared: Option<&[&[u8]]>,
    ended: &Ended<'_>,
    window: Window,
) -> Result<Drawing, AllocError>
    requires { places.now.origins ≡ origins.now }
    ensures text { IfOk result (λ d. d.text.items ≡ path_text form places.now
        (option_map (λ l. map (λ x. x.now) l.now) shared.entry) window
        ended.now.module.now ended.now.log.items ended.now.core.world) }
    ensures whole { IfOk result (λ d. d.whole ≡ is_path_whole form window
        ended.now.module.now ended.now.log.items ended.now.core.world) }
{
    match form {
        PathForm::Lanes => path_lanes(alloc, places, origins, shared, ended, window),
        PathForm::Picture => path_picture(alloc, places, origins, shared, ended, window),
    }
}

/// These steps of a run of a source text's module in this form, as `lanes_with_names` of `xk_show_lanes` or
/// `source_picture` of `xk_show_picture` has them; with their rounds, and with the critical path that `source_span` of
/// `xk_show_span` tells. Err where memory was refused.
pub fn source_path(
    alloc: Global,
    form: PathForm,
    text: &[u8],
    origins: &[UnitOrigins<'_>],
    shared: &[&[u8]],
    ended: &Ended<'_>,
    window: Window,
) -> Result<Drawing, AllocError>
    ensures text { IfOk result (λ d. d.text.items ≡ path_text form
        (places_of text.now origins.now) (Some (map (λ x. x.now) shared.now)) window
        ended.now.module.now ended.now.log.items ended.now.core.world) }
    ensures whole { IfOk result (λ d. d.whole ≡ is_path_whole form window
        ended.now.module.now ended.now.log.items ended.now.core.world) }
{
    let places = Places::of_source(alloc, text, origins)?;
    path_drawn(alloc, form, &places, origins, Some(shared), ended, window)
}

/// The same of a module without a text, with the unit and place of each step, and with the numbers of what it was about.
/// Err where memory was refused.
pub fn module_path(
    alloc: Global,
    form: PathForm,
    ended: &Ended<'_>,
    window: Window,
) -> Result<Drawing, AllocError>
    ensures text { IfOk result (λ d. d.text.items ≡ path_text form no_text None window
        ended.now.module.now ended.now.log.items ended.now.core.world) }
    ensures whole { IfOk result (λ d. d.whole ≡ is_path_whole form window
        ended.now.module.now ended.now.log.items ended.now.core.world) }
{
    let places = Places::of_module(alloc)?;
    path_drawn(alloc, form, &places, &[], None, ended, window)
}
