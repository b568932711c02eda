//! What is told of the run that a log has.

ghost use Rattle.std.specs.Prelude.{◌≡◌, ◌≢◌, ℕ, List, true, false, map, None, Some, IfOk, IfErr, OnOk};
ghost use Rattle.xk_log.specs.SomeBytes.{OfSome};
ghost use Rattle.xk_types.specs.Acceptance.{IsAccepted};
ghost use Rattle.xk_types.specs.World.{AreArguments};
ghost use Rattle.xk_jobs.specs.Status.{status_program};
ghost use Rattle.xk_jobs.specs.declared.job.Form.{Form as FormValue};
ghost use Rattle.xk_answers.specs.Results.{Draw, IsTelling, IsText, is_of_whole, lanes_given, page_given};
ghost use Rattle.xk_answers.specs.Results.{picture_told, shows_origins, window_given};
ghost use Rattle.xk_answers.specs.Refusals.{AgainstModule, AgainstRun, MayStand};
ghost use Rattle.xk_program.specs.Origins.{IsFrom};
ghost use Rattle.xk_answers.specs.Explanation.{events_told, image_told, lanes_told, named_races, page_told, path_page_told, path_told};
ghost use Rattle.xk_answers.specs.Explanation.{races_told, plain_races};
ghost use Rattle.xk_answers.specs.Explanation.{rounds_told, span_by, span_told};
ghost use Rattle.xk_races.specs.Races.{is_race_free};
ghost use Rattle.xk_show_events.specs.Events.{no_text, places_of};
ghost use Rattle.xk_program.specs.Lines.{status_of};

use crate::event_values::event_values_so_far;
use crate::job_result::Done;
use crate::reasons::reasons_of;
use crate::replay::{run_again, run_so_far};
use crate::so_far::{events_so_far, image_so_far, lanes_so_far, page_so_far};
use std::alloc::{AllocError, Global};
use xk_bounds::Verified;
use xk_path_page::{module_path_page, source_path_page};
use xk_program::{Fault, Program, Provenance, runnable};
use xk_races::{RaceReport, module_races};
use xk_races_json::{module_race_values, source_race_values};
use xk_replay::chart;
use xk_scheduler::Ended;
use xk_show_events::{LegalRun, module_events};
use xk_show_lanes::{Window, lanes_with_names, module_lanes};
use xk_show_names::named_events;
use xk_show_page::{module_page, source_page};
use xk_show_path::{PathForm, form_of, module_path, source_path};
use xk_show_picture::{module_picture, source_picture};
use xk_show_races::source_races;
use xk_show_rounds::{module_rounds, source_rounds};
use xk_show_span::{SpanReport, module_span, source_span};
use xk_span_json::{module_span_value, source_span_value};
use xk_types::Source;
use xk_unit_origins::UnitOrigins;

/// What is told of a run.
#[derive(Clone, Copy)]
pub enum Picture {
    /// When its clocks advanced.
    Chart,
    /// What others see of its steps.
    Events,
    /// The same as JSON values.
    EventValues,
    /// The same, with a lane for each activity, of the steps in a window.
    Lanes(Window),
    /// The same as an image.
    Image(Window),
    /// The same in this form, with the rounds of steps and a critical path.
    Path(PathForm, Window),
    /// The same by rounds: a row for each, in place of each step.
    Rounds,
    /// The same as a page that goes through it step by step.
    Page(Window),
    /// The same as such a page, with the rounds of steps and a critical path.
    PathPage(Window),
    /// Its races, also as a JSON value.
    Races(bool),
    /// How long it had to take, also as a JSON value.
    Span(bool),
    /// What this step of it rests on.
    Why(u64),
}

impl Picture {
    /// Whether it is one of whole runs alone. Others are drawn of a run, too, in which not all have ended.
    fn is_of_whole(self) -> bool
        ensures { result ≡ is_of_whole self }
    {
        match self {
            Picture::Events
            | Picture::EventValues
            | Picture::Lanes(_)
            | Picture::Image(_)
            | Picture::Page(_) => false,
            Picture::Path(..) | Picture::Rounds | Picture::Chart | Picture::Races(_) => true,
            Picture::PathPage(_) | Picture::Span(_) | Picture::Why(_) => true,
        }
    }
}

/// What is told, and whether that is a whole answer.
#[derive(Drop)]
pub struct Tale {
    /// Its text.
    pub text: Vec<u8>,
    /// Whether that is a whole answer.
    pub whole: bool,
}

/// The steps from one to another, each of which may be left out.
pub fn window_given(from: Option<u64>, to: Option<u64>) -> Window
    ensures { result ≡ window_given from to }
{
    let run = Window::whole();
    Window {
        first: from.unwrap_or(run.first),
        last: to.unwrap_or(run.last),
    }
}

/// The lanes of these steps, as a text or as an image, with a critical path or without.
pub fn lanes_given(from: Option<u64>, to: Option<u64>, svg: bool, path: bool) -> Picture
    ensures { result ≡ lanes_given from to svg path }
{
    let window = window_given(from, to);
    if path {
        return Picture::Path(form_of(svg), window);
    }
    if svg {
        return Picture::Image(window);
    }
    Picture::Lanes(window)
}

/// A page of these steps, with a critical path or without.
pub fn page_given(from: Option<u64>, to: Option<u64>, path: bool) -> Picture
    ensures { result ≡ page_given from to path }
{
    let window = window_given(from, to);
    if path {
        return Picture::PathPage(window);
    }
    Picture::Page(window)
}

/// This picture of the run of the file's program with these arguments that the log has, if it is accepted and main takes as many. Where it isn't run, no
/// log is read.
pub fn drawn<L: Source>(
    alloc: Global,
    picture: Picture,
    file: &str,
    program: Program<'_>,
    arguments: &[i64],
    log_in: &mut L,
) -> Result<Done, Fault>
    ensures done { (form : FormValue) (bytes : List ℕ)
        → IsFrom (shows_origins picture) form bytes program.entry.from
        → IfOk result (λ d. OfSome (L.remaining log_in.old) (λ logged. IsText (IsTelling
        (Draw picture) form file.now bytes program.entry.module arguments.now logged) d)) }
    ensures no_fault { OnOk result (L.fault_count log_in.new ≡ L.fault_count log_in.old) }
    ensures fault { IfErr result (AgainstModule program.entry.module arguments.now
        (L.remaining log_in.old) (L.fault_count log_in.old) (L.fault_count log_in.new)) }
    ensures stands { IfErr result (MayStand picture) }
    ensures refused { IfErr result
        (λ f. status_of f ≡ status_program → log_in.new ≡ log_in.old) }
{
    let verified = runnable(alloc, program.module, arguments)?;
    let from = &program.from;
    if picture.is_of_whole() {
        return drawn_whole(alloc, picture, file, from, &verified, arguments, log_in);
    }
    drawn_so_far(alloc, picture, file, from, &verified, arguments, log_in)
}

/// The same of an accepted module, where the picture is one of whole runs.
fn drawn_whole<L: Source>(
    alloc: Global,
    picture: Picture,
    file: &str,
    from: &Provenance<'_>,
    verified: &Verified,
    arguments: &[i64],
    log_in: &mut L,
) -> Result<Done, Fault>
    requires whole { is_of_whole picture ≡ true }
    requires accepted { IsAccepted verified.now }
    requires taken { AreArguments verified.now arguments.now }
    ensures done { (form : FormValue) (bytes : List ℕ)
        → IsFrom (shows_origins picture) form bytes from.now
        → IfOk result (λ d. OfSome (L.remaining log_in.old) (λ logged. IsText
        (IsTelling (Draw picture) form file.now bytes verified.now arguments.now logged) d)) }
    ensures no_fault { OnOk result (L.fault_count log_in.new ≡ L.fault_count log_in.old) }
    ensures fault { IfErr result (AgainstRun verified.now arguments.now (L.remaining log_in.old)
        (L.fault_count log_in.old) (L.fault_count log_in.new)) }
    ensures of_log { IfErr result (λ f. status_of f ≢ status_program) }
{
    let ended = run_again(alloc, verified, arguments, log_in)?;
    let tale = whole_told(alloc, picture, file, from, &ended)?;
    Ok(Done::Told {
        text: tale.text,
        whole: tale.whole,
    })
}

/// The same, where it is one of runs in which not all may have ended.
#[tactic(auto, using(crate::proofs::LogLemmas::going_stands, crate::proofs::LogLemmas::memory_stands))]
fn drawn_so_far<L: Source>(
    alloc: Global,
    picture: Picture,
    file: &str,
    from: &Provenance<'_>,
    verified: &Verified,
    arguments: &[i64],
    log_in: &mut L,
) -> Result<Done, Fault>
    requires part { is_of_whole picture ≡ false }
    requires accepted { IsAccepted verified.now }
    requires taken { AreArguments verified.now arguments.now }
    ensures done { (form : FormValue) (bytes : List ℕ)
        → IsFrom (shows_origins picture) form bytes from.now
        → IfOk result (λ d. OfSome (L.remaining log_in.old) (λ logged. IsText
        (IsTelling (Draw picture) form file.now bytes verified.now arguments.now logged) d)) }
    ensures no_fault { OnOk result (L.fault_count log_in.new ≡ L.fault_count log_in.old) }
    ensures fault { IfErr result (AgainstRun verified.now arguments.now (L.remaining log_in.old)
        (L.fault_count log_in.old) (L.fault_count log_in.new)) }
    ensures stands { IfErr result (MayStand picture) }
    ensures of_log { IfErr result (λ f. status_of f ≢ status_program) }
{
    let partial = run_so_far(alloc, verified, arguments, log_in)?;
    let tale = so_far_told(alloc, picture, file, from, &LegalRun::of_partial(&partial))?;
    Ok(Done::Told {
        text: tale.text,
        whole: tale.whole,
    })
}

/// This picture of a run that came to its end, as one of whole runs.
fn whole_told(
    alloc: Global,
    picture: Picture,
    file: &str,
    from: &Provenance<'_>,
    ended: &Ended<'_>,
) -> Result<Tale, AllocError>
    requires { is_of_whole picture ≡ true }
    ensures { IfOk result (λ tale. (tale.text.items, tale.whole)
        ≡ picture_told picture file.now from.now.text.now
        (map (λ x. x.now) from.now.shared.items)
        ended.now.module.now ended.now.core.world.arguments ended.now.log.items
        ended.now.core.world from.now.origins) }
{
    match picture {
        Picture::Chart => Ok(Tale {
            text: chart(alloc, ended)?.into_bytes(),
            whole: true,
        }),
        Picture::Races(json) => races_of(alloc, json, from, ended),
        Picture::Span(json) => span_of(alloc, json, from, ended),
        Picture::Path(form, window) => path_of(alloc, from, ended, form, window),
        Picture::Rounds => rounds_of(alloc, from, ended),
        Picture::PathPage(window) => path_page_of(alloc, file, from, ended, window),
        Picture::Why(step) => reasons_of(alloc, from, ended, step),
        Picture::Events => unreachable!(),
        Picture::EventValues => unreachable!(),
        Picture::Lanes(_) => unreachable!(),
        Picture::Image(_) => unreachable!(),
        Picture::Page(_) => unreachable!(),
    }
}

/// This picture of a run in which not all may have ended.
fn so_far_told(
    alloc: Global,
    picture: Picture,
    file: &str,
    from: &Provenance<'_>,
    legal: &LegalRun<'_, '_>,
) -> Result<Tale, AllocError>
    requires { is_of_whole picture ≡ false }
    ensures { IfOk result (λ tale. (tale.text.items, tale.whole)
        ≡ picture_told picture file.now from.now.text.now
        (map (λ x. x.now) from.now.shared.items)
        legal.now.module.now legal.now.core.now.world.arguments legal.now.log.now
        legal.now.core.now.world from.now.origins) }
{
    match picture {
        Picture::Events => events_so_far(alloc, from, legal),
        Picture::EventValues => event_values_so_far(alloc, from, legal),
        Picture::Lanes(window) => lanes_so_far(alloc, from, legal, window),
        Picture::Image(window) => image_so_far(alloc, from, legal, window),
        Picture::Page(window) => page_so_far(alloc, file, from, legal, window),
        Picture::PathPage(_) => unreachable!(),
        Picture::Path(..) => unreachable!(),
        Picture::Rounds => unreachable!(),
        Picture::Chart => unreachable!(),
        Picture::Races(_) => unreachable!(),
        Picture::Span(_) => unreachable!(),
        Picture::Why(_) => unreachable!(),
    }
}

/// What others see of its steps; of a source text by names, and with values.
pub(crate) fn events_of(
    alloc: Global,
    from: &Provenance<'_>,
    legal: &LegalRun<'_, '_>,
) -> Result<Tale, AllocError>
    ensures { IfOk result (λ tale. (tale.text.items, tale.whole)
        ≡ events_told from.now.text.now legal.now.module.now
        legal.now.core.now.world.arguments legal.now.log.now
        (map (λ x. x.now) from.now.shared.items) from.now.origins) }
{
    match &from.origins {
        Some(origins) => named_events_of(alloc, from, origins.units(), legal),
        None => Ok(Tale {
            text: module_events(alloc, legal)?.into_bytes(),
            whole: true,
        }),
    }
}

/// The same of a source text whose units have these origins.
fn named_events_of(
    alloc: Global,
    from: &Provenance<'_>,
    units: &[UnitOrigins<'_>],
    legal: &LegalRun<'_, '_>,
) -> Result<Tale, AllocError>
    ensures { IfOk result (λ tale. (tale.text.items, tale.whole)
        ≡ events_told from.now.text.now legal.now.module.now
        legal.now.core.now.world.arguments legal.now.log.now
        (map (λ x. x.now) from.now.shared.items) (Some units.now)) }
{
    let text = named_events(alloc, from.text, units, &from.shared, legal)?;
    Ok(Tale {
        text: text.into_bytes(),
        whole: true,
    })
}

/// The same, with a lane for each activity, of the steps in this window.
pub(crate) fn lanes_of(
    alloc: Global,
    from: &Provenance<'_>,
    legal: &LegalRun<'_, '_>,
    window: Window,
) -> Result<Tale, AllocError>
    ensures { IfOk result (λ tale. (tale.text.items, tale.whole)
        ≡ lanes_told from.now.text.now window legal.now.module.now legal.now.log.now
        legal.now.core.now.world (map (λ x. x.now) from.now.shared.items) from.now.origins) }
{
    match &from.origins {
        Some(origins) => named_lanes_of(alloc, from, origins.units(), legal, window),
        None => {
            let drawing = module_lanes(alloc, legal, window)?;
            Ok(Tale {
                text: drawing.text,
                whole: drawing.whole,
            })
        }
    }
}

/// The same of a source text whose units have these origins.
fn named_lanes_of(
    alloc: Global,
    from: &Provenance<'_>,
    units: &[UnitOrigins<'_>],
    legal: &LegalRun<'_, '_>,
    window: Window,
) -> Result<Tale, AllocError>
    ensures { IfOk result (λ tale. (tale.text.items, tale.whole)
        ≡ lanes_told from.now.text.now window legal.now.module.now legal.now.log.now
        legal.now.core.now.world (map (λ x. x.now) from.now.shared.items) (Some units.now)) }
{
    let drawing = lanes_with_names(alloc, from.text, units, &from.shared, legal, window)?;
    Ok(Tale {
        text: drawing.text,
        whole: drawing.whole,
    })
}

/// The same as an image.
pub(crate) fn image_of(
    alloc: Global,
    from: &Provenance<'_>,
    legal: &LegalRun<'_, '_>,
    window: Window,
) -> Result<Tale, AllocError>
    ensures { IfOk result (λ tale. (tale.text.items, tale.whole)
        ≡ image_told from.now.text.now window legal.now.module.now legal.now.log.now
        legal.now.core.now.world (map (λ x. x.now) from.now.shared.items) from.now.origins) }
{
    match &from.origins {
        Some(origins) => named_image_of(alloc, from, origins.units(), legal, window),
        None => {
            let drawing = module_picture(alloc, legal, window)?;
            Ok(Tale {
                text: drawing.text,
                whole: drawing.whole,
            })
        }
    }
}

/// The same of a source text whose units have these origins.
fn named_image_of(
    alloc: Global,
    from: &Provenance<'_>,
    units: &[UnitOrigins<'_>],
    legal: &LegalRun<'_, '_>,
    window: Window,
) -> Result<Tale, AllocError>
    ensures { IfOk result (λ tale. (tale.text.items, tale.whole)
        ≡ image_told from.now.text.now window legal.now.module.now legal.now.log.now
        legal.now.core.now.world (map (λ x. x.now) from.now.shared.items) (Some units.now)) }
{
    let drawing = source_picture(alloc, from.text, units, &from.shared, legal, window)?;
    Ok(Tale {
        text: drawing.text,
        whole: drawing.whole,
    })
}

/// A run that came to its end in this form, with a lane for each activity, with the rounds of its steps and a critical path.
fn path_of(
    alloc: Global,
    from: &Provenance<'_>,
    ended: &Ended<'_>,
    form: PathForm,
    window: Window,
) -> Result<Tale, AllocError>
    ensures { IfOk result (λ tale. (tale.text.items, tale.whole)
        ≡ path_told form from.now.text.now window ended.now.module.now ended.now.log.items
        ended.now.core.world (map (λ x. x.now) from.now.shared.items) from.now.origins) }
{
    match &from.origins {
        Some(origins) => {
            let units = origins.units();
            let drawing = source_path(alloc, form, from.text, units, &from.shared, ended, window)?;
            Ok(Tale {
                text: drawing.text,
                whole: drawing.whole,
            })
        }
        None => {
            let drawing = module_path(alloc, form, ended, window)?;
            Ok(Tale {
                text: drawing.text,
                whole: drawing.whole,
            })
        }
    }
}

/// The same by rounds: a row for each, in place of each step.
fn rounds_of(alloc: Global, from: &Provenance<'_>, ended: &Ended<'_>) -> Result<Tale, AllocError>
    ensures { IfOk result (λ tale. (tale.text.items, tale.whole)
        ≡ rounds_told from.now.text.now ended.now.module.now ended.now.log.items
        ended.now.core.world (map (λ x. x.now) from.now.shared.items) from.now.origins) }
{
    match &from.origins {
        Some(origins) => {
            let drawing = source_rounds(alloc, from.text, origins.units(), &from.shared, ended)?;
            Ok(Tale {
                text: drawing.text,
                whole: drawing.whole,
            })
        }
        None => {
            let drawing = module_rounds(alloc, ended)?;
            Ok(Tale {
                text: drawing.text,
                whole: drawing.whole,
            })
        }
    }
}

/// A page of such a run, with the rounds of its steps and a critical path.
fn path_page_of(
    alloc: Global,
    file: &str,
    from: &Provenance<'_>,
    ended: &Ended<'_>,
    window: Window,
) -> Result<Tale, AllocError>
    ensures { IfOk result (λ tale. (tale.text.items, tale.whole)
        ≡ path_page_told file.now from.now.text.now window
        ended.now.module.now ended.now.log.items ended.now.core.world
        (map (λ x. x.now) from.now.shared.items) from.now.origins) }
{
    match &from.origins {
        Some(origins) => named_path_page_of(alloc, file, from, origins.units(), ended, window),
        None => {
            let drawing = module_path_page(alloc, file, ended, window)?;
            Ok(Tale {
                text: drawing.text,
                whole: drawing.whole,
            })
        }
    }
}

/// The same of a source text whose units have these origins.
fn named_path_page_of(
    alloc: Global,
    file: &str,
    from: &Provenance<'_>,
    units: &[UnitOrigins<'_>],
    ended: &Ended<'_>,
    window: Window,
) -> Result<Tale, AllocError>
    ensures { IfOk result (λ tale. (tale.text.items, tale.whole)
        ≡ path_page_told file.now from.now.text.now window
        ended.now.module.now ended.now.log.items ended.now.core.world
        (map (λ x. x.now) from.now.shared.items) (Some units.now)) }
{
    let drawing = source_path_page(alloc, file, from.text, units, &from.shared, ended, window)?;
    Ok(Tale {
        text: drawing.text,
        whole: drawing.whole,
    })
}

/// A run, whether it came to its end or not, as a page.
pub(crate) fn page_of(
    alloc: Global,
    file: &str,
    from: &Provenance<'_>,
    legal: &LegalRun<'_, '_>,
    window: Window,
) -> Result<Tale, AllocError>
    ensures { IfOk result (λ tale. (tale.text.items, tale.whole)
        ≡ page_told file.now from.now.text.now window legal.now.module.now legal.now.log.now
        legal.now.core.now.world (map (λ x. x.now) from.now.shared.items) from.now.origins) }
{
    match &from.origins {
        Some(origins) => named_page_of(alloc, file, from, origins.units(), legal, window),
        None => {
            let drawing = module_page(alloc, file, legal, window)?;
            Ok(Tale {
                text: drawing.text,
                whole: drawing.whole,
            })
        }
    }
}

/// The same of a source text whose units have these origins.
fn named_page_of(
    alloc: Global,
    file: &str,
    from: &Provenance<'_>,
    units: &[UnitOrigins<'_>],
    legal: &LegalRun<'_, '_>,
    window: Window,
) -> Result<Tale, AllocError>
    ensures { IfOk result (λ tale. (tale.text.items, tale.whole)
        ≡ page_told file.now from.now.text.now window legal.now.module.now legal.now.log.now
        legal.now.core.now.world (map (λ x. x.now) from.now.shared.items) (Some units.now)) }
{
    let drawing = source_page(alloc, file, from.text, units, &from.shared, legal, window)?;
    Ok(Tale {
        text: drawing.text,
        whole: drawing.whole,
    })
}

/// The races of a run that came to its end, as a text or as a JSON value; of a source text by names, and with values.
pub(crate) fn races_of(
    alloc: Global,
    json: bool,
    from: &Provenance<'_>,
    ended: &Ended<'_>,
) -> Result<Tale, AllocError>
    ensures { IfOk result (λ tale. (tale.text.items, tale.whole)
        ≡ races_told json from.now.text.now ended.now.module.now
        ended.now.core.world.arguments ended.now.log.items
        (map (λ x. x.now) from.now.shared.items) from.now.origins) }
{
    match &from.origins {
        Some(origins) => named_races_of(alloc, json, from, origins.units(), ended),
        None => module_races_of(alloc, json, from, ended),
    }
}

/// The same of a source text whose units have these origins.
fn named_races_of(
    alloc: Global,
    json: bool,
    from: &Provenance<'_>,
    units: &[UnitOrigins<'_>],
    ended: &Ended<'_>,
) -> Result<Tale, AllocError>
    ensures { IfOk result (λ tale. (tale.text.items, tale.whole)
        ≡ races_told json from.now.text.now ended.now.module.now
        ended.now.core.world.arguments ended.now.log.items
        (map (λ x. x.now) from.now.shared.items) (Some units.now)) }
{
    let report = source_report(alloc, json, from.text, units, &from.shared, ended)?;
    Ok(Tale {
        text: report.text,
        whole: report.free,
    })
}

/// The same of a module that is given as such.
fn module_races_of(
    alloc: Global,
    json: bool,
    from: &Provenance<'_>,
    ended: &Ended<'_>,
) -> Result<Tale, AllocError>
    ensures { IfOk result (λ tale. (tale.text.items, tale.whole)
        ≡ races_told json from.now.text.now ended.now.module.now
        ended.now.core.world.arguments ended.now.log.items
        (map (λ x. x.now) from.now.shared.items) None) }
{
    let report = module_report(alloc, json, ended)?;
    Ok(Tale {
        text: report.text,
        whole: report.free,
    })
}

/// The races of a run of a source text's module, whose shared numbers have these names.
fn source_report(
    alloc: Global,
    json: bool,
    text: &[u8],
    units: &[UnitOrigins<'_>],
    shared: &[&[u8]],
    ended: &Ended<'_>,
) -> Result<RaceReport, AllocError>
    ensures text { IfOk result (λ r. r.text.items ≡ named_races json
        (places_of text.now units.now) (map (λ x. x.now) shared.now)
        ended.now.module.now ended.now.core.world.arguments ended.now.log.items) }
    ensures free { IfOk result (λ r. r.free ≡ is_race_free
        ended.now.module.now ended.now.core.world.arguments ended.now.log.items) }
{
    if json {
        return source_race_values(alloc, text, units, shared, ended);
    }
    source_races(alloc, text, units, shared, ended)
}

/// The races of a run of a module.
fn module_report(alloc: Global, json: bool, ended: &Ended<'_>) -> Result<RaceReport, AllocError>
    ensures text { IfOk result (λ r. r.text.items ≡ plain_races json
        ended.now.module.now ended.now.core.world.arguments ended.now.log.items) }
    ensures free { IfOk result (λ r. r.free ≡ is_race_free
        ended.now.module.now ended.now.core.world.arguments ended.now.log.items) }
{
    if json {
        return module_race_values(alloc, ended);
    }
    module_races(alloc, ended)
}

/// How long a run had to take that came to its end, as a text or as a JSON value.
fn span_of(
    alloc: Global,
    json: bool,
    from: &Provenance<'_>,
    ended: &Ended<'_>,
) -> Result<Tale, AllocError>
    ensures { IfOk result (λ tale. (tale.text.items, tale.whole)
        ≡ span_told json from.now.text.now ended.now.module.now
        ended.now.core.world.arguments ended.now.log.items from.now.origins) }
{
    match &from.origins {
        Some(origins) => source_span_of(alloc, json, from, origins.units(), ended),
        None => module_span_of(alloc, json, from, ended),
    }
}

/// The same of a source text whose units have these origins.
fn source_span_of(
    alloc: Global,
    json: bool,
    from: &Provenance<'_>,
    units: &[UnitOrigins<'_>],
    ended: &Ended<'_>,
) -> Result<Tale, AllocError>
    ensures { IfOk result (λ tale. (tale.text.items, tale.whole)
        ≡ span_told json from.now.text.now ended.now.module.now
        ended.now.core.world.arguments ended.now.log.items (Some units.now)) }
{
    let report = source_span_by(alloc, json, from.text, units, ended)?;
    Ok(Tale {
        text: report.text,
        whole: report.free,
    })
}

/// The same of a module that is given as such.
fn module_span_of(
    alloc: Global,
    json: bool,
    from: &Provenance<'_>,
    ended: &Ended<'_>,
) -> Result<Tale, AllocError>
    ensures { IfOk result (λ tale. (tale.text.items, tale.whole)
        ≡ span_told json from.now.text.now ended.now.module.now
        ended.now.core.world.arguments ended.now.log.items None) }
{
    let report = module_span_by(alloc, json, ended)?;
    Ok(Tale {
        text: report.text,
        whole: report.free,
    })
}

/// How long a run of a source text's module had to take.
fn source_span_by(
    alloc: Global,
    json: bool,
    text: &[u8],
    units: &[UnitOrigins<'_>],
    ended: &Ended<'_>,
) -> Result<SpanReport, AllocError>
    ensures text { IfOk result (λ r. r.text.items ≡ span_by json (places_of text.now units.now)
        ended.now.module.now ended.now.core.world.arguments ended.now.log.items) }
    ensures free { IfOk result (λ r. r.free ≡ is_race_free
        ended.now.module.now ended.now.core.world.arguments ended.now.log.items) }
{
    if json {
        return source_span_value(alloc, text, units, ended);
    }
    source_span(alloc, text, units, ended)
}

/// How long a run of a module had to take.
fn module_span_by(alloc: Global, json: bool, ended: &Ended<'_>) -> Result<SpanReport, AllocError>
    ensures text { IfOk result (λ r. r.text.items ≡ span_by json no_text
        ended.now.module.now ended.now.core.world.arguments ended.now.log.items) }
    ensures free { IfOk result (λ r. r.free ≡ is_race_free
        ended.now.module.now ended.now.core.world.arguments ended.now.log.items) }
{
    if json {
        return module_span_value(alloc, ended);
    }
    module_span(alloc, ended)
}
