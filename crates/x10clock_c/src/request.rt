//! What the words of a call ask for, and what is answered.

ghost use Rattle.std.specs.Prelude.{◌≡◌, [], IfOk};
ghost use Rattle.xk_jobs.specs.Status.{status_done, status_words};
ghost use Rattle.xk_cli.specs.CommandLine.{texts};
ghost use Rattle.xk_serve.specs.Answer.{task_of};
ghost use Rattle.x10clock_c.specs.Call.{AnswersAsked, AnswersCall, AnswersFault, AnswersHand, AnswersJob};
ghost use Rattle.x10clock_c.specs.Call.{AnswersRequest, AnswersWords, no_text_line, reply_of};

use crate::answer::{Answer, answered, fresh_devices};
use crate::page::rule_page;
use crate::words::words_in;
use std::alloc::{AllocError, Global};
use std::str::from_utf8;
use xk_cli::{WordsFault, read_job};
use xk_jobs::{HandRun, Job, Request, status};
use xk_serve::{serve_alone, tell, tell_words};
use xk_serve_ask::serve_asked;

/// Where a word isn't text.
const NO_TEXT_LINE: &str = "x10clock: a word is not in UTF-8\n";

/// What the words in these bytes ask for is done, on these bytes of FILE and of the input.
pub(crate) fn answer_to(
    alloc: Global,
    words: &[u8],
    program: &[u8],
    input: &[u8],
) -> Result<Answer, AllocError>
    ensures { IfOk result (AnswersCall words.now program.now input.now) }
{
    match from_utf8(words) {
        Ok(text) => answer_words(alloc, &words_in(alloc, text)?, program, input),
        Err(_) => answer_no_text(alloc),
    }
}

/// Says that a word isn't text.
fn answer_no_text(alloc: Global) -> Result<Answer, AllocError>
    ensures { IfOk result (λ a. a ≡ reply_of status_words [] no_text_line []) }
{
    let mut on = fresh_devices(alloc, &[], &[])?;
    let status = tell(NO_TEXT_LINE, status::WORDS, &mut on.err);
    answered(status, on)
}

/// Does what the words ask for, or says why they ask for nothing.
fn answer_words(
    alloc: Global,
    words: &[&str],
    program: &[u8],
    input: &[u8],
) -> Result<Answer, AllocError>
    ensures { IfOk result (AnswersWords (texts words.now) program.now input.now) }
{
    match read_job(alloc, words) {
        Ok(request) => answer_request(alloc, &request, program, input),
        Err(fault) => answer_fault(alloc, &fault),
    }
}

/// Says why words ask for nothing.
fn answer_fault(alloc: Global, fault: &WordsFault) -> Result<Answer, AllocError>
    ensures { IfOk result (AnswersFault fault.now) }
{
    let mut on = fresh_devices(alloc, &[], &[])?;
    let status = tell_words(fault, &mut on.out, &mut on.err);
    answered(status, on)
}

/// Tells of the rule whose code stands for FILE, or does what is asked for.
fn answer_request(
    alloc: Global,
    request: &Request<'_>,
    program: &[u8],
    input: &[u8],
) -> Result<Answer, AllocError>
    ensures { IfOk result (AnswersRequest request.now program.now input.now) }
{
    match rule_page(request) {
        Some(page) => answer_page(alloc, page),
        None => answer_asked(alloc, request, program, input),
    }
}

/// Does the job, or plays the run by hand.
fn answer_asked(
    alloc: Global,
    request: &Request<'_>,
    program: &[u8],
    input: &[u8],
) -> Result<Answer, AllocError>
    ensures { IfOk result (AnswersAsked request.now program.now input.now) }
{
    match request {
        Request::Job(job) => answer_job(alloc, job, program, input),
        Request::ByHand(run) => answer_by_hand(alloc, run, program, input),
    }
}

/// The page of a rule.
fn answer_page(alloc: Global, page: &str) -> Result<Answer, AllocError>
    ensures { IfOk result (λ a. a ≡ reply_of status_done page.now [] []) }
{
    let mut on = fresh_devices(alloc, &[], &[])?;
    let status = tell(page, status::DONE, &mut on.out);
    answered(status, on)
}

/// Does the job.
fn answer_job(
    alloc: Global,
    job: &Job<'_>,
    program: &[u8],
    input: &[u8],
) -> Result<Answer, AllocError>
    ensures { IfOk result (AnswersJob (task_of job.now) program.now input.now) }
{
    let mut on = fresh_devices(alloc, program, input)?;
    let status = serve_alone(
        alloc,
        job,
        &mut on.program,
        &mut on.input,
        &mut on.out,
        &mut on.err,
        &mut on.log,
    );
    answered(status, on)
}

/// Plays the run by hand, by the answers in the input.
fn answer_by_hand(
    alloc: Global,
    run: &HandRun<'_>,
    program: &[u8],
    input: &[u8],
) -> Result<Answer, AllocError>
    ensures { IfOk result (AnswersHand run.now program.now input.now) }
{
    let mut on = fresh_devices(alloc, program, input)?;
    let arguments = run.arguments.as_slice();
    let keeps_log = run.log.is_some();
    let status = serve_asked(
        alloc,
        run.form,
        arguments,
        keeps_log,
        &mut on.program,
        &mut on.input,
        &mut on.out,
        &mut on.err,
        &mut on.log,
    );
    answered(status, on)
}
