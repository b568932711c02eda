//! What a job comes to.

ghost use Rattle.std.specs.Prelude.{◌≡◌, [], IfOk, OnErr, OnOk, string_bytes};
ghost use Rattle.std.specs.Io.KnownBytes.{Appends};
ghost use Rattle.std.specs.Option.{option_map_or};
ghost use Rattle.xk_types.specs.Device.{Rose};
ghost use Rattle.xk_io.specs.Writing.{AppendsBeginning};
ghost use Rattle.xk_log.specs.LogText.{log_text};
ghost use Rattle.xk_answers.specs.Printed.{done_status, verdict_status};
ghost use Rattle.xk_answers.specs.Printed.{done_ending, done_front, done_log, done_text, last_line};
ghost use Rattle.xk_answers.specs.declared.job_result.Done.TheVariants.{Ended};
ghost use Rattle.xk_messages.specs.Lines.{accepted_line, ended_line, rounds_line};

use crate::runs::Finished;
use std::alloc::{AllocError, Global};
use xk_io::{Device, write_all, write_numbers};
use xk_jobs::status;
use xk_messages::{accepted_line, ended_line, rounds_line};
use xk_outcome_lists::Verdict;
use xk_types::{Entry, Sink};

/// What a job comes to where nothing stands against it.
#[derive(Debug, Drop)]
pub enum Done {
    /// `compile`: the module has this text.
    Compiled(String),
    /// `check`: the module is accepted, with these bounds on its runs.
    Accepted {
        steps: u64,
        activities: u32,
        clocks: u32,
    },
    /// `explain`, `listing`: this is told of the module; `chart`, `events`, `lanes`, `page`, `where`, `races`, `span`, `why`: of the
    /// run that the log has; `page --outcome`: of a run with an outcome; `run --runs`: of many runs.
    Told {
        text: Vec<u8>,
        /// Whether that is a whole answer: nothing is left out, a run has no races, and a step that is asked for has a line.
        whole: bool,
    },
    /// `run`, `replay`: the module ran to its end, and printed these numbers.
    Ended {
        printed: Vec<i64>,
        steps: u64,
        /// How many rounds it took, where it ran by rounds.
        rounds: Option<u64>,
        /// Who took a step after whom, where that is to be kept.
        log: Option<Vec<Entry>>,
    },
    /// `outcomes`: this is told of what the module can print; `run --json`: of what a run printed.
    Outcomes {
        text: Vec<u8>,
        /// Whether that is all, and the log that is to be kept is there.
        whole: bool,
        /// The log of one of them, or of the run, where that is to be kept.
        log: Option<Vec<Entry>>,
    },
    /// `outcomes --expect`: this is told of what the module can print, held against a list.
    Held {
        text: Vec<u8>,
        /// What that says of the list.
        verdict: Verdict,
    },
}

impl Done {
    /// A run that came to its end.
    pub fn of_run(run: Finished) -> Done
        ensures { result ≡ Ended run.printed run.steps run.rounds run.log }
    {
        Done::Ended {
            printed: run.printed,
            steps: run.steps,
            rounds: run.rounds,
            log: run.log,
        }
    }

    /// The log of a run that is to have one.
    pub fn log(&self) -> Option<&[Entry]>
        ensures { option_map_or (λ log. log_text log.now) result [] ≡ done_log self.now }
    {
        match self {
            Done::Ended { log: Some(log), .. } | Done::Outcomes { log: Some(log), .. } => Some(log),
            Done::Ended { log: None, .. }
            | Done::Outcomes { log: None, .. }
            | Done::Compiled(_)
            | Done::Accepted { .. }
            | Done::Told { .. }
            | Done::Held { .. } => None,
        }
    }

    /// The status that the program ends with.
    pub fn status(&self) -> u8
        ensures { result ≡ done_status self.now }
    {
        match self {
            Done::Told { whole: false, .. } | Done::Outcomes { whole: false, .. } => {
                status::PARTIAL
            }
            Done::Told { whole: true, .. }
            | Done::Outcomes { whole: true, .. }
            | Done::Compiled(_)
            | Done::Accepted { .. }
            | Done::Ended { .. } => status::DONE,
            Done::Held { verdict, .. } => verdict_status(*verdict),
        }
    }

    /// What stands behind the numbers or the text that it has: the last line, or the end of one. All memory that writing wants is taken here.
    pub fn ending(&self, alloc: Global) -> Result<String, AllocError>
        ensures { IfOk result (λ ending. string_bytes ending ≡ done_ending self.now) }
    {
        match self {
            Done::Compiled(_) => String::from_str(alloc, "\n"),
            Done::Accepted {
                steps,
                activities,
                clocks,
            } => accepted_line(alloc, *steps, *activities, *clocks),
            Done::Told { .. } | Done::Outcomes { .. } | Done::Held { .. } => {
                Ok(String::new(alloc))
            }
            Done::Ended { steps, rounds, .. } => last_line(alloc, *steps, *rounds),
        }
    }

    /// Writes what goes to standard output, of which the ending was made, and takes no memory. Where a write fails, a beginning of it was
    /// written.
    pub fn write<O: Sink>(&self, ending: &str, out: &mut O) -> Result<(), Device>
        requires { ending.now ≡ done_ending self.now }
        ensures all { OnOk result
            (Appends (O.contents out.old) (O.contents out.new) (done_text self.now)) }
        ensures beginning { AppendsBeginning
            (O.contents out.old) (O.contents out.new) (done_text self.now) }
        ensures no_fault { OnOk result (O.fault_count out.new ≡ O.fault_count out.old) }
        ensures failed { OnErr result (Rose (O.fault_count out.old) (O.fault_count out.new)) }
    {
        self.write_front(out)?;
        write_all(out, ending.as_bytes())
    }

    /// Writes its numbers, each on a line of its own, or its text.
    fn write_front<O: Sink>(&self, out: &mut O) -> Result<(), Device>
        ensures all { OnOk result
            (Appends (O.contents out.old) (O.contents out.new) (done_front self.now)) }
        ensures beginning { AppendsBeginning
            (O.contents out.old) (O.contents out.new) (done_front self.now) }
        ensures no_fault { OnOk result (O.fault_count out.new ≡ O.fault_count out.old) }
        ensures failed { OnErr result (Rose (O.fault_count out.old) (O.fault_count out.new)) }
    {
        match self {
            Done::Compiled(text) => write_all(out, text.as_bytes()),
            Done::Accepted { .. } => Ok(()),
            Done::Told { text, .. } => write_all(out, text),
            Done::Outcomes { text, .. } => write_all(out, text),
            Done::Held { text, .. } => write_all(out, text),
            Done::Ended { printed, .. } => write_numbers(printed, out),
        }
    }
}

/// The last line of a run, whose rounds were counted or not.
fn last_line(alloc: Global, steps: u64, rounds: Option<u64>) -> Result<String, AllocError>
    ensures { IfOk result (λ line. string_bytes line ≡ last_line steps rounds) }
{
    match rounds {
        None => ended_line(alloc, steps),
        Some(rounds) => rounds_line(alloc, steps, rounds),
    }
}

/// The status of what outcomes say of a list.
fn verdict_status(verdict: Verdict) -> u8
    ensures { result ≡ verdict_status verdict }
{
    match verdict {
        Verdict::Complete => status::DONE,
        Verdict::Undecided => status::PARTIAL,
        Verdict::Refuted => status::REFUTED,
    }
}
