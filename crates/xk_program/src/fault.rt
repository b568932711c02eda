//! What stands against a job.

ghost use Rattle.std.specs.Prelude.{◌≡◌, IfOk, string_bytes};
ghost use Rattle.xk_program.specs.Lines.{fault_line, status_of};
ghost use Rattle.xk_messages.specs.Lines.{label_status, refusal_status};

use std::alloc::{AllocError, Global};
use thiserror::Error;
use xk_bounds::Refusal;
use xk_jobs::status;
use xk_log::{Log, LogFault};
use xk_messages::{
    MEMORY_LINE, arguments_line, front_text, grammar_line, label_line, label_status, line,
    no_outcome_line, not_enabled_line, refusal_line, refusal_status,
};
use xk_module::ModuleFault;
use xk_replay::ReplayFault;
use xk_tree::{FrontError, FrontFault};
use xk_types::{Failed, Module};

/// What stands against a job.
#[derive(Debug, Drop, Error)]
pub enum Fault {
    /// FILE holds no module.
    #[error("{0}")]
    Text(ModuleFault),
    /// The source text in FILE has no module.
    #[error("the text breaks rule F{number} {name} at {at}", number = .0.number(), name = .0.name(), at = .0.offset())]
    Front(FrontFault),
    /// The verifier refuses the module.
    #[error("{0}")]
    Refused(Refusal),
    /// Main takes so many numbers, and is given so many others.
    #[error("main takes {wants} numbers and is given {has}")]
    Arguments { wants: u32, has: usize },
    /// This line of LOG, from 1 on, is the first that doesn't fit its place.
    #[error("line {0} of the log doesn't fit its place")]
    Grammar(u64),
    /// LOG ends before its last line does.
    #[error("the log ends before its last line does")]
    Truncated,
    /// This entry of the log, from 0 on, is the first that has a step which isn't enabled.
    #[error("entry {0} of the log has a step that isn't enabled")]
    NotEnabled(u64),
    /// The log stops before its run does.
    #[error("the log stops before its run does")]
    NotEnded,
    /// This line of a list of outcomes, from 1 on, is the first that may not stand there.
    #[error("line {0} of the list is no outcome's")]
    NoOutcome(u64),
    /// Memory ran out.
    #[error("out of memory")]
    OutOfMemory,
    /// A read or a write failed.
    #[error("a device failed")]
    Device,
}

/// The line of a device that failed.
pub const DEVICE_LINE: &str = "x10clock: device\n";

impl Fault {
    /// The status that the program ends with.
    pub fn status(&self) -> u8
        ensures { result ≡ status_of self.now }
    {
        match self {
            Fault::Text(fault) => label_status(*fault),
            Fault::Front(_) | Fault::Arguments { .. } => status::PROGRAM,
            Fault::Refused(refusal) => refusal_status(refusal),
            Fault::Grammar(_)
            | Fault::Truncated
            | Fault::NotEnabled(_)
            | Fault::NotEnded
            | Fault::NoOutcome(_) => status::LOG,
            Fault::OutOfMemory => status::MEMORY,
            Fault::Device => status::DEVICE,
        }
    }

    /// The line that goes to standard error.
    pub fn line(&self, alloc: Global) -> Result<String, AllocError>
        ensures { IfOk result (λ text. string_bytes text ≡ fault_line self.now) }
    {
        match self {
            Fault::Text(fault) => label_line(alloc, *fault),
            Fault::Front(fault) => line(alloc, front_text(alloc, *fault)?.as_str()),
            Fault::Refused(refusal) => refusal_line(alloc, refusal),
            Fault::Arguments { wants, has } => arguments_line(alloc, *wants, *has),
            Fault::Grammar(number) => grammar_line(alloc, *number),
            Fault::Truncated => line(alloc, "L2 Truncated"),
            Fault::NotEnabled(entry) => not_enabled_line(alloc, *entry),
            Fault::NotEnded => line(alloc, "L5 NotEnded"),
            Fault::NoOutcome(number) => no_outcome_line(alloc, *number),
            Fault::OutOfMemory => String::from_str(alloc, MEMORY_LINE),
            Fault::Device => String::from_str(alloc, DEVICE_LINE),
        }
    }
}

impl From<AllocError> for Fault {
    ghost use Rattle.xk_program.specs.declared.fault.Fault.TheVariants.{OutOfMemory};

    ghost from_gives = { λ _ fault. fault ≡ OutOfMemory };

    /// Memory that was refused.
    fn from(_error: AllocError) -> Fault {
        Fault::OutOfMemory
    }
}

impl From<Failed> for Fault {
    ghost use Rattle.xk_program.specs.declared.fault.Fault.TheVariants.{Device};

    ghost from_gives = { λ _ fault. fault ≡ Device };

    /// A device that failed.
    fn from(_failed: Failed) -> Fault {
        Fault::Device
    }
}

impl From<ModuleFault> for Fault {
    ghost use Rattle.xk_program.specs.Faults.{of_text};

    ghost from_gives = { λ found fault. fault ≡ of_text found };

    /// What is wrong with the text of a module (M1 to M3), or want of memory.
    fn from(found: ModuleFault) -> Fault {
        match found {
            ModuleFault::NotJson | ModuleFault::NotAModule | ModuleFault::Limit => {
                Fault::Text(found)
            }
            ModuleFault::OutOfMemory => Fault::OutOfMemory,
        }
    }
}

impl From<FrontError> for Fault {
    ghost use Rattle.xk_program.specs.Faults.{of_front};

    ghost from_gives = { λ found fault. fault ≡ of_front found };

    /// What is wrong with a source text (F1 to F15), or want of memory.
    fn from(found: FrontError) -> Fault {
        match found {
            FrontError::Fault(fault) => Fault::Front(fault),
            FrontError::OutOfMemory => Fault::OutOfMemory,
        }
    }
}

impl From<(Module, Refusal)> for Fault {
    ghost use Rattle.xk_program.specs.Faults.{of_refusal};

    ghost from_gives = { λ refused fault. fault ≡ of_refusal refused.1 };

    /// What is wrong with a module (V1 to V17), or want of memory.
    fn from(refused: (Module, Refusal)) -> Fault {
        let (_module, refusal) = refused;
        match refusal {
            Refusal::Shape(_) | Refusal::Kind(_) | Refusal::Bound(_) => Fault::Refused(refusal),
            Refusal::OutOfMemory => Fault::OutOfMemory,
        }
    }
}

impl From<LogFault> for Fault {
    ghost use Rattle.xk_program.specs.Faults.{of_log};

    ghost from_gives = { λ found fault. fault ≡ of_log found };

    /// What is wrong with the text of a log (L1, L2), a device that failed, or want of memory.
    fn from(found: LogFault) -> Fault {
        match found {
            LogFault::Grammar(line) => Fault::Grammar(line),
            LogFault::Truncated => Fault::Truncated,
            LogFault::Device => Fault::Device,
            LogFault::OutOfMemory => Fault::OutOfMemory,
        }
    }
}

impl From<(Log, ReplayFault)> for Fault {
    ghost use Rattle.xk_program.specs.Faults.{of_replay};

    ghost from_gives = { λ refused fault. fault ≡ of_replay refused.1 };

    /// Why no run has a log (L4, L5), or want of memory.
    fn from(refused: (Log, ReplayFault)) -> Fault {
        let (_log, found) = refused;
        match found {
            ReplayFault::NotEnabled(entry) => Fault::NotEnabled(entry),
            ReplayFault::NotEnded => Fault::NotEnded,
            ReplayFault::OutOfMemory => Fault::OutOfMemory,
        }
    }
}
