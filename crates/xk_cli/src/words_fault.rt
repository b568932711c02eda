//! Why words are no job.

ghost use Rattle.std.specs.Prelude.{◌≡◌};

use crate::misfit::Misfit;
use std::alloc::AllocError;
use thiserror::Error;
use xk_jobs::status;

/// The words are no job.
#[derive(Debug, Drop, Error)]
pub enum WordsFault {
    /// They ask for help, and this is its text, for standard output.
    #[error("{0}")]
    Help(String),
    /// They aren't understood, and this text says why, for standard error.
    #[error("{0}")]
    NotUnderstood(String),
    /// They don't go together.
    #[error("{line}", line = .0.line())]
    Misfit(Misfit),
    /// Memory ran out.
    #[error("out of memory")]
    OutOfMemory,
}

impl WordsFault {
    ghost use Rattle.xk_cli.specs.CommandLine.{status_of};

    /// The status that the program ends with.
    pub fn status(&self) -> u8
        ensures { result ≡ status_of self.now }
    {
        match self {
            WordsFault::Help(_) => status::DONE,
            WordsFault::NotUnderstood(_) | WordsFault::Misfit(_) => status::WORDS,
            WordsFault::OutOfMemory => status::MEMORY,
        }
    }
}

impl From<AllocError> for WordsFault {
    ghost use Rattle.xk_cli.specs.declared.words_fault.WordsFault.TheVariants.{OutOfMemory};

    ghost from_gives = { λ _ fault. fault ≡ OutOfMemory };

    /// Want of memory, wherever it was met.
    fn from(_error: AllocError) -> WordsFault {
        WordsFault::OutOfMemory
    }
}
