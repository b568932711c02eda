//! Which step wrote each shared number last.

ghost use Rattle.std.specs.Prelude.{◌≡◌, [], ◌++◌, replicate, slice_index_or, OnOk};
ghost use Rattle.xk_show_names.specs.Accounts.{puts};
ghost use Rattle.xk_show_names.specs.Writers.{in_row, noted, set_for, with_at};

use crate::accounts::{Account, Subject};
use std::alloc::{AllocError, Global};
use std::marker::Model;
use xk_types::Event;

/// For each shared number the step that wrote or added to it last: 0, if none did.
#[derive(Drop)]
pub(crate) struct Writers {
    steps: Vec<u64>,
}

impl Model for Writers {
    ghost use Rattle.std.specs.Prelude.{ℕ, List};

    ghost Value = { List ℕ };

    ghost view = { λ w. w.steps.items };
}

/// Adds a 0 so many times.
fn push_zeros(steps: &mut Vec<u64>, count: usize) -> Result<(), AllocError>
    ensures { OnOk result (steps.new.items ≡ steps.old.items ++ replicate count 0) }
{
    for _ in 0..count {
        steps.push(0)?;
    }
    Ok(())
}

/// Whether a step changed a shared number.
fn puts(event: Event) -> bool
    ensures { result ≡ puts event }
{
    matches!(event, Event::Put | Event::Added)
}

impl Writers {
    /// Nobody wrote anything.
    pub(crate) fn new(alloc: Global) -> Writers
        ensures { result ≡ [] }
    {
        Writers {
            steps: Vec::new(alloc),
        }
    }

    /// The step that wrote a shared number last.
    fn of_number(&self, number: u16) -> u64
        ensures { result ≡ slice_index_or self.now number 0 }
    {
        match self.steps.get(number as usize) {
            Some(step) => *step,
            None => 0,
        }
    }

    /// The step that wrote last what a step is about.
    pub(crate) fn of(&self, subject: Subject) -> u64
        ensures { result ≡ in_row self.now subject }
    {
        match subject {
            Subject::Nothing => 0,
            Subject::Clock(_) => 0,
            Subject::Shared(number) => self.of_number(number),
        }
    }

    /// This step wrote a shared number.
    fn set(&mut self, number: u16, step: u64) -> Result<(), AllocError>
        ensures { OnOk result (self.new ≡ with_at self.old number step) }
    {
        let place = number as usize;
        let wanting = (place + 1).saturating_sub(self.steps.len());
        push_zeros(&mut self.steps, wanting)?;
        self.steps[place] = step;
        Ok(())
    }

    /// This step wrote what it is about.
    fn set_for(&mut self, step: u64, subject: Subject) -> Result<(), AllocError>
        ensures { OnOk result (self.new ≡ set_for self.old step subject) }
    {
        match subject {
            Subject::Nothing => Ok(()),
            Subject::Clock(_) => Ok(()),
            Subject::Shared(number) => self.set(number, step),
        }
    }

    /// This step was taken.
    pub(crate) fn note(&mut self, account: &Account) -> Result<(), AllocError>
        ensures { OnOk result (self.new ≡ noted self.old account.now) }
    {
        if puts(account.step.event) {
            return self.set_for(account.step.number, account.subject);
        }
        Ok(())
    }
}
