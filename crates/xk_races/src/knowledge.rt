//! What each activity knows of a run.

ghost use Rattle.std.specs.Prelude.{◌≡◌, IfOk, OnOk};
ghost use Rattle.xk_races.specs.Lists.{number_at, row_at};
ghost use Rattle.xk_races.specs.Knowledge.{after, heard, nothing_known, scope_closed, scope_opened, scoped, started, taught, with_acts};

use crate::deeds::{Deed, Part};
use crate::rows::{Row, copied, number_at, row_at, set_in, set_number, tell};
use std::alloc::{AllocError, Global};
use std::marker::Model;

/// Which finish each activity is in, and which one is around each finish.
#[derive(Drop)]
pub struct Scopes {
    within: Vec<usize>,
    around: Vec<usize>,
}

impl Model for Scopes {
    ghost use Rattle.xk_races.specs.Knowledge.{Scopes as ScopesValue};

    ghost Value = { ScopesValue };

    ghost view = { λ s. record { within = s.within.items; around = s.around.items } };
}

impl Scopes {
    /// Before the first deed: all are in the finish that governs main. Err where memory was refused.
    pub fn new(alloc: Global) -> Result<Scopes, AllocError>
        ensures { IfOk result (λ s. s ≡ nothing_known.scopes) }
    {
        let mut around = Vec::new(alloc);
        around.push(0)?;
        Ok(Scopes {
            within: Vec::new(alloc),
            around,
        })
    }

    /// The finish that an activity is in.
    pub fn of(&self, act: u32) -> usize
        ensures { result ≡ number_at self.now.within act }
    {
        number_at(&self.within, act as usize)
    }

    /// A finish is opened.
    fn open(&mut self, act: u32) -> Result<(), AllocError>
        ensures { OnOk result (self.new ≡ scope_opened act self.old) }
    {
        let finish = self.around.len();
        let around = self.of(act);
        set_number(&mut self.within, act, finish)?;
        self.around.push(around)?;
        Ok(())
    }

    /// The finish is closed.
    fn close(&mut self, act: u32) -> Result<(), AllocError>
        ensures { OnOk result (self.new ≡ scope_closed act self.old) }
    {
        let around = number_at(&self.around, self.of(act));
        set_number(&mut self.within, act, around)
    }

    /// What a deed makes of them. Err where memory was refused.
    pub fn take(&mut self, act: u32, part: Part) -> Result<(), AllocError>
        ensures { OnOk result (self.new ≡ scoped act part self.old) }
    {
        match part {
            Part::Start(child) => {
                let finish = self.of(act);
                set_number(&mut self.within, child, finish)
            }
            Part::Open => self.open(act),
            Part::Close => self.close(act),
            _ => Ok(()),
        }
    }
}

/// What is known so far: a row of what each activity knows, and rows by which it comes to others.
#[derive(Drop)]
pub struct Knowledge {
    acts: Vec<Row>,
    /// Of each clock, what those knew whom its next advance waits for.
    signals: Vec<Row>,
    /// Of each clock, what those knew who left it behind a resume.
    leaves: Vec<Row>,
    /// Of each clock, what those knew whom its last advance waited for.
    advances: Vec<Row>,
    /// Of each finish, what those knew who ended in it.
    ends: Vec<Row>,
    scopes: Scopes,
}

impl Model for Knowledge {
    ghost use Rattle.xk_races.specs.Knowledge.{Known};

    ghost Value = { Known };

    ghost view = { λ k. record {
      acts = k.acts.items;
      signals = k.signals.items;
      leaves = k.leaves.items;
      advances = k.advances.items;
      ends = k.ends.items;
      scopes = k.scopes;
    } };
}

impl Knowledge {
    /// Before the first deed. Err where memory was refused.
    pub fn new(alloc: Global) -> Result<Knowledge, AllocError>
        ensures { IfOk result (λ k. k ≡ nothing_known) }
    {
        let scopes = Scopes::new(alloc)?;
        Ok(Knowledge {
            acts: Vec::new(alloc),
            signals: Vec::new(alloc),
            leaves: Vec::new(alloc),
            advances: Vec::new(alloc),
            ends: Vec::new(alloc),
            scopes,
        })
    }

    /// What an activity knows.
    pub fn of(&self, act: u32) -> &[usize]
        ensures { result.now ≡ row_at self.now.acts act }
    {
        row_at(&self.acts, act as usize)
    }

    /// What an activity learns by a deed.
    fn hear(&mut self, alloc: Global, act: u32, part: Part) -> Result<(), AllocError>
        ensures { OnOk result (self.new ≡ with_acts self.old (heard act part self.old)) }
    {
        match part {
            Part::Pass(c) => {
                let row = row_at(&self.advances, c as usize);
                tell(alloc, &mut self.acts, act as usize, row)
            }
            Part::Close => {
                let row = row_at(&self.ends, self.scopes.of(act));
                tell(alloc, &mut self.acts, act as usize, row)
            }
            _ => Ok(()),
        }
    }

    /// An activity is started.
    fn start(&mut self, alloc: Global, act: u32, child: u32) -> Result<(), AllocError>
        ensures { OnOk result (self.new ≡ started act child self.old) }
    {
        let row = copied(alloc, row_at(&self.acts, act as usize))?;
        tell(alloc, &mut self.acts, child as usize, &row)
    }

    /// Who learns by a deed what its activity knows.
    fn tell(&mut self, alloc: Global, act: u32, part: Part) -> Result<(), AllocError>
        ensures { OnOk result (self.new ≡ taught act part self.old) }
    {
        let row = row_at(&self.acts, act as usize);
        match part {
            Part::Start(child) => self.start(alloc, act, child),
            Part::Signal(c) => tell(alloc, &mut self.signals, c as usize, row),
            Part::Leave(c) => tell(alloc, &mut self.leaves, c as usize, row),
            Part::Advance(c) => {
                let signals = row_at(&self.signals, c as usize);
                tell(alloc, &mut self.advances, c as usize, signals)?;
                let leaves = row_at(&self.leaves, c as usize);
                tell(alloc, &mut self.signals, c as usize, leaves)
            }
            Part::End => tell(alloc, &mut self.ends, self.scopes.of(act), row),
            _ => Ok(()),
        }
    }

    /// Deed number n.
    pub fn take(&mut self, alloc: Global, n: usize, deed: &Deed) -> Result<(), AllocError>
        ensures { OnOk result (self.new ≡ after n deed.now self.old) }
    {
        let act = deed.step.act;
        self.hear(alloc, act, deed.part)?;
        set_in(alloc, &mut self.acts, act, act, n)?;
        self.tell(alloc, act, deed.part)?;
        self.scopes.take(act, deed.part)
    }
}
