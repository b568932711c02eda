//! What is known of times, deed by deed.

ghost use Rattle.std.specs.Prelude.{◌≡◌, IfOk, OnOk};
ghost use Rattle.xk_span.specs.Times.{advanced_by, after, heard, learnt, link, nothing_known, taught, with_acts};

use crate::marks::{Mark, behind, mark_at, set_mark, tell};
use std::alloc::{AllocError, Global};
use std::marker::Model;
use xk_races::{Deed, Part, Scopes};

/// The mark of each activity, and those by which times come to others.
#[derive(Drop)]
pub(crate) struct Times {
    pub(crate) acts: Vec<Mark>,
    /// Of each clock, that of those whom its next advance waits for.
    signals: Vec<Mark>,
    /// Of each clock, that of those who left it behind a resume.
    leaves: Vec<Mark>,
    /// Of each clock, that of those whom its last advance waited for.
    advances: Vec<Mark>,
    /// Of each finish, that of those who ended in it.
    ends: Vec<Mark>,
    scopes: Scopes,
}

impl Model for Times {
    ghost use Rattle.xk_span.specs.Times.{Known};

    ghost Value = { Known };

    ghost view = { λ k. record {
      acts = k.acts.items;
      signals = k.signals.items;
      leaves = k.leaves.items;
      advances = k.advances.items;
      ends = k.ends.items;
      scopes = k.scopes;
    } };
}

impl Times {
    /// Before the first deed. Err where memory was refused.
    pub(crate) fn new(alloc: Global) -> Result<Times, AllocError>
        ensures { IfOk result (λ k. k ≡ nothing_known) }
    {
        let scopes = Scopes::new(alloc)?;
        Ok(Times {
            acts: Vec::new(alloc),
            signals: Vec::new(alloc),
            leaves: Vec::new(alloc),
            advances: Vec::new(alloc),
            ends: Vec::new(alloc),
            scopes,
        })
    }

    /// What an activity waits for by a deed.
    fn hear(&mut self, act: u32, part: Part) -> Result<(), AllocError>
        ensures { OnOk result (self.new ≡ with_acts self.old (heard act part self.old)) }
    {
        match part {
            Part::Pass(c) => {
                let mark = mark_at(&self.advances, c as usize);
                tell(&mut self.acts, act as usize, mark)
            }
            Part::Close => {
                let mark = mark_at(&self.ends, self.scopes.of(act));
                tell(&mut self.acts, act as usize, mark)
            }
            _ => Ok(()),
        }
    }

    /// The activity waits, and takes deed number n, which weighs x; the latest deed right before that.
    fn learn(&mut self, n: usize, x: usize, deed: &Deed) -> Result<Mark, AllocError>
        ensures known { OnOk result
            (self.new ≡ learnt deed.now.step.act n x deed.now.part self.old) }
        ensures link { IfOk result
            (λ l. l ≡ link deed.now.step.act deed.now.part self.old) }
    {
        let act = deed.step.act;
        self.hear(act, deed.part)?;
        let link = mark_at(&self.acts, act as usize);
        let mark = behind(n, x, link)?;
        set_mark(&mut self.acts, act as usize, mark)?;
        Ok(link)
    }

    /// A clock advances.
    fn advance(&mut self, c: usize) -> Result<(), AllocError>
        ensures { OnOk result (self.new ≡ advanced_by c self.old) }
    {
        let signal = mark_at(&self.signals, c);
        tell(&mut self.advances, c, signal)?;
        let leave = mark_at(&self.leaves, c);
        tell(&mut self.signals, c, leave)
    }

    /// Whom a deed lets go on.
    fn teach(&mut self, act: u32, part: Part) -> Result<(), AllocError>
        ensures { OnOk result (self.new ≡ taught act part self.old) }
    {
        let mark = mark_at(&self.acts, act as usize);
        match part {
            Part::Start(child) => tell(&mut self.acts, child as usize, mark),
            Part::Signal(c) => tell(&mut self.signals, c as usize, mark),
            Part::Leave(c) => tell(&mut self.leaves, c as usize, mark),
            Part::Advance(c) => self.advance(c as usize),
            Part::End => tell(&mut self.ends, self.scopes.of(act), mark),
            _ => Ok(()),
        }
    }

    /// Deed number n, which weighs x; the latest deed right before it. Err where memory was refused.
    pub(crate) fn take(&mut self, n: usize, x: usize, deed: &Deed) -> Result<Mark, AllocError>
        ensures known { OnOk result (self.new ≡ after n x deed.now self.old) }
        ensures link { IfOk result
            (λ l. l ≡ link deed.now.step.act deed.now.part self.old) }
    {
        let act = deed.step.act;
        let link = self.learn(n, x, deed)?;
        self.teach(act, deed.part)?;
        self.scopes.take(act, deed.part)?;
        Ok(link)
    }
}
