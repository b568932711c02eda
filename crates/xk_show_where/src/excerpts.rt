//! Excerpts of lists of activities.

ghost use Rattle.std.specs.Prelude.{◌≡◌, ◌<◌, ◌^◌, ◌++◌, [], flat_map, OnOk};
ghost use Rattle.xk_show_where.specs.Excerpts.{excerpt_of, first_with, noted};
ghost use Rattle.xk_show_where.specs.Where.{act_word, excerpt_words};

use crate::texts::{push_act, push_more};
use std::alloc::{AllocError, Global};
use std::marker::Model;

/// The first eight of some activities, and how many there are.
#[derive(Drop)]
pub struct Excerpt {
    first: Vec<u32>,
    count: usize,
}

impl Model for Excerpt {
    ghost use Rattle.xk_show_where.specs.Excerpts.{ExcerptValue};

    ghost Value = { ExcerptValue };

    ghost view = { λ e. record { first = e.first.items; count = e.count } };
}

/// Adds an activity behind so many, if it is one of the first eight.
fn push_first(first: &mut Vec<u32>, count: usize, act: u32) -> Result<(), AllocError>
    ensures { OnOk result (first.new.items ≡ first_with first.old.items count act) }
{
    if count < 8 {
        first.push(act)?;
    }
    Ok(())
}

/// Adds activities, each after a blank.
fn push_each(alloc: Global, out: &mut Vec<u8>, acts: &[u32]) -> Result<(), AllocError>
    ensures { OnOk result (out.new.items ≡ out.old.items ++ flat_map act_word acts.now) }
{
    for act in acts {
        push_act(alloc, out, *act)?;
    }
    Ok(())
}

impl Excerpt {
    /// Of no activities.
    pub(crate) fn new(alloc: Global) -> Excerpt
        ensures { result ≡ excerpt_of [] }
    {
        Excerpt {
            first: Vec::new(alloc),
            count: 0,
        }
    }

    /// Adds an activity behind them, if it belongs there.
    pub(crate) fn note(&mut self, act: u32, belongs: bool) -> Result<(), AllocError>
        requires { self.old.count < 2 ^ 32 }
        ensures { OnOk result (self.new ≡ noted belongs act self.old) }
    {
        if !belongs {
            return Ok(());
        }
        push_first(&mut self.first, self.count, act)?;
        self.count += 1;
        Ok(())
    }

    /// The first eight.
    pub fn first(&self) -> &[u32]
        ensures { result.now ≡ self.now.first }
    {
        &self.first
    }

    /// How many there are.
    pub fn count(&self) -> usize
        ensures { result ≡ self.now.count }
    {
        self.count
    }

    /// Adds it in words: the first eight, and how many more.
    pub(crate) fn push_to(&self, alloc: Global, out: &mut Vec<u8>) -> Result<(), AllocError>
        ensures { OnOk result (out.new.items ≡ out.old.items ++ excerpt_words self.now) }
    {
        push_each(alloc, out, &self.first)?;
        push_more(alloc, out, self.count.saturating_sub(8))
    }
}
