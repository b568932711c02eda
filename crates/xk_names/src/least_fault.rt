//! Which of the faults is reported, and which comes next.

ghost use Rattle.std.specs.Prelude.{◌≡◌};
ghost use Rattle.xk_names.specs.Faults.{fault};
ghost use Rattle.xk_names.specs.FaultList.{is_lesser, is_past, is_reported_before, least, lesser, when};

use xk_tree::{FrontFault, FrontRule};

/// A search for the least fault: the one with the least offset, and at one offset the one with the least number.
#[derive(Clone, Copy)]
pub struct Search {
    /// Only faults behind this one count; all, where it is `None`.
    pub floor: Option<FrontFault>,
    /// The least of those so far.
    pub found: Option<FrontFault>,
}

/// Whether the first of two faults is reported before the second.
fn is_before(f: FrontFault, g: FrontFault) -> bool
    ensures { result ≡ is_reported_before f g }
{
    f.at < g.at || f.at == g.at && f.rule.number() < g.rule.number()
}

impl Search {
    /// Whether the fault is behind the floor.
    fn is_past(self, fault: FrontFault) -> bool
        ensures { result ≡ is_past self.floor fault }
    {
        match self.floor {
            None => true,
            Some(floor) => is_before(floor, fault),
        }
    }

    /// Whether the fault is less than the one that was found.
    fn is_lesser(self, fault: FrontFault) -> bool
        ensures { result ≡ is_lesser fault self.found }
    {
        match self.found {
            None => true,
            Some(found) => is_before(fault, found),
        }
    }
}

/// Keeps the lesser of the worst fault so far and this one, where this one is behind the floor.
pub fn note(worst: &mut Search, rule: FrontRule, at: usize)
    ensures { worst.new ≡ lesser worst.old (fault rule at) }
{
    let found = FrontFault { rule, at };
    if worst.is_past(found) && worst.is_lesser(found) {
        worst.found = Some(found);
    }
}

/// Notes the fault where the condition holds.
pub fn note_if(is_there: bool, worst: &mut Search, rule: FrontRule, at: usize)
    ensures { worst.new ≡ least worst.old (when is_there rule at) }
{
    if is_there {
        note(worst, rule, at);
    }
}
