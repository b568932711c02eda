//! What is told of places of a module.

use xk_types::Kind;

/// What an instruction does with a slot.
#[derive(Clone, Copy)]
pub(crate) enum Deed {
    /// It resumes its clock.
    Resumed,
    /// It drops it.
    Dropped,
    /// It starts an activity, and hands it on.
    Started,
    /// It calls this unit, and lends it.
    Called(u16),
    /// It ends a finish.
    Finished,
    /// It makes a clock, and names it by the slot.
    MadeAnew,
    /// It ends the unit.
    Left,
    /// Something else.
    Other,
}

/// What is told of a place, or of a unit.
#[derive(Clone, Copy)]
pub(crate) enum Fact {
    /// The loop that begins here takes so many turns each time, and so many in one run of its unit.
    Loop { turns: u64, all: u64 },
    /// A unit is called here so often in one run of the unit around it.
    Call { unit: u16, times: u64 },
    /// One is started here so often.
    Start { unit: u16, times: u64 },
    /// A clock is made here so often.
    Make { times: u64 },
    /// The unit takes so many steps at most, with all that it calls and starts.
    Steps(u64),
    /// It starts so many activities at most.
    Activities(u64),
    /// It makes so many clocks at most.
    Clocks(u64),
    /// It has so many slots, and at most so many with those that it calls.
    Slots { own: u16, all: u64 },
    /// The clock of this slot is made here.
    Made(u16),
    /// The clock of this slot comes from outside of the unit.
    Outside(u16),
    /// The clock of this slot is dropped here, on the way to the place refused.
    Dropped(u16),
    /// The finish that begins here is open at the place refused.
    Open,
    /// The finish that ends at the place refused begins here.
    Begins,
    /// The slot may hold this here, where this is done with it.
    Holds { slot: u16, kind: Kind, deed: Deed },
    /// At the end of the finish one waits for those that this starts, who may wait on the slot's clock for that one.
    Waits { slot: u16, deed: Deed },
}

/// A place of which something is told.
#[derive(Clone, Copy)]
pub(crate) struct Remark {
    /// The unit, by its number.
    pub unit: u16,
    /// The place of an instruction of the unit; none where the unit itself is spoken of.
    pub at: Option<u16>,
    /// What is told.
    pub fact: Fact,
}

/// What notes are on.
#[derive(Clone, Copy)]
pub(crate) enum Subject {
    /// The steps of a run.
    Steps,
    /// The activities that it starts.
    Activities,
    /// The clocks that it makes.
    Clocks,
    /// The slots of methods that call one another.
    Stack,
    /// All numbers of a program that is accepted.
    Accepted,
}
