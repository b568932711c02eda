//! What steps make, and of what.

ghost use Rattle.std.specs.Prelude.{◌≡◌};
ghost use Rattle.xk_why.specs.declared.flows.Location.TheVariants as location;
ghost use Rattle.xk_why.specs.Flows.{makes, overwrites, same_location, same_round, same_slot};

use xk_show_events::RunStep;

/// A slot of a frame of an activity.
#[derive(Clone, Copy)]
pub struct Slot {
    /// The activity.
    pub act: u32,
    /// How many of its frames wait for this one to return.
    pub depth: usize,
    /// The slot, by its number.
    pub number: usize,
}

/// A phase of a clock.
#[derive(Clone, Copy)]
pub struct Round {
    /// The clock.
    pub clock: u32,
    /// The phase.
    pub phase: u64,
}

/// Where a number stands; or what others wait for.
#[derive(Clone, Copy)]
pub enum Location {
    /// A slot of a frame.
    Slot(Slot),
    /// A shared number.
    Shared(u16),
    /// The steps by which a clock ceased to await activities in a phase.
    Signals(Round),
    /// The ends for which a finish waits: that which the step of this number opened.
    Ends(u64),
}

/// What a step makes at one location, and of what.
#[derive(Clone, Copy)]
pub struct Flow {
    /// The step.
    pub step: RunStep,
    /// Where it makes something, if it does.
    pub to: Option<Location>,
    /// Whether it adds to what was there, and makes nothing anew.
    pub adds: bool,
    /// What it uses for that, if it uses anything.
    pub first: Option<Location>,
    /// And what else.
    pub second: Option<Location>,
}

/// Whether both are one slot.
fn same_slot(one: Slot, other: Slot) -> bool
    ensures { result ≡ same_slot one other }
{
    one.act == other.act && one.depth == other.depth && one.number == other.number
}

/// Whether both are one phase of one clock.
fn same_round(one: Round, other: Round) -> bool
    ensures { result ≡ same_round one other }
{
    one.clock == other.clock && one.phase == other.phase
}

/// Whether a location is this slot.
fn is_slot(slot: Slot, other: Location) -> bool
    ensures { result ≡ same_location (location.Slot slot) other }
{
    match other {
        Location::Slot(other) => same_slot(slot, other),
        _ => false,
    }
}

/// Whether it is this shared number.
fn is_shared(number: u16, other: Location) -> bool
    ensures { result ≡ same_location (location.Shared number) other }
{
    match other {
        Location::Shared(other) => number == other,
        _ => false,
    }
}

/// Whether it is what this phase waited for.
fn is_round(round: Round, other: Location) -> bool
    ensures { result ≡ same_location (location.Signals round) other }
{
    match other {
        Location::Signals(other) => same_round(round, other),
        _ => false,
    }
}

/// Whether it is what this finish waits for.
fn is_ends(finish: u64, other: Location) -> bool
    ensures { result ≡ same_location (location.Ends finish) other }
{
    match other {
        Location::Ends(other) => finish == other,
        _ => false,
    }
}

/// Whether both are one location.
pub(crate) fn same_location(one: Location, other: Location) -> bool
    ensures { result ≡ same_location one other }
{
    match one {
        Location::Slot(slot) => is_slot(slot, other),
        Location::Shared(number) => is_shared(number, other),
        Location::Signals(round) => is_round(round, other),
        Location::Ends(finish) => is_ends(finish, other),
    }
}

/// Whether a step makes something at a location.
pub(crate) fn makes(flow: &Flow, location: Location) -> bool
    ensures { result ≡ makes flow.now location }
{
    match flow.to {
        Some(to) => same_location(to, location),
        None => false,
    }
}

/// Whether nothing is left of what was there.
pub(crate) fn overwrites(flow: &Flow, location: Location) -> bool
    ensures { result ≡ overwrites flow.now location }
{
    makes(flow, location) && !flow.adds
}
