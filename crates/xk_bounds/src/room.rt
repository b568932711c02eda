//! What an activity needs to run a unit.

ghost use Rattle.std.specs.Prelude.{◌≡◌, ◌≤◌, ℕ, length, max, IfOk, slice_index_or};
ghost use Rattle.xk_types.specs.Shape.{HasShape};
ghost use Rattle.xk_types.specs.Blocks.{makes};
ghost use Rattle.xk_types.specs.Bound.{greatest_below, is_made, slots_made};
ghost use Rattle.xk_shape.specs.Blocks.{HasBlocks};
ghost use Rattle.xk_bounds.specs.Rooms.{nothing, IsSmall, AreRooms, IsRoomBy, IsGreatest, IsCalled, slots_in};

use std::alloc::{AllocError, Global};
use xk_shape::Blocks;
use xk_types::{Instr, Module, Unit};

/// At most so much of each an activity has at once, from the frame of one unit on: what the unit has itself, and the most of what
/// those have that it calls, wherever it calls them.
#[derive(Clone, Copy, Debug, PartialEq, Eq)]
pub struct Room {
    /// The slots in its frames: at most 4,096.
    pub slots: u32,
    /// Its frames: at most 1,024, since a unit calls only units of greater number.
    pub frames: u32,
    /// The finishes that are open: at most 4,096 in each frame.
    pub finishes: u32,
    /// The slots in its frames in which it makes clocks.
    pub made: u32,
}

/// No room at all.
const NOTHING: Room = Room {
    slots: 0,
    frames: 0,
    finishes: 0,
    made: 0,
};

/// The rooms of all units of a module. A unit calls only units of greater number, so that the table is filled from the last unit
/// on.
pub(crate) fn rooms(alloc: Global, m: &Module) -> Result<Vec<Room>, AllocError>
    requires { HasShape m.now }
    ensures { IfOk result (λ rs. AreRooms m.now rs.items) }
{
    let units = m.units();
    let mut table = vec![in alloc; NOTHING; units.len()]?;
    for unit in (0..units.len()).rev() {
        let room = Room::of(alloc, &units[unit], &table)?;
        table[unit] = room;
    }
    Ok(table)
}

/// The most slots in the frames of one activity.
pub(crate) fn deepest(rooms: &[Room]) -> u32
    ensures { result ≡ greatest_below (slots_in rooms.now) (length rooms.now) }
{
    let mut most = 0;
    for room in rooms {
        most = u32::max(most, room.slots);
    }
    most
}

/// In how many of its slots a unit makes clocks.
fn slots_made(u: &Unit) -> u32
    ensures is { result ≡ slots_made u.now }
    ensures few { result ≤ u.now.slots }
{
    let mut made = 0;
    for slot in 0..u.slots {
        if is_made(u, slot) {
            made += 1;
        }
    }
    made
}

/// Whether a unit makes clocks in the slot.
fn is_made(u: &Unit, slot: u16) -> bool
    ensures { result ≡ is_made u.now slot }
{
    u.code.iter().any(|instr| makes(instr, slot))
}

/// Whether the instruction makes the clock of the slot.
fn makes(instr: &Instr, slot: u16) -> bool
    ensures { result ≡ makes slot instr.now }
{
    match instr {
        Instr::Make(made) => *made == slot,
        _ => false,
    }
}

impl Room {
    /// The room of a unit, where the table says those of the units that it calls.
    fn of(alloc: Global, u: &Unit, table: &[Room]) -> Result<Room, AllocError>
        requires blocks { HasBlocks u.now }
        requires small { (t : ℕ) → IsSmall (slice_index_or table.now t nothing) }
        ensures { IfOk result (IsRoomBy table.now u.now) }
    {
        let nesting = Blocks::of(alloc, u)?.nesting();
        let called = Room::called(u, table);
        Ok(Room {
            slots: u32::from(u.slots) + called.slots,
            frames: 1 + called.frames,
            finishes: u32::from(nesting) + called.finishes,
            made: slots_made(u) + called.made,
        })
    }

    /// The most that the table says of the units that a unit calls.
    fn called(u: &Unit, table: &[Room]) -> Room
        requires { (t : ℕ) → IsSmall (slice_index_or table.now t nothing) }
        ensures greatest { IsGreatest table.now u.now.code result }
        ensures small { IsSmall result }
    {
        let mut most = NOTHING;
        for instr in &u.code {
            most = most.max(Room::called_by(instr, table));
        }
        most
    }

    /// What the table says of the unit that the instruction calls.
    fn called_by(instr: &Instr, table: &[Room]) -> Room
        ensures { IsCalled table.now instr.now result }
    {
        match instr {
            Instr::Call { unit, .. } => table.get(*unit as usize).copied().unwrap_or(NOTHING),
            _ => NOTHING,
        }
    }

    /// The greater of each.
    fn max(self, other: Room) -> Room
        ensures slots { result.slots ≡ max self.slots other.slots }
        ensures frames { result.frames ≡ max self.frames other.frames }
        ensures finishes { result.finishes ≡ max self.finishes other.finishes }
        ensures made { result.made ≡ max self.made other.made }
    {
        Room {
            slots: u32::max(self.slots, other.slots),
            frames: u32::max(self.frames, other.frames),
            finishes: u32::max(self.finishes, other.finishes),
            made: u32::max(self.made, other.made),
        }
    }
}
