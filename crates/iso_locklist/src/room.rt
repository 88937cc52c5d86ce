ghost use Rattle.std.specs.Prelude.{◌≡◌, if◌then◌else◌};
ghost use Rattle.iso_locklist.specs.Places.{room_by};
ghost use Rattle.iso_locklist.specs.declared.room.Room.TheVariants as rooms;

/// Whether a need of more slots has room: `AtShare` where the connection's count with it passes the share of one
/// connection, else `AtCapacity` where the total with it passes the slots.
#[derive(Clone, Copy, PartialEq, Eq)]
pub enum Room {
    Free,
    AtShare,
    AtCapacity,
}

/// Why a request was not made. `AtShare`, `AtCapacity`: its need is at that limit. `Memory`: want of memory.
#[derive(Clone, Copy, PartialEq, Eq)]
pub enum LockFault {
    AtShare,
    AtCapacity,
    Memory,
}

/// Whether a count and a total have room for so many more.
pub fn room_in(count: u32, total: u32, share: u32, slots: u32, more: u32) -> Room
    ensures { result ≡ room_by count total share slots more }
{
    let more = u64::from(more);
    if u64::from(share) < u64::from(count) + more {
        Room::AtShare
    } else if u64::from(slots) < u64::from(total) + more {
        Room::AtCapacity
    } else {
        Room::Free
    }
}

/// The same room, but all of it where the mode is held already.
pub fn room_beside(held: bool, room: Room) -> Room
    ensures { result ≡ (if held then rooms.Free else room) }
{
    if held { Room::Free } else { room }
}
