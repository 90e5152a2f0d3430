// Document 01, 'Port': what submit and cancel look for in the list, one record at a time.
ghost use Rattle.std.specs.Prelude.{◌≡◌};
ghost use Rattle.port_rows.specs.Finds.{no_room, room_step, key_step};

use open_frame::Head;
use port_parts::{NO_SLOT, Request, SSP, request_stage};
use port_rows::{Key, Room};

// Before submit has looked at a record.
// A slot is a number, 32 for none, here and in `key_step`, as the answer has it: what may not change, `cancel_causes` and C's slot.
pub fn no_room() -> Room
    ensures { result ≡ no_room }
{
    Room {
        free: NO_SLOT,
        same: false,
        loss: port_parts::no_stamp(),
    }
}

// One record more that submit looks at.
pub fn room_step(a: Room, r: Request, i: usize, h: Head) -> Room
    ensures { result ≡ room_step a r i h }
{
    let g = r.head;
    let free = r.stage == request_stage::FREE;
    let there = g.destination == h.destination;
    let alike = g.protocol == h.protocol;
    let slot = port_parts::slot_at(i);
    Room {
        free: if (a.free == NO_SLOT) & free {
            slot
        } else {
            a.free
        },
        same: a.same | (!free & (there & (alike & (g.tag == h.tag)))),
        loss: if !free & (there & (alike & (h.protocol == SSP))) {
            r.loss
        } else {
            a.loss
        },
    }
}

// One record more that cancel looks at.
pub fn key_step(a: u8, r: Request, i: usize, x: Key) -> u8
    ensures { result ≡ key_step a r i x }
{
    let h = r.head;
    let key = (h.destination == x.destination) & ((h.protocol == x.protocol) & (h.tag == x.tag));
    let slot = port_parts::slot_at(i);
    if (a == NO_SLOT) & (!(r.stage == request_stage::FREE) & key) {
        slot
    } else {
        a
    }
}
