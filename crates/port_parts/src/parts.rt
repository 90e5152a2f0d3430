// Document 01, 'Port': phys, records and time stamps as they are made, and tests of them.
ghost use Rattle.std.specs.Prelude.{◌≡◌, ◌+◌, leb};
ghost use Rattle.port_parts.specs.Parts.{in_range, disabled_phy, no_stamp, blank, slot_at};
ghost use Rattle.port_parts.specs.Parts as parts;

use crate::{NO_SLOT, Phy, Request, SET, Stamp, phy_stage};

// Whether setup takes these numbers. The last test holds of every u16; it stands as in the row.
pub fn in_range(count: u8, loss: u16) -> bool
    ensures { result ≡ in_range count loss }
{
    (1 <= count) & ((count <= 8) & ((1 <= loss) & (loss <= 65535)))
}

// Whether a phy has a frame out.
pub fn has_frame_out(p: Phy) -> bool
    ensures { result ≡ parts.has_frame_out p }
{
    (p.stage == phy_stage::SENDING) | (p.stage == phy_stage::CLOSING_SENDING)
}

pub fn no_stamp() -> Stamp
    ensures { result ≡ no_stamp }
{
    Stamp::default()
}

pub fn stamped(now: u64) -> Stamp
    ensures { result ≡ parts.stamped now }
{
    Stamp { set: SET, at: now }
}

// A disabled phy.
pub fn disabled_phy() -> Phy
    ensures { result ≡ disabled_phy }
{
    Phy {
        stage: phy_stage::DISABLED,
        slot: NO_SLOT,
        ..Phy::default()
    }
}

// A record that is set free: all zeros.
pub fn blank() -> Request
    ensures { result ≡ blank }
{
    Request::default()
}

// A place in the list as a slot.
pub fn slot_at(i: usize) -> u8
    ensures { result ≡ slot_at i }
{
    i.min(NO_SLOT as usize) as u8
}

// Whether `now` is at or past `wait` microseconds after `at`.
pub(crate) fn reached(at: u64, wait: u64, now: u64) -> bool
    ensures { result ≡ leb (at + wait) now }
{
    at <= now && wait <= now - at
}
