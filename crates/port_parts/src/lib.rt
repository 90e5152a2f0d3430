// Document 01, 'Port': phys and requests, the choice of a request and a phy, the reasons of Open Failed, and the loss timer.
#![tactic(auto)]

mod choice;
mod parts;
pub mod phy_stage;
mod reasons;
pub mod request_stage;
pub mod step;
mod timer;

pub use choice::{chosen_step, no_pick};
use open_frame::{Awt, Head, Pbc};
pub use parts::{blank, disabled_phy, has_frame_out, in_range, no_stamp, slot_at, stamped};
pub use reasons::{is_blocked, is_listed, is_retried, is_starting, is_stopping, reason_of};
pub use timer::{is_lost, timer_by};

// What names no slot of the list, which has 32, and no phy of the port, which has 8 at most.
pub const NO_SLOT: u8 = 32;

pub const NO_PHY: u8 = 8;

// Protocols by their numbers, of which there are three: SMP 0, SSP 1 and STP 2.
pub const SSP: u8 = 1;

pub const PROTOCOLS: u8 = 3;

// A mark of a lent record: it can hold any number. The marks of its widths are told apart, since a record without padding has wider ones.
pub const NO: u8 = 0;

pub const YES: u8 = 1;

pub const UNCLOSED: u16 = 0;

pub const CLOSED: u16 = 1;

pub const UNSET: u64 = 0;

pub const SET: u64 = 1;

// A phy of the port. Lent states can hold any numbers; the rules of a state say which are taken.
#[repr(C)]
#[derive(Clone, Copy, Default)]
pub struct Phy {
    // One of phy_stage.
    pub stage: u8,
    // The slot of the request that it names, NO_SLOT if it names none.
    pub slot: u8,
    // Whom it is connected to.
    pub protocol: u8,
    pub destination: u64,
}

// A time that may not have come.
#[repr(C)]
#[derive(Clone, Copy, Default)]
pub struct Stamp {
    // SET once it came, else UNSET; as wide as the time, so that a lent stamp has no padding.
    pub set: u64,
    // Microseconds.
    pub at: u64,
}

// A record of the list that the caller lends: 88 bytes without padding, so that each of them is promised.
#[repr(C)]
#[derive(Clone, Copy, Default)]
pub struct Request {
    // One of request_stage.
    pub stage: u8,
    // The phy that a request in progress is on.
    pub phy: u8,
    // YES once it was cancelled, else NO.
    pub cancelled: u8,
    pub pbc: Pbc,
    // CLOSED once choose closed a phy for it, else UNCLOSED.
    pub closed: u16,
    // What its last Open carried since its last reset, 0 if there was none.
    pub awt: Awt,
    pub head: Head,
    pub submitted: u64,
    // Its last retry.
    pub retry: Stamp,
    // Its first open after its last reset.
    pub first: Stamp,
    // The start of its destination's loss timer. Every SSP request to a destination carries it.
    pub loss: Stamp,
}

#[repr(C)]
#[derive(Clone, Copy, Default)]
pub struct Port {
    // How many phys it has.
    pub count: u8,
    // The loss time in milliseconds; 65,535 is never.
    pub loss: u16,
    // The time of the last call.
    pub last: u64,
    pub phys: [Phy; 8],
}

// The phys that are free for each step toward a peer, phy k at bit k.
#[derive(Clone, Copy, Default)]
pub struct Sets {
    pub sends: u8,
    pub opens: u8,
    pub closes: u8,
}

// What can be done for a request, and the phy.
#[derive(Clone, Copy)]
pub struct Way {
    // One of step, a number as in Pick.
    pub step: u8,
    pub phy: u8,
}

// A way for the request at a slot, and when that was submitted.
#[derive(Clone, Copy)]
pub struct Pick {
    // One of step. A number and no enum: chosen_step and choose_core take any, as they always did.
    pub step: u8,
    pub phy: u8,
    pub slot: u8,
    pub at: u64,
}

// What choose asks of each request.
#[derive(Clone, Copy)]
pub struct Asked {
    pub phys: [Phy; 8],
    pub now: u64,
}

// Why an open failed: the OPEN_REJECT kinds, Open Time Out and Break Received.
#[derive(Clone, Copy)]
pub enum Reason {
    NoDestination,
    BadDestination,
    WrongDestination,
    // CONNECTION RATE NOT SUPPORTED.
    LinkRateNotSupported,
    ProtocolNotSupported,
    PathwayBlocked,
    StpResourcesBusy,
    Retry,
    OpenTimeOut,
    BreakReceived,
    // Any number that isn't one of document 01's reasons. A case and no Option: the four tables answer of it too, as of a reason that is in none of them.
    Other,
}
