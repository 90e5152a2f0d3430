// Document 01, 'Port': what its ten calls are given, find, answer and leave.
#![tactic(auto)]

use open_frame::{Head, OpenFrame};
use port_parts::{Port, Reason, Request, Stamp};
use refusals::Refusal;

// What a call answers, in document 01's words.
#[derive(Clone, Copy)]
pub enum Word {
    // The call was taken, and says nothing of a request.
    Taken,
    // The request is in the list.
    Submitted,
    // No request and phy qualify.
    Nothing,
    // The frame goes.
    Send,
    Open,
    Close,
    StopArb,
    // Open Failed; the request waits, and not less than 15 microseconds.
    Retried,
    // The phy was disabled; the request waits again.
    Waiting,
    // From here to Status, the last word on a request.
    CancelAcknowledged,
    // Open Failed with a reason that isn't retried.
    Ended(Reason),
    // I_T Nexus Loss.
    NexusLoss,
    ConnectionLost,
    // The frame's status, as it came.
    Status(u8),
}

#[derive(Clone, Copy)]
pub struct Answer {
    pub word: Result<Word, Refusal>,
    // The request that it names: its slot, 32 if it names none; a number, as C reads it.
    pub slot: u8,
    // The phy that it names, 8 if it names none.
    pub phy: u8,
    // The request's head, and with it its key; an Open's whole frame.
    pub frame: OpenFrame,
}

// A loss timer that changes.
#[derive(Clone, Copy)]
pub struct Loss {
    // Every SSP request to it gets the timer.
    pub destination: u64,
    pub timer: Stamp,
}

// What a call leaves: the port, the answer, the record at the answer's slot, and the loss timer that changes, if one does.
#[derive(Clone, Copy)]
pub struct Done {
    pub port: Port,
    pub answer: Answer,
    pub entry: Request,
    pub loss: Option<Loss>,
    // Whether every record of the list is set free, whatever stands beside it.
    pub cleared: bool,
}

// What submit finds in the list.
#[derive(Clone, Copy)]
pub struct Room {
    // The loss timer of its destination; first, so that a copy of the whole has no gap before it.
    pub loss: Stamp,
    // The lowest free slot, 32 if there is none; a number, as the answer has it.
    pub free: u8,
    // Whether a request with its key is present.
    pub same: bool,
}

// What the calls give, a struct each: they give other fields, and the claims name each.
// What a submit gives.
#[repr(C)]
#[derive(Clone, Copy)]
pub struct Submission {
    pub head: Head,
    pub now: u64,
}

#[repr(C)]
#[derive(Clone, Copy)]
pub struct Key {
    pub destination: u64,
    pub protocol: u8,
    pub tag: u16,
}

// What a cancel gives.
#[repr(C)]
#[derive(Clone, Copy)]
pub struct Withdrawn {
    pub key: Key,
    pub now: u64,
}

// What a call about a phy gives.
#[repr(C)]
#[derive(Clone, Copy)]
pub struct Confirmed {
    pub phy: u8,
    pub now: u64,
}

// What an Open Failed gives.
#[repr(C)]
#[derive(Clone, Copy)]
pub struct Failure {
    pub phy: u8,
    // The reason's number.
    pub why: u8,
    pub now: u64,
}

// What a frame status gives.
#[repr(C)]
#[derive(Clone, Copy)]
pub struct Report {
    pub phy: u8,
    pub status: u8,
    pub now: u64,
}
