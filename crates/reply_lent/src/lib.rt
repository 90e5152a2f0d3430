// A reply as C lends it and gets it back: numbers alone, since C can lend any byte where Rattle has an enum.
#![tactic(auto)]

ghost use Rattle.std.specs.Prelude.{◌≡◌};
ghost use Rattle.reply_lent.specs.Face.{start, ack, nak, timeout, lost, nexus, cancel, face_of, Responded};

use reply::Reply;
use take::{Command, respond};

mod lent;
pub mod numbers;

// struct sonerwal_reply: the fields of `Reply`, with no padding between or behind them. All zeros is the state before START.
#[repr(C)]
#[derive(Clone, Copy)]
pub struct State {
    pub resends: u32,
    pub used: u32,
    // Zero.
    pub zero2: u16,
    // Zero.
    pub zero1: u8,
    // 0 to 5.
    pub phase: u8,
}

// struct sonerwal_reply_step: the state after a call, and the number of its answer.
#[repr(C)]
#[derive(Clone, Copy)]
pub struct Step {
    pub state: State,
    pub answer: u8,
}

impl State {
    // START: R resends.
    pub fn start(self, resends: u32) -> Step
        ensures { result ≡ face_of (start resends) self }
    {
        self.seen(Reply::from(self).start(resends))
    }

    pub fn ack(self) -> Step
        ensures { result ≡ face_of ack self }
    {
        self.seen(Reply::from(self).ack())
    }

    pub fn nak(self) -> Step
        ensures { result ≡ face_of nak self }
    {
        self.seen(Reply::from(self).nak())
    }

    pub fn timeout(self) -> Step
        ensures { result ≡ face_of timeout self }
    {
        self.seen(Reply::from(self).timeout())
    }

    pub fn lost(self) -> Step
        ensures { result ≡ face_of lost self }
    {
        self.seen(Reply::from(self).lost())
    }

    pub fn nexus(self) -> Step
        ensures { result ≡ face_of nexus self }
    {
        self.seen(Reply::from(self).nexus())
    }

    pub fn cancel(self) -> Step
        ensures { result ≡ face_of cancel self }
    {
        self.seen(Reply::from(self).cancel())
    }

    // Addresses and tag are C's own parameters; they become a Command.
    // RESPONSE, its frame with the data in body to the front of out; the bytes past it stay, and on a refusal all of them.
    pub fn respond(
        self,
        destination: u32,
        source: u32,
        tag: u16,
        present: u8,
        status: u8,
        body: &[u8],
        out: &mut [u8],
    ) -> Step
        ensures { Responded self destination source tag present status body.now out.old result out.new }
    {
        let command = Command {
            destination,
            source,
            tag,
        };
        let reply = Reply::from(self);
        self.seen(respond::respond(reply, command, present, status, body, out))
    }
}
