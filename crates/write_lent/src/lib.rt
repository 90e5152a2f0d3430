// A write as C lends it and gets it back: numbers alone, since C can lend any byte where Rattle has an enum.
#![tactic(auto)]

ghost use Rattle.std.specs.Prelude.{◌≡◌};
ghost use Rattle.write.specs.Calls.{start, xfer, ack, nak, timeout, lost, got, nexus, cancel};
ghost use Rattle.take_history.specs.Calls.{plain};
ghost use Rattle.write_lent.specs.Face.{face_of, Asked, Taken};

use take::Command;
use write::Write;

mod lent;
pub mod numbers;

// struct sonerwal_write: the fields of `Write`, with no padding between or behind them. All zeros is the state before START.
#[repr(C)]
#[derive(Clone, Copy)]
pub struct State {
    // The write's own transfer tags in use, tag t at bit t.
    pub tags: u64,
    pub offset: u32,
    pub count: u32,
    pub burst: u32,
    pub resends: u32,
    pub next: u32,
    pub used: u32,
    // Zero.
    pub zero4: u32,
    pub tag: u16,
    // 0 to 6.
    pub phase: u8,
    // Zero.
    pub zero1: u8,
}

// struct sonerwal_write_step: the state after a call, and the number of its answer.
#[repr(C)]
#[derive(Clone, Copy)]
pub struct Step {
    pub state: State,
    pub answer: u8,
}

#[tactic(auto, unfolding(write::specs::Calls::step_of))]
impl State {
    // START: offset B, count N, X bytes by one XFER_RDY at most, R retries.
    pub fn start(self, offset: u32, count: u32, burst: u32, resends: u32) -> Step
        ensures { result ≡ face_of (plain (start offset count burst resends)) self }
    {
        self.seen(Write::from(self).start(offset, count, burst, resends))
    }

    // XFER, its frame written by the caller itself; others are the tags in use by the port's other writes.
    pub fn xfer(self, others: u64) -> Step
        ensures { result ≡ face_of (plain (xfer others)) self }
    {
        self.seen(Write::from(self).xfer(others))
    }

    pub fn ack(self) -> Step
        ensures { result ≡ face_of (plain ack) self }
    {
        self.seen(Write::from(self).ack())
    }

    pub fn nak(self) -> Step
        ensures { result ≡ face_of (plain nak) self }
    {
        self.seen(Write::from(self).nak())
    }

    pub fn timeout(self) -> Step
        ensures { result ≡ face_of (plain timeout) self }
    {
        self.seen(Write::from(self).timeout())
    }

    pub fn lost(self) -> Step
        ensures { result ≡ face_of (plain lost) self }
    {
        self.seen(Write::from(self).lost())
    }

    // DATA, its bytes taken by the caller itself: of this length at this offset, under this transfer tag.
    pub fn got(self, transfer: u16, offset: u32, length: u32) -> Step
        ensures { result ≡ face_of (plain (got transfer offset length)) self }
    {
        self.seen(Write::from(self).got(transfer, offset, length))
    }

    pub fn nexus(self) -> Step
        ensures { result ≡ face_of (plain nexus) self }
    {
        self.seen(Write::from(self).nexus())
    }

    pub fn cancel(self) -> Step
        ensures { result ≡ face_of (plain cancel) self }
    {
        self.seen(Write::from(self).cancel())
    }

    // Addresses and tag are C's own parameters, here and in `take`; they become a Command.
    // XFER, its frame to the front of out; the bytes past it stay, and on a refusal all of them.
    pub fn ask(self, others: u64, destination: u32, source: u32, tag: u16, out: &mut [u8]) -> Step
        ensures { Asked self others destination source tag out.old result out.new }
    {
        let command = Command {
            destination,
            source,
            tag,
        };
        self.seen(take::ask(Write::from(self), others, command, out))
    }

    // DATA, its bytes from frame into store at its offset; every other byte stays, and on a refusal or with late data all of them.
    pub fn take(
        self,
        destination: u32,
        source: u32,
        tag: u16,
        frame: &[u8],
        store: &mut [u8],
    ) -> Step
        ensures { Taken self destination source tag frame.now store.old result store.new }
    {
        let command = Command {
            destination,
            source,
            tag,
        };
        self.seen(take::take(Write::from(self), command, frame, store))
    }
}
