// A read transfer as C lends it and gets it back: numbers alone, since C can lend any byte where Rattle has an enum or a bool.
#![tactic(auto)]

ghost use Rattle.std.specs.Prelude.{◌≡◌, true, false};
ghost use Rattle.transfer.specs.declared.Stepped.{Stepped};
ghost use Rattle.transfer_lent.specs.Lent.{formed, state_of, told, malformed};
ghost use Rattle.transfer_lent.specs.Face.{start, frame, ack, nak, timeout, lost, nexus, cancel, face_of, Next, length_of};
ghost use Rattle.transfer_lent.specs.Saves.{restore_of, Save};

use refusals::Refusal;
use saved::{FORM, ROOM};
use transfer::{Stepped, Transfer};

mod lent;
pub mod numbers;
mod saves;

// struct sonerwal_transfer: the fields of `Transfer`, with no padding between or behind them. All zeros is the state before START.
#[repr(C)]
#[derive(Clone, Copy)]
pub struct State {
    pub offset: u32,
    pub count: u32,
    pub size: u32,
    pub resends: u32,
    pub read: u32,
    pub balance: u32,
    pub unanswered: u32,
    pub used: u32,
    // Zero.
    pub zero2: u16,
    // 1 if a frame was sent in the attempt, else 0.
    pub sent: u8,
    // 0 to 5.
    pub phase: u8,
}

// struct sonerwal_transfer_step: the state after a call, and the number of its answer.
#[repr(C)]
#[derive(Clone, Copy)]
pub struct Step {
    pub state: State,
    pub answer: u8,
}

// struct sonerwal_saved: the bytes of a saved line, 0 on a refusal, and the number of the answer.
#[repr(C)]
#[derive(Clone, Copy)]
pub struct Saved {
    pub length: usize,
    pub answer: u8,
}

// 01 READ.4: The transfer state goes in and comes back by value at each step.
impl State {
    // What C sees of a call: the transfer's own step, where the numbers name a transfer.
    fn seen<F: FnOnce(Transfer) -> Stepped>(self, step: F) -> Step
        requires { F.IsAlwaysCallable step }
        ensures formed { formed self ≡ true → (r : Stepped) × F.post step (state_of self) r × (result ≡ told r) }
        ensures malformed { formed self ≡ false → result ≡ malformed self }
    {
        if !lent::formed(self) {
            return lent::malformed(self);
        }
        lent::told(step(Transfer::from(self)))
    }

    // START: offset B, count N, frame size M, R resends.
    pub fn start(self, offset: u32, count: u32, size: u32, resends: u32) -> Step
        ensures { result ≡ face_of (start offset count size resends) self }
    {
        self.seen(|t| t.start(offset, count, size, resends))
    }

    // FRAME, written by the caller itself.
    pub fn frame(self) -> Step
        ensures { result ≡ face_of frame self }
    {
        self.seen(Transfer::frame)
    }

    pub fn ack(self) -> Step
        ensures { result ≡ face_of ack self }
    {
        self.seen(Transfer::ack)
    }

    pub fn nak(self) -> Step
        ensures { result ≡ face_of nak self }
    {
        self.seen(Transfer::nak)
    }

    pub fn timeout(self) -> Step
        ensures { result ≡ face_of timeout self }
    {
        self.seen(Transfer::timeout)
    }

    pub fn lost(self) -> Step
        ensures { result ≡ face_of lost self }
    {
        self.seen(Transfer::lost)
    }

    pub fn nexus(self) -> Step
        ensures { result ≡ face_of nexus self }
    {
        self.seen(Transfer::nexus)
    }

    pub fn cancel(self) -> Step
        ensures { result ≡ face_of cancel self }
    {
        self.seen(Transfer::cancel)
    }

    // The next frame, with the data in body, to the front of out; the bytes past it stay, and on a refusal all of them.
    pub fn next(self, destination: u32, source: u32, tag: u16, body: &[u8], out: &mut [u8]) -> Step
        ensures { Next self destination source tag body.now out.old result out.new }
    {
        if !lent::formed(self) {
            return lent::malformed(self);
        }
        lent::told(send::next_frame(Transfer::from(self), destination, source, tag, body, out))
    }

    // How long the next frame's data is, 0 where FRAME is refused.
    pub fn length(self) -> u32
        ensures { result ≡ length_of self }
    {
        if !lent::formed(self) {
            return 0;
        }
        lent::next_length(Transfer::from(self))
    }

    // The transfer's line in a form, to the front of out; the bytes past it stay, and on a refusal all of them.
    pub fn save(self, form: u8, out: &mut [u8]) -> Saved
        ensures { Save self form out.old result out.new }
    {
        let asked = u32::from(form);
        if (asked == FORM) & (out.len() < ROOM) {
            return saves::unsaved(Refusal::Length);
        }
        if asked != FORM {
            return saves::unsaved(Refusal::Unlisted);
        }
        if !lent::formed(self) {
            return saves::unsaved(Refusal::Rules);
        }
        saves::told(saved::save(Transfer::from(self), out))
    }

    // The transfer that a line saves; on a refusal the state before START.
    pub fn restore(line: &[u8]) -> Step
        ensures { result ≡ restore_of line.now }
    {
        let restored = saved::restore(line);
        let state = State::from(restored.state);
        let answer = saves::checked_number(restored.answer);
        Step { state, answer }
    }
}
