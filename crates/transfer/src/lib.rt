// Document 01, 'Read transfer': the transfer's state, which goes in and comes back by value, and a method for each call.
#![tactic(auto)]

ghost use Rattle.std.specs.Prelude.{◌≡◌};
ghost use Rattle.transfer.specs.Rules.{unstarted};
ghost use Rattle.transfer.specs.Steps.{limit, start_step, frame_step, ack_step, nak_step, drop_step, end_step};

use refusals::Refusal;

mod causes;
mod rules;
mod steps;

#[derive(Clone, Copy, PartialEq, Eq)]
pub enum Phase {
    // Before START.
    New,
    // Frames go, and answers come.
    Run,
    // A NAK was seen, and answers are still due.
    Drain,
    // Every requested byte was ACKed.
    Done,
    // A NAK, TIMEOUT or LOST came with every resend used.
    Fail,
    // NEXUS or CANCEL came.
    End,
}

// What a call answers, in document 01's words.
#[derive(Clone, Copy, PartialEq, Eq)]
pub enum Answer {
    // START was taken, or an ACK that leaves the transfer in run.
    Ok,
    // A frame goes.
    Sent,
    // An ACK or NAK, with answers still due after a NAK.
    Drain,
    // A resend begins.
    Retry,
    // Delivered.
    Done,
    Fail,
    End,
}

#[derive(Clone, Copy, PartialEq, Eq)]
pub struct Transfer {
    // B, where the request begins.
    pub offset: u32,
    // N, its bytes.
    pub count: u32,
    // M, the longest frame.
    pub size: u32,
    // R, the resends allowed.
    pub resends: u32,
    // The read offset.
    pub read: u32,
    // The balance point.
    pub balance: u32,
    // Frames with no answer yet.
    pub unanswered: u32,
    // Whether a frame was sent in the attempt.
    pub sent: bool,
    // Resends used.
    pub used: u32,
    pub phase: Phase,
}

// A struct and no Result: a refusal too gives back a state, that which was lent.
#[derive(Clone, Copy)]
pub struct Stepped {
    pub answer: Result<Answer, Refusal>,
    pub state: Transfer,
}

// The most frames that may be unanswered.
const BOUND: u32 = 64;

impl Transfer {
    // The state before START.
    pub fn unstarted() -> Transfer
        ensures { result ≡ unstarted }
    {
        Transfer {
            offset: 0,
            count: 0,
            size: 0,
            resends: 0,
            read: 0,
            balance: 0,
            unanswered: 0,
            sent: false,
            used: 0,
            phase: Phase::New,
        }
    }

    // START. Four numbers and no struct, which may not change: `start_step limit b n m r` takes them so.
    pub fn start(mut self, b: u32, n: u32, m: u32, r: u32) -> Stepped
        ensures { result ≡ start_step limit b n m r self }
    {
        if !rules::in_range(b, n, m, r) | !self.keeps_rules(BOUND) {
            return self.refused(Refusal::Rules);
        }
        if steps::unfinished(self.phase) {
            return self.refused(Refusal::Unfit);
        }
        self = Transfer {
            offset: b,
            count: n,
            size: m,
            resends: r,
            read: b,
            balance: b,
            ..Transfer::unstarted()
        };
        self.in_phase(Answer::Ok, Phase::Run)
    }

    // 01 FORM.6: Transfer methods with mut self for frame, ACK, NAK, timeout and cancel.
    // The next frame goes.
    pub fn frame(mut self) -> Stepped
        ensures { result ≡ frame_step limit self }
    {
        if let Err(k) = self.frame_checked() {
            return self.refused(k);
        }
        self.read += self.frame_length();
        self.unanswered += 1;
        self.sent = true;
        Stepped {
            answer: Ok(Answer::Sent),
            state: self,
        }
    }

    pub fn ack(mut self) -> Stepped
        ensures { result ≡ ack_step limit self }
    {
        if let Err(k) = self.answer_checked() {
            return self.refused(k);
        }
        self.unanswered -= 1;
        self.acked()
    }

    pub fn nak(mut self) -> Stepped
        ensures { result ≡ nak_step limit self }
    {
        if let Err(k) = self.answer_checked() {
            return self.refused(k);
        }
        self.unanswered -= 1;
        self.nacked()
    }

    pub fn timeout(mut self) -> Stepped
        ensures { result ≡ drop_step limit self }
    {
        if let Err(k) = self.answer_checked() {
            return self.refused(k);
        }
        self.unanswered = 0;
        if self.resends <= self.used {
            return self.in_phase(Answer::Fail, Phase::Fail);
        }
        self.resent()
    }

    // A lost connection: another word of document 01 for what `timeout` does.
    pub fn lost(self) -> Stepped
        ensures { result ≡ drop_step limit self }
    {
        self.timeout()
    }

    pub fn cancel(mut self) -> Stepped
        ensures { result ≡ end_step limit self }
    {
        if !self.keeps_rules(BOUND) {
            return self.refused(Refusal::Rules);
        }
        if !steps::unfinished(self.phase) {
            return self.refused(Refusal::Unfit);
        }
        self.unanswered = 0;
        self.in_phase(Answer::End, Phase::End)
    }

    // NEXUS: another word of document 01 for what `cancel` does.
    pub fn nexus(self) -> Stepped
        ensures { result ≡ end_step limit self }
    {
        self.cancel()
    }
}
