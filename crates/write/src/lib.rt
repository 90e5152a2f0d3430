// Request c), the write: a host writes N bytes, and the target asks for them range by range by XFER_RDY and takes them in order of
// offset. The state goes in and comes back by value, with a method for each call; no bytes are here.
#![tactic(auto)]

ghost use Rattle.std.specs.Prelude.{◌≡◌};
ghost use Rattle.write.specs.Rules.{unstarted};
ghost use Rattle.write.specs.Steps.{limit, start_step, xfer_step, ack_step, miss_step, got_step, end_step};

use crate::rules::Placed;
use refusals::Refusal;

mod causes;
mod rules;
mod steps;
mod tags;

#[derive(Clone, Copy, PartialEq, Eq)]
pub enum Phase {
    // Before START.
    New,
    // An XFER_RDY is due: a range's first, or a retry.
    Ask,
    // Its ACK, NAK or loss is due.
    Wait,
    // It was ACKed, and data is due.
    Take,
    // Every byte was taken.
    Done,
    // A NAK, TIMEOUT or LOST came with every retry used.
    Fail,
    // NEXUS or CANCEL came.
    End,
}

// What a call answers.
#[derive(Clone, Copy)]
pub enum Answer {
    // START was taken, or an ACK, or data before the range's end.
    Ok,
    // An XFER_RDY goes.
    Sent,
    // It failed, and another is due under another tag.
    Retry,
    // Data under an earlier tag of the range: it is dropped.
    Late,
    // A range is full, and the next is due.
    More,
    // Complete.
    Done,
    Fail,
    End,
}

#[derive(Clone, Copy, PartialEq, Eq)]
pub struct Write {
    // B, where the request begins.
    pub offset: u32,
    // N, its bytes.
    pub count: u32,
    // X, the most bytes that one XFER_RDY asks for.
    pub burst: u32,
    // R, the retries allowed.
    pub resends: u32,
    // The offset of the next byte.
    pub next: u32,
    // The transfer tag of the last XFER_RDY.
    pub tag: u16,
    // The write's own transfer tags in use, tag t at bit t.
    pub tags: u64,
    // Retries used.
    pub used: u32,
    pub phase: Phase,
}

// A type of its own for each machine: a generic one would name both types wherever a clause now says Stepped.
#[derive(Clone, Copy)]
pub struct Stepped {
    pub answer: Result<Answer, Refusal>,
    pub state: Write,
}

// The number of transfer tags.
const TAGS: u32 = 64;

impl Write {
    // The state before START.
    pub fn unstarted() -> Write
        ensures { result ≡ unstarted }
    {
        Write {
            offset: 0,
            count: 0,
            burst: 0,
            resends: 0,
            next: 0,
            tag: 0,
            tags: 0,
            used: 0,
            phase: Phase::New,
        }
    }

    #[tactic(auto, unfolding(crate::specs::Steps::start_step))]
    pub fn start(self, b: u32, n: u32, x: u32, r: u32) -> Stepped
        ensures { result ≡ start_step limit b n x r self }
    {
        if !rules::in_range(b, n, x, r) || !self.keeps_rules() {
            return self.refused(Refusal::Rules);
        }
        if self.phase.unfinished() {
            return self.refused(Refusal::Unfit);
        }
        Stepped {
            answer: Ok(Answer::Ok),
            state: Write {
                offset: b,
                count: n,
                burst: x,
                resends: r,
                next: b,
                phase: Phase::Ask,
                ..Write::unstarted()
            },
        }
    }

    // An XFER_RDY goes. The caller gives the tags in use by the port's other writes; this write's own may be among them.
    #[tactic(auto, unfolding(crate::specs::Steps::xfer_step))]
    pub fn xfer(self, others: u64) -> Stepped
        ensures { result ≡ xfer_step limit others self }
    {
        if !self.keeps_rules() {
            return self.refused(Refusal::Rules);
        }
        if !self.phase.asking() {
            return self.refused(Refusal::Unfit);
        }
        // An unfinished write that keeps its rules is placed.
        let Some(tag) = (Placed { write: self }).free(others) else {
            return self.refused(Refusal::Full);
        };
        self.asked(tag)
    }

    #[tactic(auto, unfolding(crate::specs::Steps::ack_step))]
    pub fn ack(self) -> Stepped
        ensures { result ≡ ack_step limit self }
    {
        if let Err(k) = self.answer_checked() {
            return self.refused(k);
        }
        self.in_phase(Answer::Ok, Phase::Take)
    }

    #[tactic(auto, unfolding(crate::specs::Steps::miss_step))]
    pub fn nak(self) -> Stepped
        ensures { result ≡ miss_step limit self }
    {
        if let Err(k) = self.answer_checked() {
            return self.refused(k);
        }
        self.missed()
    }

    // The same as `nak`, as `lost` is: words of their own for the caller.
    pub fn timeout(self) -> Stepped
        ensures { result ≡ miss_step limit self }
    {
        self.nak()
    }

    pub fn lost(self) -> Stepped
        ensures { result ≡ miss_step limit self }
    {
        self.nak()
    }

    // DATA came, of this length at this offset, under this transfer tag.
    #[tactic(auto, unfolding(crate::specs::Steps::got_step, crate::specs::Steps::got))]
    pub fn got(self, transfer: u16, offset: u32, length: u32) -> Stepped
        ensures { result ≡ got_step limit transfer offset length self }
    {
        if let Err(k) = self.data_checked(transfer, offset, length) {
            return self.refused(k);
        }
        if self.awaited(transfer) {
            return Placed { write: self }.taken(offset + length);
        }
        Stepped {
            answer: Ok(Answer::Late),
            state: self,
        }
    }

    #[tactic(auto, unfolding(crate::specs::Steps::end_step))]
    pub fn cancel(self) -> Stepped
        ensures { result ≡ end_step limit self }
    {
        if !self.keeps_rules() {
            return self.refused(Refusal::Rules);
        }
        if !self.phase.unfinished() {
            return self.refused(Refusal::Unfit);
        }
        self.finished(Answer::End, Phase::End)
    }

    // The same as `cancel`.
    pub fn nexus(self) -> Stepped
        ensures { result ≡ end_step limit self }
    {
        self.cancel()
    }
}
