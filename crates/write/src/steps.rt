// What a call does that is not refused, row by row.
ghost use Rattle.std.specs.Prelude.{◌≡◌, ◌<◌};
ghost use Rattle.laws.specs.Tags.{digit};
ghost use Rattle.write.specs.Rules.{range_of};
ghost use Rattle.write.specs.Rules as rules;
ghost use Rattle.write.specs.Steps.{limit, say, with, asked_length, retransmit_of, in_order};
ghost use Rattle.write.specs.Steps as steps;

use crate::rules::Placed;
use crate::{Answer, Phase, Stepped, TAGS, Write, tags};
use refusals::Refusal;

impl Phase {
    pub(crate) fn unfinished(self) -> bool
        ensures { result ≡ steps.unfinished self }
    {
        matches!(self, Phase::Ask | Phase::Wait | Phase::Take)
    }

    pub(crate) fn asking(self) -> bool
        ensures { result ≡ steps.asking self }
    {
        matches!(self, Phase::Ask)
    }

    pub(crate) fn waiting(self) -> bool
        ensures { result ≡ steps.waiting self }
    {
        matches!(self, Phase::Wait)
    }

    fn taking(self) -> bool
        ensures { result ≡ steps.taking self }
    {
        matches!(self, Phase::Take)
    }
}

// Whether a frame can have so many bytes of data.
pub(crate) fn sized(n: u32) -> bool
    ensures { result ≡ steps.sized n }
{
    (1..=1024).contains(&n)
}

impl Write {
    // Where the present range begins.
    fn range(self) -> u64
        ensures { result ≡ range_of self }
    {
        if self.burst == 0 || self.next < self.offset {
            return self.offset as u64;
        }
        let gone = self.next - self.offset;
        self.offset as u64 + (gone - gone % self.burst) as u64
    }

    // Where it ends.
    pub fn until(self) -> u64
        ensures { result ≡ rules.until self }
    {
        (self.range() + self.burst as u64).min(self.end())
    }

    // How many bytes an XFER_RDY asks for.
    pub fn asked_length(self) -> u64
        ensures { result ≡ asked_length self }
    {
        self.until().saturating_sub(self.next as u64)
    }

    // A number, as the frame's field is one.
    // Its retransmit bit, before it goes.
    pub fn retransmit(self) -> u8
        ensures { result ≡ retransmit_of self }
    {
        u8::from(self.tags != 0)
    }

    // A refusal, which leaves the state as it was.
    pub fn refused(self, k: Refusal) -> Stepped
        ensures { result ≡ steps.refused self k }
    {
        Stepped {
            answer: Err(k),
            state: self,
        }
    }

    // An answer, with the state in another phase.
    pub(crate) fn in_phase(self, answer: Answer, phase: Phase) -> Stepped
        ensures { result ≡ say (Ok answer) (with self self.next self.tag self.tags self.used phase) }
    {
        Stepped {
            answer: Ok(answer),
            state: Write { phase, ..self },
        }
    }

    pub(crate) fn finished(mut self, answer: Answer, phase: Phase) -> Stepped
        ensures { result ≡ steps.finished (Ok answer) phase self }
    {
        self.tags = 0;
        self.in_phase(answer, phase)
    }

    // An XFER_RDY under a tag that is not in use.
    pub(crate) fn asked(mut self, tag: u32) -> Stepped
        requires { (tag < limit) × (digit self.tags tag ≡ 0) }
        ensures { result ≡ steps.asked tag self }
    {
        self.tags |= tags::alone(tag);
        self.tag = tag as u16;
        self.in_phase(Answer::Sent, Phase::Wait)
    }

    // NAK, TIMEOUT or LOST.
    #[tactic(auto, unfolding(crate::specs::Steps::missed))]
    pub(crate) fn missed(mut self) -> Stepped
        ensures { result ≡ steps.missed self }
    {
        if self.resends <= self.used {
            return self.finished(Answer::Fail, Phase::Fail);
        }
        self.used += 1;
        self.in_phase(Answer::Retry, Phase::Ask)
    }

    // Whether DATA under this tag is what the XFER_RDY asked for that was ACKed.
    pub fn awaited(self, transfer: u16) -> bool
        ensures { result ≡ steps.awaited transfer self }
    {
        self.phase.taking() && transfer == self.tag
    }

    // Whether DATA under this tag came before its XFER_RDY's ACK was reported.
    pub(crate) fn early(self, transfer: u16) -> bool
        ensures { result ≡ steps.early transfer self }
    {
        self.phase.waiting() && transfer == self.tag
    }

    fn within(self, offset: u32, length: u32) -> bool
        ensures { result ≡ steps.within offset length self }
    {
        let to = offset as u64 + length as u64;
        let until = self.until();
        self.next <= offset && to <= until && (length % 4 == 0 || to == until)
    }

    fn in_order(self, transfer: u16, offset: u32) -> bool
        ensures { result ≡ in_order transfer offset self }
    {
        !self.awaited(transfer) || offset == self.next
    }

    // Whether DATA lies where it may, under a tag that it may.
    pub fn fits(self, transfer: u16, offset: u32, length: u32) -> bool
        ensures { result ≡ steps.fits transfer offset length self }
    {
        tags::has(self.tags, transfer)
            && self.within(offset, length)
            && self.in_order(transfer, offset)
    }
}

#[tactic(auto, using(crate::proofs::Kept::tag_less))]
impl Placed {
    // The set of the tag of the XFER_RDY before.
    fn previous(self) -> u64
        ensures { result ≡ steps.previous self.write }
    {
        let w = self.write;
        if w.next == w.offset && w.tags == 0 {
            return 0;
        }
        tags::alone(w.tag as u32)
    }

    // The lowest free tag, if one is.
    pub(crate) fn free(self, others: u64) -> Option<u32>
        ensures { result ≡ steps.free_tag limit others self.write }
    {
        let tag = tags::lowest(others | self.write.tags | self.previous());
        (tag < TAGS).then_some(tag)
    }

    // DATA up to `to`.
    #[tactic(auto, using(crate::proofs::Kept::tag_less), unfolding(crate::specs::Steps::taken))]
    pub(crate) fn taken(self, to: u32) -> Stepped
        ensures { result ≡ steps.taken to self.write }
    {
        let w = self.write;
        let next = Write { next: to, ..w };
        if (to as u64) < w.until() {
            let tags = tags::alone(w.tag as u32);
            return Write { tags, ..next }.in_phase(Answer::Ok, Phase::Take);
        }
        if (to as u64) < w.end() {
            return next.finished(Answer::More, Phase::Ask);
        }
        next.finished(Answer::Done, Phase::Done)
    }
}
