// What a call does that is not refused, row by row.
ghost use Rattle.std.specs.Prelude.{◌≡◌, true, ◌<◌};
ghost use Rattle.transfer.specs.Steps.{say, in_phase, frame_length, all_sent};
ghost use Rattle.transfer.specs.Steps as steps;

use crate::{Answer, Phase, Stepped, Transfer};
use refusals::Refusal;

// Whether calls are still taken: a frame, an answer, or the end.
pub(crate) fn unfinished(p: Phase) -> bool
    ensures { result ≡ steps.unfinished p }
{
    matches!(p, Phase::Run | Phase::Drain)
}

pub(crate) fn draining(p: Phase) -> bool
    ensures { result ≡ steps.draining p }
{
    matches!(p, Phase::Drain)
}

impl Transfer {
    // How long the next frame is.
    pub fn frame_length(self) -> u32
        ensures { result ≡ frame_length self }
    {
        let left = self.end().saturating_sub(u64::from(self.read));
        u64::from(self.size).min(left) as u32
    }

    // A refusal, which leaves the state as it was.
    pub fn refused(self, k: Refusal) -> Stepped
        ensures { result ≡ steps.refused self k }
    {
        Stepped {
            answer: Err(k),
            state: self,
        }
    }

    // An answer, with the state in another phase.
    pub(crate) fn in_phase(self, answer: Answer, p: Phase) -> Stepped
        ensures { result ≡ say (Ok answer) (in_phase p self) }
    {
        Stepped {
            answer: Ok(answer),
            state: Transfer { phase: p, ..self },
        }
    }

    // A struct with used < resends as its invariant would be longer than the clause, which stands here, in `drained`, and under a condition in `acked`.
    // The attempt begins anew at the balance point.
    pub(crate) fn resent(mut self) -> Stepped
        requires { self.used < self.resends }
        ensures { result ≡ steps.resent self }
    {
        self.read = self.balance;
        self.sent = false;
        self.used += 1;
        self.in_phase(Answer::Retry, Phase::Run)
    }

    // Whether every byte has been sent in this attempt.
    pub(crate) fn all_sent(self) -> bool
        ensures { result ≡ all_sent self }
    {
        u64::from(self.read) == self.end()
    }

    // The last ACK that was due.
    fn settled(mut self) -> Stepped
        ensures { result ≡ steps.settled self }
    {
        let all = self.all_sent();
        self.balance = self.read;
        if all {
            self.unanswered = 0;
            return self.in_phase(Answer::Done, Phase::Done);
        }
        Stepped {
            answer: Ok(Answer::Ok),
            state: self,
        }
    }

    // An answer after a NAK, its frame taken off.
    fn drained(self) -> Stepped
        requires { self.used < self.resends }
        ensures { result ≡ steps.drained self }
    {
        if self.unanswered == 0 {
            return self.resent();
        }
        self.in_phase(Answer::Drain, Phase::Drain)
    }

    // An ACK, its frame taken off.
    pub(crate) fn acked(self) -> Stepped
        requires { steps.draining self.phase ≡ true → self.used < self.resends }
        ensures { result ≡ steps.acked self }
    {
        if draining(self.phase) {
            return self.drained();
        }
        if self.unanswered == 0 {
            return self.settled();
        }
        Stepped {
            answer: Ok(Answer::Ok),
            state: self,
        }
    }

    // A NAK, its frame taken off.
    pub(crate) fn nacked(mut self) -> Stepped
        ensures { result ≡ steps.nacked self }
    {
        if self.resends <= self.used {
            self.unanswered = 0;
            return self.in_phase(Answer::Fail, Phase::Fail);
        }
        self.drained()
    }
}
