// What a call does that is not refused, row by row, and when it is refused.
ghost use Rattle.std.specs.Prelude.{◌≡◌};
ghost use Rattle.refusals.specs.Causes.{refuse};
ghost use Rattle.reply.specs.Steps as steps;

use crate::{Answer, Phase, Reply, Stepped};
use refusals::Refusal;

impl Phase {
    // A RESPONSE is due.
    pub(crate) fn asks(self) -> bool
        ensures { result ≡ steps.asks self }
    {
        matches!(self, Phase::Ask)
    }

    // Its ACK, NAK or loss is due.
    pub(crate) fn waits(self) -> bool
        ensures { result ≡ steps.waits self }
    {
        matches!(self, Phase::Wait)
    }

    pub(crate) fn unfinished(self) -> bool
        ensures { result ≡ steps.unfinished self }
    {
        matches!(self, Phase::Ask | Phase::Wait)
    }
}

// START R.
pub(crate) fn started(r: u32) -> Stepped
    ensures { result ≡ steps.started r }
{
    Stepped {
        answer: Ok(Answer::Ok),
        state: Reply {
            resends: r,
            used: 0,
            phase: Phase::Ask,
        },
    }
}

impl Reply {
    // A refusal, which leaves the state as it was.
    pub fn refused(self, k: Refusal) -> Stepped
        ensures { result ≡ steps.refused self k }
    {
        Stepped {
            answer: Err(k),
            state: self,
        }
    }

    // An answer, with the state in another phase.
    pub(crate) fn in_phase(self, answer: Answer, phase: Phase) -> Stepped
        ensures { result ≡ steps.say (Ok answer) (steps.in_phase phase self) }
    {
        Stepped {
            answer: Ok(answer),
            state: Reply { phase, ..self },
        }
    }

    // A number, as the frame's field is one.
    // The retransmit bit of the RESPONSE that goes.
    pub fn retransmit(self) -> u8
        ensures { result ≡ steps.retransmit_of self }
    {
        u8::from(0 < self.used)
    }

    // A NAK, TIMEOUT or LOST.
    #[tactic(auto, unfolding(crate::specs::Steps::failed))]
    pub(crate) fn failed(mut self) -> Stepped
        ensures { result ≡ steps.failed self }
    {
        if self.used < self.resends {
            self.used += 1;
            return self.in_phase(Answer::Retry, Phase::Ask);
        }
        self.in_phase(Answer::Fail, Phase::Fail)
    }

    // What a call is refused for that is unfit for the state or not.
    pub(crate) fn checked(self, unfit: bool) -> Result<(), Refusal>
        ensures { result ≡ refuse Err (steps.causes unfit self) (Ok tt) }
    {
        if !self.keeps_rules() {
            return Err(Refusal::Rules);
        }
        if unfit {
            return Err(Refusal::Unfit);
        }
        Ok(())
    }
}
