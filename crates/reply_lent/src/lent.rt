// Numbers to a reply and back.
ghost use Rattle.std.specs.Prelude.{◌≡◌};
ghost use Rattle.reply_lent.specs.Lent.{formed, resends_of, state_of, shown, seen};

use crate::{State, Step, numbers};
use reply::{Reply, Stepped};

impl State {
    // The members that are zero, and the number that no START takes, are each machine's own.
    // Whether the numbers name a reply, one that keeps its rules or not.
    fn formed(self) -> bool
        ensures { result ≡ formed self }
    {
        self.phase < 6 && self.zero2 == 0 && self.zero1 == 0
    }

    // R, or where the numbers name no reply one that every call refuses.
    fn resends_of(self) -> u32
        ensures { result ≡ resends_of self }
    {
        if self.formed() { self.resends } else { 256 }
    }

    // What C sees of a call that was lent these numbers: a refusal gives them back to the last member. write_lent and transfer_lent do the same with
    // structs of their own, which C names: one function for all would take both types and the numbers of the answers as parameters.
    pub(crate) fn seen(self, r: Stepped) -> Step
        ensures { result ≡ seen self r }
    {
        let state = match r.answer {
            Ok(_) => State::from(r.state),
            Err(_) => self,
        };
        Step {
            state,
            answer: numbers::answer_number(r.answer),
        }
    }
}

// The reply that the numbers say.
impl From<State> for Reply {
    ghost from_gives = { λ s t. t ≡ state_of s };

    fn from(s: State) -> Reply {
        Reply {
            resends: s.resends_of(),
            used: s.used,
            phase: numbers::phase_of(s.phase),
        }
    }
}

// A reply as numbers.
impl From<Reply> for State {
    ghost from_gives = { λ t s. s ≡ shown t };

    fn from(t: Reply) -> State {
        State {
            resends: t.resends,
            used: t.used,
            zero2: 0,
            zero1: 0,
            phase: numbers::phase_number(t.phase),
        }
    }
}
