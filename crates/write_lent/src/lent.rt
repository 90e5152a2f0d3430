// Numbers to a write and back.
ghost use Rattle.std.specs.Prelude.{◌≡◌};
ghost use Rattle.write_lent.specs.Lent.{formed, resends_of, state_of, shown, seen};

use crate::{State, Step, numbers};
use write::{Stepped, Write};

impl State {
    // The members that are zero, and the number that no START takes, are each machine's own.
    // Whether the numbers name a write, one that keeps its rules or not.
    fn formed(self) -> bool
        ensures { result ≡ formed self }
    {
        self.phase < 7 && self.zero1 == 0 && self.zero4 == 0
    }

    // R, or where the numbers name no write one that every call refuses.
    fn resends_of(self) -> u32
        ensures { result ≡ resends_of self }
    {
        if self.formed() { self.resends } else { 64 }
    }

    // What C sees of a call that was lent these numbers: a refusal gives them back to the last member. reply_lent and transfer_lent do the same with
    // structs of their own, which C names: one function for all would take both types and the numbers of the answers as parameters.
    pub(crate) fn seen(self, r: Stepped) -> Step
        ensures { result ≡ seen self r }
    {
        let state = match r.answer {
            Ok(_) => State::from(r.state),
            Err(_) => self,
        };
        Step {
            state,
            answer: numbers::answer_number(r.answer),
        }
    }
}

// The write that the numbers say.
impl From<State> for Write {
    ghost from_gives = { λ s w. w ≡ state_of s };

    fn from(s: State) -> Write {
        Write {
            offset: s.offset,
            count: s.count,
            burst: s.burst,
            resends: s.resends_of(),
            next: s.next,
            tag: s.tag,
            tags: s.tags,
            used: s.used,
            phase: numbers::phase_of(s.phase),
        }
    }
}

// A write as numbers.
impl From<Write> for State {
    ghost from_gives = { λ w s. s ≡ shown w };

    fn from(w: Write) -> State {
        State {
            tags: w.tags,
            offset: w.offset,
            count: w.count,
            burst: w.burst,
            resends: w.resends,
            next: w.next,
            used: w.used,
            zero4: 0,
            tag: w.tag,
            phase: numbers::phase_number(w.phase),
            zero1: 0,
        }
    }
}
