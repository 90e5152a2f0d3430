// The number that START takes, and the test of a lent state.
ghost use Rattle.std.specs.Prelude.{◌≡◌};
ghost use Rattle.reply.specs.Rules.{in_range, counted, keeps_rules};

use crate::{Phase, Reply};

// Whether START takes R.
pub(crate) fn in_range(r: u32) -> bool
    ensures { result ≡ in_range r }
{
    r <= 255
}

impl Reply {
    // What holds from START on.
    fn counted(self) -> bool
        ensures { result ≡ counted self }
    {
        self.resends <= 255 && self.used <= self.resends
    }

    // Tested at each call, and no invariant of the type: C lends the state, and one that breaks the rules is refused.
    // Whether the state is that before START, or some START and calls after it leave it.
    #[tactic(auto, unfolding(crate::specs::Rules::keeps_rules))]
    pub fn keeps_rules(self) -> bool
        ensures { result ≡ keeps_rules self }
    {
        match self.phase {
            Phase::New => self == Reply::unstarted(),
            Phase::Ask | Phase::Wait | Phase::Done | Phase::End => self.counted(),
            Phase::Fail => self.counted() && self.used == self.resends,
        }
    }
}
