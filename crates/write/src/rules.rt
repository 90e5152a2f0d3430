// The numbers that START takes, and the test of a lent state, rule by rule.
ghost use Rattle.std.specs.Prelude.{◌≡◌, true};
ghost use Rattle.std.specs.Int.Count.{ones};
ghost use Rattle.write.specs.Rules.{end_of, in_range, placed, partway, at_range, counted, ask_rule, out_rule, take_rule, done_rule, fail_rule, phase_rule, keeps_rules};
ghost use Rattle.write.specs.Steps.{limit};

use crate::{Phase, TAGS, Write, tags};

// Whether START takes these numbers.
pub(crate) fn in_range(b: u32, n: u32, x: u32, r: u32) -> bool
    ensures { result ≡ in_range limit b n x r }
{
    1 <= n && b as u64 + n as u64 <= 0xffffffff && x % 4 == 0 && 4 <= x && r < TAGS
}

impl Write {
    // B+N.
    pub(crate) fn end(self) -> u64
        ensures { result ≡ end_of self }
    {
        self.offset as u64 + self.count as u64
    }

    // What holds from START on.
    #[tactic(auto, unfolding(crate::specs::Rules::placed))]
    fn placed(self) -> bool
        ensures { result ≡ placed limit self }
    {
        in_range(self.offset, self.count, self.burst, self.resends)
            && self.offset <= self.next
            && self.next as u64 <= self.end()
            && self.used <= self.resends
            && (self.tag as u32) < TAGS
    }

    // At most u of the write's own tags are in use, and before the first byte just u.
    fn counted(self, u: u32) -> bool
        ensures { result ≡ counted (ones self.tags) u self }
    {
        let own = self.tags.count_ones();
        own <= u && (self.next != self.offset || own == u)
    }

    fn done_rule(self) -> bool
        ensures { result ≡ done_rule self }
    {
        self.next as u64 == self.end() && self.tags == 0
    }

    // Tested at each call, and no invariant of the type: C lends the state, and one that breaks the rules is refused.
    // Whether the state is that before START, or some START and calls after it leave it.
    #[tactic(auto, unfolding(crate::specs::Rules::keeps_rules))]
    pub fn keeps_rules(self) -> bool
        ensures { result ≡ keeps_rules limit self }
    {
        self == Write::unstarted() || self.placed() && Placed { write: self }.phase_rule()
    }
}

// A write whose numbers are in their ranges, as each is from START on.
#[derive(Clone, Copy)]
pub(crate) struct Placed {
    pub(crate) write: Write,
    ghost holds: { placed limit write ≡ true },
}

#[tactic(auto, using(crate::proofs::Kept::from_start, crate::proofs::Kept::burst_more, crate::proofs::Kept::used_less, crate::proofs::Kept::tag_less))]
impl Placed {
    fn partway(self) -> bool
        ensures { result ≡ partway self.write }
    {
        let w = self.write;
        (w.next as u64) < w.end() && (w.next - w.offset) % 4 == 0
    }

    fn at_range(self) -> bool
        ensures { result ≡ at_range self.write }
    {
        let w = self.write;
        (w.next - w.offset) % w.burst == 0
    }

    fn ask_rule(self) -> bool
        ensures { result ≡ ask_rule (ones self.write.tags) self.write }
    {
        let w = self.write;
        let first = w.tags == 0 && (w.next != w.offset || w.tag == 0 && w.used == 0);
        self.at_range() && (first || tags::has(w.tags, w.tag) && w.counted(w.used))
    }

    fn out_rule(self) -> bool
        ensures { result ≡ out_rule (ones self.write.tags) self.write }
    {
        let w = self.write;
        self.at_range() && tags::has(w.tags, w.tag) && w.counted(w.used + 1)
    }

    fn take_rule(self) -> bool
        ensures { result ≡ take_rule (ones self.write.tags) self.write }
    {
        let w = self.write;
        self.out_rule() || !self.at_range() && w.tags == tags::alone(w.tag as u32)
    }

    fn fail_rule(self) -> bool
        ensures { result ≡ fail_rule self.write }
    {
        let w = self.write;
        self.at_range() && w.used == w.resends && w.tags == 0
    }

    #[tactic(auto, unfolding(crate::specs::Rules::phase_rule))]
    fn phase_rule(self) -> bool
        ensures { result ≡ phase_rule (ones self.write.tags) self.write.phase self.write }
    {
        let w = self.write;
        match w.phase {
            Phase::New => false,
            Phase::Ask => self.partway() && self.ask_rule(),
            Phase::Wait => self.partway() && self.out_rule(),
            Phase::Take => self.partway() && self.take_rule(),
            Phase::Done => w.done_rule(),
            Phase::Fail => self.partway() && self.fail_rule(),
            Phase::End => self.partway() && w.tags == 0,
        }
    }
}
