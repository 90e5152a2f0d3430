// The numbers that START takes, and the test of a lent state, rule by rule.
ghost use Rattle.std.specs.Prelude.{◌≡◌, ◌≤◌};
ghost use Rattle.transfer.specs.Rules.{end_of, in_range, zeros, ordered, on_grid, placed, frames_out, attempted, run_rule, drain_rule, done_rule, fail_rule, end_rule, phase_rule, keeps_rules};

use crate::{Phase, Transfer};

// Whether START takes these numbers.
pub(crate) fn in_range(b: u32, n: u32, m: u32, r: u32) -> bool
    ensures { result ≡ in_range b n m r }
{
    let end = u64::from(b) + u64::from(n);
    (1 <= n) & ((end <= 0xffffffff) & ((m % 4 == 0) & ((4 <= m) & ((m <= 1024) & (r <= 255)))))
}

impl Transfer {
    // B+N.
    pub(crate) fn end(self) -> u64
        ensures { result ≡ end_of self }
    {
        u64::from(self.offset) + u64::from(self.count)
    }

    // Whether it is the state before START.
    fn zeros(self) -> bool
        ensures { result ≡ zeros self }
    {
        self == Transfer::unstarted()
    }

    fn ordered(self, end: u64) -> bool
        ensures { result ≡ ordered end self }
    {
        (self.offset <= self.balance)
            & ((self.balance <= self.read)
                & ((u64::from(self.read) <= end) & (self.used <= self.resends)))
    }

    // Whether x is where a frame begins, or the end.
    fn on_grid(self, end: u64, x: u32) -> bool
        requires { (4 ≤ self.size) × (self.offset ≤ x) }
        ensures { result ≡ on_grid end self x }
    {
        (u64::from(x) == end) | ((x - self.offset) % self.size == 0)
    }

    // What holds from START on.
    fn placed(self, end: u64) -> bool
        ensures { result ≡ placed end self }
    {
        if in_range(self.offset, self.count, self.size, self.resends) & self.ordered(end) {
            return self.on_grid(end, self.balance) & self.on_grid(end, self.read);
        }
        false
    }

    // The frames from the balance point to the read offset.
    fn frames_out(self) -> u64
        requires { (4 ≤ self.size) × (self.balance ≤ self.read) }
        ensures { result ≡ frames_out self }
    {
        (u64::from(self.read - self.balance) + (u64::from(self.size) - 1)) / u64::from(self.size)
    }

    fn attempted(self, out: u64) -> bool
        ensures { result ≡ attempted out self }
    {
        ((0 < out) & self.sent)
            | ((out == 0)
                & ((self.sent & (self.offset < self.balance))
                    | (!self.sent & ((self.balance == self.offset) | (0 < self.used)))))
    }

    fn run_rule(self, bound: u32, end: u64, out: u64) -> bool
        ensures { result ≡ run_rule bound end out self }
    {
        let attempted = self.attempted(out);
        (u64::from(self.balance) < end)
            & (attempted
                & (((out == 0) & (self.unanswered == 0))
                    | ((0 < self.unanswered)
                        & ((self.unanswered <= bound) & (u64::from(self.unanswered) <= out)))))
    }

    fn drain_rule(self, bound: u32, end: u64, out: u64) -> bool
        ensures { result ≡ drain_rule bound end out self }
    {
        (u64::from(self.balance) < end)
            & (self.sent
                & ((self.used < self.resends)
                    & ((0 < self.unanswered)
                        & ((self.unanswered < bound) & (u64::from(self.unanswered) < out)))))
    }

    fn done_rule(self, end: u64) -> bool
        ensures { result ≡ done_rule end self }
    {
        (u64::from(self.balance) == end)
            & ((u64::from(self.read) == end) & ((self.unanswered == 0) & self.sent))
    }

    fn fail_rule(self, end: u64, out: u64) -> bool
        ensures { result ≡ fail_rule end out self }
    {
        (u64::from(self.balance) < end)
            & (self.sent & ((self.used == self.resends) & ((self.unanswered == 0) & (0 < out))))
    }

    fn end_rule(self, end: u64, out: u64) -> bool
        ensures { result ≡ end_rule end out self }
    {
        let attempted = self.attempted(out);
        (u64::from(self.balance) < end) & (attempted & (self.unanswered == 0))
    }

    fn phase_rule(self, bound: u32, end: u64, out: u64) -> bool
        ensures { result ≡ phase_rule bound end out self.phase self }
    {
        match self.phase {
            Phase::New => false,
            Phase::Run => self.run_rule(bound, end, out),
            Phase::Drain => self.drain_rule(bound, end, out),
            Phase::Done => self.done_rule(end),
            Phase::Fail => self.fail_rule(end, out),
            Phase::End => self.end_rule(end, out),
        }
    }

    // Tested at each call, and no invariant of the type: C lends the state, and one that breaks the rules is refused.
    // Whether the state is that before START, or some START and calls after it leave it, where at most `bound` frames, 2 or more, may
    // be unanswered.
    pub fn keeps_rules(self, bound: u32) -> bool
        ensures { result ≡ keeps_rules bound self }
    {
        let zeros = self.zeros();
        let end = self.end();
        if self.placed(end) {
            let out = self.frames_out();
            return zeros | self.phase_rule(bound, end, out);
        }
        zeros
    }
}
