// Sets of transfer tags, each a number of 64 binary digits, as C lends a write's own and gives the others'.
ghost use Rattle.std.specs.Prelude.{◌≡◌, ◌+◌, ◌^◌, ◌<◌};
ghost use Rattle.laws.specs.Tags as sets;
ghost use Rattle.write.specs.Steps.{limit};

use crate::TAGS;

// The set of t alone.
pub(crate) fn alone(t: u32) -> u64
    requires { t < limit }
    ensures { result ≡ 2 ^ t }
{
    1 << t
}

// Whether t is in the set.
pub(crate) fn has(tags: u64, t: u16) -> bool
    ensures { result ≡ sets.has tags t }
{
    (t as u32) < TAGS && (tags >> t) % 2 == 1
}

// The lowest that is not in the set, TAGS where all are.
pub(crate) fn lowest(tags: u64) -> u32
    ensures { result ≡ sets.lowest limit tags }
{
    tags.trailing_ones()
}
