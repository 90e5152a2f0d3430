// Document 01, 'Port': a destination's loss timer.
ghost use Rattle.std.specs.Prelude.{◌≡◌};
ghost use Rattle.port_parts.specs.Timer.{timer_by, is_lost};

use crate::{SET, Stamp, parts};

// The loss time that is never reached, in milliseconds.
const NEVER: u16 = 65535;

// A loss timer after a confirmation; one that runs is not started anew.
pub fn timer_by(stops: bool, starts: bool, t: Stamp, now: u64) -> Stamp
    ensures { result ≡ timer_by stops starts t now }
{
    if stops {
        return parts::no_stamp();
    }
    if starts & !(t.set == SET) {
        return parts::stamped(now);
    }
    t
}

// Whether a loss timer runs and is at or past the loss time, in milliseconds.
pub fn is_lost(t: Stamp, loss: u16, now: u64) -> bool
    ensures { result ≡ is_lost t loss now }
{
    (t.set == SET) & (!(loss == NEVER) & parts::reached(t.at, loss as u64 * 1000, now))
}
