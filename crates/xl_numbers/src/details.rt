// The kinds within an event or an action, by their numbers: document 01's order from 0 on, so that a kind's own number is `k as u8`.
// TryFrom would have to stand in crate xl_parts, where the kinds are declared, and the table of numbers stands above it. Four functions
// and no trait's: each has a table of its own, whatever it is called by.
ghost use Rattle.std.specs.Prelude.{◌≡◌};
ghost use Rattle.xl_numbers.specs.Details.{named, wait_of, reject_of, denial_of, arbitration_of};

use xl_parts::{Arbitration, Denial, Reject, Wait};

pub(crate) fn wait_of(n: u8) -> Option<Wait>
    ensures { result ≡ named 4 n (wait_of n) }
{
    match n {
        0 => Some(Wait::Normal),
        1 => Some(Wait::Partial),
        2 => Some(Wait::Connection),
        3 => Some(Wait::Device),
        _ => None,
    }
}

pub(crate) fn reject_of(n: u8) -> Option<Reject>
    ensures { result ≡ named 8 n (reject_of n) }
{
    match n {
        0 => Some(Reject::NoDestination),
        1 => Some(Reject::BadDestination),
        2 => Some(Reject::WrongDestination),
        3 => Some(Reject::Rate),
        4 => Some(Reject::Protocol),
        5 => Some(Reject::PathwayBlocked),
        6 => Some(Reject::Busy),
        7 => Some(Reject::Retry),
        _ => None,
    }
}

pub(crate) fn denial_of(n: u8) -> Option<Denial>
    ensures { result ≡ named 4 n (denial_of n) }
{
    match n {
        0 => Some(Denial::NoDestination),
        1 => Some(Denial::BadDestination),
        2 => Some(Denial::BadLinkRate),
        3 => Some(Denial::PathwayBlocked),
        _ => None,
    }
}

pub(crate) fn arbitration_of(n: u8) -> Option<Arbitration>
    ensures { result ≡ named 3 n (arbitration_of n) }
{
    match n {
        0 => Some(Arbitration::WaitingOnPartial),
        1 => Some(Arbitration::BlockedOnPartial),
        2 => Some(Arbitration::WaitingOnConnection),
        _ => None,
    }
}
