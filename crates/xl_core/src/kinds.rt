// What a kind that the connection manager names is answered with. A From would stand with the kinds, in crate xl_parts, below the table
// that says what each is answered with (crate xl_rows).
ghost use Rattle.std.specs.Prelude.{◌≡◌};
ghost use Rattle.xl_rows.specs.Table.{reject_for, wait_for, is_blocked};

use xl_parts::{Arbitration, Denial, Reject, Wait};

pub(crate) fn reject_for(d: Denial) -> Reject
    ensures { result ≡ reject_for d }
{
    match d {
        Denial::NoDestination => Reject::NoDestination,
        Denial::BadDestination => Reject::BadDestination,
        Denial::BadLinkRate => Reject::Rate,
        Denial::PathwayBlocked => Reject::PathwayBlocked,
    }
}

pub(crate) fn wait_for(a: Arbitration) -> Wait
    ensures { result ≡ wait_for a }
{
    match a {
        Arbitration::WaitingOnPartial => Wait::Partial,
        Arbitration::BlockedOnPartial => Wait::Partial,
        Arbitration::WaitingOnConnection => Wait::Connection,
    }
}

pub(crate) fn is_blocked(a: Arbitration) -> bool
    ensures { result ≡ is_blocked a }
{
    matches!(a, Arbitration::BlockedOnPartial)
}
