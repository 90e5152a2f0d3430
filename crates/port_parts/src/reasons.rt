// Document 01, 'Port': the reasons of Open Failed, by number, and what each one does.
ghost use Rattle.std.specs.Prelude.{◌≡◌};
ghost use Rattle.port_parts.specs.Reasons.{reason_of, is_listed, is_retried, is_blocked, is_starting, is_stopping};

use crate::Reason;

// The reason with a number.
pub fn reason_of(n: u8) -> Reason
    ensures { result ≡ reason_of n }
{
    match n {
        0 => Reason::NoDestination,
        1 => Reason::BadDestination,
        2 => Reason::WrongDestination,
        3 => Reason::LinkRateNotSupported,
        4 => Reason::ProtocolNotSupported,
        5 => Reason::PathwayBlocked,
        6 => Reason::StpResourcesBusy,
        7 => Reason::Retry,
        8 => Reason::OpenTimeOut,
        9 => Reason::BreakReceived,
        _ => Reason::Other,
    }
}

// Whether it is one of document 01's.
pub fn is_listed(why: Reason) -> bool
    ensures { result ≡ is_listed why }
{
    !matches!(why, Reason::Other)
}

// Whether the request is tried again.
pub fn is_retried(why: Reason) -> bool
    ensures { result ≡ is_retried why }
{
    matches!(
        why,
        Reason::NoDestination
            | Reason::LinkRateNotSupported
            | Reason::PathwayBlocked
            | Reason::Retry
            | Reason::OpenTimeOut
    )
}

// Whether the wait runs on, and the blocked count grows.
pub fn is_blocked(why: Reason) -> bool
    ensures { result ≡ is_blocked why }
{
    matches!(why, Reason::PathwayBlocked)
}

// Whether it starts the destination's loss timer.
pub fn is_starting(why: Reason) -> bool
    ensures { result ≡ is_starting why }
{
    matches!(why, Reason::NoDestination | Reason::LinkRateNotSupported)
}

// Whether it stops the destination's loss timer.
pub fn is_stopping(why: Reason) -> bool
    ensures { result ≡ is_stopping why }
{
    matches!(
        why,
        Reason::ProtocolNotSupported | Reason::StpResourcesBusy | Reason::Retry
    )
}
