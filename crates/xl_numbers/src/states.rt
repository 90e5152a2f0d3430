// What a link's state has besides frames, flags and the count, and its status. A number that names nothing is told from one that does.
// Functions and no From or TryFrom: both types of each are other crates', and an impl stands with one of them.
ghost use Rattle.std.specs.Prelude.{◌≡◌};
ghost use Rattle.xl_parts.specs.Parts.{phase_number};
ghost use Rattle.xl_numbers.specs.States.{phase_of, aip_number, aip_of, status_number};

use refusals::Refusal;
use xl_parts::{LinkStatus, Phase, Seen, Wait};

// 0 for XL0 to 10 for XL10.
pub fn phase_number(p: Phase) -> u8
    ensures { result ≡ phase_number p }
{
    p as u8
}

pub fn phase_of(n: u8) -> Option<Phase>
    ensures { result ≡ phase_of n }
{
    match n {
        0 => Some(Phase::Xl0),
        1 => Some(Phase::Xl1),
        2 => Some(Phase::Xl2),
        3 => Some(Phase::Xl3),
        4 => Some(Phase::Xl4),
        5 => Some(Phase::Xl5),
        6 => Some(Phase::Xl6),
        7 => Some(Phase::Xl7),
        8 => Some(Phase::Xl8),
        9 => Some(Phase::Xl9),
        10 => Some(Phase::Xl10),
        _ => None,
    }
}

// The latest AIP or ArbStatus: 0 for none, else one more than its kind.
pub fn aip_number(a: Seen) -> u8
    ensures { result ≡ aip_number a }
{
    match a {
        None => 0,
        Some(w) => 1 + w as u8,
    }
}

// The kinds stand here once more, as the definition lists them behind none.
pub fn aip_of(n: u8) -> Option<Seen>
    ensures { result ≡ aip_of n }
{
    match n {
        0 => Some(None),
        1 => Some(Some(Wait::Normal)),
        2 => Some(Some(Wait::Partial)),
        3 => Some(Some(Wait::Connection)),
        4 => Some(Some(Wait::Device)),
        _ => None,
    }
}

// 48 to 51; a refused state's is the refusal's own number.
pub fn status_number(a: Result<LinkStatus, Refusal>) -> u8
    ensures { result ≡ status_number a }
{
    match a {
        Ok(LinkStatus::Ready) => 48,
        Ok(LinkStatus::Partial) => 49,
        Ok(LinkStatus::BlockedPartial) => 50,
        Ok(LinkStatus::Connected) => 51,
        Err(k) => u8::from(k),
    }
}
