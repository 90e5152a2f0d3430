// The expander link, as include/sonerwal.h declares it: its state by value, as numbers.
ghost use Rattle.std.specs.Prelude.{◌≡◌};
ghost use Rattle.xl_lent.specs.Face.{link_event, link_receive, link_status};

use open_lent::Open;
use xl_lent::{Link, Step};
use xl_numbers::codes::Code;

// One event, one step. The frame counts for kinds 1, 16 and 23 alone.
#[unsafe(no_mangle)]
pub extern "C" fn sonerwal_link_event(s: Link, e: Code, frame: Open) -> Step
    ensures { result ≡ link_event s e frame }
{
    sonerwal::link::sonerwal_link_event(s, e, frame)
}

// An OPEN received, as bytes.
#[unsafe(no_mangle)]
pub extern "C" fn sonerwal_link_receive(s: Link, frame: &[u8]) -> Step
    ensures { result ≡ link_receive s frame.now }
{
    sonerwal::link::sonerwal_link_receive(s, frame)
}

// 48 Ready, 49 Partial, 50 Blocked Partial, 51 Connected, or 3 for a state off the rules.
#[unsafe(no_mangle)]
pub extern "C" fn sonerwal_link_status(s: Link) -> u8
    ensures { result ≡ link_status s }
{
    sonerwal::link::sonerwal_link_status(s)
}
