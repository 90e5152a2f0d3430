// Document 01, 'XL: one event, one step': its table, in code.
#![tactic(auto)]

mod effects;
mod kinds;
mod memory;
mod rows;
mod states;

ghost use Rattle.std.specs.Prelude.{◌≡◌};
ghost use Rattle.xl_parts.specs.Parts.{done};
ghost use Rattle.xl_rows.specs.Table as table;

use crate::states::{by_phase, on_break};
use open_frame::OpenFrame;
use xl_parts::{Event, Phase, State, Stepped, to};

// What the table makes of an event. The frame is looked at only where one goes with the event.
pub fn takes(s: State, e: Event, f: OpenFrame) -> Stepped
    ensures { result ≡ done (table.takes f e s) }
{
    match e {
        Event::Break(b) => on_break(s, b),
        Event::Disable => to(s, Phase::Xl0),
        _ => by_phase(s, e, f),
    }
}
