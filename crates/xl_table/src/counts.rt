// The count of unexpected events, and where it stops.
use crate::frames;
use crate::ink::Ink;
use std::fmt;
use std::fmt::Write;
use xl_parts::{Event, Primitive, State};

// CLOSE is unexpected in XL0.
fn print_count(to: &mut Ink, count: u32) -> fmt::Result {
    let s = State {
        count,
        ..xl_parts::ready()
    };
    let r = xl::step(s, Event::Line(Primitive::Close), frames::received());
    let after = r.state.count;
    writeln!(to, "count\t{count}\t{after}")
}

pub(crate) fn print_counts(to: &mut Ink) -> fmt::Result {
    for count in [0, 0xffff_fffe, 0xffff_ffff] {
        print_count(to, count)?;
    }
    Ok(())
}
