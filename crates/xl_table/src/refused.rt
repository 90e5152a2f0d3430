// Frames, bytes and states that are refused.
use crate::ink::Ink;
use crate::{cells, frames};
use open_frame::OpenFrame;
use std::fmt;
use std::fmt::Write;
use xl_numbers::states;
use xl_parts::{Event, Memory, Message, Phase, Primitive, State};

fn lent(phase: Phase, held: Option<OpenFrame>, heard: Option<OpenFrame>) -> State {
    cells::state(
        phase,
        Memory {
            held,
            heard,
            ..Memory::default()
        },
    )
}

// Events with a frame of rate 11 beside them.
fn print_unlisted(to: &mut Ink, s: State) -> fmt::Result {
    let events = [
        Event::Line(Primitive::Open),
        Event::Router(Message::SendOpen),
        Event::Router(Message::BackoffReversePath),
        Event::Disable,
    ];
    for e in events {
        cells::print_step(to, s, e, frames::unlisted())?;
    }
    Ok(())
}

// Disable in a state that holds such a frame, and in one that remembers it.
fn print_lent(to: &mut Ink, phase: Phase) -> fmt::Result {
    let f = Some(frames::unlisted());
    let h = Some(frames::transmitted());
    for s in [lent(phase, f, None), lent(phase, h, f)] {
        cells::print_step(to, s, Event::Disable, frames::received())?;
    }
    Ok(())
}

// Such a frame beside each event that takes one and beside one that takes none, and an OPEN of bytes that the reader refuses, in a
// state that keeps the rules and in one that does not; then states with such a frame.
fn print_line(to: &mut Ink, phase: Phase, there: bool) -> fmt::Result {
    let s = lent(phase, there.then(frames::transmitted), None);
    let number = states::phase_number(phase);
    let held = u8::from(there);
    write!(to, "refused\t{number}\t{held}")?;
    print_unlisted(to, s)?;
    cells::print_received(to, s, &[0u8; 27])?;
    cells::print_received(to, s, &[0u8; 28])?;
    print_lent(to, phase)?;
    writeln!(to, "")
}

pub(crate) fn print_refusals(to: &mut Ink) -> fmt::Result {
    for phase in (0..11).filter_map(states::phase_of) {
        for there in [false, true] {
            print_line(to, phase, there)?;
        }
    }
    Ok(())
}
