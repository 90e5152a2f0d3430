// OPENs that cross the frame transmitted: in XL6, and remembered in XL5.
use crate::ink::Ink;
use crate::{cells, frames};
use open_frame::OpenFrame;
use std::fmt;
use std::fmt::Write;
use xl_numbers::states;
use xl_parts::{Event, Memory, Notice, Phase, Primitive, Seen};

// How an OPEN crosses: n is its priority, back whether it goes back to that frame's source.
#[derive(Clone, Copy)]
struct Crossing {
    // A number for five kinds, since it is printed as one.
    n: u8,
    back: bool,
    rate: u16,
    aip: Seen,
}

fn awt_of(n: u8) -> u16 {
    match n {
        0 => 99,
        4 => 101,
        _ => 100,
    }
}

// Of a smaller, the same or a larger AWT than the frame transmitted, and with the same AWT of a smaller, the same or a larger
// source; the other two have the source that would win or lose alone.
fn source_of(n: u8) -> u64 {
    match n {
        0 | 3 => 1001,
        2 => 1000,
        _ => 999,
    }
}

fn frame_of(tag: u16, c: Crossing) -> OpenFrame {
    let destination = if c.back { 1000 } else { 4000 };
    frames::frame(tag, awt_of(c.n), destination, source_of(c.n), c.rate)
}

fn crossed(heard: Option<OpenFrame>, aip: Seen) -> Memory {
    Memory {
        held: Some(frames::transmitted()),
        heard,
        aip,
        ..Memory::default()
    }
}

// OPEN in XL6.
fn print_opened(to: &mut Ink, c: Crossing) -> fmt::Result {
    let s = cells::state(Phase::Xl6, crossed(None, c.aip));
    cells::print_step(to, s, Event::Line(Primitive::Open), frame_of(2, c))
}

// The same OPEN remembered in XL5 and taken at Sent.
fn print_sent(to: &mut Ink, c: Crossing) -> fmt::Result {
    let s = cells::state(Phase::Xl5, crossed(Some(frame_of(3, c)), c.aip));
    cells::print_step(to, s, Event::Own(Notice::Sent), frames::received())
}

fn print_crossing(to: &mut Ink, c: Crossing) -> fmt::Result {
    let n = c.n;
    let back = u8::from(c.back);
    let rate = c.rate;
    let aip = states::aip_number(c.aip);
    write!(to, "crossing\t{n}\t{back}\t{rate}\t{aip}")?;
    print_opened(to, c)?;
    print_sent(to, c)?;
    writeln!(to, "")
}

fn print_aips(to: &mut Ink, n: u8, back: bool, rate: u16) -> fmt::Result {
    for aip in (0..5).filter_map(states::aip_of) {
        print_crossing(to, Crossing { n, back, rate, aip })?;
    }
    Ok(())
}

pub(crate) fn print_crossings(to: &mut Ink) -> fmt::Result {
    for n in 0..5 {
        for back in [false, true] {
            for rate in 8..11 {
                print_aips(to, n, back, rate)?;
            }
        }
    }
    Ok(())
}
