// A line for each state and each memory: the link status, and a cell for each event.
use crate::cells::Signs;
use crate::ink::Ink;
use crate::{cells, frames};
use refusals::Refusal;
use std::fmt;
use std::fmt::Write;
use xl_numbers::codes::Code;
use xl_numbers::{codes, states};
use xl_parts::{LinkStatus, Memory, Phase, Seen, State};

// The cells of BREAK's events and of Disable come behind all others.
const LATE: [u8; 4] = [6, 18, 51, 63];

// The cells of a kind's events; no kind has more than eight details, and a number that is no event's has no cell.
fn print_kind(to: &mut Ink, s: State, kind: u8) -> fmt::Result {
    for detail in 0..8 {
        if let Some(e) = codes::event_of(Code { kind, detail }) {
            cells::print_step(to, s, e, frames::received())?;
        }
    }
    Ok(())
}

fn print_early(to: &mut Ink, s: State) -> fmt::Result {
    for kind in 0..64 {
        if !LATE.contains(&kind) {
            print_kind(to, s, kind)?;
        }
    }
    Ok(())
}

fn print_late(to: &mut Ink, s: State) -> fmt::Result {
    for kind in LATE {
        print_kind(to, s, kind)?;
    }
    Ok(())
}

fn status_sign(a: Result<LinkStatus, Refusal>) -> char {
    match a {
        Ok(LinkStatus::Ready) => 'R',
        Ok(LinkStatus::Connected) => 'C',
        Ok(LinkStatus::BlockedPartial) => 'B',
        Ok(LinkStatus::Partial) => 'P',
        Err(_) => '3',
    }
}

fn print_line(to: &mut Ink, phase: Phase, m: Memory) -> fmt::Result {
    let s = cells::state(phase, m);
    let number = states::phase_number(phase);
    let signs = Signs::from(m);
    let status = status_sign(xl::status(s));
    write!(to, "{number}\t{signs}\t{status}")?;
    print_early(to, s)?;
    print_late(to, s)?;
    writeln!(to, "")
}

// The memory with a number below 32, a bit for each: whether a frame is held, whether an OPEN is remembered, and three flags. One loop
// counts it: five in one another are no plainer.
fn memory(n: u8, aip: Seen) -> Memory {
    Memory {
        held: (n & 16 != 0).then(frames::transmitted),
        heard: (n & 8 != 0).then(frames::remembered),
        aip,
        broke: n & 4 != 0,
        close: n & 2 != 0,
        blocked: n & 1 != 0,
    }
}

// The lines of a state, by the latest AIP.
fn print_aips(to: &mut Ink, phase: Phase) -> fmt::Result {
    for aip in (0..5).filter_map(states::aip_of) {
        for n in 0..32 {
            print_line(to, phase, memory(n, aip))?;
        }
    }
    Ok(())
}

pub(crate) fn print_states(to: &mut Ink) -> fmt::Result {
    for phase in (0..11).filter_map(states::phase_of) {
        print_aips(to, phase)?;
    }
    Ok(())
}
