// A cell: what one event makes of one state.
use crate::frames;
use crate::ink::Ink;
use crate::words::Words;
use open_frame::OpenFrame;
use std::fmt;
use std::fmt::Write;
use xl_numbers::states;
use xl_parts::{Actions, Event, Memory, Phase, State, Stepped};

pub(crate) fn state(phase: Phase, memory: Memory) -> State {
    State {
        phase,
        memory,
        count: 7,
    }
}

// A memory as a cell shows it: frames by their tags.
#[derive(Clone, Copy, PartialEq, Eq)]
pub(crate) struct Signs {
    held: char,
    heard: char,
    // Its number as C has it: 0 for none, and behind that the kinds from 0 on.
    aip: u8,
    broke: bool,
    close: bool,
    blocked: bool,
}

impl From<Memory> for Signs {
    fn from(m: Memory) -> Signs {
        Signs {
            held: frames::held_sign(m.held),
            heard: frames::held_sign(m.heard),
            aip: states::aip_number(m.aip),
            broke: m.broke,
            close: m.close,
            blocked: m.blocked,
        }
    }
}

impl fmt::Display for Signs {
    fn fmt<W: fmt::Write>(&self, f: &mut fmt::Formatter<W>) -> fmt::Result {
        write!(f, "{}{}", self.held, self.heard)?;
        match self.aip.checked_sub(1) {
            Some(kind) => write!(f, "{kind}")?,
            None => write!(f, "-")?,
        }
        let broke = u8::from(self.broke);
        let close = u8::from(self.close);
        let blocked = u8::from(self.blocked);
        write!(f, "{broke}{close}{blocked}")
    }
}

// Whether a cell shows no change: of a state it shows the phase and the memory's signs, and the count apart.
fn is_still(s: State, t: State, a: Actions) -> bool {
    (s.phase == t.phase) & (Signs::from(s.memory) == Signs::from(t.memory)) & a[0].is_none()
}

// What a step from s that was not refused leaves and does.
fn print_taken(to: &mut Ink, s: State, t: State, a: Actions) -> fmt::Result {
    if t.count != s.count {
        write!(to, "+")?;
    }
    if !is_still(s, t, a) {
        let number = states::phase_number(t.phase);
        return write!(to, "{number}/{}/{}", Signs::from(t.memory), Words(a));
    }
    if t.count == s.count {
        write!(to, "=")?;
    }
    Ok(())
}

// The cell of a step that was taken in s, behind a tab.
fn print_cell(to: &mut Ink, s: State, r: Stepped) -> fmt::Result {
    write!(to, "\t")?;
    match r.answer {
        Ok(()) => print_taken(to, s, r.state, r.actions),
        Err(k) => write!(to, "{}", u8::from(k)),
    }
}

pub(crate) fn print_step(to: &mut Ink, s: State, e: Event, f: OpenFrame) -> fmt::Result {
    print_cell(to, s, xl::step(s, e, f))
}

pub(crate) fn print_received(to: &mut Ink, s: State, bytes: &[u8]) -> fmt::Result {
    print_cell(to, s, xl::receive(s, bytes))
}
