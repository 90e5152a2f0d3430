// Prints what a link does: for every state and every memory a line, with a cell for each event; then what comes of OPENs that
// cross, and of frames and bytes that are refused. tests/xl.c holds these lines against a table that was typed from document 01.
//
// A cell is a refusal's number, '=' (nothing changes, and nothing is done), or the new state, its memory and its actions, parted by
// '/'. '+' before it says that one more is counted, and a '+' alone that nothing but the count changed. A memory is six signs: the
// frame held and the OPEN remembered (- none, h the frame held before, e the event's, o the OPEN remembered before), the latest AIP
// (- none), BREAK, CLOSE and Blocked On Partial.
#![tactic(auto)]

mod cells;
mod counts;
mod crossings;
mod frames;
mod ink;
mod refused;
mod table;
mod words;

use crate::ink::Ink;
use std::fmt;

fn print_all(to: &mut Ink) -> fmt::Result {
    table::print_states(to)?;
    crossings::print_crossings(to)?;
    refused::print_refusals(to)?;
    counts::print_counts(to)
}

fn main(rt: HostRuntime) {
    let mut to = Ink::new(rt.stdout(), rt.stderr());
    // No piece answers an error, so there is none to say here.
    let _ = print_all(&mut to);
}
