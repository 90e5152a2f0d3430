// Document 01, 'Port': what a call leaves of each record of the list, and its answer.
ghost use Rattle.std.specs.Prelude.{◌≡◌, length};
ghost use Rattle.port_rows.specs.Records.{spread, left_step};
ghost use Rattle.port.specs.Calls.{left_of, answered, short_setup};
ghost use Rattle.port.specs.Calls as calls;
ghost use Rattle.port.specs.Walk.{walk_from, walk_to};

use crate::Stepped;
use port_parts::{Port, Request, SSP, request_stage};
use port_rows::{Done, Loss};
use refusals::Refusal;

fn answered(d: Done) -> Stepped
    ensures { result ≡ answered d }
{
    Stepped {
        answer: d.answer,
        port: d.port,
    }
}

// A changed loss timer, in every SSP request to its destination.
fn spread(x: Option<Loss>, r: Request) -> Request
    ensures { result ≡ spread x r }
{
    let Some(t) = x else {
        return r;
    };
    let h = r.head;
    if (r.stage != request_stage::FREE) & ((h.protocol == SSP) & (h.destination == t.destination)) {
        return port_core::timed(r, t.timer);
    }
    r
}

// The record at place i after a call.
fn left_step(r: Request, i: usize, d: Done) -> Request
    ensures { result ≡ left_step r i d }
{
    if d.cleared {
        return port_parts::blank();
    }
    if i == d.answer.slot as usize {
        return d.entry;
    }
    spread(d.loss, r)
}

// The first record that a call may change.
#[tactic(auto, unfolding(crate::specs::Walk::walk_from))]
fn walk_from(d: Done) -> usize
    ensures { result ≡ walk_from d }
{
    if d.cleared | d.loss.is_some() {
        return 0;
    }
    (d.answer.slot as usize).min(32)
}

// The place behind the last record that a call may change.
#[tactic(auto, unfolding(crate::specs::Walk::walk_to))]
fn walk_to(d: Done) -> usize
    ensures { result ≡ walk_to d }
{
    if d.cleared | d.loss.is_some() {
        return 32;
    }
    (d.answer.slot as usize + 1).min(32)
}

// Every record as the call leaves it, and its answer. A slice and its places by number: of a `&mut [Request; 32]` made of the slice, and
// behind `iter_mut`, the proof knows nothing of the records that stand there afterwards.
pub(crate) fn left(list: &mut [Request], d: Done) -> Stepped
    requires { length list.old ≡ 32 }
    ensures { (result ≡ answered d) × (list.new ≡ left_of list.old d) }
{
    // Apart from the walk, in which each record would be looked at to be freed.
    if d.cleared {
        list.fill(port_parts::blank());
        return answered(d);
    }
    for i in walk_from(d)..walk_to(d) {
        list[i] = left_step(list[i], i, d);
    }
    answered(d)
}

// A list of another length.
pub(crate) fn short(p: Port) -> Stepped
    ensures { result ≡ calls.short p }
{
    answered(port_core::refused_by(p, Refusal::Length))
}

// Setup is lent no port.
pub(crate) fn short_setup(count: u8) -> Stepped
    ensures { result ≡ short_setup count }
{
    short(port_core::no_port())
}
