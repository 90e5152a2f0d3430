// Document 01, 'Port': setup and submit.
ghost use Rattle.std.specs.Prelude.{◌≡◌};
ghost use Rattle.refusals.specs.Causes.{refuse};
ghost use Rattle.port_rows.specs.Calls.{submitted, submit_causes, setup_core, submit_core};

use crate::{answers, ports};
use port_parts::{NO_PHY, NO_SLOT, Port, Request, request_stage};
use port_rows::{Done, Room, Submission, Word};
use refusals::Refusal;

// Every record of the list is set free with it.
#[tactic(auto, unfolding(port_rows::specs::Calls::setup_core))]
pub fn setup_core(count: u8, loss: u16) -> Done
    ensures { result ≡ setup_core count loss }
{
    if !port_parts::in_range(count, loss) {
        return answers::refused_by(ports::no_port(), Refusal::Rules);
    }
    answers::unnamed(ports::fresh(count, loss), Ok(Word::Taken), true)
}

fn submit_checked(p: Port, kept: bool, v: Room, x: Submission) -> Result<(), Refusal>
    ensures { result ≡ refuse Err (submit_causes p kept v x) (Ok tt) }
{
    let h = x.head;
    if !open_frame::head_listed(h) {
        return Err(Refusal::Unlisted);
    }
    if !kept {
        return Err(Refusal::Rules);
    }
    if x.now < p.last {
        return Err(Refusal::Past);
    }
    if v.same {
        return Err(Refusal::Present);
    }
    if NO_SLOT <= v.free {
        return Err(Refusal::Full);
    }
    Ok(())
}

// A request as submit leaves it.
fn submitted(v: Room, x: Submission) -> Request
    ensures { result ≡ submitted v x }
{
    Request {
        stage: request_stage::WAITING,
        head: x.head,
        submitted: x.now,
        loss: v.loss,
        ..port_parts::blank()
    }
}

pub fn submit_core(p: Port, kept: bool, v: Room, x: Submission) -> Done
    ensures { result ≡ submit_core p kept v x }
{
    if let Err(k) = submit_checked(p, kept, v, x) {
        return answers::refused_by(p, k);
    }
    let r = submitted(v, x);
    let answer = answers::said(Ok(Word::Submitted), v.free, NO_PHY, r);
    answers::stored(ports::later(p, x.now), answer, r, None)
}
