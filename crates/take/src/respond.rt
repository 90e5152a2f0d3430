// RESPONSE, the frame that ends a command, of a write or of a read.
ghost use Rattle.std.specs.Prelude.{◌≡◌};
ghost use Rattle.take.specs.Respond.{response_head, Responds};
ghost use Rattle.take.specs.Respond as responds;

use crate::Command;
use refusals::Refusal;
use reply::{Answer, Reply, Stepped};
use ssp_frame::response;
use ssp_frame::response::ResponseHead;

fn is_sent(answer: Result<Answer, Refusal>) -> bool
    ensures { result ≡ responds.is_sent answer }
{
    matches!(answer, Ok(Answer::Sent))
}

// `present` is a number, as C hands it on: response_listed refuses what isn't listed.
fn response_head(s: Reply, command: Command, present: u8, status: u8) -> ResponseHead
    ensures { result ≡ response_head s command.destination command.source command.tag present status }
{
    ResponseHead {
        destination: command.destination,
        source: command.source,
        retransmit: s.retransmit(),
        tag: command.tag,
        present,
        status,
    }
}

// RESPONSE, its frame with the data in body to the front of out; the bytes past it stay, and on a refusal all of them.
pub fn respond(
    s: Reply,
    command: Command,
    present: u8,
    status: u8,
    body: &[u8],
    out: &mut [u8],
) -> Stepped
    ensures { Responds s (response_head s command.destination command.source command.tag present status) body.now out.old result out.new }
{
    if !response::response_sized(present, body.len(), out.len()) {
        return s.refused(Refusal::Length);
    }
    let h = response_head(s, command, present, status);
    if !response::response_listed(h) {
        return s.refused(Refusal::Unlisted);
    }
    let stepped = s.respond();
    if !is_sent(stepped.answer) {
        return stepped;
    }
    // Its lengths are right, and its fields are listed: it is never refused.
    let _ = response::write_response(h, body, out);
    stepped
}
