// Document 01, 'Read transfer': the next-frame call, which writes the DATA frame at the read offset.
#![tactic(auto)]

ghost use Rattle.std.specs.Prelude.{◌≡◌};
ghost use Rattle.transfer.specs.Steps.{limit};
ghost use Rattle.send.specs.Send.{changing_of, head_of, is_sent, Went};

use refusals::Refusal;
use ssp_frame::data;
use ssp_frame::data::DataHead;
use transfer::{Answer, Stepped, Transfer};

fn changing(s: Transfer) -> u8
    ensures { result ≡ changing_of s }
{
    u8::from((0 < s.used) & !s.sent)
}

// Three numbers and no struct for whom the frame goes to: C's own parameters, which transfer_lent hands on and this makes a head of.
fn head(s: Transfer, destination: u32, source: u32, tag: u16) -> DataHead
    ensures { result ≡ head_of s destination source tag }
{
    DataHead {
        destination,
        source,
        changing: changing(s),
        tag,
        offset: s.read,
    }
}

// Of a transfer's answer; take has the same of a write's and of a reply's, and a trait for the three would be longer than they are.
fn is_sent(a: Result<Answer, Refusal>) -> bool
    ensures { result ≡ is_sent a }
{
    matches!(a, Ok(Answer::Sent))
}

// The next frame, with the data in body, to the front of out; the bytes past it stay, and on a refusal all of them.
pub fn next_frame(
    s: Transfer,
    destination: u32,
    source: u32,
    tag: u16,
    body: &[u8],
    out: &mut [u8],
) -> Stepped
    ensures { Went limit s (head_of s destination source tag) body.now out.old result out.new }
{
    let stepped = s.frame();
    if !is_sent(stepped.answer) {
        return stepped;
    }
    let h = head(s, destination, source, tag);
    if !data::data_listed(h) {
        return s.refused(Refusal::Unlisted);
    }
    if body.len() != s.frame_length() as usize {
        return s.refused(Refusal::Length);
    }
    if data::write_data(h, body, out).is_err() {
        return s.refused(Refusal::Length);
    }
    stepped
}
