// The calls of a write that read and write bytes: the XFER_RDY that asks for a range, and the data that comes for it, which goes into a store; and
// RESPONSE in a module of its own.
#![tactic(auto)]

ghost use Rattle.std.specs.Prelude.{◌≡◌, ◌++◌, ◌≤◌, ◌<◌, length, drop};
ghost use Rattle.write.specs.Steps.{limit, asked_length};
ghost use Rattle.take.specs.Ask as asks;
ghost use Rattle.take.specs.Take as takes;

use refusals::Refusal;
use ssp_frame::data_out::OutHead;
use ssp_frame::xfer_rdy::XferHead;
use ssp_frame::{Frame, data_out, xfer_rdy};
use write::{Answer, Stepped, Write};

pub mod respond;

// The command that a frame is of, as the target's frames name it.
#[derive(Clone, Copy)]
pub struct Command {
    // The hashed addresses, 24 bits each.
    pub destination: u32,
    pub source: u32,
    pub tag: u16,
}

impl Command {
    // Whether these are hashed addresses.
    fn addressed(self) -> bool
        ensures { result ≡ asks.addressed self.destination self.source }
    {
        self.destination < 0x1000000 && self.source < 0x1000000
    }

    // What an XFER_RDY of s says, under this transfer tag.
    fn head(self, s: Write, transfer: u16) -> XferHead
        requires { asked_length s < 4294967296 }
        ensures { result ≡ asks.head transfer s self.destination self.source self.tag }
    {
        XferHead {
            destination: self.destination,
            source: self.source,
            retransmit: s.retransmit(),
            retry: 0,
            tag: self.tag,
            transfer,
            offset: s.next,
            length: s.asked_length() as u32,
        }
    }

    // Whether the host's frame is of this command: its tag, and its addresses crosswise.
    fn ours(self, h: OutHead) -> bool
        ensures { result ≡ takes.ours h self.destination self.source self.tag }
    {
        h.destination == self.source && h.source == self.destination && h.tag == self.tag
    }
}

// respond.rt has the same of a reply's answer: a trait for the two would be longer than both.
fn is_sent(answer: Result<Answer, Refusal>) -> bool
    ensures { result ≡ asks.is_sent answer }
{
    matches!(answer, Ok(Answer::Sent))
}

// XFER, its frame to the front of out; the bytes past it stay, and on a refusal all of them.
pub fn ask(s: Write, others: u64, command: Command, out: &mut [u8]) -> Stepped
    ensures { asks.Asks limit others s command.destination command.source command.tag out.old result out.new }
{
    if out.len() < 36 {
        return s.refused(Refusal::Length);
    }
    if !command.addressed() {
        return s.refused(Refusal::Unlisted);
    }
    let stepped = s.xfer(others);
    if !is_sent(stepped.answer) {
        return stepped;
    }
    // There is room for it, and its fields are listed: it is never refused.
    let _ = xfer_rdy::write_xfer_rdy(command.head(s, stepped.state.tag), out);
    stepped
}

// Whether DATA that is answered so goes to the store.
fn is_taken(answer: Result<Answer, Refusal>) -> bool
    ensures { result ≡ takes.is_taken answer }
{
    matches!(answer, Ok(Answer::Ok | Answer::More | Answer::Done))
}

// What the frame f is answered, with a store of m bytes. DATA that doesn't fit and DATA under another head are both 2: the write's own test of it comes
// first, so that its rules are tested once.
fn answered(s: Write, f: Frame<OutHead>, command: Command, m: usize) -> Stepped
    requires { (1 ≤ f.length) × (f.length ≤ 1024) }
    ensures { result ≡ takes.step_by limit s f command.destination command.source command.tag m }
{
    if !command.addressed() {
        return s.refused(Refusal::Unlisted);
    }
    let h = f.head;
    let stepped = s.got(h.transfer, h.offset, f.length as u32);
    if stepped.answer.is_err() {
        return stepped;
    }
    if !command.ours(h) {
        return s.refused(Refusal::Unlisted);
    }
    if m < s.count as usize {
        return s.refused(Refusal::Length);
    }
    stepped
}

// The data to the front of what is lent; the bytes past it stay. The block apart from both lets the compiler copy at once: it need not ask whether they
// overlap. ssp_frame's put_payload copies so too: one function for both would be public, and no public function has a `requires`.
fn put_data(body: &[u8], store: &mut [u8])
    requires { (length body.now ≤ 1024) × (length body.now ≤ length store.old) }
    ensures { store.new ≡ body.now ++ drop (length body.now) store.old }
{
    let n = body.len();
    let mut block = [0u8; 1024];
    block[..n].copy_from_slice(body);
    store[..n].copy_from_slice(&block[..n]);
}

// DATA, read from frame; what is taken of it goes into store from next - B on. Every other byte of store stays, and on a refusal all of them.
pub fn take(s: Write, command: Command, frame: &[u8], store: &mut [u8]) -> Stepped
    ensures { takes.Takes limit s command.destination command.source command.tag frame.now store.old result store.new }
{
    let f = match data_out::read_data_out(frame) {
        Ok(f) => f,
        Err(k) => return s.refused(k),
    };
    let stepped = answered(s, f, command, store.len());
    if !is_taken(stepped.answer) {
        return stepped;
    }
    let at = (s.next - s.offset) as usize;
    put_data(&frame[24..24 + f.length as usize], &mut store[at..]);
    stepped
}
