// Request c), the reply: RESPONSE and its retry, of a write or of a read. The caller keeps the state, lends it to each call and gets the new one back.
ghost use Rattle.std.specs.Prelude.{◌≡◌};
ghost use Rattle.reply_lent.specs.Face.{start, ack, nak, timeout, lost, nexus, cancel, face_of, Responded};

use reply_lent::{State, Step};

// START: R resends.
#[unsafe(no_mangle)]
pub extern "C" fn sonerwal_reply_start(s: State, resends: u32) -> Step
    ensures { result ≡ face_of (start resends) s }
{
    sonerwal::replies::sonerwal_reply_start(s, resends)
}

// ACK of the RESPONSE that is out.
#[unsafe(no_mangle)]
pub extern "C" fn sonerwal_reply_ack(s: State) -> Step
    ensures { result ≡ face_of ack s }
{
    sonerwal::replies::sonerwal_reply_ack(s)
}

// NAK of the RESPONSE that is out.
#[unsafe(no_mangle)]
pub extern "C" fn sonerwal_reply_nak(s: State) -> Step
    ensures { result ≡ face_of nak s }
{
    sonerwal::replies::sonerwal_reply_nak(s)
}

// TIMEOUT: its answer did not come in time.
#[unsafe(no_mangle)]
pub extern "C" fn sonerwal_reply_timeout(s: State) -> Step
    ensures { result ≡ face_of timeout s }
{
    sonerwal::replies::sonerwal_reply_timeout(s)
}

// LOST: the connection was lost with its answer due.
#[unsafe(no_mangle)]
pub extern "C" fn sonerwal_reply_lost(s: State) -> Step
    ensures { result ≡ face_of lost s }
{
    sonerwal::replies::sonerwal_reply_lost(s)
}

// NEXUS: the nexus was lost.
#[unsafe(no_mangle)]
pub extern "C" fn sonerwal_reply_nexus(s: State) -> Step
    ensures { result ≡ face_of nexus s }
{
    sonerwal::replies::sonerwal_reply_nexus(s)
}

// CANCEL.
#[unsafe(no_mangle)]
pub extern "C" fn sonerwal_reply_cancel(s: State) -> Step
    ensures { result ≡ face_of cancel s }
{
    sonerwal::replies::sonerwal_reply_cancel(s)
}

// RESPONSE, written to the front of frame with the data in body; the bytes past it stay, and on a refusal all of them.
#[unsafe(no_mangle)]
pub extern "C" fn sonerwal_reply_respond(
    s: State,
    destination: u32,
    source: u32,
    tag: u16,
    present: u8,
    status: u8,
    body: &[u8],
    frame: &mut [u8],
) -> Step
    ensures { Responded s destination source tag present status body.now frame.old result frame.new }
{
    sonerwal::replies::sonerwal_reply_respond(
        s,
        destination,
        source,
        tag,
        present,
        status,
        body,
        frame,
    )
}
