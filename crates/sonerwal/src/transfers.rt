// Document 01, 'Read transfer': the caller keeps the state, lends it to each call and gets the new one back.
ghost use Rattle.std.specs.Prelude.{◌≡◌};
ghost use Rattle.transfer_lent.specs.Face.{start, frame, ack, nak, timeout, lost, nexus, cancel, face_of, Next, length_of};
ghost use Rattle.transfer_lent.specs.Saves.{restore_of, Save};

use transfer_lent::{Saved, State, Step};

// START: offset B, count N, frame size M, R resends.
#[unsafe(no_mangle)]
pub extern "C" fn sonerwal_transfer_start(
    s: State,
    offset: u32,
    count: u32,
    size: u32,
    resends: u32,
) -> Step
    ensures { result ≡ face_of (start offset count size resends) s }
{
    s.start(offset, count, size, resends)
}

// FRAME: the next frame goes, written by the caller itself.
#[unsafe(no_mangle)]
pub extern "C" fn sonerwal_transfer_frame(s: State) -> Step
    ensures { result ≡ face_of frame s }
{
    s.frame()
}

// ACK, which belongs to the oldest unanswered frame.
#[unsafe(no_mangle)]
pub extern "C" fn sonerwal_transfer_ack(s: State) -> Step
    ensures { result ≡ face_of ack s }
{
    s.ack()
}

// NAK, which belongs to the oldest unanswered frame.
#[unsafe(no_mangle)]
pub extern "C" fn sonerwal_transfer_nak(s: State) -> Step
    ensures { result ≡ face_of nak s }
{
    s.nak()
}

// TIMEOUT: an answer did not come in time.
#[unsafe(no_mangle)]
pub extern "C" fn sonerwal_transfer_timeout(s: State) -> Step
    ensures { result ≡ face_of timeout s }
{
    s.timeout()
}

// LOST: the connection was lost with answers due.
#[unsafe(no_mangle)]
pub extern "C" fn sonerwal_transfer_lost(s: State) -> Step
    ensures { result ≡ face_of lost s }
{
    s.lost()
}

// NEXUS: the nexus was lost.
#[unsafe(no_mangle)]
pub extern "C" fn sonerwal_transfer_nexus(s: State) -> Step
    ensures { result ≡ face_of nexus s }
{
    s.nexus()
}

// CANCEL.
#[unsafe(no_mangle)]
pub extern "C" fn sonerwal_transfer_cancel(s: State) -> Step
    ensures { result ≡ face_of cancel s }
{
    s.cancel()
}

// FRAME, written to the front of frame with the data in body; the bytes past it stay, and on a refusal all of them.
#[unsafe(no_mangle)]
pub extern "C" fn sonerwal_transfer_next(
    s: State,
    destination: u32,
    source: u32,
    tag: u16,
    body: &[u8],
    frame: &mut [u8],
) -> Step
    ensures { Next s destination source tag body.now frame.old result frame.new }
{
    s.next(destination, source, tag, body, frame)
}

// The length of the data that `sonerwal_transfer_next` wants; 0 where FRAME is refused.
#[unsafe(no_mangle)]
pub extern "C" fn sonerwal_transfer_length(s: State) -> u32
    ensures { result ≡ length_of s }
{
    s.length()
}

// 02 a.2
// Saves the transfer as a line of a form, to the front of line; the bytes past it stay, and on a refusal all of them.
#[unsafe(no_mangle)]
pub extern "C" fn sonerwal_transfer_save(s: State, form: u8, line: &mut [u8]) -> Saved
    ensures { Save s form line.old result line.new }
{
    s.save(form, line)
}

// 02 a.2
// The transfer that a line saves; on a refusal the state before START.
#[unsafe(no_mangle)]
pub extern "C" fn sonerwal_transfer_restore(line: &[u8]) -> Step
    ensures { result ≡ restore_of line.now }
{
    State::restore(line)
}
