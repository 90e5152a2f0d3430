// Request c), the write: the caller keeps the state, lends it to each call and gets the new one back.
ghost use Rattle.std.specs.Prelude.{◌≡◌};
ghost use Rattle.write.specs.Calls.{start, xfer, ack, nak, timeout, lost, got, nexus, cancel};
ghost use Rattle.take_history.specs.Calls.{plain};
ghost use Rattle.write_lent.specs.Face.{face_of, Asked, Taken};

use write_lent::{State, Step};

// START: offset B, count N, X bytes by one XFER_RDY at most, R retries.
#[unsafe(no_mangle)]
pub extern "C" fn sonerwal_write_start(
    s: State,
    offset: u32,
    count: u32,
    burst: u32,
    resends: u32,
) -> Step
    ensures { result ≡ face_of (plain (start offset count burst resends)) s }
{
    sonerwal::writes::sonerwal_write_start(s, offset, count, burst, resends)
}

// XFER: an XFER_RDY goes, written by the caller itself; others are the tags in use by the port's other writes.
#[unsafe(no_mangle)]
pub extern "C" fn sonerwal_write_xfer(s: State, others: u64) -> Step
    ensures { result ≡ face_of (plain (xfer others)) s }
{
    sonerwal::writes::sonerwal_write_xfer(s, others)
}

// ACK of the XFER_RDY that is out.
#[unsafe(no_mangle)]
pub extern "C" fn sonerwal_write_ack(s: State) -> Step
    ensures { result ≡ face_of (plain ack) s }
{
    sonerwal::writes::sonerwal_write_ack(s)
}

// NAK of the XFER_RDY that is out.
#[unsafe(no_mangle)]
pub extern "C" fn sonerwal_write_nak(s: State) -> Step
    ensures { result ≡ face_of (plain nak) s }
{
    sonerwal::writes::sonerwal_write_nak(s)
}

// TIMEOUT: its answer did not come in time.
#[unsafe(no_mangle)]
pub extern "C" fn sonerwal_write_timeout(s: State) -> Step
    ensures { result ≡ face_of (plain timeout) s }
{
    sonerwal::writes::sonerwal_write_timeout(s)
}

// LOST: the connection was lost with its answer due.
#[unsafe(no_mangle)]
pub extern "C" fn sonerwal_write_lost(s: State) -> Step
    ensures { result ≡ face_of (plain lost) s }
{
    sonerwal::writes::sonerwal_write_lost(s)
}

// DATA: so many bytes at this offset under this transfer tag, taken by the caller itself.
#[unsafe(no_mangle)]
pub extern "C" fn sonerwal_write_got(s: State, transfer: u16, offset: u32, length: u32) -> Step
    ensures { result ≡ face_of (plain (got transfer offset length)) s }
{
    sonerwal::writes::sonerwal_write_got(s, transfer, offset, length)
}

// NEXUS: the nexus was lost.
#[unsafe(no_mangle)]
pub extern "C" fn sonerwal_write_nexus(s: State) -> Step
    ensures { result ≡ face_of (plain nexus) s }
{
    sonerwal::writes::sonerwal_write_nexus(s)
}

// CANCEL.
#[unsafe(no_mangle)]
pub extern "C" fn sonerwal_write_cancel(s: State) -> Step
    ensures { result ≡ face_of (plain cancel) s }
{
    sonerwal::writes::sonerwal_write_cancel(s)
}

// XFER, its XFER_RDY written to the front of frame; the bytes past it stay, and on a refusal all of them.
#[unsafe(no_mangle)]
pub extern "C" fn sonerwal_write_ask(
    s: State,
    others: u64,
    destination: u32,
    source: u32,
    tag: u16,
    frame: &mut [u8],
) -> Step
    ensures { Asked s others destination source tag frame.old result frame.new }
{
    sonerwal::writes::sonerwal_write_ask(s, others, destination, source, tag, frame)
}

// DATA, read from frame, its bytes into store at next - B; every other byte stays, and on a refusal or with late data all of them.
#[unsafe(no_mangle)]
pub extern "C" fn sonerwal_write_take(
    s: State,
    destination: u32,
    source: u32,
    tag: u16,
    frame: &[u8],
    store: &mut [u8],
) -> Step
    ensures { Taken s destination source tag frame.now store.old result store.new }
{
    sonerwal::writes::sonerwal_write_take(s, destination, source, tag, frame, store)
}
