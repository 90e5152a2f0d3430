// 01 DATA.5: C firmware of the board calls the frame readers and writers.
// The frames over byte slices and numbers, the wait value and priority.
ghost use Rattle.std.specs.Prelude.{◌≡◌};
ghost use Rattle.open_frame.specs.Priority.{higher_than};
ghost use Rattle.open_frame.specs.Wait.{wait_value};
ghost use Rattle.sonerwal.specs.Face.{open9, open_lent, data_lent, data_given, reading, writing, OpenReads, OpenWrites, DataReads, DataWrites, crossing, open_higher};
ghost use Rattle.sonerwal.specs.Face.{xfer8, xfer_lent, XferReads, XferWrites, out_lent, out_given, OutReads, OutWrites, response_lent, response_given, ResponseReads, ResponseWrites};

use open_frame::{Awt, Head, OpenFrame, Pbc};
use ssp_frame::data::DataHead;
use ssp_frame::data_out::OutHead;
use ssp_frame::response::ResponseHead;
use ssp_frame::xfer_rdy::XferHead;
use ssp_frame::{data, data_out, response, xfer_rdy};

// 01 FORM.3: extern "C" functions over byte slices and numbers for OPEN and DATA frames.
// Fills the nine numbers with the fields of the OPEN frame in frame.
#[unsafe(no_mangle)]
pub extern "C" fn sonerwal_open_read(
    frame: &[u8],
    initiator: &mut u8,
    protocol: &mut u8,
    features: &mut u8,
    rate: &mut u8,
    tag: &mut u16,
    destination: &mut u64,
    source: &mut u64,
    pbc: &mut u8,
    awt: &mut u16,
) -> u8
    ensures { OpenReads (reading frame.now (open_lent initiator protocol features rate tag destination source pbc awt) result) }
{
    match open_frame::read_open(frame) {
        Ok(f) => {
            *initiator = f.head.initiator;
            *protocol = f.head.protocol;
            *features = f.head.features as u8;
            *rate = f.head.rate as u8;
            *tag = f.head.tag;
            *destination = f.head.destination;
            *source = f.head.source;
            *pbc = f.pbc.0;
            *awt = f.awt.0;
            0
        }
        Err(k) => u8::from(k),
    }
}

// Writes the 28 bytes of an OPEN frame with these fields into frame.
#[unsafe(no_mangle)]
pub extern "C" fn sonerwal_open_write(
    initiator: u8,
    protocol: u8,
    features: u8,
    rate: u8,
    tag: u16,
    destination: u64,
    source: u64,
    pbc: u8,
    awt: u16,
    frame: &mut [u8],
) -> u8
    ensures { OpenWrites (writing (open9 initiator protocol features rate tag destination source pbc awt) frame result) }
{
    let f = OpenFrame {
        head: Head {
            initiator,
            protocol,
            features: features as u16,
            rate: rate as u16,
            tag,
            destination,
            source,
        },
        pbc: Pbc(pbc),
        awt: Awt(awt),
    };
    refusals::answer(open_frame::write_open(f, frame))
}

// Fills the six numbers with the fields of the DATA frame in frame and the length of its data, which starts at byte 24.
#[unsafe(no_mangle)]
pub extern "C" fn sonerwal_data_read(
    frame: &[u8],
    destination: &mut u32,
    source: &mut u32,
    changing: &mut u8,
    tag: &mut u16,
    offset: &mut u32,
    length: &mut u16,
) -> u8
    ensures { DataReads (reading frame.now (data_lent destination source changing tag offset length) result) }
{
    match data::read_data(frame) {
        Ok(f) => {
            *destination = f.head.destination;
            *source = f.head.source;
            *changing = f.head.changing;
            *tag = f.head.tag;
            *offset = f.head.offset;
            *length = f.length;
            0
        }
        Err(k) => u8::from(k),
    }
}

// Writes the DATA frame with these fields and the data in body to the front of frame.
#[unsafe(no_mangle)]
pub extern "C" fn sonerwal_data_write(
    destination: u32,
    source: u32,
    changing: u8,
    tag: u16,
    offset: u32,
    body: &[u8],
    frame: &mut [u8],
) -> u8
    ensures { DataWrites (writing (data_given destination source changing tag offset body.now) frame result) }
{
    let h = DataHead {
        destination,
        source,
        changing,
        tag,
        offset,
    };
    refusals::answer(data::write_data(h, body, frame))
}

// Fills the eight numbers with the fields of the XFER_RDY frame in frame.
#[unsafe(no_mangle)]
pub extern "C" fn sonerwal_xfer_rdy_read(
    frame: &[u8],
    destination: &mut u32,
    source: &mut u32,
    retransmit: &mut u8,
    retry: &mut u8,
    tag: &mut u16,
    transfer: &mut u16,
    offset: &mut u32,
    length: &mut u32,
) -> u8
    ensures { XferReads (reading frame.now (xfer_lent destination source retransmit retry tag transfer offset length) result) }
{
    match xfer_rdy::read_xfer_rdy(frame) {
        Ok(h) => {
            *destination = h.destination;
            *source = h.source;
            *retransmit = h.retransmit;
            *retry = h.retry;
            *tag = h.tag;
            *transfer = h.transfer;
            *offset = h.offset;
            *length = h.length;
            0
        }
        Err(k) => u8::from(k),
    }
}

// Writes the 36 bytes of an XFER_RDY frame with these fields to the front of frame.
#[unsafe(no_mangle)]
pub extern "C" fn sonerwal_xfer_rdy_write(
    destination: u32,
    source: u32,
    retransmit: u8,
    retry: u8,
    tag: u16,
    transfer: u16,
    offset: u32,
    length: u32,
    frame: &mut [u8],
) -> u8
    ensures { XferWrites (writing (xfer8 destination source retransmit retry tag transfer offset length) frame result) }
{
    let h = XferHead {
        destination,
        source,
        retransmit,
        retry,
        tag,
        transfer,
        offset,
        length,
    };
    refusals::answer(xfer_rdy::write_xfer_rdy(h, frame))
}

// Fills the seven numbers with the fields of the data out frame in frame and the length of its data, which starts at byte 24.
#[unsafe(no_mangle)]
pub extern "C" fn sonerwal_data_out_read(
    frame: &[u8],
    destination: &mut u32,
    source: &mut u32,
    changing: &mut u8,
    tag: &mut u16,
    transfer: &mut u16,
    offset: &mut u32,
    length: &mut u16,
) -> u8
    ensures { OutReads (reading frame.now (out_lent destination source changing tag transfer offset length) result) }
{
    match data_out::read_data_out(frame) {
        Ok(f) => {
            *destination = f.head.destination;
            *source = f.head.source;
            *changing = f.head.changing;
            *tag = f.head.tag;
            *transfer = f.head.transfer;
            *offset = f.head.offset;
            *length = f.length;
            0
        }
        Err(k) => u8::from(k),
    }
}

// Writes the data out frame with these fields and the data in body to the front of frame.
#[unsafe(no_mangle)]
pub extern "C" fn sonerwal_data_out_write(
    destination: u32,
    source: u32,
    changing: u8,
    tag: u16,
    transfer: u16,
    offset: u32,
    body: &[u8],
    frame: &mut [u8],
) -> u8
    ensures { OutWrites (writing (out_given destination source changing tag transfer offset body.now) frame result) }
{
    let h = OutHead {
        destination,
        source,
        changing,
        tag,
        transfer,
        offset,
    };
    refusals::answer(data_out::write_data_out(h, body, frame))
}

// Fills the seven numbers with the fields of the RESPONSE frame in frame and the length of its data, which starts at byte 48.
#[unsafe(no_mangle)]
pub extern "C" fn sonerwal_response_read(
    frame: &[u8],
    destination: &mut u32,
    source: &mut u32,
    retransmit: &mut u8,
    tag: &mut u16,
    present: &mut u8,
    status: &mut u8,
    length: &mut u16,
) -> u8
    ensures { ResponseReads (reading frame.now (response_lent destination source retransmit tag present status length) result) }
{
    match response::read_response(frame) {
        Ok(f) => {
            *destination = f.head.destination;
            *source = f.head.source;
            *retransmit = f.head.retransmit;
            *tag = f.head.tag;
            *present = f.head.present;
            *status = f.head.status;
            *length = f.length;
            0
        }
        Err(k) => u8::from(k),
    }
}

// Writes the RESPONSE frame with these fields and the data in body to the front of frame.
#[unsafe(no_mangle)]
pub extern "C" fn sonerwal_response_write(
    destination: u32,
    source: u32,
    retransmit: u8,
    tag: u16,
    present: u8,
    status: u8,
    body: &[u8],
    frame: &mut [u8],
) -> u8
    ensures { ResponseWrites (writing (response_given destination source retransmit tag present status body.now) frame result) }
{
    let h = ResponseHead {
        destination,
        source,
        retransmit,
        tag,
        present,
        status,
    };
    refusals::answer(response::write_response(h, body, frame))
}

// 01 OPEN.7
// Elapsed microseconds as OPEN codes a wait.
#[unsafe(no_mangle)]
pub extern "C" fn sonerwal_wait_value(elapsed: u64) -> u16
    ensures { result ≡ (wait_value elapsed).0 }
{
    let awt = open_frame::wait_value(elapsed);
    awt.0
}

// An OPEN of which nothing counts but what priority looks at.
fn crossing(wait: u16, source: u64) -> OpenFrame
    ensures { result ≡ crossing wait source }
{
    OpenFrame {
        head: Head {
            source,
            ..Head::default()
        },
        pbc: Pbc(0),
        awt: Awt(wait),
    }
}

fn higher(awt: u16, source: u64, waited: u16, peer: u64) -> bool
    ensures { result ≡ higher_than (crossing awt source) (crossing waited peer) }
{
    open_frame::higher_than(crossing(awt, source), crossing(waited, peer))
}

// 01 OPEN.9
// 1 if an OPEN of awt and source is of higher priority than one that waited so long, of peer; else 0.
#[unsafe(no_mangle)]
pub extern "C" fn sonerwal_open_higher(awt: u16, source: u64, waited: u16, peer: u64) -> u8
    ensures { result ≡ open_higher awt source waited peer }
{
    u8::from(higher(awt, source, waited, peer))
}
