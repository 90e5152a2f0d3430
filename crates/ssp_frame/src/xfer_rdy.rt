// The XFER_RDY frame, by which a target asks for a range of a write's bytes: the header and three words.
ghost use Rattle.std.specs.Prelude.{◌≡◌, ◌++◌, ◌<◌, ◌≤◌, length, take, drop};
ghost use Rattle.wire.specs.Fields.{lay_bytes};
ghost use Rattle.refusals.specs.Causes.{Wrote};
ghost use Rattle.ssp_frame.specs.Xfer.{xfer_header, range_fields, xfer_left, xfer_listed, write_causes, xfer_kind, read_xfer_rdy};

use crate::header;
use crate::header::Header;
use refusals::Refusal;

#[derive(Clone, Copy)]
pub struct XferHead {
    // The hashed addresses, 24 bits each.
    pub destination: u32,
    pub source: u32,
    // 1 on an XFER_RDY that is sent again for the same range, else 0.
    pub retransmit: u8,
    // Retry data frames: 1 where the other side may send DATA again, else 0.
    pub retry: u8,
    pub tag: u16,
    // The transfer tag, which the DATA frames of the range carry.
    pub transfer: u16,
    // The range: the offset of its first byte, and how many bytes it has.
    pub offset: u32,
    pub length: u32,
}

// Whether these are fields of XFER_RDY.
pub fn xfer_listed(h: XferHead) -> bool
    ensures { result ≡ xfer_listed h }
{
    (h.destination < 0x1000000)
        & ((h.source < 0x1000000) & ((h.retransmit < 2) & ((h.retry < 2) & (0 < h.length))))
}

fn xfer_header(h: XferHead) -> Header
    requires { (h.retransmit < 2) × (h.retry < 2) }
    ensures { result ≡ xfer_header h }
{
    Header {
        kind: 5,
        destination: h.destination,
        source: h.source,
        bits: h.retransmit * 2 + h.retry * 4,
        fill: 0,
        tag: h.tag,
        transfer: h.transfer,
        offset: 0,
    }
}

// The range, behind the header.
fn put_range(h: XferHead, out: &mut [u8])
    requires { 36 ≤ length out.old }
    ensures { out.new ≡ take 24 out.old ++ (lay_bytes (range_fields h) ++ drop 36 out.old) }
{
    wire::put_be(out, 24, 4, h.offset as u64);
    wire::put_be(out, 28, 4, h.length as u64);
    wire::put_be(out, 32, 4, 0);
}

// The frame, at the front of out; the bytes past it stay, and on a refusal all of them.
pub fn write_xfer_rdy(h: XferHead, out: &mut [u8]) -> Result<(), Refusal>
    ensures { Wrote (write_causes h out.old) (xfer_left h out.old) out.old result out.new }
{
    if out.len() < 36 {
        return Err(Refusal::Length);
    }
    if !xfer_listed(h) {
        return Err(Refusal::Unlisted);
    }
    header::put_header(xfer_header(h), out);
    put_range(h, out);
    Ok(())
}

// Whether the header is one of XFER_RDY.
fn xfer_kind(h: Header) -> bool
    ensures { result ≡ xfer_kind h }
{
    (h.kind == 5) & ((h.bits % 2 == 0) & ((h.bits < 8) & ((h.fill == 0) & (h.offset == 0))))
}

// The frame that s holds.
pub fn read_xfer_rdy(s: &[u8]) -> Result<XferHead, Refusal>
    ensures { result ≡ read_xfer_rdy s.now }
{
    if s.len() != 36 {
        return Err(Refusal::Length);
    }
    let h = header::header_of(s);
    let offset = wire::get_be(s, 24, 4);
    let length = wire::get_be(s, 28, 4);
    let listed = (0 < length) & (wire::get_be(s, 32, 4) == 0);
    if !(header::is_blank(s) & (xfer_kind(h) & listed)) {
        return Err(Refusal::Unlisted);
    }
    Ok(XferHead {
        destination: h.destination,
        source: h.source,
        retransmit: h.bits / 2 % 2,
        retry: h.bits / 4 % 2,
        tag: h.tag,
        transfer: h.transfer,
        offset: offset as u32,
        length: length as u32,
    })
}
