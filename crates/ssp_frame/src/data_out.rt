// The DATA frame of a write, "data out": DATA under the transfer tag of the XFER_RDY that asked for it.
ghost use Rattle.std.specs.Prelude.{◌≡◌};
ghost use Rattle.refusals.specs.Causes.{Wrote};
ghost use Rattle.ssp_frame.specs.Out.{out_header, out_left, out_listed, write_causes, out_kind, read_data_out};

use crate::header::Header;
use crate::{Frame, data, header};
use refusals::Refusal;

// A head of its own, and no DataHead with a transfer tag more, which may not change: what C's calls and the claims on frames promise is said of each by its own fields. So its
// tests and its reader are its own too.
#[derive(Clone, Copy)]
pub struct OutHead {
    // The hashed addresses, 24 bits each.
    pub destination: u32,
    pub source: u32,
    // The changing data pointer, 0 or 1.
    pub changing: u8,
    pub tag: u16,
    // The transfer tag, that of the XFER_RDY.
    pub transfer: u16,
    pub offset: u32,
}

// Whether these are fields of data out.
pub fn out_listed(h: OutHead) -> bool
    ensures { result ≡ out_listed h }
{
    (h.destination < 0x1000000) & ((h.source < 0x1000000) & (h.changing < 2))
}

fn out_header(h: OutHead, fill: u8) -> Header
    ensures { result ≡ out_header h fill }
{
    Header {
        kind: 1,
        destination: h.destination,
        source: h.source,
        bits: h.changing,
        fill,
        tag: h.tag,
        transfer: h.transfer,
        offset: h.offset,
    }
}

// The frame, at the front of out; the bytes past it stay, and on a refusal all of them.
pub fn write_data_out(h: OutHead, body: &[u8], out: &mut [u8]) -> Result<(), Refusal>
    ensures { Wrote (write_causes h body.now out.old) (out_left h body.now out.old) out.old result out.new }
{
    data::write_frame(
        out_header(h, data::fill_of(body.len()) as u8),
        out_listed(h),
        body,
        out,
    )
}

// Whether the header is one of data out.
fn out_kind(h: Header) -> bool
    ensures { result ≡ out_kind h }
{
    (h.kind == 1) & (h.bits < 2)
}

// The frame that s holds.
pub fn read_data_out(s: &[u8]) -> Result<Frame<OutHead>, Refusal>
    ensures { result ≡ read_data_out s.now }
{
    let n = s.len();
    if !data::sized(28, n) {
        return Err(Refusal::Length);
    }
    let h = header::header_of(s);
    if !(data::rest_zero(s) & out_kind(h)) {
        return Err(Refusal::Unlisted);
    }
    Ok(Frame {
        head: OutHead {
            destination: h.destination,
            source: h.source,
            changing: h.bits,
            tag: h.tag,
            transfer: h.transfer,
            offset: h.offset,
        },
        length: (n - 24 - h.fill as usize) as u16,
    })
}
