// The DATA frame of a read: the header, the data, and zeros up to a multiple of four bytes.
ghost use Rattle.std.specs.Prelude.{◌≡◌, ◌++◌, ◌+◌, ◌%◌, ◌^◌, ◌<◌, ◌≤◌, eqb, length, drop, replicate};
ghost use Rattle.refusals.specs.Causes.{buffer_causes, Wrote};
ghost use Rattle.ssp_frame.specs.Data.{fill_of, frame_left, data_header, data_listed, data_sized, PayloadFits, sized, kind_listed, rest_zero, read_data, write_causes, data_left};

use crate::header::Header;
use crate::{Frame, header};
use refusals::Refusal;

#[derive(Clone, Copy)]
pub struct DataHead {
    // The hashed addresses, 24 bits each.
    pub destination: u32,
    pub source: u32,
    // The changing data pointer: 1 on the first frame of a resend, else 0.
    pub changing: u8,
    pub tag: u16,
    // In a transfer, the read offset before the frame.
    pub offset: u32,
}

// How many zeros follow n bytes of data.
pub(crate) fn fill_of(n: usize) -> usize
    ensures { result ≡ fill_of n }
{
    (4 - n % 4) % 4
}

// Whether n bytes of data are taken, and their frame fits an output of m bytes.
fn data_sized(n: usize, m: usize) -> bool
    ensures { result ≡ data_sized n m }
{
    if 1024 < n {
        return false;
    }
    (0 < n) & (24 + n + fill_of(n) <= m)
}

// The addresses are tested here and for each other head, as each definition lists the fields of its own frame.
// Whether these are fields of DATA.
pub fn data_listed(h: DataHead) -> bool
    ensures { result ≡ data_listed h }
{
    (h.destination < 0x1000000) & ((h.source < 0x1000000) & (h.changing < 2))
}

fn data_header(h: DataHead, fill: u8) -> Header
    ensures { result ≡ data_header h fill }
{
    Header {
        kind: 1,
        destination: h.destination,
        source: h.source,
        bits: h.changing,
        fill,
        tag: h.tag,
        transfer: 0xffff,
        offset: h.offset,
    }
}

// Zeros behind the place of n bytes of data: a last word of zeros, over whose front the data will go.
fn put_fill(n: usize, fill: usize, out: &mut [u8])
    requires { PayloadFits n fill (length out.old) }
    ensures { drop n out.new ≡ replicate fill 0 ++ drop (n + fill) out.old }
{
    if fill != 0 {
        wire::put_be(out, n + fill - 4, 4, 0);
    }
}

// The data, then the zeros, at the front of what is lent; the bytes past them stay. The block apart from body and out lets the
// compiler copy at once: it need not ask whether those two overlap.
pub(crate) fn put_payload(body: &[u8], fill: usize, out: &mut [u8])
    requires { PayloadFits (length body.now) fill (length out.old) }
    ensures { out.new ≡ body.now ++ (replicate fill 0 ++ drop (length body.now + fill) out.old) }
{
    let n = body.len();
    put_fill(n, fill, out);
    let mut block = [0u8; 1024];
    block[..n].copy_from_slice(body);
    out[..n].copy_from_slice(&block[..n]);
}

// 01 FORM.1: The part of the output slice from 24 on is lent to the payload writer.
// A header that is listed or not, the data and its fill, at the front of out; the bytes past them stay, and on a refusal all of them.
pub(crate) fn write_frame(
    h: Header,
    listed: bool,
    body: &[u8],
    out: &mut [u8],
) -> Result<(), Refusal>
    ensures { Wrote (buffer_causes (data_sized (length body.now) (length out.old)) listed) (frame_left h body.now out.old) out.old result out.new }
{
    let n = body.len();
    if !data_sized(n, out.len()) {
        return Err(Refusal::Length);
    }
    if !listed {
        return Err(Refusal::Unlisted);
    }
    header::put_header(h, out);
    put_payload(body, fill_of(n), &mut out[24..]);
    Ok(())
}

// The frame, at the front of out; the bytes past it stay, and on a refusal all of them.
pub fn write_data(h: DataHead, body: &[u8], out: &mut [u8]) -> Result<(), Refusal>
    ensures { Wrote (write_causes h body.now out.old) (data_left h body.now out.old) out.old result out.new }
{
    write_frame(
        data_header(h, fill_of(body.len()) as u8),
        data_listed(h),
        body,
        out,
    )
}

// Whether a frame of n bytes is taken by a reader of frames that have `least` bytes at least.
pub(crate) fn sized(least: usize, n: usize) -> bool
    ensures { result ≡ sized least n }
{
    (least <= n) & ((n <= 1048) & (n % 4 == 0))
}

// Whether the header is one of DATA for reads.
fn kind_listed(h: Header) -> bool
    ensures { result ≡ kind_listed h }
{
    (h.kind == 1) & ((h.bits < 2) & (h.transfer == 0xffff))
}

// Whether the last fill bytes of a word are zero.
fn ends_zero(word: u64, fill: u8) -> bool
    requires { fill < 4 }
    ensures { result ≡ eqb (word % 256 ^ fill) 0 }
{
    match fill {
        0 => true,
        1 => word % 256 == 0,
        2 => word % 0x10000 == 0,
        _ => word % 0x1000000 == 0,
    }
}

// Whether the bytes and bits of no field are zero, and so is the fill.
pub(crate) fn rest_zero(s: &[u8]) -> bool
    requires { 24 ≤ length s.now }
    ensures { result ≡ rest_zero s.now }
{
    if !header::is_blank(s) {
        return false;
    }
    ends_zero(wire::get_be(s, s.len() - 4, 4), header::header_of(s).fill)
}

// The frame that s holds.
pub fn read_data(s: &[u8]) -> Result<Frame<DataHead>, Refusal>
    ensures { result ≡ read_data s.now }
{
    let n = s.len();
    if !sized(28, n) {
        return Err(Refusal::Length);
    }
    let h = header::header_of(s);
    if !(header::is_blank(s) & kind_listed(h)) {
        return Err(Refusal::Unlisted);
    }
    if !ends_zero(wire::get_be(s, n - 4, 4), h.fill) {
        return Err(Refusal::Unlisted);
    }
    Ok(Frame {
        head: DataHead {
            destination: h.destination,
            source: h.source,
            changing: h.bits,
            tag: h.tag,
            offset: h.offset,
        },
        length: (n - 24 - h.fill as usize) as u16,
    })
}
