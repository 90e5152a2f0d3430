// The RESPONSE frame, which ends a command: the header, a row of fields, the data if there is any, and zeros up to a multiple of
// four bytes.
ghost use Rattle.std.specs.Prelude.{◌≡◌, ◌++◌, ◌<◌, ◌≤◌, length, take, drop};
ghost use Rattle.wire.specs.Fields.{lay_bytes};
ghost use Rattle.refusals.specs.Causes.{Wrote};
ghost use Rattle.ssp_frame.specs.Response.{response_header, iu_fields, count_of, iu_for, response_front, response_left, kind_sized, response_sized, present_listed, response_listed};
ghost use Rattle.ssp_frame.specs.Response.{write_causes, response_kind, iu_of, iu_blank, iu_listed, read_response};

use crate::header::Header;
use crate::{Frame, data, header};
use refusals::Refusal;

#[derive(Clone, Copy)]
pub struct ResponseHead {
    // The hashed addresses, 24 bits each.
    pub destination: u32,
    pub source: u32,
    // 1 on a RESPONSE that is sent again, else 0.
    pub retransmit: u8,
    pub tag: u16,
    // Data present: 0 none, 1 response data, 2 sense data.
    pub present: u8,
    pub status: u8,
}

// The fields between header and data.
#[derive(Clone, Copy)]
pub struct Iu {
    pub present: u8,
    pub status: u8,
    // The lengths of sense data and of response data.
    pub sense: u32,
    pub response: u32,
}

// Whether n bytes are as many as data of this kind has.
fn kind_sized(present: u8, n: usize) -> bool
    ensures { result ≡ kind_sized present n }
{
    (!(present == 0) | (n == 0)) & ((!(present == 1) | (n == 4)) & (!(present == 2) | (0 < n)))
}

// Whether n bytes of data are taken, and their frame fits an output of m bytes.
pub fn response_sized(present: u8, n: usize, m: usize) -> bool
    ensures { result ≡ response_sized present n m }
{
    if 1000 < n {
        return false;
    }
    kind_sized(present, n) & (48 + n + data::fill_of(n) <= m)
}

// Whether the kind of data is listed, and the status goes with it.
fn present_listed(present: u8, status: u8) -> bool
    ensures { result ≡ present_listed present status }
{
    (present < 3) & (!(present == 1) | (status == 0))
}

// Whether these are fields of RESPONSE.
pub fn response_listed(h: ResponseHead) -> bool
    ensures { result ≡ response_listed h }
{
    (h.destination < 0x1000000)
        & ((h.source < 0x1000000) & ((h.retransmit < 2) & present_listed(h.present, h.status)))
}

fn response_header(h: ResponseHead, fill: u8) -> Header
    requires { h.retransmit < 2 }
    ensures { result ≡ response_header h fill }
{
    Header {
        kind: 7,
        destination: h.destination,
        source: h.source,
        bits: h.retransmit * 2,
        fill,
        tag: h.tag,
        transfer: 0xffff,
        offset: 0,
    }
}

// The length of n bytes of data where data of this kind are present, else 0.
fn count_of(kind: u8, present: u8, n: u16) -> u32
    ensures { result ≡ count_of kind present n }
{
    if present == kind { n as u32 } else { 0 }
}

fn iu_for(h: ResponseHead, n: u16) -> Iu
    ensures { result ≡ iu_for h n }
{
    Iu {
        present: h.present,
        status: h.status,
        sense: count_of(2, h.present, n),
        response: count_of(1, h.present, n),
    }
}

// The row of fields behind the header, word by word.
fn put_iu(u: Iu, out: &mut [u8])
    requires { 48 ≤ length out.old }
    ensures { out.new ≡ take 24 out.old ++ (lay_bytes (iu_fields u) ++ drop 48 out.old) }
{
    wire::put_be(out, 24, 8, 0);
    wire::put_be(out, 32, 4, u.present as u64 * 256 + u.status as u64);
    wire::put_be(out, 36, 4, 0);
    wire::put_be(out, 40, 4, u.sense as u64);
    wire::put_be(out, 44, 4, u.response as u64);
}

// The 48 bytes before n bytes of data.
fn put_front(h: ResponseHead, n: usize, out: &mut [u8])
    requires { (h.retransmit < 2) × ((n ≤ 1000) × (48 ≤ length out.old)) }
    ensures { out.new ≡ response_front h n ++ drop 48 out.old }
{
    header::put_header(response_header(h, data::fill_of(n) as u8), out);
    put_iu(iu_for(h, n as u16), out);
}

// The frame, at the front of out; the bytes past it stay, and on a refusal all of them.
pub fn write_response(h: ResponseHead, body: &[u8], out: &mut [u8]) -> Result<(), Refusal>
    ensures { Wrote (write_causes h body.now out.old) (response_left h body.now out.old) out.old result out.new }
{
    let n = body.len();
    if !response_sized(h.present, n, out.len()) {
        return Err(Refusal::Length);
    }
    if !response_listed(h) {
        return Err(Refusal::Unlisted);
    }
    put_front(h, n, out);
    if n != 0 {
        data::put_payload(body, data::fill_of(n), &mut out[48..]);
    }
    Ok(())
}

// Whether the header is one of RESPONSE.
fn response_kind(h: Header) -> bool
    ensures { result ≡ response_kind h }
{
    (h.kind == 7)
        & ((h.bits % 2 == 0) & ((h.bits < 4) & ((h.transfer == 0xffff) & (h.offset == 0))))
}

fn iu_of(s: &[u8]) -> Iu
    requires { 48 ≤ length s.now }
    ensures { result ≡ iu_of s.now }
{
    let word = wire::get_be(s, 32, 4);
    Iu {
        present: (word / 256 % 256) as u8,
        status: (word % 256) as u8,
        sense: wire::get_be(s, 40, 4) as u32,
        response: wire::get_be(s, 44, 4) as u32,
    }
}

// Whether the bytes of no field of the row are zero.
fn iu_blank(s: &[u8]) -> bool
    requires { 48 ≤ length s.now }
    ensures { result ≡ iu_blank s.now }
{
    (wire::get_be(s, 24, 8) == 0)
        & ((wire::get_be(s, 32, 4) / 0x10000 == 0) & (wire::get_be(s, 36, 4) == 0))
}

// Whether the row goes with n bytes of data, kind by kind.
fn iu_listed(u: Iu, n: u16) -> bool
    ensures { result ≡ iu_listed u n }
{
    let present = u.present;
    let count = n as u32;
    match present {
        0 => (n == 0) & ((u.sense == 0) & (u.response == 0)),
        1 => (u.status == 0) & ((n == 4) & ((u.sense == 0) & (u.response == count))),
        2 => (0 < n) & ((u.sense == count) & (u.response == 0)),
        _ => false,
    }
}

// The frame that s holds.
pub fn read_response(s: &[u8]) -> Result<Frame<ResponseHead>, Refusal>
    ensures { result ≡ read_response s.now }
{
    let n = s.len();
    if !data::sized(48, n) {
        return Err(Refusal::Length);
    }
    let h = header::header_of(s);
    let fill = h.fill as usize;
    if !(data::rest_zero(s) & (response_kind(h) & (48 + fill <= n))) {
        return Err(Refusal::Unlisted);
    }
    let length = (n - 48 - fill) as u16;
    let u = iu_of(s);
    if !(iu_blank(s) & iu_listed(u, length)) {
        return Err(Refusal::Unlisted);
    }
    Ok(Frame {
        head: ResponseHead {
            destination: h.destination,
            source: h.source,
            retransmit: h.bits / 2 % 2,
            tag: h.tag,
            present: u.present,
            status: u.status,
        },
        length,
    })
}
