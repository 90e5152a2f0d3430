// Document 01, 'OPEN address frame': the frame's fields, its reader and its writer, the wait value and priority.
#![tactic(auto)]

ghost use Rattle.std.specs.Prelude.{◌≡◌, true, ◌+◌, ◌/◌, ◌%◌, ◌<◌, length};
ghost use Rattle.refusals.specs.Causes.{Wrote};
ghost use Rattle.open_frame.specs.Open.{head_of, head_listed, read_open, open_bytes, write_causes};
ghost use Rattle.open_frame.specs.Open as opens;
ghost use Rattle.open_frame.specs.Wait.{wait_value};
ghost use Rattle.open_frame.specs.Priority.{higher_than};

use refusals::Refusal;

// The fields that a request for a connection has too. They are numbers and no enums, since C and a frame's bytes can hold any.
#[repr(C)]
#[derive(Clone, Copy, Default)]
pub struct Head {
    // 1 for an initiator, else 0.
    pub initiator: u8,
    // 0 SMP, 1 SSP, 2 STP.
    pub protocol: u8,
    // Four bits; two bytes wide, as the rate is, so that a lent head has no padding.
    pub features: u16,
    // 8, 9 or 10.
    pub rate: u16,
    // The initiator connection tag.
    pub tag: u16,
    pub destination: u64,
    pub source: u64,
}

// 01 OPEN.8: An arbitration wait and a blocked count are kept apart.
// 01 FORM.7: Two tuple structs for AWT and PBC, the source's own counters, carried by requests and OPEN frames.
// How often the pathway was blocked.
#[repr(C)]
#[derive(Clone, Copy, Default)]
pub struct Pbc(pub u8);

// How long the request has waited, as a wait value.
#[repr(C)]
#[derive(Clone, Copy, Default)]
pub struct Awt(pub u16);

#[repr(C)]
#[derive(Clone, Copy, Default)]
pub struct OpenFrame {
    pub head: Head,
    pub pbc: Pbc,
    pub awt: Awt,
}

// 01 FORM.5: Shifts and masks split and join the OPEN frame's first bytes, with their round trip proved.
// Bit 7.
fn top(b: u8) -> u8
    ensures { result ≡ b / 128 }
{
    b >> 7
}

// Bits 6 to 4.
fn middle(b: u8) -> u8
    ensures { result ≡ b / 16 % 8 }
{
    (b >> 4) & 7
}

// Bits 7 to 4.
fn high(b: u8) -> u8
    ensures { result ≡ b / 16 }
{
    b >> 4
}

// Bits 3 to 0.
fn low(b: u8) -> u8
    ensures { result ≡ b % 16 }
{
    b & 15
}

// Byte 0, of type 1.
fn byte0(initiator: u8, protocol: u8) -> u8
    requires { (initiator < 2) × (protocol < 8) }
    ensures { result ≡ opens.byte0 initiator protocol }
{
    (initiator << 7) | ((protocol << 4) | 1)
}

// Byte 1.
fn byte1(features: u16, rate: u16) -> u16
    requires { (features < 16) × (rate < 16) }
    ensures { result ≡ opens.byte1 features rate }
{
    (features << 4) | rate
}

// Whether these are fields of OPEN.
pub fn head_listed(h: Head) -> bool
    ensures { result ≡ head_listed h }
{
    (h.initiator < 2) & ((h.protocol < 3) & ((h.features < 16) & ((8 <= h.rate) & (h.rate < 11))))
}

fn head_of(s: &[u8]) -> Head
    requires { length s.now ≡ 28 }
    ensures { result ≡ head_of s.now }
{
    Head {
        initiator: top(s[0]),
        protocol: middle(s[0]),
        features: high(s[1]) as u16,
        rate: low(s[1]) as u16,
        tag: wire::get_be(s, 2, 2) as u16,
        destination: wire::get_be(s, 4, 8),
        source: wire::get_be(s, 12, 8),
    }
}

// The frame that s holds.
pub fn read_open(s: &[u8]) -> Result<OpenFrame, Refusal>
    ensures { result ≡ read_open s.now }
{
    if s.len() != 28 {
        return Err(Refusal::Length);
    }
    let head = head_of(s);
    if (low(s[0]) == 1) & head_listed(head) {
        Ok(OpenFrame {
            head,
            pbc: Pbc(s[21]),
            awt: Awt(wire::get_be(s, 22, 2) as u16),
        })
    } else {
        Err(Refusal::Unlisted)
    }
}

fn put_open(f: OpenFrame, out: &mut [u8])
    requires { (length out.old ≡ 28) × (head_listed f.head ≡ true) }
    ensures { out.new ≡ open_bytes f }
{
    wire::put_be(out, 0, 1, byte0(f.head.initiator, f.head.protocol) as u64);
    wire::put_be(out, 1, 1, byte1(f.head.features, f.head.rate) as u64);
    wire::put_be(out, 2, 2, f.head.tag as u64);
    wire::put_be(out, 4, 8, f.head.destination);
    wire::put_be(out, 12, 8, f.head.source);
    wire::put_be(out, 20, 1, 0);
    wire::put_be(out, 21, 1, f.pbc.0 as u64);
    wire::put_be(out, 22, 2, f.awt.0 as u64);
    wire::put_be(out, 24, 4, 0);
}

// The 28 bytes of the frame; a refusal leaves out as it was.
pub fn write_open(f: OpenFrame, out: &mut [u8]) -> Result<(), Refusal>
    ensures { Wrote (write_causes f out.old) (open_bytes f) out.old result out.new }
{
    if out.len() != 28 {
        return Err(Refusal::Length);
    }
    if !head_listed(f.head) {
        return Err(Refusal::Unlisted);
    }
    put_open(f, out);
    Ok(())
}

// The wait value of elapsed microseconds.
pub fn wait_value(elapsed: u64) -> Awt
    ensures { result ≡ wait_value elapsed }
{
    if elapsed < 32768 {
        return Awt(elapsed as u16);
    }
    let thousands = (elapsed - 32768) / 1000;
    if thousands < 32768 {
        Awt((32768 + thousands) as u16)
    } else {
        Awt(65535)
    }
}

// Whether f is of higher priority than g.
pub fn higher_than(f: OpenFrame, g: OpenFrame) -> bool
    ensures { result ≡ higher_than f g }
{
    (g.awt.0 < f.awt.0) | ((f.awt.0 == g.awt.0) & (g.head.source < f.head.source))
}
