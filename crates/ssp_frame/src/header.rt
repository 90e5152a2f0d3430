// The 24 bytes that every SSP frame starts with. What a kind of frame asks of its fields is tested where that kind is read.
ghost use Rattle.std.specs.Prelude.{◌≡◌, ◌++◌, ◌≤◌, length, drop};
ghost use Rattle.wire.specs.Fields.{lay_bytes};
ghost use Rattle.ssp_frame.specs.Header.{header_fields, header_of, is_blank};

#[derive(Clone, Copy)]
pub struct Header {
    // The frame's type: a number and no enum, since a frame's byte can hold any, as the marks of the heads can that C gives.
    pub kind: u8,
    // The hashed addresses, 24 bits each.
    pub destination: u32,
    pub source: u32,
    // Byte 10: bit 0 is the changing data pointer, bit 1 retransmit, bit 2 retry data frames.
    pub bits: u8,
    // How many fill bytes end the frame, 0 to 3.
    pub fill: u8,
    pub tag: u16,
    // The transfer tag.
    pub transfer: u16,
    pub offset: u32,
}

// The header is six words of four bytes, and each word is written and read at once.
pub(crate) fn put_header(h: Header, out: &mut [u8])
    requires { 24 ≤ length out.old }
    ensures { out.new ≡ lay_bytes (header_fields h) ++ drop 24 out.old }
{
    let destination = h.destination % 0x1000000;
    let source = h.source % 0x1000000;
    wire::put_be(out, 0, 4, h.kind as u64 * 0x1000000 + destination as u64);
    wire::put_be(out, 4, 4, source as u64);
    wire::put_be(out, 8, 4, h.bits as u64 * 256 + h.fill as u64);
    wire::put_be(out, 12, 4, 0);
    wire::put_be(out, 16, 4, h.tag as u64 * 0x10000 + h.transfer as u64);
    wire::put_be(out, 20, 4, h.offset as u64);
}

// Kept with its length in `requires`, as is_blank and rest_zero are: a struct over these bytes, with the length as its invariant, has methods
// whose clauses say `self.entry.bytes.now` and which have to recall the invariant one by one, so it is no plainer; an array of 24
// bytes leaves the rest of the frame behind, which rest_zero needs.
pub(crate) fn header_of(s: &[u8]) -> Header
    requires { 24 ≤ length s.now }
    ensures { result ≡ header_of s.now }
{
    let to = wire::get_be(s, 0, 4);
    let from = wire::get_be(s, 4, 4);
    let bits = wire::get_be(s, 8, 4);
    let tags = wire::get_be(s, 16, 4);
    Header {
        kind: (to / 0x1000000) as u8,
        destination: (to % 0x1000000) as u32,
        source: (from % 0x1000000) as u32,
        bits: (bits / 256 % 256) as u8,
        fill: (bits % 256) as u8,
        tag: (tags / 0x10000) as u16,
        transfer: (tags % 0x10000) as u16,
        offset: wire::get_be(s, 20, 4) as u32,
    }
}

// Whether the bytes and bits of no field are zero.
pub(crate) fn is_blank(s: &[u8]) -> bool
    requires { 24 ≤ length s.now }
    ensures { result ≡ is_blank s.now }
{
    let from = wire::get_be(s, 4, 4);
    let bits = wire::get_be(s, 8, 4);
    (from / 0x1000000 == 0)
        & ((bits / 0x10000 == 0) & ((bits % 256 < 4) & (wire::get_be(s, 12, 4) == 0)))
}
