// An OPEN address frame as C lends it: numbers alone, no padding, and what is left over of its bytes has a name and is zero.
#![tactic(auto)]

ghost use Rattle.std.specs.Prelude.{◌≡◌};
ghost use Rattle.open_lent.specs.Lent as lent;
ghost use Rattle.open_lent.specs.Lent.{frame_of, is_clear};

use open_frame::{Awt, Head, OpenFrame, Pbc};

#[repr(C)]
#[derive(Clone, Copy, Default, PartialEq)]
pub struct Open {
    pub destination: u64,
    pub source: u64,
    pub zero4: u32,
    // The initiator connection tag.
    pub tag: u16,
    pub awt: u16,
    pub zero2: u16,
    // 1 for an initiator, else 0.
    pub initiator: u8,
    // 0 SMP, 1 SSP, 2 STP.
    pub protocol: u8,
    pub features: u8,
    // 8, 9 or 10.
    pub rate: u8,
    pub pbc: u8,
    pub zero1: u8,
}

// The frame that the numbers say, whatever the zero members are.
impl From<Open> for OpenFrame {
    ghost from_gives = { λ o f. f ≡ frame_of o };

    fn from(o: Open) -> OpenFrame {
        OpenFrame {
            head: Head {
                initiator: o.initiator,
                protocol: o.protocol,
                features: o.features as u16,
                rate: o.rate as u16,
                tag: o.tag,
                destination: o.destination,
                source: o.source,
            },
            pbc: Pbc(o.pbc),
            awt: Awt(o.awt),
        }
    }
}

// A frame as C sees it. A listed frame's features and rate lose nothing.
impl From<OpenFrame> for Open {
    ghost from_gives = { λ f o. o ≡ lent.shown f };

    fn from(f: OpenFrame) -> Open {
        Open {
            destination: f.head.destination,
            source: f.head.source,
            zero4: 0,
            tag: f.head.tag,
            awt: f.awt.0,
            zero2: 0,
            initiator: f.head.initiator,
            protocol: f.head.protocol,
            features: (f.head.features % 256) as u8,
            rate: (f.head.rate % 256) as u8,
            pbc: f.pbc.0,
            zero1: 0,
        }
    }
}

// No frame: all zeros.
pub fn clear() -> Open
    ensures { result ≡ lent.clear }
{
    Open::default()
}

// Whether every zero member is 0.
pub fn formed(o: Open) -> bool
    ensures { result ≡ lent.formed o }
{
    (o.zero4 == 0) & ((o.zero2 == 0) & (o.zero1 == 0))
}

// Whether every member is 0.
pub fn is_clear(o: Open) -> bool
    ensures { result ≡ is_clear o }
{
    o == clear()
}
