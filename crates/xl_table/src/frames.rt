// The frames of the cells, which their tags tell apart.
use open_frame::{Awt, Head, OpenFrame, Pbc};

pub(crate) fn frame(tag: u16, awt: u16, destination: u64, source: u64, rate: u16) -> OpenFrame {
    OpenFrame {
        head: Head {
            initiator: 1,
            protocol: 1,
            features: 0,
            rate,
            tag,
            destination,
            source,
        },
        pbc: Pbc(0),
        awt: Awt(awt),
    }
}

pub(crate) fn transmitted() -> OpenFrame {
    frame(1, 100, 2000, 1000, 9)
}

pub(crate) fn received() -> OpenFrame {
    frame(2, 200, 4000, 3000, 9)
}

pub(crate) fn remembered() -> OpenFrame {
    frame(3, 300, 4000, 3001, 9)
}

// A frame whose rate is not one of OPEN's.
pub(crate) fn unlisted() -> OpenFrame {
    frame(2, 100, 4000, 3000, 11)
}

fn tag_sign(tag: u16) -> char {
    match tag {
        1 => 'h',
        2 => 'e',
        _ => 'o',
    }
}

pub(crate) fn held_sign(h: Option<OpenFrame>) -> char {
    h.map_or('-', |f| tag_sign(f.head.tag))
}
