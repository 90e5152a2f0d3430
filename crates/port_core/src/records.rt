// Document 01, 'Port': a record with some of its fields changed.
ghost use Rattle.std.specs.Prelude.{◌≡◌};
ghost use Rattle.port_rows.specs.Changed.{placed, marked, waited, timed};

use open_frame::{Awt, Pbc};
use port_parts::{Request, Stamp};

pub(crate) fn placed(r: Request, stage: u8, phy: u8) -> Request
    ensures { result ≡ placed r stage phy }
{
    Request { stage, phy, ..r }
}

pub(crate) fn marked(r: Request, cancelled: u8, closed: u16) -> Request
    ensures { result ≡ marked r cancelled closed }
{
    Request {
        cancelled,
        closed,
        ..r
    }
}

pub(crate) fn waited(r: Request, pbc: Pbc, awt: Awt, retry: Stamp, first: Stamp) -> Request
    ensures { result ≡ waited r pbc awt retry first }
{
    Request {
        pbc,
        awt,
        retry,
        first,
        ..r
    }
}

pub fn timed(r: Request, loss: Stamp) -> Request
    ensures { result ≡ timed r loss }
{
    Request { loss, ..r }
}
