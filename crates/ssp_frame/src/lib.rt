// Document 01, 'Read transfer', paragraph 'DATA frame': the header that SSP frames share, and DATA for reads on top of it. Beside
// it the frames of a write: XFER_RDY, DATA for writes, and RESPONSE, which ends reads too.
#![tactic(auto)]

pub mod data;
pub mod data_out;
mod header;
pub mod response;
pub mod xfer_rdy;

// A frame that was read. Its data stands behind the fields, as many bytes as length says.
#[derive(Clone, Copy)]
pub struct Frame<H> {
    pub head: H,
    // The length and no slice of the data: C gets it, and the readers promise it.
    pub length: u16,
}
