// Document 01, 'Port': what a call says and stores.
ghost use Rattle.std.specs.Prelude.{◌≡◌};
ghost use Rattle.port_rows.specs.Answers.{nameless, said, loss_by, stored, unnamed, refused_by};
ghost use Rattle.port_rows.specs.Answers as answers;

use open_frame::{Awt, OpenFrame, Pbc};
use port_parts::{NO_PHY, NO_SLOT, Port, Request, SSP, Stamp};
use port_rows::{Answer, Done, Loss, Word};
use refusals::Refusal;

fn nameless(word: Result<Word, Refusal>) -> Answer
    ensures { result ≡ nameless word }
{
    Answer {
        word,
        slot: NO_SLOT,
        phy: NO_PHY,
        frame: OpenFrame::default(),
    }
}

// The timer of r's destination is t from now on.
pub(crate) fn loss_by(r: Request, t: Stamp) -> Option<Loss>
    ensures { result ≡ loss_by r t }
{
    if !((r.head.protocol == SSP) & (r.loss.set != t.set)) {
        return None;
    }
    Some(Loss {
        destination: r.head.destination,
        timer: t,
    })
}

// What is said: a word on request r at a slot, and on a phy.
pub(crate) fn said(word: Result<Word, Refusal>, slot: u8, phy: u8, r: Request) -> Answer
    ensures { result ≡ said word slot phy r }
{
    Answer {
        word,
        slot,
        phy,
        frame: OpenFrame {
            head: r.head,
            pbc: Pbc(0),
            awt: Awt(0),
        },
    }
}

// What is stored: a record at the slot that the answer names, and a loss timer.
pub(crate) fn stored(port: Port, answer: Answer, entry: Request, loss: Option<Loss>) -> Done
    ensures { result ≡ stored port answer entry loss }
{
    Done {
        port,
        answer,
        entry,
        loss,
        cleared: false,
    }
}

// The request that the answer names leaves: its record is set free.
pub(crate) fn ended(port: Port, answer: Answer) -> Done
    ensures { result ≡ answers.ended port answer }
{
    stored(port, answer, port_parts::blank(), None)
}

// An answer that names nothing; no record is stored, or all are cleared.
pub(crate) fn unnamed(port: Port, word: Result<Word, Refusal>, cleared: bool) -> Done
    ensures { result ≡ unnamed port word cleared }
{
    Done {
        port,
        answer: nameless(word),
        entry: port_parts::blank(),
        loss: None,
        cleared,
    }
}

// The port as it was.
pub fn refused_by(port: Port, k: Refusal) -> Done
    ensures { result ≡ refused_by port k }
{
    unnamed(port, Err(k), false)
}
