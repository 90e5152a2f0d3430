// The numbers of the port's words and reasons, as C sees them: include/sonerwal.h names each.
ghost use Rattle.std.specs.Prelude.{◌≡◌};
ghost use Rattle.port_lent.specs.Numbers.{reason_number, word_number, detail_of};

use port_parts::Reason;
use port_rows::Word;
use refusals::Refusal;

// A reason's number, as Open Failed takes it.
fn reason_number(r: Reason) -> u8
    ensures { result ≡ reason_number r }
{
    r as u8
}

// The answer: 0 taken, a refusal's own number, and from 32 on what happened.
pub(crate) fn word_number(w: Result<Word, Refusal>) -> u8
    ensures { result ≡ word_number w }
{
    match w {
        Ok(Word::Taken) => 0,
        Ok(Word::Submitted) => 32,
        Ok(Word::Nothing) => 33,
        Ok(Word::Send) => 34,
        Ok(Word::Open) => 35,
        Ok(Word::Close) => 36,
        Ok(Word::StopArb) => 37,
        Ok(Word::Retried) => 38,
        Ok(Word::Waiting) => 39,
        Ok(Word::CancelAcknowledged) => 40,
        Ok(Word::Ended(_)) => 41,
        Ok(Word::NexusLoss) => 42,
        Ok(Word::ConnectionLost) => 43,
        Ok(Word::Status(_)) => 44,
        Err(k) => u8::from(k),
    }
}

// What goes with it: Ended's reason, Status's byte.
pub(crate) fn detail_of(w: Result<Word, Refusal>) -> u8
    ensures { result ≡ detail_of w }
{
    match w {
        Ok(Word::Ended(r)) => reason_number(r),
        Ok(Word::Status(b)) => b,
        _ => 0,
    }
}
