// What C sees of a transfer that is saved.
ghost use Rattle.std.specs.Prelude.{◌≡◌};
ghost use Rattle.transfer_lent.specs.Saves as saves;

use crate::Saved;
use refusals::Refusal;

// 0, or the refusal's number. refusals::answer is a writer's; this is of a saved transfer, as its own definition is under the claims.
pub(crate) fn checked_number(c: Result<(), Refusal>) -> u8
    ensures { result ≡ saves.checked_number c }
{
    match c {
        Ok(()) => 0,
        Err(k) => u8::from(k),
    }
}

pub(crate) fn unsaved(k: Refusal) -> Saved
    ensures { result ≡ saves.unsaved k }
{
    let answer = u8::from(k);
    Saved { length: 0, answer }
}

pub(crate) fn told(r: saved::Saved) -> Saved
    ensures { result ≡ saves.told r }
{
    let answer = checked_number(r.answer);
    Saved {
        length: r.length,
        answer,
    }
}
