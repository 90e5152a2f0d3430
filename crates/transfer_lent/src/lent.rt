// Numbers to a transfer and back.
ghost use Rattle.std.specs.Prelude.{◌≡◌};
ghost use Rattle.transfer.specs.Steps.{limit};
ghost use Rattle.transfer_lent.specs.Lent.{formed, state_of, shown, told, malformed, next_length};

use crate::{State, Step, numbers};
use refusals::Refusal;
use transfer::{Stepped, Transfer};

// Whether the numbers name a transfer, one that keeps its rules or not.
pub(crate) fn formed(s: State) -> bool
    ensures { result ≡ formed s }
{
    (s.phase < 6) & ((s.sent < 2) & (s.zero2 == 0))
}

// The transfer that the numbers say.
impl From<State> for Transfer {
    ghost from_gives = { λ s t. t ≡ state_of s };

    fn from(s: State) -> Transfer {
        let phase = numbers::phase_of(s.phase);
        Transfer {
            offset: s.offset,
            count: s.count,
            size: s.size,
            resends: s.resends,
            read: s.read,
            balance: s.balance,
            unanswered: s.unanswered,
            sent: s.sent == 1,
            used: s.used,
            phase,
        }
    }
}

// A transfer as numbers.
impl From<Transfer> for State {
    ghost from_gives = { λ t s. s ≡ shown t };

    fn from(t: Transfer) -> State {
        let phase = numbers::phase_number(t.phase);
        let sent = u8::from(t.sent);
        State {
            offset: t.offset,
            count: t.count,
            size: t.size,
            resends: t.resends,
            read: t.read,
            balance: t.balance,
            unanswered: t.unanswered,
            used: t.used,
            zero2: 0,
            sent,
            phase,
        }
    }
}

// What a call of the transfer answers, as numbers. A function, as `malformed` is, which is no conversion.
pub(crate) fn told(r: Stepped) -> Step
    ensures { result ≡ told r }
{
    let answer = numbers::answer_number(r.answer);
    let state = State::from(r.state);
    Step { state, answer }
}

// 01 REFUSAL.3
// Numbers that name no transfer come back to the last member.
pub(crate) fn malformed(s: State) -> Step
    ensures { result ≡ malformed s }
{
    let answer = u8::from(Refusal::Rules);
    Step { state: s, answer }
}

// How long the next frame is, 0 where FRAME is refused.
pub(crate) fn next_length(t: Transfer) -> u32
    ensures { result ≡ next_length limit t }
{
    if t.frame().answer.is_ok() {
        return t.frame_length();
    }
    0
}
