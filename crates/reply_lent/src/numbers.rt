// The numbers of a reply's phases and of what its calls answer. They are functions and no impl of From, which this crate can't write for another's enum.
ghost use Rattle.std.specs.Prelude.{◌≡◌};
ghost use Rattle.reply_lent.specs.Numbers.{phase_number, phase_of, answer_number};

use refusals::Refusal;
use reply::{Answer, Phase};

// 0 before START to 5 for ended, in the order of the enum.
pub fn phase_number(p: Phase) -> u8
    ensures { result ≡ phase_number p }
{
    p as u8
}

// From the last on it is the last.
pub fn phase_of(n: u8) -> Phase
    ensures { result ≡ phase_of n }
{
    match n {
        0 => Phase::New,
        1 => Phase::Ask,
        2 => Phase::Wait,
        3 => Phase::Done,
        4 => Phase::Fail,
        _ => Phase::End,
    }
}

// 0, a refusal's own number, or from 16 on what happened.
pub fn answer_number(a: Result<Answer, Refusal>) -> u8
    ensures { result ≡ answer_number a }
{
    match a {
        Ok(Answer::Ok) => 0,
        Ok(Answer::Sent) => 16,
        Ok(Answer::Retry) => 18,
        Ok(Answer::Done) => 19,
        Ok(Answer::Fail) => 20,
        Ok(Answer::End) => 21,
        Err(k) => u8::from(k),
    }
}
