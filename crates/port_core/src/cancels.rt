// Document 01, 'Port': cancel, and what becomes of a request that was cancelled.
ghost use Rattle.std.specs.Prelude.{◌≡◌};
ghost use Rattle.refusals.specs.Causes.{refuse};
ghost use Rattle.port_rows.specs.Calls.{cancel_causes, cancel_core};
ghost use Rattle.port_rows.specs.Calls as calls;

use crate::{answers, ports, records};
use port_parts::{NO_PHY, NO_SLOT, PROTOCOLS, Port, Request, YES, phy_stage, request_stage};
use port_rows::{Done, Withdrawn, Word};
use refusals::Refusal;

fn cancel_checked(p: Port, r: Request, kept: bool, s: u8, x: Withdrawn) -> Result<(), Refusal>
    ensures { result ≡ refuse Err (cancel_causes p r kept s x) (Ok tt) }
{
    if !(x.key.protocol < PROTOCOLS) {
        return Err(Refusal::Unlisted);
    }
    if !kept {
        return Err(Refusal::Rules);
    }
    if x.now < p.last {
        return Err(Refusal::Past);
    }
    if (NO_SLOT <= s) | (r.cancelled == YES) {
        return Err(Refusal::Unfit);
    }
    Ok(())
}

// A request in progress is cancelled, and its phy stops or closes.
fn stopped(p: Port, r: Request, s: u8, now: u64) -> Done
    ensures { result ≡ calls.stopped p r s now }
{
    let f = ports::phy_at(p, r.phy);
    let stage = if f.stage == phy_stage::SENDING {
        phy_stage::CLOSING_SENDING
    } else {
        f.stage
    };
    let g = ports::staged_phy(stage, f.slot, f);
    let q = ports::with_phy(p, r.phy, g, now);
    let word = if f.stage == phy_stage::OPENING {
        Ok(Word::StopArb)
    } else {
        Ok(Word::Close)
    };
    let answer = answers::said(word, s, r.phy, r);
    let entry = records::marked(r, YES, r.closed);
    answers::stored(q, answer, entry, None)
}

#[tactic(auto, unfolding(port_rows::specs::Calls::cancelled))]
fn cancelled(p: Port, r: Request, s: u8, now: u64) -> Done
    ensures { result ≡ calls.cancelled p r s now }
{
    if r.stage == request_stage::WAITING {
        let q = ports::later(p, now);
        let answer = answers::said(Ok(Word::CancelAcknowledged), s, NO_PHY, r);
        return answers::ended(q, answer);
    }
    stopped(p, r, s, now)
}

pub fn cancel_core(p: Port, r: Request, kept: bool, s: u8, x: Withdrawn) -> Done
    ensures { result ≡ cancel_core p r kept s x }
{
    if let Err(k) = cancel_checked(p, r, kept, s, x) {
        return answers::refused_by(p, k);
    }
    cancelled(p, r, s, x.now)
}

// Opened of a request that was cancelled gives Close.
pub(crate) fn opened_word(r: Request) -> Result<Word, Refusal>
    ensures { result ≡ calls.opened_word r }
{
    if r.cancelled == YES {
        Ok(Word::Close)
    } else {
        Ok(Word::Send)
    }
}

pub(crate) fn opened_stage(r: Request) -> u8
    ensures { result ≡ calls.opened_stage r }
{
    if r.cancelled == YES {
        phy_stage::CLOSING
    } else {
        phy_stage::SENDING
    }
}

// The word on a request that ends, is retried, or whose phy closes or is disabled.
pub(crate) fn unless_cancelled(r: Request, word: Result<Word, Refusal>) -> Result<Word, Refusal>
    ensures { result ≡ calls.unless_cancelled r word }
{
    if r.cancelled == YES {
        Ok(Word::CancelAcknowledged)
    } else {
        word
    }
}
