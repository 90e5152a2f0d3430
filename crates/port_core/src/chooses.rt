// Document 01, 'Port': choose, by the pick that was found.
ghost use Rattle.std.specs.Prelude.{◌≡◌};
ghost use Rattle.refusals.specs.Causes.{refuse};
ghost use Rattle.port_rows.specs.Calls.{choose_causes, choose_core};
ghost use Rattle.port_rows.specs.Calls as calls;

use crate::{answers, ports, records};
use open_frame::OpenFrame;
use port_parts::{CLOSED, NO_SLOT, Pick, Port, Request, SET, phy_stage, request_stage, step};
use port_rows::{Answer, Done, Word};
use refusals::Refusal;

fn choose_checked(p: Port, kept: bool, now: u64) -> Result<(), Refusal>
    ensures { result ≡ refuse Err (choose_causes p kept now) (Ok tt) }
{
    if !kept {
        return Err(Refusal::Rules);
    }
    if now < p.last {
        return Err(Refusal::Past);
    }
    Ok(())
}

fn sent(p: Port, r: Request, b: Pick, now: u64) -> Done
    ensures { result ≡ calls.sent p r b now }
{
    let f = ports::phy_at(p, b.phy);
    let g = ports::staged_phy(phy_stage::SENDING, b.slot, f);
    let q = ports::with_phy(p, b.phy, g, now);
    let answer = answers::said(Ok(Word::Send), b.slot, b.phy, r);
    let entry = records::placed(r, request_stage::IN_PROGRESS, b.phy);
    answers::stored(q, answer, entry, None)
}

// An Open, with the frame that the record holds.
fn asking(slot: u8, phy: u8, r: Request) -> Answer
    ensures { result ≡ calls.asking slot phy r }
{
    Answer {
        word: Ok(Word::Open),
        slot,
        phy,
        frame: OpenFrame {
            head: r.head,
            pbc: r.pbc,
            awt: r.awt,
        },
    }
}

// A request whose open begins on phy k.
fn asked(r: Request, k: u8, now: u64) -> Request
    ensures { result ≡ calls.asked r k now }
{
    let stamp = port_parts::stamped(now);
    let first = if r.first.set == SET { r.first } else { stamp };
    let awt = open_frame::wait_value(now.saturating_sub(first.at));
    let on = records::placed(r, request_stage::IN_PROGRESS, k);
    records::waited(on, r.pbc, awt, r.retry, first)
}

fn opening(p: Port, r: Request, b: Pick, now: u64) -> Done
    ensures { result ≡ calls.opening p r b now }
{
    let g = ports::opening_phy(b.slot);
    let q = ports::with_phy(p, b.phy, g, now);
    let entry = asked(r, b.phy, now);
    let answer = asking(b.slot, b.phy, entry);
    answers::stored(q, answer, entry, None)
}

fn closing(p: Port, r: Request, b: Pick, now: u64) -> Done
    ensures { result ≡ calls.closing p r b now }
{
    let f = ports::phy_at(p, b.phy);
    let g = ports::staged_phy(phy_stage::CLOSING, NO_SLOT, f);
    let q = ports::with_phy(p, b.phy, g, now);
    let answer = answers::said(Ok(Word::Close), b.slot, b.phy, r);
    let entry = records::marked(r, r.cancelled, CLOSED);
    answers::stored(q, answer, entry, None)
}

#[tactic(auto, unfolding(port_rows::specs::Calls::chosen))]
fn chosen(p: Port, r: Request, b: Pick, now: u64) -> Done
    ensures { result ≡ calls.chosen p r b now }
{
    if b.step == step::SENDS {
        return sent(p, r, b, now);
    }
    if b.step == step::OPENS {
        return opening(p, r, b, now);
    }
    if b.step == step::CLOSES {
        return closing(p, r, b, now);
    }
    answers::unnamed(ports::later(p, now), Ok(Word::Nothing), false)
}

#[tactic(auto, unfolding(port_rows::specs::Calls::choose_core))]
pub fn choose_core(p: Port, r: Request, kept: bool, b: Pick, now: u64) -> Done
    ensures { result ≡ choose_core p r kept b now }
{
    if let Err(k) = choose_checked(p, kept, now) {
        return answers::refused_by(p, k);
    }
    chosen(p, r, b, now)
}
