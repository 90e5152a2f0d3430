// Document 01, 'Port': Opened and Open Failed.
ghost use Rattle.std.specs.Prelude.{◌≡◌, cond, not};
ghost use Rattle.refusals.specs.Causes.{refuse};
ghost use Rattle.port_parts.specs.Parts.{blank};
ghost use Rattle.port_rows.specs.Calls.{phy_causes, opened_core, open_failed_core};
ghost use Rattle.port_rows.specs.Calls as calls;
ghost use Rattle.port_rows.specs.declared.Word.TheVariants.{Retried, Ended, NexusLoss};

use crate::{answers, cancels, ports, records};
use open_frame::{Awt, Pbc};
use port_parts::{Phy, Port, Reason, Request, SSP, Stamp, YES, phy_stage, request_stage};
use port_rows::{Confirmed, Done, Failure, Word};
use refusals::Refusal;

pub(crate) fn phy_checked(p: Port, kept: bool, k: u8, now: u64, unfit: bool) -> Result<(), Refusal>
    ensures { result ≡ refuse Err (phy_causes p kept k now unfit) (Ok tt) }
{
    if !kept {
        return Err(Refusal::Rules);
    }
    if !(k < p.count) {
        return Err(Refusal::Phy);
    }
    if now < p.last {
        return Err(Refusal::Past);
    }
    if unfit {
        return Err(Refusal::Unfit);
    }
    Ok(())
}

fn connected(p: Port, f: Phy, r: Request, x: Confirmed) -> Done
    ensures { result ≡ calls.connected p f r x }
{
    let g = Phy {
        stage: cancels::opened_stage(r),
        protocol: r.head.protocol,
        destination: r.head.destination,
        ..f
    };
    let q = ports::with_phy(p, x.phy, g, x.now);
    let answer = answers::said(cancels::opened_word(r), f.slot, x.phy, r);
    let none = port_parts::no_stamp();
    let timer = if r.head.protocol == SSP { none } else { r.loss };
    let entry = records::timed(r, timer);
    let loss = answers::loss_by(r, none);
    answers::stored(q, answer, entry, loss)
}

#[tactic(auto, unfolding(port_rows::specs::Calls::opened_core))]
pub fn opened_core(p: Port, r: Request, kept: bool, x: Confirmed) -> Done
    ensures { result ≡ opened_core p r kept x }
{
    let f = ports::phy_at(p, x.phy);
    if let Err(k) = phy_checked(p, kept, x.phy, x.now, f.stage != phy_stage::OPENING) {
        return answers::refused_by(p, k);
    }
    connected(p, f, r, x)
}

// One more, up to 255.
fn one_more(n: Pbc) -> Pbc
    ensures { result ≡ calls.one_more n }
{
    Pbc(n.0.saturating_add(1))
}

// The request waits again after its open failed.
fn again(r: Request, why: Reason, now: u64, t: Stamp) -> Request
    ensures { result ≡ calls.again r why now t }
{
    let waits = records::placed(r, request_stage::WAITING, 0);
    let retry = port_parts::stamped(now);
    if port_parts::is_blocked(why) {
        let more = one_more(r.pbc);
        let on = records::waited(waits, more, r.awt, retry, r.first);
        return records::timed(on, t);
    }
    let none = port_parts::no_stamp();
    let anew = records::waited(waits, Pbc(0), Awt(0), retry, none);
    records::timed(anew, t)
}

// The destination's loss timer after the confirmation.
fn timer_after(r: Request, why: Reason, now: u64) -> Stamp
    ensures { result ≡ calls.timer_after r why now }
{
    let stops = port_parts::is_stopping(why);
    let starts = port_parts::is_starting(why);
    let t = port_parts::timer_by(stops, starts, r.loss, now);
    if r.head.protocol == SSP { t } else { r.loss }
}

// What is said of a request that was not cancelled.
fn failed_word(retried: bool, lost: bool, why: Reason) -> Result<Word, Refusal>
    ensures { result ≡ cond (not retried) (Ok (Ended why)) (cond lost (Ok NexusLoss) (Ok Retried)) }
{
    if !retried {
        return Ok(Word::Ended(why));
    }
    if lost {
        return Ok(Word::NexusLoss);
    }
    Ok(Word::Retried)
}

fn failed_entry(goes_on: bool, r: Request, why: Reason, now: u64, t: Stamp) -> Request
    ensures { result ≡ cond goes_on (calls.again r why now t) blank }
{
    if goes_on {
        return again(r, why, now, t);
    }
    port_parts::blank()
}

fn failed(p: Port, f: Phy, r: Request, why: Reason, k: u8, now: u64) -> Done
    ensures { result ≡ calls.failed p f r why k now }
{
    let q = ports::with_phy(p, k, ports::unconnected_phy(), now);
    let t = timer_after(r, why, now);
    let gone = r.cancelled == YES;
    let retried = port_parts::is_retried(why);
    let lost = (r.head.protocol == SSP) & port_parts::is_lost(t, p.loss, now);
    let word = cancels::unless_cancelled(r, failed_word(retried, lost, why));
    let answer = answers::said(word, f.slot, k, r);
    let entry = failed_entry(!gone & (retried & !lost), r, why, now, t);
    let loss = answers::loss_by(r, t);
    answers::stored(q, answer, entry, loss)
}

fn failed_checked(p: Port, kept: bool, x: Failure, unfit: bool) -> Result<(), Refusal>
    ensures { result ≡ refuse Err (calls.failed_causes p kept x unfit) (Ok tt) }
{
    if !port_parts::is_listed(port_parts::reason_of(x.why)) {
        return Err(Refusal::Unlisted);
    }
    phy_checked(p, kept, x.phy, x.now, unfit)
}

pub fn open_failed_core(p: Port, r: Request, kept: bool, x: Failure) -> Done
    ensures { result ≡ open_failed_core p r kept x }
{
    let f = ports::phy_at(p, x.phy);
    if let Err(k) = failed_checked(p, kept, x, f.stage != phy_stage::OPENING) {
        return answers::refused_by(p, k);
    }
    failed(p, f, r, port_parts::reason_of(x.why), x.phy, x.now)
}
