// Document 01, 'Port': the frame status, Closed, and a phy that is enabled or disabled.
ghost use Rattle.std.specs.Prelude.{◌≡◌, cond};
ghost use Rattle.port_parts.specs.Parts.{blank, names};
ghost use Rattle.port_parts.specs.RequestStage as request-stage;
ghost use Rattle.port_rows.specs.Changed.{placed};
ghost use Rattle.port_rows.specs.Calls.{frame_status_core, closed_core, enable_core, disable_core};
ghost use Rattle.port_rows.specs.Calls as calls;
ghost use Rattle.port_rows.specs.declared.Word.TheVariants.{Taken};

use crate::{answers, cancels, opens, ports, records};
use port_parts::{NO_SLOT, Phy, Port, Request, YES, phy_stage, request_stage};
use port_rows::{Confirmed, Done, Report, Word};
use refusals::Refusal;

fn framed(p: Port, f: Phy, r: Request, x: Report) -> Done
    ensures { result ≡ calls.framed p f r x }
{
    let stage = if f.stage == phy_stage::SENDING {
        phy_stage::IDLE
    } else {
        phy_stage::CLOSING
    };
    let g = ports::staged_phy(stage, NO_SLOT, f);
    let q = ports::with_phy(p, x.phy, g, x.now);
    let word = cancels::unless_cancelled(r, Ok(Word::Status(x.status)));
    let answer = answers::said(word, f.slot, x.phy, r);
    answers::ended(q, answer)
}

#[tactic(auto, unfolding(port_rows::specs::Calls::frame_status_core))]
pub fn frame_status_core(p: Port, r: Request, kept: bool, x: Report) -> Done
    ensures { result ≡ frame_status_core p r kept x }
{
    let f = ports::phy_at(p, x.phy);
    if let Err(k) = opens::phy_checked(p, kept, x.phy, x.now, !port_parts::has_frame_out(f)) {
        return answers::refused_by(p, k);
    }
    framed(p, f, r, x)
}

// What is said as a phy leaves the request that it names, and if it names none.
fn left_word(f: Phy, r: Request, word: Result<Word, Refusal>) -> Result<Word, Refusal>
    ensures { result ≡ cond (names f) (calls.unless_cancelled r word) (Ok Taken) }
{
    if f.slot < NO_SLOT {
        return cancels::unless_cancelled(r, word);
    }
    Ok(Word::Taken)
}

fn closed_done(p: Port, f: Phy, r: Request, x: Confirmed) -> Done
    ensures { result ≡ calls.closed_done p f r x }
{
    let q = ports::with_phy(p, x.phy, ports::unconnected_phy(), x.now);
    let word = left_word(f, r, Ok(Word::ConnectionLost));
    let answer = answers::said(word, f.slot, x.phy, r);
    answers::ended(q, answer)
}

// Connected or closing.
fn is_joined(f: Phy) -> bool
    ensures { result ≡ calls.is_joined f }
{
    ((f.stage == phy_stage::IDLE) | (f.stage == phy_stage::SENDING))
        | ((f.stage == phy_stage::CLOSING) | (f.stage == phy_stage::CLOSING_SENDING))
}

#[tactic(auto, unfolding(port_rows::specs::Calls::closed_core))]
pub fn closed_core(p: Port, r: Request, kept: bool, x: Confirmed) -> Done
    ensures { result ≡ closed_core p r kept x }
{
    let f = ports::phy_at(p, x.phy);
    if let Err(k) = opens::phy_checked(p, kept, x.phy, x.now, !is_joined(f)) {
        return answers::refused_by(p, k);
    }
    closed_done(p, f, r, x)
}

#[tactic(auto, unfolding(port_rows::specs::Calls::enable_core))]
pub fn enable_core(p: Port, r: Request, kept: bool, x: Confirmed) -> Done
    ensures { result ≡ enable_core p r kept x }
{
    let f = ports::phy_at(p, x.phy);
    if let Err(k) = opens::phy_checked(p, kept, x.phy, x.now, f.stage != phy_stage::DISABLED) {
        return answers::refused_by(p, k);
    }
    let q = ports::with_phy(p, x.phy, ports::unconnected_phy(), x.now);
    let answer = answers::said(Ok(Word::Taken), NO_SLOT, x.phy, r);
    answers::ended(q, answer)
}

// The request of a phy that is disabled waits again, unless it was cancelled.
fn left_entry(r: Request) -> Request
    ensures { result ≡ cond (calls.is_cancelled r) blank (placed r request-stage.waiting 0) }
{
    if r.cancelled == YES {
        return port_parts::blank();
    }
    records::placed(r, request_stage::WAITING, 0)
}

fn disabled_done(p: Port, f: Phy, r: Request, x: Confirmed) -> Done
    ensures { result ≡ calls.disabled_done p f r x }
{
    let q = ports::with_phy(p, x.phy, port_parts::disabled_phy(), x.now);
    let word = left_word(f, r, Ok(Word::Waiting));
    let answer = answers::said(word, f.slot, x.phy, r);
    answers::stored(q, answer, left_entry(r), None)
}

#[tactic(auto, unfolding(port_rows::specs::Calls::disable_core))]
pub fn disable_core(p: Port, r: Request, kept: bool, x: Confirmed) -> Done
    ensures { result ≡ disable_core p r kept x }
{
    let f = ports::phy_at(p, x.phy);
    if let Err(k) = opens::phy_checked(p, kept, x.phy, x.now, f.stage == phy_stage::DISABLED) {
        return answers::refused_by(p, k);
    }
    disabled_done(p, f, r, x)
}
