// Document 01, 'XL: one event, one step': the step, an OPEN received as bytes, and the link status.
#![tactic(auto)]

ghost use Rattle.std.specs.Prelude.{◌≡◌, not, ◌&&◌};
ghost use Rattle.open_frame.specs.Open.{head_listed};
ghost use Rattle.xl.specs.Rules as rules;
ghost use Rattle.xl.specs.Rules.{keeps_rules};
ghost use Rattle.xl.specs.Steps as steps;
ghost use Rattle.xl.specs.Steps.{has_frame, step_of, receive_of};
ghost use Rattle.xl.specs.Status as link;
ghost use Rattle.xl.specs.Status.{in_phase, status_of};

use open_frame::OpenFrame;
use refusals::Refusal;
use xl_parts::{
    Event, LinkStatus, Memory, Message, Phase, Primitive, Seen, State, Stepped, Wait, stay,
};

fn fielded(h: Option<OpenFrame>) -> bool
    ensures { result ≡ rules.fielded h }
{
    h.is_none_or(|f| open_frame::head_listed(f.head))
}

// XL1 to XL6.
fn works(p: Phase) -> bool
    ensures { result ≡ rules.works p }
{
    matches!(
        p,
        Phase::Xl1 | Phase::Xl2 | Phase::Xl3 | Phase::Xl4 | Phase::Xl5 | Phase::Xl6
    )
}

// Tested at each call, and no invariant of State: C lends the state, and one that breaks the rules is refused.
#[tactic(auto, unfolding(crate::specs::Rules::keeps_rules))]
fn keeps_rules(s: State) -> bool
    ensures { result ≡ keeps_rules s }
{
    let m = s.memory;
    fielded(m.held) & (fielded(m.heard) & (!works(s.phase) | m.held.is_some()))
}

// Whether a frame goes with the event.
fn has_frame(e: Event) -> bool
    ensures { result ≡ has_frame e }
{
    matches!(
        e,
        Event::Line(Primitive::Open)
            | Event::Router(Message::SendOpen | Message::BackoffReversePath)
    )
}

fn refused(s: State, k: Refusal) -> Stepped
    ensures { result ≡ steps.refused s k }
{
    Stepped {
        answer: Err(k),
        ..stay(s)
    }
}

// Whether a frame goes with the event that has not the fields of OPEN.
pub fn brings_unlisted(e: Event, f: OpenFrame) -> bool
    ensures { result ≡ has_frame e && not (head_listed f.head) }
{
    !open_frame::head_listed(f.head) && has_frame(e)
}

// Tests the event and the state, and takes the event.
#[tactic(auto, unfolding(crate::specs::Steps::step_of))]
fn step_of(s: State, e: Event, f: OpenFrame) -> Stepped
    ensures { result ≡ step_of f e s }
{
    if brings_unlisted(e, f) {
        return refused(s, Refusal::Unlisted);
    }
    if !keeps_rules(s) {
        return refused(s, Refusal::Rules);
    }
    xl_core::takes(s, e, f)
}

// The same, put together anew: a match and no copy, for the sake of `anew`.
fn held_anew(h: Option<OpenFrame>) -> Option<OpenFrame>
    ensures { result ≡ h }
{
    match h {
        None => None,
        Some(f) => Some(f),
    }
}

// The same, put together field by field: a state that is copied whole takes the bytes between its fields along, and these cost more
// than the fields do.
fn anew(r: Stepped) -> Stepped
    ensures { result ≡ r }
{
    let m = r.state.memory;
    Stepped {
        state: State {
            memory: Memory {
                held: held_anew(m.held),
                heard: held_anew(m.heard),
                ..m
            },
            ..r.state
        },
        ..r
    }
}

// One event, one step. The frame is looked at only where one goes with the event: an OPEN received, a SendOpen or a
// BackoffReversePath. It stands beside the event and in no variant of it: C gives the two apart, and the theorems on `step_of` take them
// so.
pub fn step(state: State, event: Event, frame: OpenFrame) -> Stepped
    ensures { result ≡ step_of frame event state }
{
    anew(step_of(state, event, frame))
}

// 01 FORM.4: The XL step takes the reader's enum apart by let .. else and returns the refusal number.
// An OPEN received, as bytes.
#[tactic(auto, unfolding(crate::specs::Steps::receive_of))]
pub fn receive(state: State, bytes: &[u8]) -> Stepped
    ensures { result ≡ receive_of bytes.now state }
{
    let read = open_frame::read_open(bytes);
    let Ok(f) = read else {
        return refused(state, read.unwrap_err());
    };
    step(state, Event::Line(Primitive::Open), f)
}

fn waiting(a: Seen) -> LinkStatus
    ensures { result ≡ link.waiting a }
{
    match a {
        Some(Wait::Partial) => LinkStatus::BlockedPartial,
        _ => LinkStatus::Partial,
    }
}

fn in_phase(p: Phase, a: Seen) -> LinkStatus
    ensures { result ≡ in_phase p a }
{
    match p {
        Phase::Xl0 => LinkStatus::Ready,
        Phase::Xl3 | Phase::Xl6 => waiting(a),
        Phase::Xl7 | Phase::Xl8 => LinkStatus::Connected,
        _ => LinkStatus::Partial,
    }
}

// The link status.
#[tactic(auto, unfolding(crate::specs::Status::status_of))]
pub fn status(state: State) -> Result<LinkStatus, Refusal>
    ensures { result ≡ status_of state }
{
    if !keeps_rules(state) {
        return Err(Refusal::Rules);
    }
    Ok(in_phase(state.phase, state.memory.aip))
}
