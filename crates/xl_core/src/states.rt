// The states' rows. Each takes the frame, as `in_state` does, whether or not a row of its state holds one.
ghost use Rattle.std.specs.Prelude.{◌≡◌};
ghost use Rattle.xl_parts.specs.declared.Phase.{Phase};
ghost use Rattle.xl_parts.specs.Parts.{done};
ghost use Rattle.xl_rows.specs.Table.{in_state, on_break};

use crate::effects::{broken, does, goes, opens, unexpected};
use crate::kinds::reject_for;
use crate::memory::{breaking, hearing, holding, seeing};
use crate::rows::{
    arbitrates, close_in_7, crossed, forwarded, send_close_in_7, sent_in_5, timed_out,
};
use open_frame::OpenFrame;
use xl_parts::Action::{Send, Transmit};
use xl_parts::{
    BreakEvent, Confirmation, Event, Message, Notice, Phase, Primitive, State, Stepped, stay, to,
};

fn at_0(s: State, e: Event, f: OpenFrame) -> Stepped
    ensures { result ≡ done (in_state Phase.Xl0 f e s) }
{
    match e {
        Event::Line(Primitive::Open) => to(holding(s, f), Phase::Xl1),
        Event::Router(Message::SendOpen) => opens(s, f),
        _ => unexpected(s),
    }
}

fn at_1(s: State, e: Event, f: OpenFrame) -> Stepped
    ensures { result ≡ done (in_state Phase.Xl1 f e s) }
{
    match e {
        Event::Manager(Confirmation::ArbWon) => goes(s, Send(Message::SendOpen), Phase::Xl2),
        Event::Manager(Confirmation::ArbLost) => to(s, Phase::Xl0),
        Event::Manager(Confirmation::ArbReject(d)) => goes(
            s,
            Transmit(Primitive::OpenReject(reject_for(d))),
            Phase::Xl4,
        ),
        Event::Manager(Confirmation::Arbitrating(a)) => arbitrates(s, a),
        Event::Own(Notice::PathTimer) => timed_out(s),
        _ => unexpected(s),
    }
}

fn at_2(s: State, e: Event, f: OpenFrame) -> Stepped
    ensures { result ≡ done (in_state Phase.Xl2 f e s) }
{
    match e {
        Event::Own(Notice::Forwarded) => forwarded(s),
        _ => unexpected(s),
    }
}

fn at_3(s: State, e: Event, f: OpenFrame) -> Stepped
    ensures { result ≡ done (in_state Phase.Xl3 f e s) }
{
    match e {
        Event::Router(Message::ArbStatus(w)) => does(seeing(s, w), Transmit(Primitive::Aip(w))),
        Event::Router(Message::OpenAccept) => goes(s, Transmit(Primitive::OpenAccept), Phase::Xl7),
        Event::Router(Message::OpenReject(k)) => goes(
            s,
            Transmit(Primitive::OpenReject(k)),
            Phase::Xl0,
        ),
        Event::Router(Message::BackoffRetry) => to(s, Phase::Xl1),
        Event::Router(Message::BackoffReversePath) => opens(s, f),
        _ => unexpected(s),
    }
}

// XL9's rows are the same.
fn at_4_and_9(s: State, e: Event, f: OpenFrame) -> Stepped
    ensures { result ≡ done (in_state Phase.Xl4 f e s) }
{
    match e {
        Event::Own(Notice::Sent) => to(s, Phase::Xl0),
        _ => unexpected(s),
    }
}

fn at_5(s: State, e: Event, f: OpenFrame) -> Stepped
    ensures { result ≡ done (in_state Phase.Xl5 f e s) }
{
    match e {
        Event::Line(Primitive::Open) => stay(hearing(s, f)),
        Event::Own(Notice::Sent) => sent_in_5(s),
        _ => unexpected(s),
    }
}

fn at_6(s: State, e: Event, f: OpenFrame) -> Stepped
    ensures { result ≡ done (in_state Phase.Xl6 f e s) }
{
    match e {
        Event::Line(Primitive::OpenAccept) => goes(s, Send(Message::OpenAccept), Phase::Xl7),
        Event::Line(Primitive::OpenReject(k)) => goes(s, Send(Message::OpenReject(k)), Phase::Xl0),
        Event::Line(Primitive::Aip(w)) => does(seeing(s, w), Send(Message::ArbStatus(w))),
        Event::Line(Primitive::Open) => crossed(s, f),
        _ => unexpected(s),
    }
}

fn at_7(s: State, e: Event, f: OpenFrame) -> Stepped
    ensures { result ≡ done (in_state Phase.Xl7 f e s) }
{
    match e {
        Event::Line(Primitive::Close) => close_in_7(s),
        Event::Router(Message::SendClose) => send_close_in_7(s),
        _ => unexpected(s),
    }
}

fn at_8(s: State, e: Event, f: OpenFrame) -> Stepped
    ensures { result ≡ done (in_state Phase.Xl8 f e s) }
{
    match e {
        Event::Line(Primitive::Close) => goes(s, Send(Message::SendClose), Phase::Xl0),
        _ => unexpected(s),
    }
}

// What is neither of BREAK nor Disable. With arms that return, and no value, a step takes longer (docs/DECISIONS.md).
pub(crate) fn by_phase(s: State, e: Event, f: OpenFrame) -> Stepped
    ensures { result ≡ done (in_state s.phase f e s) }
{
    match s.phase {
        Phase::Xl0 => at_0(s, e, f),
        Phase::Xl1 => at_1(s, e, f),
        Phase::Xl2 => at_2(s, e, f),
        Phase::Xl3 => at_3(s, e, f),
        Phase::Xl4 | Phase::Xl9 => at_4_and_9(s, e, f),
        Phase::Xl5 => at_5(s, e, f),
        Phase::Xl6 => at_6(s, e, f),
        Phase::Xl7 => at_7(s, e, f),
        Phase::Xl8 => at_8(s, e, f),
        Phase::Xl10 => unexpected(s),
    }
}

pub(crate) fn on_break(s: State, b: BreakEvent) -> Stepped
    ensures { result ≡ done (on_break s.phase b s) }
{
    match (s.phase, b) {
        (Phase::Xl1, BreakEvent::Received) => to(s, Phase::Xl9),
        (Phase::Xl2 | Phase::Xl5, BreakEvent::Received) => stay(breaking(s)),
        (Phase::Xl3 | Phase::Xl6 | Phase::Xl7 | Phase::Xl8, BreakEvent::Received) => broken(s),
        (Phase::Xl3 | Phase::Xl6 | Phase::Xl7 | Phase::Xl8, BreakEvent::Routed) => {
            to(s, Phase::Xl10)
        }
        (Phase::Xl10, BreakEvent::Received | BreakEvent::Timeout) => to(s, Phase::Xl0),
        _ => unexpected(s),
    }
}
