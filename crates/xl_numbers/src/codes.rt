// Events and actions as two numbers, a kind and a detail. What one link says is what another hears, so a code serves the action and
// the event alike.
ghost use Rattle.std.specs.Prelude.{◌≡◌};
ghost use Rattle.xl_numbers.specs.Codes as codes;
ghost use Rattle.xl_numbers.specs.Codes.{primitive_number, message_number, confirmation_number, notice_number, break_number, event_number, up_to, from_line, from_router, from_manager, event_of, action_number, action_of};

use crate::details;
use xl_parts::{Action, BreakAction, BreakEvent, Confirmation, Event, Message, Notice, Primitive};

// The detail is 0 where a kind has none. C lends one for an event, and gets one for each action: C's own struct, which is no enum with
// fields.
#[repr(C)]
#[derive(Clone, Copy)]
pub struct Code {
    pub kind: u8,
    pub detail: u8,
}

fn coded(kind: u8, detail: u8) -> Code
    ensures { result ≡ codes.coded kind detail }
{
    Code { kind, detail }
}

// 7 is kept for BREAK_RESPONSE, beside BREAK's 6.
impl From<Primitive> for Code {
    ghost from_gives = { λ p c. c ≡ primitive_number p };

    fn from(p: Primitive) -> Code {
        match p {
            Primitive::Open => coded(1, 0),
            Primitive::OpenAccept => coded(2, 0),
            Primitive::OpenReject(k) => coded(3, k as u8),
            Primitive::Aip(w) => coded(4, w as u8),
            Primitive::Close => coded(5, 0),
        }
    }
}

impl From<Message> for Code {
    ghost from_gives = { λ m c. c ≡ message_number m };

    fn from(m: Message) -> Code {
        match m {
            Message::SendOpen => coded(16, 0),
            Message::SendClose => coded(17, 0),
            Message::ArbStatus(w) => coded(19, w as u8),
            Message::OpenAccept => coded(20, 0),
            Message::OpenReject(k) => coded(21, k as u8),
            Message::BackoffRetry => coded(22, 0),
            Message::BackoffReversePath => coded(23, 0),
        }
    }
}

impl From<Confirmation> for Code {
    ghost from_gives = { λ k c. c ≡ confirmation_number k };

    fn from(c: Confirmation) -> Code {
        match c {
            Confirmation::ArbWon => coded(32, 0),
            Confirmation::ArbLost => coded(33, 0),
            Confirmation::ArbReject(d) => coded(34, d as u8),
            Confirmation::Arbitrating(a) => coded(35, a as u8),
        }
    }
}

impl From<Notice> for Code {
    ghost from_gives = { λ n c. c ≡ notice_number n };

    fn from(n: Notice) -> Code {
        match n {
            Notice::PathTimer => coded(48, 0),
            Notice::Sent => coded(49, 0),
            Notice::Forwarded => coded(50, 0),
        }
    }
}

// BREAK, SendBreak, and the break timeout.
impl From<BreakEvent> for Code {
    ghost from_gives = { λ b c. c ≡ break_number b };

    fn from(b: BreakEvent) -> Code {
        match b {
            BreakEvent::Received => coded(6, 0),
            BreakEvent::Routed => coded(18, 0),
            BreakEvent::Timeout => coded(51, 0),
        }
    }
}

// Functions and no From, with `event_of`, `action_number` and `action_of`, which may not change: the claims on the link's numbers are about them.
pub fn event_number(e: Event) -> Code
    ensures { result ≡ event_number e }
{
    match e {
        Event::Line(p) => Code::from(p),
        Event::Router(m) => Code::from(m),
        Event::Manager(c) => Code::from(c),
        Event::Own(n) => Code::from(n),
        Event::Break(b) => Code::from(b),
        Event::Disable => coded(63, 0),
    }
}

// The event, where its kind has so many details.
fn up_to(details: u8, detail: u8, e: Event) -> Option<Event>
    ensures { result ≡ up_to details detail e }
{
    (detail < details).then_some(e)
}

fn from_line(kind: u8, detail: u8) -> Option<Event>
    ensures { result ≡ from_line kind detail }
{
    match kind {
        0 => None,
        1 => up_to(1, detail, Event::Line(Primitive::Open)),
        2 => up_to(1, detail, Event::Line(Primitive::OpenAccept)),
        3 => Some(Event::Line(Primitive::OpenReject(details::reject_of(detail)?))),
        4 => Some(Event::Line(Primitive::Aip(details::wait_of(detail)?))),
        5 => up_to(1, detail, Event::Line(Primitive::Close)),
        6 => up_to(1, detail, Event::Break(BreakEvent::Received)),
        _ => None,
    }
}

fn from_router(kind: u8, detail: u8) -> Option<Event>
    ensures { result ≡ from_router kind detail }
{
    match kind {
        0 => up_to(1, detail, Event::Router(Message::SendOpen)),
        1 => up_to(1, detail, Event::Router(Message::SendClose)),
        2 => up_to(1, detail, Event::Break(BreakEvent::Routed)),
        3 => Some(Event::Router(Message::ArbStatus(details::wait_of(detail)?))),
        4 => up_to(1, detail, Event::Router(Message::OpenAccept)),
        5 => Some(Event::Router(Message::OpenReject(details::reject_of(detail)?))),
        6 => up_to(1, detail, Event::Router(Message::BackoffRetry)),
        7 => up_to(1, detail, Event::Router(Message::BackoffReversePath)),
        _ => None,
    }
}

fn from_manager(kind: u8, detail: u8) -> Option<Event>
    ensures { result ≡ from_manager kind detail }
{
    match kind {
        0 => up_to(1, detail, Event::Manager(Confirmation::ArbWon)),
        1 => up_to(1, detail, Event::Manager(Confirmation::ArbLost)),
        2 => Some(Event::Manager(Confirmation::ArbReject(details::denial_of(detail)?))),
        3 => Some(Event::Manager(Confirmation::Arbitrating(details::arbitration_of(detail)?))),
        _ => None,
    }
}

fn own(kind: u8, detail: u8) -> Option<Event>
    ensures { result ≡ codes.own kind detail }
{
    match kind {
        0 => up_to(1, detail, Event::Own(Notice::PathTimer)),
        1 => up_to(1, detail, Event::Own(Notice::Sent)),
        2 => up_to(1, detail, Event::Own(Notice::Forwarded)),
        3 => up_to(1, detail, Event::Break(BreakEvent::Timeout)),
        _ => None,
    }
}

#[tactic(auto, unfolding(crate::specs::Codes::event_of))]
pub fn event_of(c: Code) -> Option<Event>
    ensures { result ≡ event_of c }
{
    let Code { kind, detail } = c;
    if kind < 16 {
        return from_line(kind, detail);
    }
    if kind < 32 {
        return from_router(kind - 16, detail);
    }
    if kind < 48 {
        return from_manager(kind - 32, detail);
    }
    if kind == 63 {
        return up_to(1, detail, Event::Disable);
    }
    own(kind - 48, detail)
}

// What a link has said when another hears the event.
fn said(e: Event) -> Option<Action>
    ensures { result ≡ codes.said e }
{
    match e {
        Event::Line(p) => Some(Action::Transmit(p)),
        Event::Router(m) => Some(Action::Send(m)),
        Event::Break(BreakEvent::Received) => Some(Action::Break(BreakAction::Transmit)),
        Event::Break(BreakEvent::Routed) => Some(Action::Break(BreakAction::Send)),
        _ => None,
    }
}

// 0 is no action, and 40 RequestPath, with 1 for timeout status.
pub fn action_number(a: Option<Action>) -> Code
    ensures { result ≡ action_number a }
{
    match a {
        None => coded(0, 0),
        Some(Action::Transmit(p)) => Code::from(p),
        Some(Action::Send(m)) => Code::from(m),
        Some(Action::RequestPath(timeout)) => coded(40, u8::from(timeout)),
        Some(Action::Break(BreakAction::Transmit)) => coded(6, 0),
        Some(Action::Break(BreakAction::Send)) => coded(18, 0),
    }
}

#[tactic(auto, unfolding(crate::specs::Codes::action_of))]
pub fn action_of(c: Code) -> Option<Option<Action>>
    ensures { result ≡ action_of c }
{
    let Code { kind, detail } = c;
    if (kind == 0) & (detail == 0) {
        return Some(None);
    }
    if (kind == 40) & (detail < 2) {
        return Some(Some(Action::RequestPath(detail == 1)));
    }
    let e = event_of(c)?;
    Some(Some(said(e)?))
}
