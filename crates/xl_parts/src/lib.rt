// Document 01, 'XL': what an expander link hears, does and remembers, and how it enters a state.
#![tactic(auto)]

ghost use Rattle.std.specs.Prelude.{◌≡◌, []};
ghost use Rattle.xl_parts.specs.Parts as parts;
ghost use Rattle.xl_parts.specs.Parts.{on_entry, packed, done};

use open_frame::OpenFrame;
use refusals::Refusal;

// 01 XL.4
#[derive(Clone, Copy, PartialEq, Eq, Default)]
pub enum Phase {
    // Idle.
    #[default]
    Xl0,
    // Requests a path.
    Xl1,
    // Requests the OPEN to be forwarded.
    Xl2,
    // Waits for the answer to the OPEN that it forwarded.
    Xl3,
    // Rejects an OPEN.
    Xl4,
    // Forwards an OPEN, which it transmits.
    Xl5,
    // Waits for the answer to the OPEN that it transmitted.
    Xl6,
    // Connected.
    Xl7,
    // Waits for CLOSE.
    Xl8,
    // Answers BREAK.
    Xl9,
    // Waits for the answer to BREAK.
    Xl10,
}

// The kinds of AIP and of ArbStatus. The caller takes a reserved AIP for the kind that source document 004, table 100, names.
#[derive(Clone, Copy)]
pub enum Wait {
    Normal,
    // Waiting on partial.
    Partial,
    // Waiting on connection.
    Connection,
    // Waiting on device.
    Device,
}

// 01 XL.5: OPEN_REJECT kinds: NO, BAD and WRONG DESTINATION, CONNECTION RATE and PROTOCOL NOT SUPPORTED, PATHWAY BLOCKED, STP RESOURCES BUSY, RETRY.
#[derive(Clone, Copy)]
pub enum Reject {
    NoDestination,
    BadDestination,
    WrongDestination,
    // CONNECTION RATE NOT SUPPORTED.
    Rate,
    // PROTOCOL NOT SUPPORTED.
    Protocol,
    PathwayBlocked,
    // STP RESOURCES BUSY.
    Busy,
    Retry,
}

// The kinds of ArbReject.
#[derive(Clone, Copy)]
pub enum Denial {
    NoDestination,
    BadDestination,
    BadLinkRate,
    PathwayBlocked,
}

// The kinds of Arbitrating.
#[derive(Clone, Copy)]
pub enum Arbitration {
    WaitingOnPartial,
    BlockedOnPartial,
    WaitingOnConnection,
}

// What a phy receives, and what it transmits. An OPEN's frame goes beside it.
#[derive(Clone, Copy)]
pub enum Primitive {
    Open,
    OpenAccept,
    OpenReject(Reject),
    Aip(Wait),
    Close,
}

// What the router carries from one link to another. The frame of SendOpen and BackoffReversePath goes beside it.
#[derive(Clone, Copy)]
pub enum Message {
    SendOpen,
    SendClose,
    ArbStatus(Wait),
    OpenAccept,
    OpenReject(Reject),
    BackoffRetry,
    BackoffReversePath,
}

// What the connection manager says.
#[derive(Clone, Copy)]
pub enum Confirmation {
    ArbWon,
    ArbLost,
    ArbReject(Denial),
    Arbitrating(Arbitration),
}

// What a link says to itself.
#[derive(Clone, Copy)]
pub enum Notice {
    // The path timer expired.
    PathTimer,
    // The OPEN_REJECT of XL4, the OPEN of XL5 or the BREAK of XL9 is on the line. A caller that reports every other
    // transmission too drives the unexpected-event count up.
    Sent,
    // The router took the OPEN of XL2.
    Forwarded,
}

// All that comes of BREAK.
#[derive(Clone, Copy)]
pub enum BreakEvent {
    // BREAK received.
    Received,
    // SendBreak, by the router.
    Routed,
    // The break timeout.
    Timeout,
}

#[derive(Clone, Copy)]
pub enum Event {
    // Received by the phy.
    Line(Primitive),
    // By the router.
    Router(Message),
    // By the connection manager.
    Manager(Confirmation),
    // By the link itself.
    Own(Notice),
    Break(BreakEvent),
    Disable,
}

// What a link does about BREAK.
#[derive(Clone, Copy)]
pub enum BreakAction {
    // Transmits BREAK.
    Transmit,
    // SendBreak, to the router.
    Send,
}

// What a link does. The frame of an OPEN, a SendOpen, a BackoffReversePath or a RequestPath is the one that the new state holds.
#[derive(Clone, Copy)]
pub enum Action {
    // By the phy.
    Transmit(Primitive),
    // To the router.
    Send(Message),
    // To the connection manager; whether with timeout status.
    RequestPath(bool),
    Break(BreakAction),
}

// In order. None stands behind every other.
pub type Actions = [Option<Action>; 4];

// The latest AIP or ArbStatus, if one came.
pub type Seen = Option<Wait>;

#[derive(Clone, Copy, Default)]
pub struct Memory {
    // The frame that the link works for: received or transmitted.
    pub held: Option<OpenFrame>,
    // The latest OPEN received in XL5.
    pub heard: Option<OpenFrame>,
    // The latest AIP or ArbStatus.
    pub aip: Seen,
    // Whether BREAK was received.
    pub broke: bool,
    // Whether CLOSE was received.
    pub close: bool,
    // Whether the last Arbitrating of this stay in XL1 was Blocked On Partial.
    pub blocked: bool,
}

#[derive(Clone, Copy, Default)]
pub struct State {
    pub phase: Phase,
    pub memory: Memory,
    // How many unexpected events came.
    pub count: u32,
}

// 01 XL.1: A step answers the new state and at most four actions, in order.
#[derive(Clone, Copy)]
pub struct Stepped {
    pub answer: Result<(), Refusal>,
    pub state: State,
    pub actions: Actions,
}

// What the connection manager is told of a link.
#[derive(Clone, Copy)]
pub enum LinkStatus {
    Ready,
    Connected,
    BlockedPartial,
    Partial,
}

// XL0 with nothing remembered and nothing counted.
pub fn ready() -> State
    ensures { result ≡ parts.ready }
{
    State::default()
}

fn cleared(m: Memory, p: Phase) -> Memory
    ensures { result ≡ parts.cleared p m }
{
    match p {
        Phase::Xl0 => Memory::default(),
        Phase::Xl1 => Memory {
            aip: None,
            broke: false,
            blocked: false,
            ..m
        },
        Phase::Xl2 => Memory {
            aip: None,
            broke: false,
            ..m
        },
        Phase::Xl5 => Memory {
            heard: None,
            aip: None,
            broke: false,
            ..m
        },
        _ => m,
    }
}

fn entered(s: State, p: Phase) -> State
    ensures { result ≡ parts.entered p s }
{
    State {
        phase: p,
        memory: cleared(s.memory, p),
        ..s
    }
}

// What a link does on entering p.
fn on_entry(p: Phase) -> Actions
    ensures { result ≡ packed (on_entry p) }
{
    match p {
        Phase::Xl1 => [
            Some(Action::RequestPath(false)),
            Some(Action::Transmit(Primitive::Aip(Wait::Normal))),
            None,
            None,
        ],
        Phase::Xl6 => [
            Some(Action::Send(Message::ArbStatus(Wait::Device))),
            None,
            None,
            None,
        ],
        Phase::Xl9 | Phase::Xl10 => [Some(Action::Break(BreakAction::Transmit)), None, None, None],
        _ => [None; 4],
    }
}

// The state stays, and nothing is done.
pub fn stay(s: State) -> Stepped
    ensures { result ≡ done (parts.stay [] s) }
{
    Stepped {
        answer: Ok(()),
        state: s,
        actions: [None; 4],
    }
}

// The link enters p.
pub fn to(s: State, p: Phase) -> Stepped
    ensures { result ≡ done (parts.to p [] s) }
{
    Stepped {
        answer: Ok(()),
        state: entered(s, p),
        actions: on_entry(p),
    }
}

// An action ahead of the others; a fifth is dropped.
pub fn ahead(a: Option<Action>, r: Stepped) -> Stepped
    ensures { result ≡ parts.ahead a r }
{
    let [first, second, third, _] = r.actions;
    Stepped {
        actions: [a, first, second, third],
        ..r
    }
}
