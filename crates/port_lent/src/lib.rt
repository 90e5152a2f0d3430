// The port as C lends it: numbers alone, no padding, and what is left over of its bytes has a name and is zero; what its calls are
// given, and what they answer.
#![tactic(auto)]

mod numbers;

ghost use Rattle.std.specs.Prelude.{◌≡◌};
ghost use Rattle.port_lent.specs.Lent as lent;
ghost use Rattle.port_lent.specs.Lent.{phy_of, phy_formed, phys_of, phys_shown, port_of, port_shown};
ghost use Rattle.port_lent.specs.Given.{time_of, submission_of, withdrawn_of, confirmed_of, failure_of, report_of};
ghost use Rattle.port_lent.specs.Face as face;

use open_frame::OpenFrame;
use open_lent::Open;
use port::{Stepped, Time};
use port_rows::{Confirmed, Failure, Key, Report, Submission, Withdrawn, Word};
use refusals::Refusal;

// A phy of the port; all zeros is a disabled one that a port has no room for.
#[repr(C)]
#[derive(Clone, Copy, Default)]
pub struct Phy {
    // Whom it is connected to, and below its protocol; zeros if it isn't.
    pub destination: u64,
    pub zero4: u32,
    // 0 disabled, 1 unconnected, 2 opening, 3 connected, 4 connected with a frame out, 5 closing, 6 closing with a frame out.
    pub stage: u8,
    // Of the request that it names, 32 if it names none.
    pub slot: u8,
    pub protocol: u8,
    pub zero1: u8,
}

// All zeros is a port before its setup.
#[repr(C)]
#[derive(Clone, Copy, Default)]
pub struct Port {
    // The time of the last call.
    pub last: u64,
    pub phys: [Phy; 8],
    pub zero4: u32,
    // The loss time in milliseconds; 65,535 is never.
    pub loss: u16,
    // How many phys it has.
    pub count: u8,
    pub zero1: u8,
}

// A call's answer, and the port after it.
#[repr(C)]
#[derive(Clone, Copy)]
pub struct PortStep {
    pub port: Port,
    // The head of the request that is named; pbc and awt are Open's alone; else zeros.
    pub frame: Open,
    // 0 taken, 1 to 10 refused, from 32 on what happened.
    pub answer: u8,
    // Ended's reason, Status's byte, else 0.
    pub detail: u8,
    // 32 and 8 where none is named.
    pub slot: u8,
    pub phy: u8,
}

// Whether every zero member is 0.
fn phy_formed(f: Phy) -> bool
    ensures { result ≡ phy_formed f }
{
    (f.zero4 == 0) & (f.zero1 == 0)
}

fn phys_formed(phys: [Phy; 8]) -> bool
    ensures { result ≡ lent.phys_formed phys }
{
    // No `all`, as in port_rules: to look at a phy more costs less than to ask at each whether to go on.
    let mut kept = true;
    for f in &phys {
        kept = kept & phy_formed(*f);
    }
    kept
}

fn formed(p: Port) -> bool
    ensures { result ≡ lent.formed p }
{
    (p.zero4 == 0) & ((p.zero1 == 0) & phys_formed(p.phys))
}

impl From<Phy> for port_parts::Phy {
    ghost from_gives = { λ f p. p ≡ phy_of f };

    fn from(f: Phy) -> port_parts::Phy {
        port_parts::Phy {
            stage: f.stage,
            slot: f.slot,
            protocol: f.protocol,
            destination: f.destination,
        }
    }
}

fn phys_of(phys: [Phy; 8]) -> [port_parts::Phy; 8]
    ensures { result ≡ phys_of phys }
{
    phys.map(port_parts::Phy::from)
}

// How many phys the numbers say; none where they say no port.
fn count_of(p: Port) -> u8
    ensures { result ≡ lent.count_of p }
{
    if formed(p) {
        return p.count;
    }
    0
}

// The port that the numbers say.
pub fn port_of(p: Port) -> port_parts::Port
    ensures { result ≡ port_of p }
{
    port_parts::Port {
        count: count_of(p),
        loss: p.loss,
        last: p.last,
        phys: phys_of(p.phys),
    }
}

impl From<port_parts::Phy> for Phy {
    ghost from_gives = { λ f p. p ≡ lent.phy_shown f };

    fn from(f: port_parts::Phy) -> Phy {
        Phy {
            destination: f.destination,
            zero4: 0,
            stage: f.stage,
            slot: f.slot,
            protocol: f.protocol,
            zero1: 0,
        }
    }
}

fn phys_shown(phys: [port_parts::Phy; 8]) -> [Phy; 8]
    ensures { result ≡ phys_shown phys }
{
    phys.map(Phy::from)
}

fn port_shown(p: port_parts::Port) -> Port
    ensures { result ≡ port_shown p }
{
    Port {
        last: p.last,
        phys: phys_shown(p.phys),
        zero4: 0,
        loss: p.loss,
        count: p.count,
        zero1: 0,
    }
}

// The port after a call; a refusal leaves the lent one, to the last member.
fn port_after(p: Port, w: Result<Word, Refusal>, q: port_parts::Port) -> Port
    ensures { result ≡ face.port_after p w q }
{
    match w {
        Err(_) => p,
        Ok(_) => port_shown(q),
    }
}

// What C sees of a call on the port p.
pub fn shown(p: Port, s: Stepped) -> PortStep
    ensures { result ≡ face.shown p s }
{
    let a = s.answer;
    PortStep {
        port: port_after(p, a.word, s.port),
        frame: Open::from(a.frame),
        answer: numbers::word_number(a.word),
        detail: numbers::detail_of(a.word),
        slot: a.slot,
        phy: a.phy,
    }
}

// A port before its setup: all zeros.
fn no_port() -> Port
    ensures { result ≡ lent.no_port }
{
    Port::default()
}

// What C sees of a setup, which is lent no port.
pub fn set_up(s: Stepped) -> PortStep
    ensures { result ≡ face.set_up s }
{
    shown(no_port(), s)
}

// What the calls are given.
// What the calls are given, each by a function of its own, which may not change: the calls that C makes name them in their clauses.
pub fn time_of(now: u64) -> Time
    ensures { result ≡ time_of now }
{
    Time { now }
}

// Of the frame only its head is looked at.
pub fn submission_of(head: Open, now: u64) -> Submission
    ensures { result ≡ submission_of head now }
{
    Submission {
        head: OpenFrame::from(head).head,
        now,
    }
}

pub fn withdrawn_of(destination: u64, protocol: u8, tag: u16, now: u64) -> Withdrawn
    ensures { result ≡ withdrawn_of destination protocol tag now }
{
    Withdrawn {
        key: Key {
            destination,
            protocol,
            tag,
        },
        now,
    }
}

pub fn confirmed_of(phy: u8, now: u64) -> Confirmed
    ensures { result ≡ confirmed_of phy now }
{
    Confirmed { phy, now }
}

pub fn failure_of(phy: u8, why: u8, now: u64) -> Failure
    ensures { result ≡ failure_of phy why now }
{
    Failure { phy, why, now }
}

pub fn report_of(phy: u8, status: u8, now: u64) -> Report
    ensures { result ≡ report_of phy status now }
{
    Report { phy, status, now }
}
