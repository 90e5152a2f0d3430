// An expander link as C lends it: numbers alone, no padding, and what is left over of its bytes has a name and is zero.
#![tactic(auto)]

ghost use Rattle.std.specs.Prelude.{◌≡◌};
ghost use Rattle.xl_lent.specs.Lent as lent;
ghost use Rattle.xl_lent.specs.Lent.{held_of, state_of, frame_shown, well_held};
ghost use Rattle.xl_lent.specs.Face as face;
ghost use Rattle.xl_lent.specs.Face.{link_event, link_receive, link_status};

use open_frame::OpenFrame;
use open_lent::Open;
use refusals::Refusal;
use xl_numbers::codes::Code;
use xl_numbers::{codes, states};
use xl_parts::{Actions, Event, Memory, Phase, Primitive, State, Stepped, Wait};

// All zeros is XL0 with nothing remembered. A frame and whether it is there are two members, as flags and the AIP are numbers: C's own
// struct, which has no Option.
#[repr(C)]
#[derive(Clone, Copy)]
pub struct Link {
    // The frame that the link works for; all zeros where there is none.
    pub held: Open,
    // The latest OPEN received in XL5; all zeros where there is none.
    pub heard: Open,
    // How many unexpected events came.
    pub unexpected: u32,
    pub zero4: u32,
    // 0 for XL0 to 10 for XL10.
    pub phase: u8,
    // Whether there is a frame held, C's has_held.
    pub holds: u8,
    // Whether there is one heard, C's has_heard.
    pub hears: u8,
    // The latest AIP or ArbStatus: 0 for none, else one more than its kind.
    pub aip: u8,
    // Whether BREAK was received.
    pub broke: u8,
    // Whether CLOSE was received.
    pub close: u8,
    // Whether the last Arbitrating of this stay in XL1 was Blocked On Partial.
    pub blocked: u8,
    pub zero1: u8,
}

// Four actions in order, C's action[4].
pub type Codes = [Code; 4];

#[repr(C)]
#[derive(Clone, Copy)]
pub struct Step {
    pub state: Link,
    pub actions: Codes,
    // 0, or a refusal's number.
    pub answer: u8,
}

fn held_of(there: u8, o: Open) -> Option<OpenFrame>
    ensures { result ≡ held_of there o }
{
    (there == 1).then(|| OpenFrame::from(o))
}

// The state that the numbers say. A number that names no phase stands in for XL0, and one that names no AIP for none: whoever asks has
// tested the numbers.
impl From<Link> for State {
    ghost from_gives = { λ l s. s ≡ state_of l };

    fn from(l: Link) -> State {
        State {
            phase: states::phase_of(l.phase).unwrap_or(Phase::Xl0),
            memory: Memory {
                held: held_of(l.holds, l.held),
                heard: held_of(l.hears, l.heard),
                aip: states::aip_of(l.aip).flatten(),
                broke: l.broke == 1,
                close: l.close == 1,
                blocked: l.blocked == 1,
            },
            count: l.unexpected,
        }
    }
}

fn frame_shown(h: Option<OpenFrame>) -> Open
    ensures { result ≡ frame_shown h }
{
    h.map_or(open_lent::clear(), Open::from)
}

// A state as C sees it.
impl From<State> for Link {
    ghost from_gives = { λ s l. l ≡ lent.shown s };

    fn from(s: State) -> Link {
        let m = s.memory;
        Link {
            held: frame_shown(m.held),
            heard: frame_shown(m.heard),
            unexpected: s.count,
            zero4: 0,
            phase: states::phase_number(s.phase),
            holds: u8::from(m.held.is_some()),
            hears: u8::from(m.heard.is_some()),
            aip: states::aip_number(m.aip),
            broke: u8::from(m.broke),
            close: u8::from(m.close),
            blocked: u8::from(m.blocked),
            zero1: 0,
        }
    }
}

// A frame that is there has 0 in its zero members; one that is not is all zeros.
fn well_held(there: u8, o: Open) -> bool
    ensures { result ≡ well_held there o }
{
    if there == 1 {
        return open_lent::formed(o);
    }
    open_lent::is_clear(o)
}

// Whether the numbers say a state.
#[tactic(auto, unfolding(crate::specs::Lent::formed))]
fn formed(l: Link) -> bool
    ensures { result ≡ lent.formed l }
{
    (l.phase < 11)
        & ((l.holds < 2)
            & ((l.hears < 2)
                & ((l.aip < 5)
                    & ((l.broke < 2)
                        & ((l.close < 2)
                            & ((l.blocked < 2)
                                & ((l.zero4 == 0)
                                    & ((l.zero1 == 0)
                                        & (well_held(l.holds, l.held)
                                            & well_held(l.hears, l.heard))))))))))
}

fn coded(acts: Actions) -> Codes
    ensures { result ≡ lent.coded acts }
{
    acts.map(codes::action_number)
}

// The link as it was lent, and no action.
fn refused(l: Link, k: Refusal) -> Step
    ensures { result ≡ face.refused l k }
{
    Step {
        state: l,
        actions: [Code { kind: 0, detail: 0 }; 4],
        answer: u8::from(k),
    }
}

// A step from l as C sees it.
fn told(l: Link, r: Stepped) -> Step
    ensures { result ≡ face.told l r }
{
    if let Err(k) = r.answer {
        return refused(l, k);
    }
    Step {
        state: Link::from(r.state),
        actions: coded(r.actions),
        answer: 0,
    }
}

// An event that is named meets l. The step tests the frame itself, before it tests the state.
#[tactic(auto, using(crate::proofs::Laws::met_formed, crate::proofs::Laws::met_unlisted, crate::proofs::Laws::met_malformed))]
fn met(l: Link, e: Event, f: OpenFrame) -> Step
    ensures { result ≡ face.met l e f }
{
    if formed(l) {
        return told(l, xl::step(State::from(l), e, f));
    }
    if xl::brings_unlisted(e, f) {
        return refused(l, Refusal::Unlisted);
    }
    refused(l, Refusal::Rules)
}

// One event, one step. The frame is looked at only where one goes with the event.
#[tactic(auto, unfolding(crate::specs::Face::link_event))]
pub fn link_event(l: Link, c: Code, o: Open) -> Step
    ensures { result ≡ link_event l c o }
{
    let Some(e) = codes::event_of(c) else {
        return refused(l, Refusal::Unlisted);
    };
    met(l, e, OpenFrame::from(o))
}

// An OPEN received, as bytes. A match, since the refusal is used too.
#[tactic(auto, unfolding(crate::specs::Face::link_receive))]
pub fn link_receive(l: Link, bytes: &[u8]) -> Step
    ensures { result ≡ link_receive l bytes.now }
{
    match open_frame::read_open(bytes) {
        Ok(f) => met(l, Event::Line(Primitive::Open), f),
        Err(k) => refused(l, k),
    }
}

// 48 to 51, or 3.
#[tactic(auto, unfolding(crate::specs::Face::link_status))]
pub fn link_status(l: Link) -> u8
    ensures { result ≡ link_status l }
{
    if formed(l) {
        return states::status_number(xl::status(State::from(l)));
    }
    u8::from(Refusal::Rules)
}
