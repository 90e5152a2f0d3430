// The rows of the table that look at what is remembered.
ghost use Rattle.std.specs.Prelude.{not, cond, [], ◌∷◌, ◌≡◌};
ghost use Rattle.xl_parts.specs.declared.Action.{Action};
ghost use Rattle.xl_parts.specs.declared.Message.{Message};
ghost use Rattle.xl_parts.specs.declared.Primitive.{Primitive};
ghost use Rattle.xl_parts.specs.Parts as parts;
ghost use Rattle.xl_parts.specs.Parts.{done};
ghost use Rattle.xl_rows.specs.Table as table;
ghost use Rattle.xl_rows.specs.Table.{wait_for, is_blocked, timed_out, comes_back, sent_in5, send_close_in7};

use crate::effects::{broken, does, goes, unexpected};
use crate::kinds::{is_blocked, wait_for};
use crate::memory::{blocking, closing, holding, in_6};
use open_frame::OpenFrame;
use xl_parts::Action::{RequestPath, Send, Transmit};
use xl_parts::{
    Arbitration, Memory, Message, Phase, Primitive, State, Stepped, Wait, ahead, stay, to,
};

pub(crate) fn timed_out(s: State) -> Stepped
    ensures { result ≡ done (timed_out s) }
{
    if s.memory.blocked {
        return does(s, RequestPath(true));
    }
    stay(s)
}

pub(crate) fn forwarded(s: State) -> Stepped
    ensures { result ≡ done (table.forwarded s) }
{
    if s.memory.broke {
        return broken(s);
    }
    to(s, Phase::Xl3)
}

// Whether g comes back on the path of f.
fn comes_back(g: OpenFrame, f: OpenFrame) -> bool
    ensures { result ≡ comes_back g f }
{
    (g.head.destination == f.head.source) & (g.head.rate == f.head.rate)
}

fn backoff(s: State, f: OpenFrame, g: OpenFrame) -> Stepped
    ensures { result ≡ done (table.backoff f g s) }
{
    let t = holding(s, g);
    if comes_back(g, f) {
        return goes(t, Send(Message::BackoffReversePath), Phase::Xl2);
    }
    goes(t, Send(Message::BackoffRetry), Phase::Xl1)
}

// An OPEN received in XL6.
pub(crate) fn crossed(s: State, g: OpenFrame) -> Stepped
    ensures { result ≡ done (table.crossed s.memory.held g s) }
{
    let Some(f) = s.memory.held else {
        return stay(s);
    };
    if s.memory.aip.is_none() & !open_frame::higher_than(g, f) {
        return stay(s);
    }
    backoff(s, f, g)
}

// What XL5 remembered, taken in XL6.
fn remembered(s: State, m: Memory) -> Stepped
    ensures { result ≡ done (table.remembered m s) }
{
    if m.broke {
        return broken(s);
    }
    let Some(g) = m.heard else {
        return stay(s);
    };
    crossed(s, g)
}

#[tactic(auto, using(xl_parts::proofs::Effects::pushes))]
pub(crate) fn sent_in_5(s: State) -> Stepped
    ensures { result ≡ done (sent_in5 s) }
{
    ahead(
        Some(Send(Message::ArbStatus(Wait::Device))),
        remembered(in_6(s), s.memory),
    )
}

// CLOSE received in XL7.
pub(crate) fn close_in_7(s: State) -> Stepped
    ensures { result ≡ done (cond (not s.memory.close) (parts.stay (Action.Send Message.SendClose ∷ []) (parts.closing s)) (table.unexpected s)) }
{
    if s.memory.close {
        return unexpected(s);
    }
    does(closing(s), Send(Message::SendClose))
}

// SendClose in XL7.
pub(crate) fn send_close_in_7(s: State) -> Stepped
    ensures { result ≡ done (send_close_in7 s) }
{
    if s.memory.close {
        return goes(s, Transmit(Primitive::Close), Phase::Xl0);
    }
    goes(s, Transmit(Primitive::Close), Phase::Xl8)
}

// Arbitrating in XL1.
pub(crate) fn arbitrates(s: State, a: Arbitration) -> Stepped
    ensures { result ≡ done (parts.stay (Action.Transmit (Primitive.Aip (wait_for a)) ∷ []) (parts.blocking (is_blocked a) s)) }
{
    does(
        blocking(s, is_blocked(a)),
        Transmit(Primitive::Aip(wait_for(a))),
    )
}
