// What the rows are made of: something is done, and a state is entered or stays; and what no row names.
ghost use Rattle.std.specs.Prelude.{[], ◌∷◌, ◌≡◌};
ghost use Rattle.xl_parts.specs.declared.Action.{Action};
ghost use Rattle.xl_parts.specs.declared.Phase.{Phase};
ghost use Rattle.xl_parts.specs.declared.Primitive.{Primitive};
ghost use Rattle.xl_parts.specs.Parts as parts;
ghost use Rattle.xl_parts.specs.Parts.{done};
ghost use Rattle.xl_rows.specs.Table as table;

use crate::memory::holding;
use open_frame::OpenFrame;
use xl_parts::{Action, BreakAction, Phase, Primitive, State, Stepped, ahead, stay, to};

pub(crate) fn unexpected(s: State) -> Stepped
    ensures { result ≡ done (table.unexpected s) }
{
    stay(State {
        count: s.count.saturating_add(1),
        ..s
    })
}

// What a row does, and the state that it goes to.
pub(crate) fn goes(s: State, a: Action, p: Phase) -> Stepped
    ensures { result ≡ done (parts.to p (a ∷ []) s) }
{
    ahead(Some(a), to(s, p))
}

// The same, and the state stays.
pub(crate) fn does(s: State, a: Action) -> Stepped
    ensures { result ≡ done (parts.stay (a ∷ []) s) }
{
    ahead(Some(a), stay(s))
}

// The frame is held and transmitted as OPEN.
pub(crate) fn opens(s: State, f: OpenFrame) -> Stepped
    ensures { result ≡ done (parts.to Phase.Xl5 (Action.Transmit Primitive.Open ∷ []) (parts.holding f s)) }
{
    goes(holding(s, f), Action::Transmit(Primitive::Open), Phase::Xl5)
}

pub(crate) fn broken(s: State) -> Stepped
    ensures { result ≡ done (table.broken s) }
{
    goes(s, Action::Break(BreakAction::Send), Phase::Xl9)
}
