// What a link comes to remember: a state with one thing more in its memory. Each of these writes another field, which no parameter can
// be.
ghost use Rattle.std.specs.Prelude.{◌≡◌};
ghost use Rattle.xl_parts.specs.Parts as parts;
ghost use Rattle.xl_rows.specs.Table.{in6};

use open_frame::OpenFrame;
use xl_parts::{Memory, Phase, State, Wait};

pub(crate) fn holding(s: State, f: OpenFrame) -> State
    ensures { result ≡ parts.holding f s }
{
    State {
        memory: Memory {
            held: Some(f),
            ..s.memory
        },
        ..s
    }
}

pub(crate) fn hearing(s: State, f: OpenFrame) -> State
    ensures { result ≡ parts.hearing f s }
{
    State {
        memory: Memory {
            heard: Some(f),
            ..s.memory
        },
        ..s
    }
}

pub(crate) fn seeing(s: State, w: Wait) -> State
    ensures { result ≡ parts.seeing w s }
{
    State {
        memory: Memory {
            aip: Some(w),
            ..s.memory
        },
        ..s
    }
}

pub(crate) fn breaking(s: State) -> State
    ensures { result ≡ parts.breaking s }
{
    State {
        memory: Memory {
            broke: true,
            ..s.memory
        },
        ..s
    }
}

pub(crate) fn closing(s: State) -> State
    ensures { result ≡ parts.closing s }
{
    State {
        memory: Memory {
            close: true,
            ..s.memory
        },
        ..s
    }
}

pub(crate) fn blocking(s: State, b: bool) -> State
    ensures { result ≡ parts.blocking b s }
{
    State {
        memory: Memory {
            blocked: b,
            ..s.memory
        },
        ..s
    }
}

// XL6, whose entry clears nothing, with BREAK and OPEN forgotten.
pub(crate) fn in_6(s: State) -> State
    ensures { result ≡ in6 s }
{
    State {
        phase: Phase::Xl6,
        memory: Memory {
            heard: None,
            broke: false,
            ..s.memory
        },
        ..s
    }
}
