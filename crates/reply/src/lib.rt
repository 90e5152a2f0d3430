// Request c), the reply: RESPONSE and its retry. It ends reads as well as writes, and is retried whether or not transport layer retries are
// on (002, ST_TTS2), so it has a state of its own, which goes in and comes back by value, with a method for each call; no bytes are here.
#![tactic(auto)]

ghost use Rattle.std.specs.Prelude.{◌≡◌};
ghost use Rattle.reply.specs.Rules as rules;
ghost use Rattle.reply.specs.Calls.{start, respond, ack, nak, timeout, lost, nexus, cancel, step_of};

use refusals::Refusal;

mod rules;
mod steps;

#[derive(Clone, Copy, PartialEq, Eq)]
pub enum Phase {
    // Before START.
    New,
    // A RESPONSE is due.
    Ask,
    // Its ACK, NAK or loss is due.
    Wait,
    // It was ACKed.
    Done,
    // A NAK, TIMEOUT or LOST came with every resend used.
    Fail,
    // NEXUS or CANCEL came.
    End,
}

// What a call answers.
#[derive(Clone, Copy)]
pub enum Answer {
    // START was taken.
    Ok,
    // A RESPONSE goes.
    Sent,
    // It failed, and goes again.
    Retry,
    // It was delivered.
    Done,
    Fail,
    End,
}

#[derive(Clone, Copy, PartialEq, Eq)]
pub struct Reply {
    // R, the resends allowed.
    pub resends: u32,
    // Resends used.
    pub used: u32,
    pub phase: Phase,
}

// A type of its own for each machine: a generic one would name both types wherever a clause now says Stepped.
#[derive(Clone, Copy)]
pub struct Stepped {
    pub answer: Result<Answer, Refusal>,
    pub state: Reply,
}

impl Reply {
    // The state before START.
    pub fn unstarted() -> Reply
        ensures { result ≡ rules.unstarted }
    {
        Reply {
            resends: 0,
            used: 0,
            phase: Phase::New,
        }
    }

    pub fn start(self, r: u32) -> Stepped
        ensures { result ≡ step_of (start r) self }
    {
        if !rules::in_range(r) {
            return self.refused(Refusal::Rules);
        }
        if let Err(k) = self.checked(self.phase.unfinished()) {
            return self.refused(k);
        }
        steps::started(r)
    }

    // The RESPONSE goes.
    pub fn respond(self) -> Stepped
        ensures { result ≡ step_of respond self }
    {
        if let Err(k) = self.checked(!self.phase.asks()) {
            return self.refused(k);
        }
        self.in_phase(Answer::Sent, Phase::Wait)
    }

    pub fn ack(self) -> Stepped
        ensures { result ≡ step_of ack self }
    {
        if let Err(k) = self.checked(!self.phase.waits()) {
            return self.refused(k);
        }
        self.in_phase(Answer::Done, Phase::Done)
    }

    pub fn nak(self) -> Stepped
        ensures { result ≡ step_of nak self }
    {
        if let Err(k) = self.checked(!self.phase.waits()) {
            return self.refused(k);
        }
        self.failed()
    }

    pub fn timeout(self) -> Stepped
        ensures { result ≡ step_of timeout self }
    {
        self.nak()
    }

    pub fn lost(self) -> Stepped
        ensures { result ≡ step_of lost self }
    {
        self.nak()
    }

    pub fn nexus(self) -> Stepped
        ensures { result ≡ step_of nexus self }
    {
        self.cancel()
    }

    pub fn cancel(self) -> Stepped
        ensures { result ≡ step_of cancel self }
    {
        if let Err(k) = self.checked(!self.phase.unfinished()) {
            return self.refused(k);
        }
        self.in_phase(Answer::End, Phase::End)
    }
}
