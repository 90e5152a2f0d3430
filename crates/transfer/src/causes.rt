// What a frame and an answer are refused for, in document 01's order.
ghost use Rattle.std.specs.Prelude.{◌≡◌};
ghost use Rattle.refusals.specs.Causes.{refuse};
ghost use Rattle.transfer.specs.Steps.{limit, frame_causes, answer_causes};

use crate::{BOUND, Transfer, steps};
use refusals::Refusal;

impl Transfer {
    // What a frame is refused for.
    pub(crate) fn frame_checked(self) -> Result<(), Refusal>
        ensures { result ≡ refuse Err (frame_causes limit self) (Ok tt) }
    {
        if !self.keeps_rules(BOUND) {
            return Err(Refusal::Rules);
        }
        if !steps::unfinished(self.phase) {
            return Err(Refusal::Unfit);
        }
        if steps::draining(self.phase) {
            return Err(Refusal::Due);
        }
        if self.all_sent() {
            return Err(Refusal::Sent);
        }
        if BOUND <= self.unanswered {
            return Err(Refusal::Full);
        }
        Ok(())
    }

    // `cancel` asks the rules and its own phase by itself: one function for both would take the test as an argument, and the rows name their own.
    // What ACK, NAK, TIMEOUT and LOST are refused for.
    pub(crate) fn answer_checked(self) -> Result<(), Refusal>
        ensures { result ≡ refuse Err (answer_causes limit self) (Ok tt) }
    {
        if !self.keeps_rules(BOUND) {
            return Err(Refusal::Rules);
        }
        if !steps::unfinished(self.phase) | (self.unanswered == 0) {
            return Err(Refusal::Unfit);
        }
        Ok(())
    }
}
