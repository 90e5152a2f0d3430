// What an answer and DATA are refused for, in the order of the request's table.
ghost use Rattle.std.specs.Prelude.{◌≡◌};
ghost use Rattle.refusals.specs.Causes.{refuse};
ghost use Rattle.write.specs.Steps.{limit, answer_causes, state_causes, got_causes};

use crate::{Write, steps};
use refusals::Refusal;

impl Write {
    // What ACK, NAK, TIMEOUT and LOST are refused for.
    pub(crate) fn answer_checked(self) -> Result<(), Refusal>
        ensures { result ≡ refuse Err (answer_causes limit self) (Ok tt) }
    {
        if !self.keeps_rules() {
            return Err(Refusal::Rules);
        }
        if !self.phase.waiting() {
            return Err(Refusal::Unfit);
        }
        Ok(())
    }

    // What DATA under this tag is refused for, wherever it lies.
    pub fn got_checked(self, transfer: u16) -> Result<(), Refusal>
        ensures { result ≡ refuse Err (state_causes limit transfer self) (Ok tt) }
    {
        if !self.keeps_rules() {
            return Err(Refusal::Rules);
        }
        if !self.phase.unfinished() || self.early(transfer) {
            return Err(Refusal::Unfit);
        }
        Ok(())
    }

    // Three numbers and no struct for the range of DATA, which may not change: `got` and `fits` are public and take them so.
    // What DATA is refused for.
    pub(crate) fn data_checked(self, transfer: u16, offset: u32, length: u32) -> Result<(), Refusal>
        ensures { result ≡ refuse Err (got_causes limit transfer offset length self) (Ok tt) }
    {
        if !steps::sized(length) {
            return Err(Refusal::Unlisted);
        }
        self.got_checked(transfer)?;
        if !self.fits(transfer, offset, length) {
            return Err(Refusal::Unlisted);
        }
        Ok(())
    }
}
