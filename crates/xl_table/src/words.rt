// What a link does, in words: an action's word, and behind it its kind's number, or that RequestPath has timeout status.
use std::fmt;
use xl_numbers::codes;
use xl_parts::{Action, Actions, BreakAction, Message, Primitive};

#[derive(Clone, Copy)]
struct Done(Action);

impl fmt::Display for Done {
    fn fmt<W: fmt::Write>(&self, f: &mut fmt::Formatter<W>) -> fmt::Result {
        // The link's one table of numbers, as C has it.
        let kind = codes::action_number(Some(self.0)).detail;
        match self.0 {
            Action::Transmit(Primitive::Open) => write!(f, "OPEN"),
            Action::Transmit(Primitive::OpenAccept) => write!(f, "OPEN_ACCEPT"),
            Action::Transmit(Primitive::OpenReject(_)) => write!(f, "OPEN_REJECT({kind})"),
            Action::Transmit(Primitive::Aip(_)) => write!(f, "AIP({kind})"),
            Action::Transmit(Primitive::Close) => write!(f, "CLOSE"),
            Action::Send(Message::SendOpen) => write!(f, "SendOpen"),
            Action::Send(Message::SendClose) => write!(f, "SendClose"),
            Action::Send(Message::ArbStatus(_)) => write!(f, "ArbStatus({kind})"),
            Action::Send(Message::OpenAccept) => write!(f, "OpenAccept"),
            Action::Send(Message::OpenReject(_)) => write!(f, "OpenReject({kind})"),
            Action::Send(Message::BackoffRetry) => write!(f, "BackoffRetry"),
            Action::Send(Message::BackoffReversePath) => write!(f, "BackoffReversePath"),
            Action::RequestPath(false) => write!(f, "RequestPath"),
            Action::RequestPath(true) => write!(f, "RequestPath(timeout)"),
            Action::Break(BreakAction::Transmit) => write!(f, "BREAK"),
            Action::Break(BreakAction::Send) => write!(f, "SendBreak"),
        }
    }
}

// The actions of a step, with commas between them.
#[derive(Clone, Copy)]
pub(crate) struct Words(pub Actions);

impl fmt::Display for Words {
    fn fmt<W: fmt::Write>(&self, f: &mut fmt::Formatter<W>) -> fmt::Result {
        for (k, a) in self.0.iter().flatten().enumerate() {
            if k > 0 {
                write!(f, ",")?;
            }
            write!(f, "{}", Done(*a))?;
        }
        Ok(())
    }
}
