// Document 01, 'Port': the stages of a request. A lent record can hold any number, so they are numbers.
// No request.
pub const FREE: u8 = 0;

pub const WAITING: u8 = 1;
// On a phy.
pub const IN_PROGRESS: u8 = 2;
