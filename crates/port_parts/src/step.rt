// Document 01, 'Port': the steps of a choice, in the order in which they are tried.
// Nothing can be done.
pub const NOTHING: u8 = 0;

pub const SENDS: u8 = 1;

pub const OPENS: u8 = 2;

pub const CLOSES: u8 = 3;
