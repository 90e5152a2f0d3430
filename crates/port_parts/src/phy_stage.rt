// Document 01, 'Port': the stages of a phy. A lent state can hold any number, so they are numbers.
pub const DISABLED: u8 = 0;

pub const UNCONNECTED: u8 = 1;

pub const OPENING: u8 = 2;
// Connected and idle.
pub const IDLE: u8 = 3;
// Connected with a frame out.
pub const SENDING: u8 = 4;
// Closing and idle.
pub const CLOSING: u8 = 5;
// Closing with a frame out.
pub const CLOSING_SENDING: u8 = 6;
