// The system's words for an error, in a block of their own, so that to say them takes no memory that could be lacking.
use std::fmt;
use std::fmt::Write;
use std::io::Error;

// More than any of the system's has.
const ROOM: usize = 256;

// What was written, as far as there is room. A buffer and its length, since `write_str` keeps the front of a text that doesn't fit, which
// no string of a fixed room does.
#[derive(Clone, Copy)]
pub(crate) struct Words {
    bytes: [u8; ROOM],
    len: usize,
}

impl Write for Words {
    fn write_str(&mut self, s: &str) -> fmt::Result {
        // One by one: that what is written lies within the block is what this test says, and nothing else does.
        for b in s.as_bytes() {
            if self.len < ROOM {
                self.bytes[self.len] = *b;
                self.len += 1;
            }
        }
        Ok(())
    }
}

// The words for an error.
pub(crate) fn of(e: &Error) -> Words {
    let mut words = Words {
        bytes: [0; ROOM],
        len: 0,
    };
    let _ = write!(words, "{e}");
    words
}

impl Words {
    // Without the error's number, which std puts behind them.
    pub(crate) fn text(&self) -> &[u8] {
        let len = self.len.min(ROOM);
        let all = &self.bytes[..len];
        // A place is looked for, behind which a text begins: std's `position` over windows would be as long.
        for i in 0..len {
            if all[i..].starts_with(b" (os error ") {
                return &all[..i];
            }
        }
        all
    }
}
