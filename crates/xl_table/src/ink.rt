// What is written to standard output, a piece at a time.
use std::io::{Stderr, Stdout, Write};
use std::{fmt, io};

// Standard error, until it is closed; then what is said is dropped.
#[derive(Drop)]
struct Said {
    to: Stderr,
    closed: bool,
}

impl Write for Said {
    fn write(&mut self, buf: &[u8]) -> io::Result<usize> {
        if self.closed {
            return Ok(buf.len());
        }
        self.to.write(buf)
    }

    fn flush(&mut self) -> io::Result<()> {
        self.to.flush()
    }
}

// Where the pieces go, and what is said of those that fail.
#[derive(Drop)]
pub(crate) struct Ink {
    to: Stdout,
    said: Said,
}

impl Ink {
    pub(crate) fn new(to: Stdout, errors: Stderr) -> Ink {
        let said = Said {
            to: errors,
            closed: false,
        };
        Ink { to, said }
    }
}

// What fails is said, and once: nothing here stops at it, so standard error is closed behind the first line, and no piece answers an
// error.
impl fmt::Write for Ink {
    fn write_str(&mut self, s: &str) -> fmt::Result {
        if !streams::write(
            &mut self.to,
            s.as_bytes(),
            b"xl_table: writing",
            &mut self.said,
        ) {
            self.said.closed = true;
        }
        Ok(())
    }
}
