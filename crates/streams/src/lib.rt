// A program's streams: reads and writes of which none loses a byte in silence. A call that a signal interrupts is made again. What
// fails is said to a writer, as standard error is one, behind words of the program's, and answered; only an output that nobody reads
// any more ends a program without a word, as it ends any filter. Of a stream of the system's no promise can say which bytes move and
// which error comes; of one that tells its bytes the promises say which.
#![tactic(auto)]

ghost use Rattle.std.specs.Prelude.{◌≡◌, ◌≤◌, ◌<◌, ℕ, length, take, true, IfOk, IfSome, OnErr, unwrap_or};
ghost use Rattle.std.specs.Io.KnownBytes.{Appends, Consumes, Keeps, IsAtEnd};
ghost use Rattle.streams.specs.Counts.{IsPrefixLen};

mod words;

use std::io;
use std::io::{Error, ErrorKind, Read, Write};

// Reads some bytes to the start of the buffer and answers how many, 0 where the input ended; or says behind `what` why it can't, and answers
// None. Then no byte was taken.
pub fn read<R: Read, E: Write>(
    from: &mut R,
    buf: &mut [u8],
    what: &[u8],
    said: &mut E,
) -> Option<usize>
    ensures bound { IsPrefixLen (unwrap_or result 0) buf.new }
    ensures taken { Consumes (R.remaining from.old) (R.remaining from.new) (take (unwrap_or result 0) buf.new) }
    ensures ended { result ≡ Some 0 → 0 < length buf.old → IsAtEnd (R.remaining from.new) }
    ensures silent { IfSome result (λ n. Keeps (E.contents said.old) (E.contents said.new)) }
{
    // A proved loop has to end, and nothing says that signals do.
    for _ in 0..u64::MAX {
        let got = from.read(buf);
        match got {
            Ok(n) => return Some(n),
            Err(e) => {
                if e.kind() != ErrorKind::Interrupted {
                    fail(&e, what, said);
                    return None;
                }
            }
        }
    }
    fail(&Error::from(ErrorKind::Interrupted), what, said);
    None
}

// Writes all of `bytes` and answers true; or says behind `what` why no more of them are taken, and answers false.
pub fn write<W: Write, E: Write>(to: &mut W, bytes: &[u8], what: &[u8], said: &mut E) -> bool
    ensures all { result ≡ true → Appends (W.contents to.old) (W.contents to.new) bytes.now }
    ensures front { (n : ℕ) × (n ≤ length bytes.now) × Appends (W.contents to.old) (W.contents to.new) (take n bytes.now) }
    ensures silent { result ≡ true → Keeps (E.contents said.old) (E.contents said.new) }
{
    // How many bytes were taken so far, which `front` promises of an end by failure too.
    let mut from = 0;
    for _ in 0..u64::MAX {
        if from >= bytes.len() {
            return true;
        }
        let answer = to.write(&bytes[from..]);
        let took = taken(answer);
        if took == 0 {
            if !again(answer, what, said) {
                return false;
            }
        }
        from += took;
    }
    fail(&Error::from(ErrorKind::Interrupted), what, said);
    false
}

// How many bytes a write took.
fn taken(answer: io::Result<usize>) -> usize
    ensures ok { IfOk answer (λ n. result ≡ n) }
    ensures err { OnErr answer (result ≡ 0) }
{
    answer.unwrap_or(0)
}

// Whether a write that took nothing, and answered so, is made again. If not, it is said why, but of an output that nobody reads any
// more.
fn again<E: Write>(answer: io::Result<usize>, what: &[u8], said: &mut E) -> bool
    ensures { result ≡ true → Keeps (E.contents said.old) (E.contents said.new) }
{
    match answer {
        Ok(_) => {
            let _ = stuck(what, said);
            false
        }
        Err(e) => match e.kind() {
            ErrorKind::Interrupted => true,
            ErrorKind::BrokenPipe => false,
            _ => {
                fail(&e, what, said);
                false
            }
        },
    }
}

// Of a call that takes nothing and doesn't fail no error is named.
fn stuck<E: Write>(what: &[u8], said: &mut E) -> io::Result<()> {
    said.write_all(what)?;
    said.write_all(b": nothing is taken\n")
}

// What fails, in the program's words and then the system's. What can't be said is left unsaid.
fn fail<E: Write>(e: &Error, what: &[u8], said: &mut E) {
    let _ = tell(e, what, said);
}

fn tell<E: Write>(e: &Error, what: &[u8], said: &mut E) -> io::Result<()> {
    said.write_all(what)?;
    said.write_all(b": ")?;
    said.write_all(words::of(e).text())?;
    said.write_all(b"\n")
}
