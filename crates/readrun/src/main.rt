// `readrun` reads calls on a read transfer from standard input, a line each, and writes a line for each. What it says and when is
// `runs::feed`'s; here are only the reads and the writes. What fails is said on standard error (crates/streams), and ends it.
#![tactic(auto)]

ghost use Rattle.std.specs.Prelude.{true, ◌≡◌, ◌≤◌, ◌<◌, length, take, IfSome, unwrap_or};
ghost use Rattle.std.specs.Io.KnownBytes.{Appends, Consumes, Keeps, IsAtEnd};
ghost use Rattle.streams.specs.Counts.{IsPrefixLen};
ghost use Rattle.runs.specs.Rows.{longest_row};
ghost use Rattle.runs.specs.Feed.{run_of, carry_of, after, said};
ghost use Rattle.runs.specs.Output.{output_of};

use runs::Run;
use std::io::{Read, Write};

// Reads some of the input.
fn get<R: Read, E: Write>(from: &mut R, input: &mut [u8], err: &mut E) -> Option<usize>
    ensures bound { IsPrefixLen (unwrap_or result 0) input.new }
    ensures taken { Consumes (R.remaining from.old) (R.remaining from.new) (take (unwrap_or result 0) input.new) }
    ensures ended { result ≡ Some 0 → 0 < length input.old → IsAtEnd (R.remaining from.new) }
    ensures silent { IfSome result (λ n. Keeps (E.contents err.old) (E.contents err.new)) }
{
    streams::read(from, input, b"readrun: reading", err)
}

// Writes to the output, and answers whether all of it was taken.
fn put<W: Write, E: Write>(to: &mut W, bytes: &[u8], err: &mut E) -> bool
    ensures all { result ≡ true → Appends (W.contents to.old) (W.contents to.new) bytes.now }
    ensures silent { result ≡ true → Keeps (E.contents err.old) (E.contents err.new) }
{
    streams::write(to, bytes, b"readrun: writing", err)
}

// Feeds a whole block, and writes what comes. Answers the run behind it, while the output is still taken.
fn block<W: Write, E: Write>(
    run: Run,
    input: &[u8],
    out: &mut [u8],
    to: &mut W,
    err: &mut E,
) -> Option<Run>
    requires { longest_row ≤ length out.old }
    ensures carries { IfSome result (λ r. carry_of r ≡ after (carry_of run) input.now) }
    ensures says { IfSome result (λ r. Appends (W.contents to.old) (W.contents to.new) (said (carry_of run) input.now)) }
    ensures kept { IfSome result (λ r. run ≡ run_of (carry_of run) → r ≡ run_of (carry_of r)) }
    ensures silent { IfSome result (λ r. Keeps (E.contents err.old) (E.contents err.new)) }
{
    let mut now = run;
    let mut rest = input;
    while !rest.is_empty() {
        let fed = runs::feed(now, rest, out);
        now = fed.run;
        if !put(to, &out[..fed.wrote], err) {
            return None;
        }
        rest = &rest[fed.used..];
    }
    Some(now)
}

// Reads to the end of the input, or until a read or a write fails. A read that fails is not the end: a line that had begun stays
// without an answer. Answers whether all was read and all that there is to say was taken.
fn all<R: Read, W: Write, E: Write>(
    from: &mut R,
    to: &mut W,
    err: &mut E,
    input: &mut [u8],
    out: &mut [u8],
) -> bool
    requires { longest_row ≤ length out.old }
    ensures prints { result ≡ true → 0 < length input.old → IfSome (R.remaining from.old) (λ xs. Appends (W.contents to.old) (W.contents to.new) (output_of xs)) }
    ensures silent { result ≡ true → Keeps (E.contents err.old) (E.contents err.new) }
{
    let mut run = runs::fresh();
    let mut ended = false;
    // A proved loop has to end, and nothing says that the input does.
    for _ in 0..u64::MAX {
        let Some(n) = get(from, input, err) else {
            return false;
        };
        if n == 0 {
            ended = true;
            break;
        }
        let Some(now) = block(run, &input[..n], out, to, err) else {
            return false;
        };
        run = now;
    }
    let last = runs::close(run, out);
    let wrote = last.wrote;
    put(to, &out[..wrote], err) & ended
}

fn main(rt: HostRuntime) {
    let mut input = [0u8; 65536];
    let mut out = [0u8; 65536];
    all(
        &mut rt.stdin(),
        &mut rt.stdout(),
        &mut rt.stderr(),
        &mut input,
        &mut out,
    );
}
