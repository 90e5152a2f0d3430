// Document 01, 'Read transfer': what `readrun` does between its read and its write. A line of input is a call on the transfer and
// gives a line of output; input comes in blocks, which may end anywhere.
#![tactic(auto)]

ghost use Rattle.std.specs.Prelude.{◌≡◌, ◌∷◌, ◌++◌, ◌≤◌, length, take};
ghost use Rattle.lines.specs.Numbers.{read_number, decimal};
ghost use Rattle.lines.specs.Parts.{tab, field_at};
ghost use Rattle.lines.specs.Puts.{Put};
ghost use Rattle.runs.specs.Commands.{largest, command_named, start_of, read_line};
ghost use Rattle.runs.specs.Commands as commands;
ghost use Rattle.runs.specs.Rows.{row, longest_row};
ghost use Rattle.runs.specs.Rows as rows;
ghost use Rattle.runs.specs.Feed.{enough, run_of, next_line, closing, Takes, Feeds};
ghost use Rattle.runs.specs.Feed as feeds;

use refusals::Refusal;
use transfer::{Answer, Stepped, Transfer};

// What a line says, if it says one of these.
#[derive(Clone, Copy)]
pub enum Command {
    Start { b: u32, n: u32, m: u32, r: u32 },
    Frame,
    Ack,
    Nak,
    Timeout,
    Lost,
    Nexus,
    Cancel,
}

// A transfer, and where the next row goes.
#[derive(Clone, Copy)]
pub struct Taken {
    pub state: Transfer,
    pub place: usize,
}

// What is carried over from one block to the next. The bytes and their number lie open, since the definitions `run_of` and `carry_of`, by
// which the theorems on whole inputs say what a run carries, name both.
#[derive(Clone, Copy)]
pub struct Run {
    // The lines that have ended.
    pub line: u64,
    // How many bytes of the line that has begun are kept.
    pub len: usize,
    // Those bytes, and zeros.
    pub keep: [u8; 256],
    pub state: Transfer,
}

#[derive(Clone, Copy)]
pub struct Fed {
    pub run: Run,
    // The bytes of the block that were taken.
    pub used: usize,
    // The bytes of the output that were written.
    pub wrote: usize,
}

// The largest number that a line may have.
const LARGEST: u64 = 0xffffffff;

// The longest line, LF not counted.
const LONGEST: usize = 255;

// The longest row.
const ROW: usize = 71;

// Ifs, as in the crate saved: of a match on byte strings the proof doesn't close.
// The command of one word.
fn command_named(s: &[u8]) -> Option<Command>
    ensures { result ≡ command_named s.now }
{
    if lines::same(s, b"FRAME") {
        return Some(Command::Frame);
    }
    if lines::same(s, b"ACK") {
        return Some(Command::Ack);
    }
    if lines::same(s, b"NAK") {
        return Some(Command::Nak);
    }
    if lines::same(s, b"TIMEOUT") {
        return Some(Command::Timeout);
    }
    if lines::same(s, b"LOST") {
        return Some(Command::Lost);
    }
    if lines::same(s, b"NEXUS") {
        return Some(Command::Nexus);
    }
    if lines::same(s, b"CANCEL") {
        return Some(Command::Cancel);
    }
    None
}

// The number in field k.
fn number(s: &[u8], k: usize) -> Option<u32>
    ensures { result ≡ read_number largest (field_at s.now k) }
{
    let n = lines::read_number(lines::field_at(s, k), LARGEST)?;
    Some(n as u32)
}

// The numbers behind START.
fn start_of(s: &[u8]) -> Option<Command>
    ensures { result ≡ start_of s.now }
{
    Some(Command::Start {
        b: number(s, 1)?,
        n: number(s, 2)?,
        m: number(s, 3)?,
        r: number(s, 4)?,
    })
}

fn read_line(s: &[u8]) -> Option<Command>
    ensures { result ≡ read_line s.now }
{
    let n = lines::field_count(s, LONGEST);
    if n == 1 {
        return command_named(s);
    }
    if (n == 5) & lines::same(lines::field_at(s, 0), b"START") {
        return start_of(s);
    }
    None
}

#[tactic(auto, unfolding(crate::specs::Commands::obeyed, transfer::specs::Calls::step_of))]
fn obeyed(c: Option<Command>, t: Transfer) -> Stepped
    ensures { result ≡ commands.obeyed c t }
{
    match c {
        Some(Command::Start { b, n, m, r }) => t.start(b, n, m, r),
        Some(Command::Frame) => t.frame(),
        Some(Command::Ack) => t.ack(),
        Some(Command::Nak) => t.nak(),
        Some(Command::Timeout) => t.timeout(),
        Some(Command::Lost) => t.lost(),
        Some(Command::Nexus) => t.nexus(),
        Some(Command::Cancel) => t.cancel(),
        None => t.refused(Refusal::Unlisted),
    }
}

fn put_word(a: Result<Answer, Refusal>, out: &mut [u8], at: usize) -> usize
    ensures { Put out.old at (rows.word_of a) result out.new }
{
    match a {
        Ok(Answer::Ok) => lines::put_bytes(b"ok", out, at),
        Ok(Answer::Sent) => lines::put_bytes(b"sent", out, at),
        Ok(Answer::Drain) => lines::put_bytes(b"drain", out, at),
        Ok(Answer::Retry) => lines::put_bytes(b"retry", out, at),
        Ok(Answer::Done) => lines::put_bytes(b"done", out, at),
        Ok(Answer::Fail) => lines::put_bytes(b"fail", out, at),
        Ok(Answer::End) => lines::put_bytes(b"end", out, at),
        Err(k) => lines::put_number(u64::from(u8::from(k)), out, at),
    }
}

// A tab and a number.
fn put_column(n: u32, out: &mut [u8], at: usize) -> usize
    ensures { Put out.old at (tab ∷ decimal n) result out.new }
{
    let p = lines::put_byte(b'\t', out, at);
    lines::put_number(u64::from(n), out, p)
}

// The row of a line, by what its call answered and left.
fn put_row(line: u64, step: Stepped, out: &mut [u8], at: usize) -> usize
    ensures put { Put out.old at (row line step) result out.new }
    ensures used_len_bound { length (row line step) ≤ longest_row }
{
    let state = step.state;
    let p = lines::put_number(line, out, at);
    let p = lines::put_byte(b'\t', out, p);
    let p = put_word(step.answer, out, p);
    let p = put_column(state.read, out, p);
    let p = put_column(state.balance, out, p);
    let p = put_column(state.unanswered, out, p);
    let p = put_column(state.used, out, p);
    lines::put_byte(b'\n', out, p)
}

// One line of input: a call on the transfer, and its row put into out from a place on. The output and the place travel together, as in
// `lines`, whose writers promise by `Put` of both.
pub fn take_line(line: u64, t: Transfer, s: &[u8], out: &mut [u8], at: usize) -> Taken
    ensures { Takes line t s.now out.old at result out.new }
{
    let step = obeyed(read_line(s), t);
    let place = put_row(line, step, out, at);
    Taken {
        state: step.state,
        place,
    }
}

fn next_line(line: u64) -> u64
    ensures { result ≡ next_line line }
{
    line.saturating_add(1)
}

fn front(s: &[u8], n: usize) -> &[u8]
    ensures { result.now ≡ take n s.now }
{
    s.get(..n).unwrap_or(s)
}

// The line that has begun ends with `part`.
fn end_line(
    line: u64,
    t: Transfer,
    keep: &mut [u8],
    len: usize,
    part: &[u8],
    out: &mut [u8],
    at: usize,
) -> Taken
    requires { length keep.old ≡ enough }
    ensures { Takes line t (take enough (take len keep.old ++ part.now)) out.old at result out.new }
{
    if len == 0 {
        return take_line(line, t, part, out, at);
    }
    let n = lines::put_bytes(part, keep, len);
    take_line(line, t, front(keep, n), out, at)
}

// The line that has begun goes on with `part`, and is carried over.
fn hold(line: u64, t: Transfer, begun: &[u8], part: &[u8]) -> Run
    ensures { result ≡ run_of (record { line = line; begun = take enough (begun.now ++ part.now); state = t }) }
{
    let mut keep = [0u8; 256];
    let n = lines::put_bytes(begun, &mut keep, 0);
    let len = lines::put_bytes(part, &mut keep, n);
    Run {
        line,
        len,
        keep,
        state: t,
    }
}

// Before any input.
pub fn fresh() -> Run
    ensures { result ≡ run_of feeds.fresh }
{
    Run {
        line: 0,
        len: 0,
        keep: [0; 256],
        state: Transfer::unstarted(),
    }
}

// The same bytes, of which the proof is told how many there are.
fn places(keep: [u8; 256]) -> [u8; 256]
    ensures { (result ≡ keep) × (length result ≡ enough) }
{
    keep
}

// Takes the bytes of a block up to an LF whose row might not fit into out. The place in the block is counted, since it is a part of the
// answer: with what is left of the block in its stead, each way out would take the place back by a subtraction.
pub fn feed(run: Run, block: &[u8], out: &mut [u8]) -> Fed
    ensures { Feeds run block.now out.old result out.new }
{
    let mut line = run.line;
    let mut len = run.len;
    let kept = run.keep;
    let mut keep = places(kept);
    let mut state = run.state;
    let mut at = 0;
    let mut i = 0;
    while i < block.len() {
        let end = lines::place_from(b'\n', block, i);
        if (end == block.len()) | (out.len() - at < ROW) {
            return Fed {
                run: hold(line, state, front(&keep, len), &block[i..end]),
                used: end,
                wrote: at,
            };
        }
        line = next_line(line);
        let taken = end_line(line, state, &mut keep, len, &block[i..end], out, at);
        state = taken.state;
        at = taken.place;
        len = 0;
        i = end + 1;
    }
    Fed {
        run: hold(line, state, front(&keep, len), &block[i..]),
        used: i,
        wrote: at,
    }
}

// The input is at its end: a line that has begun ends too.
pub fn close(run: Run, out: &mut [u8]) -> Fed
    ensures { Feeds run (closing run.len) out.old result out.new }
{
    if run.len == 0 {
        return feed(run, b"", out);
    }
    feed(run, b"\n", out)
}
