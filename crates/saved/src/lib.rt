// Document 02, request a): a transfer as one line of text, which is read back after a swap of firmware. Form 1 is the only one so far.
#![tactic(auto)]

ghost use Rattle.std.specs.Prelude.{◌≡◌};
ghost use Rattle.lines.specs.Puts.{Put};
ghost use Rattle.saved.specs.Saved.{newest, phase_word, line_of, phase_named, state_by, restore_of, Save};
ghost use Rattle.saved.specs.Saved as saved;
ghost use Rattle.saved.specs.Walk.{tabbed, ColumnsRead, line_read};

use refusals::Refusal;
use transfer::{Phase, Transfer};

// A struct and no Result<Transfer, Refusal>: what a refusal leaves is promised too, the state before START.
#[derive(Clone, Copy)]
pub struct Restored {
    pub answer: Result<(), Refusal>,
    // On a refusal the state before START.
    pub state: Transfer,
}

// The same of a line's length, which a refusal leaves at 0.
#[derive(Clone, Copy)]
pub struct Saved {
    pub answer: Result<(), Refusal>,
    // The bytes of the line, 0 on a refusal.
    pub length: usize,
}

// The ten numbers in front of a line, each with a tab behind it.
#[derive(Clone, Copy)]
struct Columns {
    numbers: [u32; 10],
    // Where the rest of the line begins.
    next: usize,
}

// The form that is written.
pub const FORM: u32 = 1;

// The most frames that may be unanswered, in a line of form 1 and in a transfer.
const BOUND: u32 = 64;

// Bytes that hold every line of it.
pub const ROOM: usize = 69;

// The largest number of a line.
const LARGEST: u64 = 0xffffffff;

// Reads the columns from tab to tab, if there are ten.
fn read_columns(line: &[u8]) -> Option<Columns>
    ensures { ColumnsRead line.now result }
{
    let mut numbers = [0u32; 10];
    let mut next = 0;
    for i in 0..10 {
        let end = lines::place_from(b'\t', line, next);
        if end == line.len() {
            return None;
        }
        numbers[i] = lines::read_number(&line[next..end], LARGEST)? as u32;
        next = end + 1;
    }
    Some(Columns { numbers, next })
}

fn phase_named(w: &[u8]) -> Option<Phase>
    ensures { result ≡ phase_named w.now }
{
    // A match on the words was tried: no proof closes at the ways by which none of them fits.
    if lines::same(w, b"new") {
        return Some(Phase::New);
    }
    if lines::same(w, b"run") {
        return Some(Phase::Run);
    }
    if lines::same(w, b"drain") {
        return Some(Phase::Drain);
    }
    if lines::same(w, b"done") {
        return Some(Phase::Done);
    }
    if lines::same(w, b"fail") {
        return Some(Phase::Fail);
    }
    if lines::same(w, b"end") {
        return Some(Phase::End);
    }
    None
}

// The transfer that ten columns and a phase say. A column is named by its place, as the line has it.
fn state_by(ns: [u32; 10], p: Phase) -> Transfer
    ensures { result ≡ state_by ns p }
{
    Transfer {
        offset: ns[1],
        count: ns[2],
        size: ns[3],
        resends: ns[4],
        read: ns[5],
        balance: ns[6],
        unanswered: ns[7],
        sent: ns[8] == 1,
        used: ns[9],
        phase: p,
    }
}

// The transfer that a line of the form says.
fn read_line(line: &[u8]) -> Option<Transfer>
    ensures { result ≡ line_read newest line.now }
{
    let columns = read_columns(line)?;
    let phase = phase_named(&line[columns.next..])?;
    let ns = columns.numbers;
    if (ns[0] == FORM) & (ns[8] <= 1) {
        return Some(state_by(ns, phase));
    }
    None
}

fn unrestored(k: Refusal) -> Restored
    ensures { result ≡ saved.unrestored k }
{
    Restored {
        answer: Err(k),
        state: Transfer::unstarted(),
    }
}

// The transfer that a line saves.
pub fn restore(line: &[u8]) -> Restored
    ensures { result ≡ restore_of line.now }
{
    match read_line(line) {
        Some(t) if t.keeps_rules(BOUND) => Restored {
            answer: Ok(()),
            state: t,
        },
        _ => unrestored(Refusal::Unlisted),
    }
}

// Puts numbers into out from a place on, each with a tab behind it; answers the place behind them.
fn put_numbers(ns: &[u32], out: &mut [u8], at: usize) -> usize
    ensures { Put out.old at (tabbed ns.now) result out.new }
{
    let mut next = at;
    for n in ns {
        next = lines::put_number(u64::from(*n), out, next);
        next = lines::put_byte(b'\t', out, next);
    }
    next
}

fn phase_word(p: Phase) -> &'static [u8]
    ensures { result.now ≡ phase_word p }
{
    match p {
        Phase::New => b"new",
        Phase::Run => b"run",
        Phase::Drain => b"drain",
        Phase::Done => b"done",
        Phase::Fail => b"fail",
        Phase::End => b"end",
    }
}

// Puts the line to the front of out; answers its length.
fn put_line(t: Transfer, out: &mut [u8]) -> usize
    ensures { Put out.old 0 (line_of newest t) result out.new }
{
    let columns = [
        FORM,
        t.offset,
        t.count,
        t.size,
        t.resends,
        t.read,
        t.balance,
        t.unanswered,
        u32::from(t.sent),
        t.used,
    ];
    let next = put_numbers(&columns, out, 0);
    lines::put_bytes(phase_word(t.phase), out, next)
}

fn unsaved(k: Refusal) -> Saved
    ensures { result ≡ saved.unsaved k }
{
    Saved {
        answer: Err(k),
        length: 0,
    }
}

// The transfer's line, to the front of out; the bytes past it stay, and on a refusal all of them.
pub fn save(t: Transfer, out: &mut [u8]) -> Saved
    ensures { Save newest t out.old result out.new }
{
    if out.len() < ROOM {
        return unsaved(Refusal::Length);
    }
    if !t.keeps_rules(BOUND) {
        return unsaved(Refusal::Rules);
    }
    let length = put_line(t, out);
    Saved {
        answer: Ok(()),
        length,
    }
}
