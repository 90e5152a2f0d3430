// Text by lines: decimal numbers, fields between tabs, and bytes put one behind the other. The largest number and the longest line
// are arguments.
#![tactic(auto)]

ghost use Rattle.std.specs.Prelude.{◌≡◌, ◌+◌, ◌==◌, ◌<◌, ◌≤◌, [], ◌∷◌, length, drop, position};
ghost use Rattle.lines.specs.Numbers.{digit_read, read_number, decimal};
ghost use Rattle.lines.specs.Parts.{field_count, field_at, place_from, behind_tabs};
ghost use Rattle.lines.specs.Parts as parts;
ghost use Rattle.lines.specs.Puts.{Put};

// The digit that b writes, if it writes one.
fn digit_read(b: u8) -> Option<u64>
    ensures { result ≡ digit_read b }
{
    if b.is_ascii_digit() {
        return Some(u64::from(b - b'0'));
    }
    None
}

// The number that s writes, at most `most`.
pub fn read_number(s: &[u8], most: u64) -> Option<u64>
    ensures { result ≡ read_number most s.now }
{
    if s.is_empty() {
        return None;
    }
    if (1 < s.len()) & (s[0] == b'0') {
        return None;
    }
    let mut value: u64 = 0;
    for byte in s {
        let last = digit_read(*byte)?;
        value = value.checked_mul(10)?.checked_add(last)?;
        if most < value {
            return None;
        }
    }
    Some(value)
}

// Where b stands first in s, if it does.
fn place_of(b: u8, s: &[u8]) -> Option<usize>
    ensures { result ≡ position (λ x. x == b) s.now }
{
    s.iter().position(|x| *x == b)
}

// Where b stands first in s from a place on, or s's length.
pub fn place_from(b: u8, s: &[u8], from: usize) -> usize
    ensures { result ≡ place_from b s.now from }
{
    match s.get(from..) {
        Some(rest) => from + place_of(b, rest).unwrap_or(rest.len()),
        None => from,
    }
}

// How many fields a line of at most `longest` bytes has; a longer one has none.
pub fn field_count(s: &[u8], longest: usize) -> usize
    ensures { result ≡ field_count longest s.now }
{
    if longest < s.len() {
        return 0;
    }
    s.iter().filter(|b| **b == b'\t').count() + 1
}

// Where field k begins, or s's length.
fn start(s: &[u8], k: usize) -> usize
    ensures { (result ≤ length s.now) × (drop result s.now ≡ behind_tabs k s.now) }
{
    let mut at = 0;
    for _ in 0..k {
        let tab = place_from(b'\t', s, at);
        if s.len() <= tab {
            return s.len();
        }
        at = tab + 1;
    }
    at
}

// Field k, counted from 0; nothing where there are fewer.
pub fn field_at(s: &[u8], k: usize) -> &[u8]
    ensures { result.now ≡ field_at s.now k }
{
    let from = start(s, k);
    let to = place_from(b'\t', s, from);
    &s[from..to]
}

// Whether s and t are the same bytes.
pub fn same(s: &[u8], t: &[u8]) -> bool
    ensures { result ≡ parts.same s.now t.now }
{
    s == t
}

// Puts one byte into out at a place; answers the place behind it. An output and a place are two arguments of each writer, and no struct,
// since theorems speak of the writers by these arguments.
pub fn put_byte(b: u8, out: &mut [u8], at: usize) -> usize
    ensures { Put out.old at (b ∷ []) result out.new }
{
    if at < out.len() {
        out[at] = b;
        return at + 1;
    }
    at
}

// Puts s into out from a place on; answers the place behind it.
pub fn put_bytes(s: &[u8], out: &mut [u8], at: usize) -> usize
    ensures { Put out.old at s.now result out.new }
{
    if out.len() <= at {
        return at;
    }
    let n = s.len().min(out.len() - at);
    out[at..at + n].copy_from_slice(&s[..n]);
    at + n
}

// Puts n's digits into out from a place on; answers the place behind them.
pub fn put_number(n: u64, out: &mut [u8], at: usize) -> usize
    ensures { Put out.old at (decimal n) result out.new }
{
    let mut digits = [0u8; 20];
    let mut i = 20;
    let mut rest = n;
    // A recursion on n / 10 and a `for` over the places from the last to the first were tried: with either, readrun takes fewer lines a
    // second than its goal asks.
    while 10 <= rest {
        i -= 1;
        digits[i] = b'0' + (rest % 10) as u8;
        rest /= 10;
    }
    i -= 1;
    digits[i] = b'0' + rest as u8;
    put_bytes(&digits[i..], out, at)
}
