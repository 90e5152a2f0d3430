// Numbers in a slice of bytes, the highest byte first. One reader and one writer serve every width. Both go through the eight bytes
// of a u64, so that the compiler moves a field at once and swaps its bytes in a register.
#![tactic(auto)]

ghost use Rattle.std.specs.Prelude.{◌≡◌, ◌≤◌, take};
ghost use Rattle.wire.specs.Be.{be_bytes, put_be, Got};

// The number in the n bytes of s from at on; 0 where they are more than eight or don't lie within s.
pub fn get_be(s: &[u8], at: usize, n: usize) -> u64
    ensures { Got s.now at n result }
{
    if 8 < n {
        return 0;
    }
    let Some(rest) = s.get(at..) else {
        return 0;
    };
    let Some(field) = rest.get(..n) else {
        return 0;
    };
    let mut number = [0u8; 8];
    number[8 - n..].copy_from_slice(field);
    // Named, so that the edit wrong_weight has a number to weigh.
    let value = u64::from_be_bytes(number);
    value
}

// The low n bytes of v, at the front. Divided out one by one: std's to_be_bytes makes a swap of eight bytes and a shift of what the compiler
// turns into a swap of n here.
fn digits(n: usize, v: u64) -> [u8; 8]
    requires { n ≤ 8 }
    ensures { take n result ≡ be_bytes n v }
{
    let mut bytes = [0u8; 8];
    let mut rest = v;
    for i in (0..n).rev() {
        bytes[i] = (rest % 256) as u8;
        rest /= 256;
    }
    bytes
}

// Writes v's low n bytes into s from at on; every other byte stays, and all of them where the n bytes are more than eight or
// don't lie within s.
pub fn put_be(s: &mut [u8], at: usize, n: usize, v: u64)
    ensures { s.new ≡ put_be s.old at n v }
{
    if 8 < n {
        return;
    }
    if s.len() < n {
        return;
    }
    // By the difference: with the sum `at + n` tested in its place, DATA writes miss their goal.
    if s.len() - n < at {
        return;
    }
    let number = digits(n, v);
    s[at..at + n].copy_from_slice(&number[..n]);
}
