// Numbers in a text: an i64 as Rust's `i64::from_str` reads it, and the test of a decimal by the syntax of `f64::from_str`.
// Refuses nothing: what is no number is an answer. Assumes nothing of the bytes, which may be no UTF-8.
#![tactic(auto)]

ghost use Rattle.std.specs.Prelude.{◌≡◌, ◌+◌, ◌^◌, ◌≤◌, drop};
ghost use Rattle.numbers.specs.Grammar.{matches, opt};
ghost use Rattle.numbers.specs.Digits.{leading_digits, signs};
ghost use Rattle.numbers.specs.Integer.{i64_of, up_to};
ghost use Rattle.numbers.specs.Decimal.{is_exponent_letter, exponent, is_decimal};

// How far the largest and the least i64 are from zero.
const MAX_MAGNITUDE: u64 = i64::MAX as u64;

const MIN_MAGNITUDE: u64 = i64::MAX as u64 + 1;

// A number above this passes both with one digit more. `checked_mul` in its place costs 1.4 % more instructions on logs of flat lists.
const FULL: u64 = MIN_MAGNITUDE / 10;

// Where the digits from `from` on end. Not by `buffers::find_from`: `from` may lie past the end.
pub fn digits_end(s: &[u8], from: usize) -> usize
    ensures { result ≡ from + leading_digits (drop from s.now) }
{
    for i in from..s.len() {
        if !s[i].is_ascii_digit() {
            return i;
        }
    }
    s.len().max(from)
}

// Behind the sign at `from`, or `from` where there is none.
fn sign_end(s: &[u8], from: usize) -> usize
    ensures { result ≡ from + signs (drop from s.now) }
{
    match s.get(from) {
        Some(b'+' | b'-') => from + 1,
        _ => from,
    }
}

// What the bytes from `from` on say where they are digits, at least one, and it is at most `limit`.
fn magnitude(s: &[u8], from: usize, limit: u64) -> Option<u64>
    requires { limit ≤ 2 ^ 63 }
    ensures { result ≡ up_to limit (drop from s.now) }
{
    if s.len() <= from {
        return None;
    }
    let mut n: u64 = 0;
    for &b in &s[from..] {
        if !b.is_ascii_digit() {
            return None;
        }
        if FULL < n {
            return None;
        }
        n = n * 10 + (b - b'0') as u64;
    }
    if limit < n {
        return None;
    }
    Some(n)
}

// The i64 that the whole text is, as a pack holds it: one below zero plus 2^64. A number past the range is none, and so is a sign alone.
pub fn parse_i64(s: &[u8]) -> Option<u64>
    ensures { result ≡ i64_of s.now }
{
    if s.len() == 0 {
        return None;
    }
    if s[0] == b'-' {
        let n = magnitude(s, 1, MIN_MAGNITUDE)?;
        return Some(n.wrapping_neg());
    }
    let start = sign_end(s, 0);
    magnitude(s, start, MAX_MAGNITUDE)
}

fn is_exponent_letter(b: u8) -> bool
    ensures { result ≡ is_exponent_letter b }
{
    b == b'e' || b == b'E'
}

// Is there an exponent from `from` to the end, or nothing?
fn ends_in_exponent(s: &[u8], from: usize) -> bool
    ensures { result ≡ matches (opt exponent) (drop from s.now) }
{
    if s.len() <= from {
        return true;
    }
    if !is_exponent_letter(s[from]) {
        return false;
    }
    let start = sign_end(s, from + 1);
    let end = digits_end(s, start);
    if end == start {
        return false;
    }
    s.len() <= end
}

// Has the text a dot and the syntax of an f64? Without a dot behind its sign and digits it is none, whatever follows:
// a bare word is settled at its first byte, and `inf` and `nan` have no dot.
pub fn is_decimal(s: &[u8]) -> bool
    ensures { result ≡ is_decimal s.now }
{
    let start = sign_end(s, 0);
    let dot = digits_end(s, start);
    if s.len() <= dot {
        return false;
    }
    if s[dot] != b'.' {
        return false;
    }
    let fraction = dot + 1;
    let end = digits_end(s, fraction);
    if end == start + 1 {
        return false;
    }
    ends_in_exponent(s, end)
}
