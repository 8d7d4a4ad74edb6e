// Little-endian numbers in a text, past whose end stand zeros; and parts of texts and tables, which end where these do at the latest. So
// a case that is cut short needs no way out of its own: its answer then differs.
ghost use Rattle.std.specs.Prelude.{◌≡◌, ◌^◌, ◌<◌, take, drop, slice_index, EachIndex};
ghost use Rattle.std.specs.Int.{w16, w32, w64, from_le_bytes};

pub fn byte(s: &[u8], at: usize) -> u64
    ensures value { result ≡ slice_index s.now at }
    ensures bound { result < 256 }
{
    u64::from(s.get(at).copied().unwrap_or(0))
}

// The first bytes of a text, and zeros where it has fewer.
fn first_bytes<const N: usize>(s: &[u8]) -> [u8; N]
    ensures { EachIndex result (λ i. slice_index result i ≡ slice_index s.now i) }
{
    let mut bytes = [0u8; N];
    let there = first_part(s, N);
    bytes[..there.len()].copy_from_slice(there);
    bytes
}

// Three functions for three types: one would take the type's `from_le_bytes` from a trait of our own, with these three as its methods.
pub fn two(s: &[u8], at: usize) -> u64
    ensures value { result ≡ from_le_bytes w16 (drop at s.now) }
    ensures bound { result < 2 ^ 16 }
{
    u64::from(u16::from_le_bytes(first_bytes(rest_of(s, at))))
}

pub fn four(s: &[u8], at: usize) -> u64
    ensures value { result ≡ from_le_bytes w32 (drop at s.now) }
    ensures bound { result < 2 ^ 32 }
{
    u64::from(u32::from_le_bytes(first_bytes(rest_of(s, at))))
}

pub fn eight(s: &[u8], at: usize) -> u64
    ensures { result ≡ from_le_bytes w64 (drop at s.now) }
{
    u64::from_le_bytes(first_bytes(rest_of(s, at)))
}

// The first n entries, or all where there are fewer.
pub fn first_part<T>(s: &[T], n: usize) -> &[T]
    ensures { result.now ≡ take n s.now }
{
    s.get(..n).unwrap_or(s)
}

// What is behind the first n bytes.
pub fn rest_of(s: &[u8], n: usize) -> &[u8]
    ensures { result.now ≡ drop n s.now }
{
    s.get(n..).unwrap_or(&[])
}

// At most n bytes from a place on.
pub fn part(s: &[u8], from: usize, n: usize) -> &[u8]
    ensures { result.now ≡ take n (drop from s.now) }
{
    first_part(rest_of(s, from), n)
}

// The first n entries of a table, or all where there are fewer, to be lent.
pub fn lent_part<T>(s: &mut [T], n: usize) -> &mut [T]
    ensures { result.now ≡ take n s.entry.now }
{
    if n < s.len() {
        return &mut s[..n];
    }
    s
}
