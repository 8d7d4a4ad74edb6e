// Bytes appended to a lent buffer, read into one, compared, and cleared: what every crate that writes, reads or compares text shares.
// Its callers see to the room, which each `requires` names. Assumes nothing else.
#![tactic(auto)]

ghost use Rattle.std.specs.Prelude.{◌≡◌, true, false, List, [], ◌∷◌, ◌++◌, ℕ, ◌+◌, ◌-◌, ◌≤◌, ◌<◌, IfOk, IfSome, length, get_or, take, replicate};
ghost use Rattle.buffers.specs.Wrote.{Wrote};
ghost use Rattle.buffers.specs.Sink.{SinkLaws, writer_room, Writes, writer_laws, count_room, Counts, count_laws};
ghost use Rattle.buffers.specs.Same.{same as same_bytes};

use std::io::Read;
use std::{io, mem};

// The first place from `at` on whose byte passes the test, or the length where none does. No `Option`: every caller cuts at this place, or
// goes on from it.
pub fn find_from<F: Fn(u8) -> bool>(s: &[u8], at: usize, passes: F) -> usize
    requires callable { F.IsAlwaysCallable passes }
    requires start { at ≤ length s.now }
    ensures forward { at ≤ result }
    ensures inside { result ≤ length s.now }
    ensures before { (i : ℕ) → at ≤ i → i < result → F.post passes (get_or s.now i 0) false }
    ensures found { result < length s.now → F.post passes (get_or s.now result 0) true }
{
    match s[at..].iter().position(|&b| passes(b)) {
        Some(n) => at + n,
        None => s.len(),
    }
}

// Appends a byte behind the first `at`. The answer is where the text then ends.
#[tactic(auto, using(crate::proofs::Appending::one))]
pub fn append_byte(out: &mut [u8], at: usize, b: u8) -> usize
    requires { at < length out.old }
    ensures { Wrote out.old at out.new result (b ∷ []) }
{
    out[at] = b;
    at + 1
}

// Appends all of s behind the first `at`. The answer is where the text then ends.
#[tactic(auto, using(crate::proofs::Appending::copy_none, crate::proofs::Appending::copy_all))]
pub fn append_bytes(out: &mut [u8], at: usize, s: &[u8]) -> usize
    requires { at + length s.now ≤ length out.old }
    ensures { Wrote out.old at out.new result s.now }
{
    // `copy_from_slice` takes 3 % longer, and asks C's library for memmove.
    for (i, &b) in s.iter().enumerate() {
        out[at + i] = b;
    }
    at + s.len()
}

// A lent buffer, and where its text ends.
#[derive(Drop)]
pub struct Writer<'a> {
    pub out: &'a mut [u8],
    pub end: usize,
}

// A text that is only counted.
#[derive(Drop)]
pub struct Count {
    pub count: usize,
}

// Where a text goes, piece by piece. `room` says that so many bytes more have room, and `put` that a text was put behind what was there.
pub trait Sink: Drop {
    ghost room: { Self → ℕ → Type 0 };

    ghost put: { Self → List ℕ → Self → Type 0 };

    ghost laws: { SinkLaws room put };

    fn push(&mut self, b: u8)
        requires { room self.old 1 }
        ensures { put self.old (b ∷ []) self.new };

    fn append(&mut self, s: &[u8])
        requires { room self.old (length s.now) }
        ensures { put self.old s.now self.new };

    // The sink itself; the one that it is taken from is not used until it is put back. A walk keeps it in registers so.
    fn take(&mut self) -> Self
        ensures { result ≡ self.old };
}

impl Sink for Writer<'_> {
    ghost room = { writer_room };

    ghost put = { Writes };

    ghost laws = { writer_laws };

    fn push(&mut self, b: u8) {
        self.end = append_byte(self.out, self.end, b);
    }

    fn append(&mut self, s: &[u8]) {
        // a loop over `self.out` takes 25 to 54 % longer
        self.end = append_bytes(self.out, self.end, s);
    }

    fn take(&mut self) -> Self {
        let out = mem::take(&mut self.out);
        Writer { out, end: self.end }
    }
}

impl Sink for Count {
    ghost room = { count_room };

    ghost put = { Counts };

    ghost laws = { count_laws };

    fn push(&mut self, _b: u8) {
        self.count += 1;
    }

    fn append(&mut self, s: &[u8]) {
        self.count += s.len();
    }

    fn take(&mut self) -> Self {
        Count { count: self.count }
    }
}

// Are the two texts equal, byte for byte?
#[tactic(auto, using(crate::proofs::Equal::same_bytewise))]
pub fn same(a: &[u8], b: &[u8]) -> bool
    ensures { result ≡ same_bytes a.now b.now }
{
    // `==` takes 5 to 24 % longer.
    if a.len() != b.len() {
        return false;
    }
    for i in 0..a.len() {
        if a[i] != b[i] {
            return false;
        }
    }
    true
}

// Zeros from `from` on, in bytes.
pub fn zero8(bytes: &mut [u8], from: usize)
    requires { from ≤ length bytes.old }
    ensures { bytes.new ≡ take from bytes.old ++ replicate (length bytes.old - from) 0 }
{
    bytes[from..].fill(0);
}

// The same in numbers.
pub fn zero64(numbers: &mut [u64], from: usize)
    requires { from ≤ length numbers.old }
    ensures { numbers.new ≡ take from numbers.old ++ replicate (length numbers.old - from) 0 }
{
    numbers[from..].fill(0);
}

// Reads until the input ends or the buffer is full. The answer is how many bytes stand at the start of the buffer then.
pub fn read_all<R: Read>(input: &mut R, buffer: &mut [u8]) -> io::Result<usize>
    ensures within { IfOk result (λ n. n ≤ length buffer.new) }
    ensures bytes { IfOk result (λ n. IfSome (R.remaining input.old) (λ s. take n buffer.new ≡ take (length buffer.new) s)) }
{
    let mut done: usize = 0;
    // no `for`: each read says how far it came
    while done < buffer.len() {
        let more = input.read(&mut buffer[done..])?;
        if more == 0 {
            break;
        }
        done += more;
    }
    Ok(done)
}
