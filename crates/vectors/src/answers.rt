// What the oracle answered beside what our functions gave and wrote.
ghost use Rattle.std.specs.Prelude.{◌≡◌, ◌↔◌, IsTrue, slice_index_or};
ghost use Rattle.std.specs.Result.{result_map_both};
ghost use Rattle.format.specs.Refusals.{number};
ghost use Rattle.vectors.specs.Answers.{IsAnswer, IsWritten};
ghost use Rattle.vectors.specs.Looks.{unwritten as unwritten_at, number_there as number_there_of, HoldsBytes, HoldsNumbers};

use crate::control::Look;
use crate::little;
use format::Refusal;

// How long an output is: longer than any answer.
pub const OUTPUT: usize = 32_768;

// What is expected of a call that writes: this text, or the refusal of this number, none where the stored answer has no refusal's form.
pub type Expected<'a> = Result<&'a [u8], Option<u8>>;

// The number of a refusal.
pub fn number(refusal: Refusal) -> u64
    ensures { result ≡ number refusal }
{
    u64::from(u8::from(refusal))
}

// Is the answer so many bytes, at most nine: this one, and a number in the others?
pub fn is(answer: &[u8], size: usize, first: u64, number: u64) -> bool
    ensures { IsTrue result ↔ IsAnswer answer.now size first number }
{
    (answer.len() == size)
        & (little::byte(answer, 0) == first)
        & (little::eight(answer, 1) == number)
}

// Did a call write as many entries of so many bytes as are expected, or refuse as expected?
pub fn is_written(written: Result<usize, Refusal>, size: usize, expected: Expected) -> bool
    ensures { IsTrue result ↔ IsWritten size written (result_map_both (λ text. text.now) (λ n. n) expected.entry) }
{
    match (written, expected) {
        (Ok(n), Ok(text)) => n.checked_mul(size) == Some(text.len()),
        (Err(e), Err(number)) => number == Some(e.into()),
        _ => false,
    }
}

// What an entry of a table of bytes is to be: the text's byte, or what stands where nothing was written.
fn byte_there(text: &[u8], look: Look, at: usize) -> u64
    ensures { result ≡ slice_index_or text.now at (unwritten_at look at) }
{
    let unwritten = look.unwritten(at);
    text.get(at).map_or(unwritten, |&b| u64::from(b))
}

// What an entry of a table of numbers is to be: that of eight bytes of the text, or what stands where nothing was written.
#[tactic(auto, unfolding(crate::specs::Looks::number_there))]
fn number_there(text: &[u8], look: Look, at: usize) -> u64
    ensures { result ≡ number_there_of text.now look at }
{
    if at < text.len() / 8 {
        return little::eight(text, at * 8);
    }
    look.unwritten(at)
}

// Does a table of bytes hold this text and nothing else?
pub fn bytes_hold(s: &[u8], text: &[u8], look: Look) -> bool
    ensures { IsTrue result ↔ HoldsBytes s.now text.now look }
{
    let mut same = text.len() <= s.len();
    // no `all`: with it the program takes a fifth longer
    for (i, &b) in s.iter().enumerate() {
        same = same & (u64::from(b) == byte_there(text, look, i));
    }
    same
}

// Does a table of numbers hold those of this text, eight bytes each, and nothing else? One function for this and `bytes_hold` would take
// two closures for two lines.
pub fn numbers_hold(s: &[u64], text: &[u8], look: Look) -> bool
    ensures { IsTrue result ↔ HoldsNumbers s.now text.now look }
{
    let mut same = text.len() / 8 <= s.len();
    // no `all`, as above
    for (i, &number) in s.iter().enumerate() {
        same = same & (number == number_there(text, look, i));
    }
    same
}
