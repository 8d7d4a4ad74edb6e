// A case, and what its answer says.
ghost use Rattle.std.specs.Prelude.{◌≡◌, ◌≢◌, ◌↔◌, IsTrue, MatchOption, [], ◌∷◌, length, drop};
ghost use Rattle.std.specs.Result.{result_map_both};
ghost use Rattle.vectors.specs.Answers.{IsAnswer, IsNumber, HasText, Refuses, text_of, expected_refusal};
ghost use Rattle.vectors.specs.Looks.{look_at, HoldsOutput};

use crate::answers::Expected;
use crate::control::Look;
use crate::{answers, control, little};
use format::Refusal;

// What the oracle was asked, what it answered, and which look is to expect something wrong.
#[derive(Clone, Copy)]
pub struct Case<'a> {
    pub input: &'a [u8],
    pub answer: &'a [u8],
    pub wrong: usize,
}

impl<'a> Case<'a> {
    // The same, of an input that begins n bytes further on.
    pub fn behind(self, n: usize) -> Case<'a>
        ensures input { result.input.now ≡ drop n self.entry.input.now }
        ensures answer { result.answer.now ≡ self.entry.answer.now }
        ensures wrong { result.wrong ≡ self.entry.wrong }
    {
        Case {
            input: little::rest_of(self.input, n),
            ..self
        }
    }

    // Is the answer so many bytes, at most nine: this one, and a number in the others?
    pub fn is(self, size: usize, first: u64, number: u64) -> bool
        ensures { IsTrue result ↔ IsAnswer self.entry.answer.now size first number }
    {
        answers::is(self.answer, size, first, number)
    }

    // Is the answer 0 where there is no number, and else so many bytes: 1 and the number?
    pub fn is_number(self, size: usize, number: Option<u64>) -> bool
        ensures { IsTrue result ↔ IsNumber self.entry.answer.now size number }
    {
        match number {
            Some(n) => self.is(size, 1, n),
            None => self.is(1, 0, 0),
        }
    }

    // Is the answer 0 and this refusal?
    pub fn refuses(self, refusal: Refusal) -> bool
        ensures { IsTrue result ↔ Refuses self.entry.answer.now refusal }
    {
        self.is(2, 0, answers::number(refusal))
    }

    // Is the answer 1 and a text of this length?
    pub fn has_text(self, n: usize) -> bool
        ensures { IsTrue result ↔ HasText self.entry.answer.now n }
    {
        (little::byte(self.answer, 0) == 1) & (little::rest_of(self.answer, 1).len() == n)
    }

    // What is to be written: what the answer has behind a first byte 1, or nothing. No `Option`: each caller compares what was written
    // with it, and where the answer has no text nothing may be written.
    pub fn text(self) -> &'a [u8]
        ensures { result.now ≡ text_of self.entry.answer.now }
    {
        if little::byte(self.answer, 0) == 1 {
            return little::rest_of(self.answer, 1);
        }
        &[]
    }

    // The number of the refusal that the answer is; none where it is no single byte.
    pub fn refusal(self) -> Option<u8>
        ensures { MatchOption result (length self.entry.answer.now ≢ 1) (λ n. self.entry.answer.now ≡ n ∷ []) }
    {
        match self.answer {
            [number] => Some(*number),
            _ => None,
        }
    }

    // What is expected of a call that is to be refused: the refusal that the answer is; nothing written where the answer is empty.
    pub fn expected_refusal(self) -> Expected<'a>
        ensures { result_map_both (λ text. text.now) (λ n. n) result ≡ expected_refusal self.entry.answer.now }
    {
        if self.answer.is_empty() {
            return Ok(self.answer);
        }
        Err(self.refusal())
    }

    // The look of this case at a table that is cleared before the place `used`.
    pub fn look(self, table: usize, used: usize) -> Look
        ensures { result ≡ look_at table used self.entry.wrong }
    {
        Look {
            table,
            used,
            wrong: self.wrong,
        }
    }

    // Does an output, of which nothing is cleared, hold this text and nothing else?
    pub fn output_holds(self, out: &[u8], text: &[u8]) -> bool
        ensures { IsTrue result ↔ HoldsOutput out.now text.now self.entry.wrong }
    {
        answers::bytes_hold(out, text, self.look(control::OUTPUT, 0))
    }
}
