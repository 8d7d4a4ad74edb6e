// Cases of the crate chars.
ghost use Rattle.std.specs.Prelude.{◌↔◌, IsTrue};
ghost use Rattle.vectors.specs.Answers.{IsChar};

use crate::cases::Case;
use crate::{answers, little};

// 0, or 1, the code point in four bytes and the width.
fn same_char(found: Option<(u32, usize)>, case: Case) -> bool
    ensures { IsTrue result ↔ IsChar case.entry.answer.now found }
{
    match found {
        Some((c, n)) => {
            answers::is(little::first_part(case.answer, 5), 5, 1, c as u64)
                & answers::is(little::rest_of(case.answer, 5), 1, n as u64, 0)
        }
        None => case.is(1, 0, 0),
    }
}

pub fn agrees(op: usize, case: Case) -> bool {
    match op {
        1 => case.is(1, chars::is_utf8(case.input) as u64, 0),
        2 => buffers::same(chars::trim(case.input), case.answer),
        3 => same_char(chars::decode_char(case.input, 0), case),
        4 => case.is(1, chars::is_blank(case.input) as u64, 0),
        _ => false,
    }
}
