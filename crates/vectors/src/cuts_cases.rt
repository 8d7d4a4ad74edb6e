// Cases of the crate cuts.
use crate::answers::Expected;
use crate::cases::Case;
use crate::{answers, control, little};
use format::{Log, Refusal};

// One entry more than a body has places.
const PLACES: usize = Log::LINE_LIMIT + 1;

// Cuts into the first `room` entries of a table, which is then looked at whole. A place is eight bytes of the text that is expected.
fn cut_in(room: usize, case: Case, expected: Expected) -> bool {
    let mut table = [77u64; PLACES];
    let cut = cuts::cut_body(little::lent_part(&mut table, room), case.input);
    answers::is_written(cut, 8, expected)
        & answers::numbers_hold(
            &table,
            expected.unwrap_or(&[]),
            case.look(control::OUTPUT, 0),
        )
}

// A table that is longer than needed, one that the places just fill, one that is an entry short.
fn body_case(case: Case) -> bool {
    let n = case.answer.len() / 8;
    let places = Ok(case.answer);
    let full = n.saturating_sub((case.wrong == control::JUST_FULL) as usize);
    let enough = cut_in(PLACES, case, places) & cut_in(full, case, places);
    if n == 0 {
        return enough;
    }
    let short = n - 1 + (case.wrong == control::ONE_SHORT) as usize;
    enough & cut_in(short, case, Err(Some(Refusal::OutputTooShort.into())))
}

// A place is 0, or 1 and four bytes.
pub fn agrees(op: usize, case: Case) -> bool {
    let input = case.input;
    let place = match op {
        1 => return body_case(case),
        2 => cuts::matching_paren(input),
        3 => cuts::matching_brace(input),
        4 => cuts::top_level_char(input, b'{'),
        5 => cuts::split_top_level_once(input),
        6 => cuts::find_unescaped_quote(input),
        7 => return cut_in(PLACES, case, case.expected_refusal()),
        _ => return false,
    };
    case.is_number(5, place.map(|at| at as u64))
}
