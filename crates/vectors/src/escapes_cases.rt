// Cases of the crates escapes and keys.
use crate::answers::Expected;
use crate::cases::Case;
use crate::{answers, little};

fn decode_case(case: Case, expected: Expected) -> bool {
    let mut out = [77u8; answers::OUTPUT];
    let decoded = escapes::decode(&mut out, case.input);
    answers::is_written(decoded, 1, expected) & case.output_holds(&out, expected.unwrap_or(&[]))
}

// The input is a type of so many bytes, and then the id.
fn key_case(case: Case, size: u64, expected: Expected) -> bool {
    let ty = little::first_part(case.input, size as usize);
    let id = little::rest_of(case.input, size as usize);
    let mut out = [77u8; answers::OUTPUT];
    let spelled = keys::spell_key(&mut out, ty, id);
    answers::is_written(spelled, 1, expected) & case.output_holds(&out, expected.unwrap_or(&[]))
}

pub fn agrees(op: usize, case: Case) -> bool {
    let text = Ok(case.answer);
    let refusal = case.expected_refusal();
    match op {
        1 => decode_case(case, text),
        2 => key_case(case.behind(2), little::two(case.input, 0), text),
        3 => decode_case(case, refusal),
        4 => key_case(case.behind(4), little::four(case.input, 0), refusal),
        _ => false,
    }
}
