// Cases of the crate numbers.
use crate::cases::Case;

// An integer is 0, or 1 and eight bytes.
pub fn agrees(op: usize, case: Case) -> bool {
    match op {
        1 => case.is_number(9, numbers::parse_i64(case.input)),
        2 => case.is(1, numbers::is_decimal(case.input) as u64, 0),
        _ => false,
    }
}
