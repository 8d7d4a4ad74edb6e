// Cases of the crate lines: what a line gives and what the tables then hold.
ghost use Rattle.std.specs.Prelude.{◌↔◌, IsTrue};
ghost use Rattle.vectors.specs.Answers.{IsRead};

use crate::cases::Case;
use crate::packs;
use crate::packs::{Lent, TableLengths};
use format::{Reach, Refusal};

// 0 and the refusal, or 1 and the pack, or 2 for a blank line. One function for this and `same_listed` would take the first arm as a closure.
fn same_line(read: Result<Option<Reach>, Refusal>, case: Case) -> bool
    ensures { IsTrue result ↔ IsRead case.entry.answer.now read }
{
    match read {
        Ok(Some(sizes)) => packs::is_pack(case.answer, sizes),
        Ok(None) => case.is(1, 2, 0),
        Err(e) => case.refuses(e),
    }
}

pub fn agrees(lent: &mut Lent, lengths: TableLengths, case: Case) -> bool {
    lent.refill();
    let (kinds, numbers, texts) = lent.parts(lengths);
    let read = lines::read_line(kinds, numbers, texts, case.input);
    same_line(read, case) & lent.left_by(case, case.text())
}
