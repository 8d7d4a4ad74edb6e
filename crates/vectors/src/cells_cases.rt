// Cases of the crate json_entities: what an entities JSON gives and what the tables then hold.
ghost use Rattle.std.specs.Prelude.{◌↔◌, IsTrue};
ghost use Rattle.vectors.specs.Answers.{IsCells};

use crate::cases::Case;
use crate::packs;
use crate::packs::{Lent, TableLengths};
use format::{Reach, Refusal};

// 0 and the refusal, or 1 and the pack.
fn same_cells(read: Result<Reach, Refusal>, case: Case) -> bool
    ensures { IsTrue result ↔ IsCells case.entry.answer.now read }
{
    match read {
        Ok(sizes) => packs::is_pack(case.answer, sizes),
        Err(e) => case.refuses(e),
    }
}

pub fn agrees(lent: &mut Lent, lengths: TableLengths, case: Case) -> bool {
    lent.refill();
    let (kinds, numbers, texts) = lent.parts(lengths);
    let read = json_entities::read_entities(kinds, numbers, texts, case.input);
    same_cells(read, case) & lent.left_by(case, case.text())
}
