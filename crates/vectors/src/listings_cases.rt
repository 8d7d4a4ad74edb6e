// Cases of the crate listing: what a line lists, and what the output and the tables then hold.
ghost use Rattle.std.specs.Prelude.{◌↔◌, IsTrue};
ghost use Rattle.vectors.specs.Answers.{IsListed};

use crate::cases::Case;
use crate::packs::{Lent, TableLengths};
use crate::{answers, little};
use format::Refusal;

// 0 and the refusal, or 1 and the listing, or 2 for a blank line. Beside `same_line`, which says why.
fn same_listed(listed: Result<Option<usize>, Refusal>, case: Case) -> bool
    ensures { IsTrue result ↔ IsListed case.entry.answer.now listed }
{
    match listed {
        Ok(Some(n)) => case.has_text(n),
        Ok(None) => case.is(1, 2, 0),
        Err(e) => case.refuses(e),
    }
}

// The event's number in eight bytes, the length of the output in four, then the line.
pub fn agrees(lent: &mut Lent, lengths: TableLengths, case: Case) -> bool {
    let number = little::eight(case.input, 0);
    let room = little::four(case.input, 8) as usize;
    let line = little::rest_of(case.input, 12);
    lent.refill();
    let mut out = [77u8; answers::OUTPUT];
    let (kinds, numbers, texts) = lent.parts(lengths);
    let part = little::lent_part(&mut out, room);
    let listed = listing::list_line(kinds, numbers, texts, part, line, number);
    (room <= answers::OUTPUT)
        & same_listed(listed, case)
        & case.output_holds(&out, case.text())
        & lent.left_by(case, &[])
}
