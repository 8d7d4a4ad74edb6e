// Cases of the crate merging: what two logs merge into, and what the output and the tables then hold.
ghost use Rattle.std.specs.Prelude.{◌↔◌, IsTrue};
ghost use Rattle.vectors.specs.Answers.{IsMerged};

use crate::cases::Case;
use crate::packs::{Lent, TableLengths};
use crate::{answers, little};
use format::Log;
use merging::MergeRefusal;

// How long the output is: longer than any merged log.
const OUTPUT: usize = Log::TEXT_LIMIT + 16;

// 0, the refusal, its log, and its line in four bytes; or 1 and the merged log.
fn same_merged(merged: Result<usize, MergeRefusal>, case: Case) -> bool
    ensures { IsTrue result ↔ IsMerged case.entry.answer.now merged }
{
    match merged {
        Ok(n) => case.has_text(n),
        Err(MergeRefusal { refusal, log, line }) => {
            let (first, rest) = (
                little::first_part(case.answer, 2),
                little::rest_of(case.answer, 2),
            );
            answers::is(first, 2, 0, answers::number(refusal))
                & answers::is(rest, 5, u64::from(log), line as u64)
        }
    }
}

// The lengths of the output and of the first log in four bytes each, then both logs.
pub fn agrees(lent: &mut Lent, lengths: TableLengths, case: Case) -> bool {
    let room = little::four(case.input, 0) as usize;
    let size = little::four(case.input, 4) as usize;
    let first = little::part(case.input, 8, size);
    let second = little::rest_of(case.input, 8 + size);
    lent.refill();
    let mut out = [77u8; OUTPUT];
    let (kinds, numbers, texts) = lent.parts(lengths);
    let part = little::lent_part(&mut out, room);
    let merged = merging::merge(kinds, numbers, texts, part, first, second);
    (room <= OUTPUT)
        & (first.len() == size)
        & same_merged(merged, case)
        & case.output_holds(&out, case.text())
        & lent.left_by(case, &[])
}
