// Cases of the crate logs: how a log is judged, and that the tables then hold nothing of it.
ghost use Rattle.std.specs.Prelude.{◌↔◌, IsTrue};
ghost use Rattle.vectors.specs.Answers.{IsJudged};

use crate::cases::Case;
use crate::packs::{Lent, TableLengths};
use crate::{answers, little};
use logs::LineRefusal;

// 0, the refusal and its line in four bytes, or 1 and the count of events in four bytes.
fn same_judged(judged: Result<usize, LineRefusal>, case: Case) -> bool
    ensures { IsTrue result ↔ IsJudged case.entry.answer.now judged }
{
    match judged {
        Ok(count) => case.is(5, 1, count as u64),
        Err(LineRefusal { refusal, line }) => {
            (little::byte(case.answer, 0) == 0)
                & answers::is(
                    little::rest_of(case.answer, 1),
                    5,
                    answers::number(refusal),
                    line as u64,
                )
        }
    }
}

pub fn agrees(lent: &mut Lent, lengths: TableLengths, case: Case) -> bool {
    lent.refill();
    let (kinds, numbers, texts) = lent.parts(lengths);
    let judged = logs::judge(kinds, numbers, texts, case.input);
    same_judged(judged, case) & lent.left_by(case, &[])
}
