// Cases of the crate values: a value's pack, compared with the oracle's.
ghost use Rattle.std.specs.Prelude.{◌↔◌, IsTrue};
ghost use Rattle.vectors.specs.Looks.{IsValue};

use crate::cases::Case;
use crate::packs;
use crate::packs::Lent;
use format::{Log, Reach, Refusal};
use pack::Tables;

// 0 and the refusal, or 1 and the pack. Of what stands behind it in the tables nothing is promised.
fn same_value(read: Result<Reach, Refusal>, lent: &Lent, case: Case) -> bool
    ensures { IsTrue result ↔ IsValue lent.now.kinds lent.now.numbers lent.now.texts case.entry.wrong case.entry.answer.now read }
{
    match read {
        Ok(reach) => {
            packs::is_pack(case.answer, reach)
                & packs::hold(lent.front(reach), case, case.text(), reach)
        }
        Err(e) => case.refuses(e),
    }
}

pub fn agrees(lent: &mut Lent, case: Case) -> bool {
    if case.input.len() > Log::LINE_LIMIT {
        return false;
    }
    lent.refill();
    let mut links = [77u16; Log::LINKS];
    let mut tables = Tables {
        kinds: &mut lent.kinds,
        numbers: &mut lent.numbers,
        texts: &mut lent.texts,
        reach: Reach::default(),
    };
    let read = values::parse_value(&mut tables, &mut links, case.input);
    let reach = tables.reach;
    same_value(read.map(|_| reach), lent, case)
}
