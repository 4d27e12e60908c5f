// One sweep over the marks of an index's first entities.
ghost use Rattle.std.specs.Prelude.{◌≡◌, ℕ, Bool, min, pos, ◌&&◌};
ghost use Rattle.terms.specs.Bounds.{most_entities};
ghost use Rattle.terms.specs.declared.mark.Mark.{Mark};
ghost use Rattle.index.specs.declared.mark.MarkRow.{MarkRow};
ghost use Rattle.index.specs.Marks.{four};
ghost use Rattle.index.specs.Sweeps.{rows_in, tally, swept, told_count};

use crate::mark::{Four, MarkRow};
use terms::bounds::MOST_ENTITIES;
use terms::mark::Mark;

// What a call makes of a mark. A trait, and no closure: a public function can't require of one that it may be called.
pub trait Judge {
    ghost judged: { Self → ℕ → Mark → MarkRow → MarkRow };

    ghost tells: { Self → ℕ → Mark → MarkRow → Bool };

    // Changes an entity's mark, and answers whether it counts.
    fn judge(&self, entity: usize, mark: Mark, row: &mut MarkRow) -> bool
        ensures row { row.new ≡ judged self.now entity mark row.old }
        ensures told { result ≡ tells self.now entity mark row.old };
}

// The four marks of an entity. Answers how many count.
fn judge_four<J: Judge>(judge: &J, entity: usize, rows: &mut Four<MarkRow>) -> u64
    ensures rows { four rows.new ≡ (λ m. J.judged judge.now entity m (four rows.old m)) }
    ensures told { result ≡ tally (λ m. J.tells judge.now entity m (four rows.old m)) }
{
    let net_long = judge.judge(entity, Mark::NetLong, &mut rows.net_long);
    let net_short = judge.judge(entity, Mark::NetShort, &mut rows.net_short);
    let gross_long = judge.judge(entity, Mark::GrossLong, &mut rows.gross_long);
    let gross_short = judge.judge(entity, Mark::GrossShort, &mut rows.gross_short);
    u64::from(net_long) + u64::from(net_short) + u64::from(gross_long) + u64::from(gross_short)
}

// The marks of the first entities, of which a table has no more than MOST_ENTITIES. Answers how many count; all others stay.
pub fn sweep<J: Judge>(judge: &J, rows: &mut [Four<MarkRow>; MOST_ENTITIES], entities: usize) -> u64
    ensures rows { rows_in rows.new ≡ swept (min entities most_entities) (J.judged judge.now) (rows_in rows.old) }
    ensures told { result ≡ told_count (min entities most_entities) (J.tells judge.now) (rows_in rows.old) }
{
    let mut told = 0;
    // By number: what is written through `iter_mut().take(..)` can't be known.
    for e in 0..entities.min(MOST_ENTITIES) {
        told += judge_four(judge, e, &mut rows[e]);
    }
    told
}
