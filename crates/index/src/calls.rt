// The calls of an index's day, by what each makes of a mark.
ghost use Rattle.std.specs.Prelude.{◌≡◌};
ghost use Rattle.index.specs.Values.{reading_in};
ghost use Rattle.index.specs.Calls.{rule_of, judged_by, told_by, settled_by, final_by, cover_in};

use crate::day::Round;
use crate::mark::{MarkRow, limit_for};
use crate::sweep::Judge;
use crate::value::value_for;
use cover::source::Cover;
use terms::bounds::MOST_ENTITIES;
use terms::limits::Limits;
use terms::mark::Mark;

// What a snapshot or a cure does to a mark.
#[derive(Clone, Copy, PartialEq, Eq, Debug)]
pub enum Rule {
    // A regular snapshot sights it.
    Sight,
    // A final snapshot makes it provisional.
    Finish,
    // A cure makes it provisional where it is sighted.
    Cure,
}

impl Rule {
    // What a snapshot does.
    pub fn of(round: Round) -> Rule
        ensures { result ≡ rule_of round }
    {
        match round {
            Round::Regular => Rule::Sight,
            Round::Final => Rule::Finish,
        }
    }
}

// A snapshot or a cure: the limits, a price, and each entity's net, long and short, which are asked for once for all four marks.
#[derive(Clone, Copy)]
pub struct Watch<'r> {
    pub rule: Rule,
    pub limits: Limits,
    pub price: u64,
    pub readings: &'r [(i64, i64, i64); MOST_ENTITIES],
}

impl<'r> Watch<'r> {
    // An entity's net, long and short.
    fn reading(&self, entity: usize) -> (i64, i64, i64)
        ensures { result ≡ reading_in self.now.readings.now entity }
    {
        let readings = self.readings;
        readings.get(entity).copied().unwrap_or((0, 0, 0))
    }
}

impl<'r> Judge for Watch<'r> {
    ghost judged = { λ s. judged_by s.rule s.limits s.price (reading_in s.readings.now) };

    ghost tells = { λ s. told_by s.rule s.limits s.price (reading_in s.readings.now) };

    fn judge(&self, entity: usize, mark: Mark, row: &mut MarkRow) -> bool {
        let limit = limit_for(self.limits, mark);
        let value = value_for(self.reading(entity), self.price, mark);
        match self.rule {
            Rule::Sight => row.sight(limit, value),
            Rule::Finish => row.finish(limit, value),
            Rule::Cure => row.cure(limit, value),
        }
    }
}

// A settlement of an index: the limits and a cover.
#[derive(Clone, Copy)]
pub struct Settlement<'c, C: Cover> {
    pub limits: Limits,
    pub cover: &'c C,
    pub index: usize,
}

impl<'c, C: Cover> Judge for Settlement<'c, C> {
    ghost judged = { λ s. settled_by s.limits (cover_in (C.Cover.amount s.cover.now) s.index) };

    ghost tells = { λ s. final_by s.limits (cover_in (C.Cover.amount s.cover.now) s.index) };

    fn judge(&self, entity: usize, mark: Mark, row: &mut MarkRow) -> bool {
        row.settle(
            limit_for(self.limits, mark),
            self.cover.cover(entity, self.index, mark.side()),
        )
    }
}
