// Every contract counts in full.
ghost use Rattle.std.specs.Prelude.{◌≡◌};
ghost use Rattle.delta.specs.Lawfulness.{notional_lawful};
ghost use Rattle.delta.specs.Makes.{notional};

use crate::bounds::DELTA_BOUND;
use crate::source::Delta;
use terms::kind::Kind;

#[derive(Clone, Copy)]
pub struct Notional;

impl Delta for Notional {
    ghost answer = { λ _. notional };

    ghost lawful = { λ _. notional_lawful };

    fn delta(&self, _contract: usize, kind: Kind) -> Option<i32> {
        match kind {
            Kind::Future | Kind::Call => Some(DELTA_BOUND),
            Kind::Put => Some(-DELTA_BOUND),
        }
    }
}
