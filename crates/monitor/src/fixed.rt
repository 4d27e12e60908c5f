// What stays as it was at the opening.
ghost use Rattle.std.specs.Prelude.{◌≡◌};
ghost use Rattle.model.specs.Opening.{is_open};
ghost use Rattle.monitor.specs.Listed.{terms_in};

use crate::listing::Terms;

// A flag, and no Option of the terms: a monitor that is not open keeps them too, and answers CLOSED.
#[derive(Drop)]
pub struct Fixed<'t> {
    pub(crate) terms: Terms<'t>,
    pub(crate) live: bool,
    ghost decided: { live ≡ is_open (terms_in terms) },
}
