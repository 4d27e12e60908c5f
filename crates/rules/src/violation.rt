// What an entity violates in a ban: x is its net of base quantities, y its net of book quantities.
ghost use Rattle.std.specs.Prelude.{◌≡◌};
ghost use Rattle.rules.specs.Violation.{between, opposite, violation};

// Whether y lies between 0 and x, ends included.
pub fn lies_between(x: i64, y: i64) -> bool
    ensures { result ≡ between x y }
{
    (0..=x).contains(&y) || (x..=0).contains(&y)
}

// Whether one is long and the other short.
fn are_opposite(x: i64, y: i64) -> bool
    ensures { result ≡ opposite x y }
{
    (x < 0 && 0 < y) || (y < 0 && 0 < x)
}

// The violated quantity, 0 where there is no violation: a number and no Option, since the rules charge by that 0 too.
pub fn violated(x: i64, y: i64) -> u64
    ensures { result ≡ violation x y }
{
    if lies_between(x, y) {
        0
    } else if are_opposite(x, y) {
        y.unsigned_abs()
    } else {
        y.abs_diff(x)
    }
}
