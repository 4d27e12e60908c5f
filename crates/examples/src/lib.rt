// Worked examples: statements about the definitions that the contracts cite, each found by computing.
#![tactic(auto)]

ghost use Rattle.std.specs.Prelude.{◌≡◌};
ghost use Rattle.examples.specs.Worked.{WorkedExamples};

use rules::limit::limit;

// The market-wide limit of a free float of 5,000 with deliveries of 10, 11 and 11, as it is worked out in code. All other examples are
// computed by the definitions alone.
pub fn worked() -> u64
    ensures examples { WorkedExamples }
    ensures limit { result ≡ 693 }
{
    limit(5_000, &[10, 11, 11]).unwrap_or(0)
}
