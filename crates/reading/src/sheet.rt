// The deltas of an underlying's contracts, each asked for once.
ghost use Rattle.std.specs.Prelude.{ℕ, ◌≤◌, pos, slice_index_or, unsigned_abs, Some};
ghost use Rattle.delta.specs.Sources.{delta_bound};
ghost use Rattle.book.specs.Holding.{or_zero};

use terms::bounds::MOST_CONTRACTS;

// What a unit of each contract weighs, or none where it lacks a delta. A contract of another underlying weighs nothing, and lacks nothing.
#[derive(Drop)]
pub struct Sheet {
    pub(crate) deltas: [Option<i32>; MOST_CONTRACTS],
    ghost bounded: { (c : ℕ) → unsigned_abs (or_zero (slice_index_or deltas c (Some (pos 0)))) ≤ delta_bound },
}
