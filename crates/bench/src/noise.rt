// Numbers that look random, the same for the same seed on both sides (splitmix64).
ghost use Rattle.std.specs.Prelude.{◌<◌, ◌≤◌, ◌*◌, ◌^◌, unsigned_abs};

#[derive(Drop)]
pub(crate) struct Noise {
    state: u64,
}

impl Noise {
    pub(crate) fn new(seed: u64) -> Noise {
        Noise { state: seed }
    }

    fn next(&mut self) -> u64 {
        self.state = self.state.wrapping_add(0x9e37_79b9_7f4a_7c15);
        let mixed = (self.state ^ (self.state >> 30)).wrapping_mul(0xbf58_476d_1ce4_e5b9);
        let mixed = (mixed ^ (mixed >> 27)).wrapping_mul(0x94d0_49bb_1331_11eb);
        mixed ^ (mixed >> 31)
    }

    pub(crate) fn below(&mut self, n: u64) -> u64
        requires { 0 < n }
        ensures { result < n }
    {
        self.next() % n
    }

    // From -most to most.
    pub(crate) fn within(&mut self, most: u32) -> i64
        ensures { unsigned_abs result ≤ most }
    {
        self.below(2 * u64::from(most) + 1) as i64 - i64::from(most)
    }
}
