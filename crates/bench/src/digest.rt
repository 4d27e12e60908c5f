// A running digest of answers, so that none is left out.
use std::time::Instant;
use terms::refusal::Refusal;

#[derive(Drop)]
pub(crate) struct Digest {
    value: u64,
}

// A row's digest, and how long its rounds took.
#[derive(Clone, Copy)]
pub(crate) struct Measured {
    pub(crate) digest: u64,
    pub(crate) nanos: u128,
}

impl Digest {
    pub(crate) fn new() -> Digest {
        Digest { value: 0 }
    }

    pub(crate) fn note(&mut self, value: u64) {
        self.value = self.value.wrapping_mul(31).wrapping_add(value);
    }

    pub(crate) fn answer(&mut self, answer: Result<i64, Refusal>) {
        self.note(match answer {
            Ok(value) => value.cast_unsigned(),
            Err(cause) => 1_000 + u64::from(cause.number()),
        });
    }

    // The row, whose rounds began at `start` and end now.
    pub(crate) fn measured(self, rt: &HostRuntime, start: Instant) -> anyhow::Result<Measured> {
        let nanos = start.elapsed(rt)?.as_nanos();
        Ok(Measured {
            digest: self.value,
            nanos,
        })
    }
}
