// What the last line counts.

#[derive(Clone, Copy, Default, Debug)]
pub(crate) struct Tally {
    pub lines: u64,
    pub accepted: u64,
    pub refused: u64,
    pub malformed: u64,
}

impl Tally {
    pub(crate) fn count_line(&mut self) {
        self.lines = self.lines.saturating_add(1);
    }

    pub(crate) fn count_call(&mut self, accepted: bool) {
        let calls = if accepted {
            &mut self.accepted
        } else {
            &mut self.refused
        };
        *calls = calls.saturating_add(1);
    }

    pub(crate) fn count_malformed(&mut self) {
        self.malformed = self.malformed.saturating_add(1);
    }
}
