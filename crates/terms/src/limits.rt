// The two limits that a monitor is opened with.

// In paise.
#[derive(Clone, Copy, PartialEq, Eq, Debug)]
pub struct Limits {
    pub net: u64,
    pub gross: u64,
}
