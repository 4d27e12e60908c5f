// A key, and what is kept under it.
#[derive(Clone, Copy, PartialEq, Eq, Debug)]
pub struct Row<V> {
    pub key: u64,
    pub value: V,
}
