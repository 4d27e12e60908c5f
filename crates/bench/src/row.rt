// The rows, by name.
use crate::books::{Work, on_grid, on_list};
use crate::charges::charges;
use crate::digest::Measured;

#[derive(Clone, Copy, PartialEq, Eq, Debug)]
pub(crate) enum Row {
    PostsGrid,
    PostsList,
    IndexGrid,
    IndexList,
    CloseGrid,
    CloseList,
    Charges,
}

impl Row {
    pub(crate) const ALL: [Row; 7] = [
        Row::PostsGrid,
        Row::PostsList,
        Row::IndexGrid,
        Row::IndexList,
        Row::CloseGrid,
        Row::CloseList,
        Row::Charges,
    ];

    pub(crate) fn name(self) -> &'static str {
        match self {
            Row::PostsGrid => "posts-grid",
            Row::PostsList => "posts-list",
            Row::IndexGrid => "index-grid",
            Row::IndexList => "index-list",
            Row::CloseGrid => "close-grid",
            Row::CloseList => "close-list",
            Row::Charges => "limit-charge",
        }
    }

    pub(crate) fn named(word: &str) -> Option<Row> {
        Row::ALL.into_iter().find(|row| row.name() == word)
    }

    pub(crate) fn measure(self, rt: &HostRuntime, rounds: u64) -> anyhow::Result<Measured> {
        match self {
            Row::PostsGrid => on_grid(rt, Work::Posts, rounds),
            Row::PostsList => on_list(rt, Work::Posts, rounds),
            Row::IndexGrid => on_grid(rt, Work::Index, rounds),
            Row::IndexList => on_list(rt, Work::Index, rounds),
            Row::CloseGrid => on_grid(rt, Work::Close, rounds),
            Row::CloseList => on_list(rt, Work::Close, rounds),
            Row::Charges => charges(rt, rounds),
        }
    }
}
