// Rows in ascending order of key, in the first places of a lent slice.
ghost use Rattle.std.specs.Prelude.{◌≡◌, ◌+◌, ◌-◌, ◌<◌, ◌≤◌, length, take, MatchResult, if◌then◌else◌, nat_le};
ghost use Rattle.std.specs.List.{insert, remove as without};
ghost use Rattle.book.specs.Places.{Ascending, Bracket, Found, Gap};
ghost use Rattle.book.specs.Tables.{size, value_of, emptied, put_reply, putted, removed};

use crate::row::Row;
use std::cmp::Ordering;
use std::marker::Model;
use std::mem;
use terms::refusal::Refusal;

// The places, of which the first `len` are in use: lent, so that a register has no memory of its own, and no map or Vec.
#[derive(Drop)]
pub struct Register<'a, V> {
    rows: &'a mut [Row<V>],
    len: usize,
}

// In a clause a register is the table of the rows in use.
impl<'a, V> Model for Register<'a, V> {
    ghost use Rattle.book.specs.Tables.{Table, table_code};

    ghost Value = { Table V };

    ghost coded = { table_code V.code };

    ghost use Rattle.book.specs.Places.{table, Kept};

    ghost view = { table };

    ghost invariant = { Kept };
}

// One more than the largest key.
const KEYS: u128 = 1 << 64;

// 1 where a row's key is at or below another, else 0. By arithmetic: a search's comparisons can't be foretold, and a branch on each
// makes it three times slower.
fn reached(row: u64, key: u64) -> usize
    ensures { result ≡ (if nat_le row key then 1 else 0) }
{
    ((KEYS + u128::from(key) - u128::from(row)) / KEYS) as usize
}

// The place of the last row whose key is at or below another, or the first place where there is none.
fn last_reached<V>(rows: &[Row<V>], key: u64) -> usize
    requires order { Ascending rows.now }
    requires some { 0 < length rows.now }
    ensures { Bracket rows.now key result 1 }
{
    let mut base = 0;
    let mut size = rows.len();
    // The rows from base on, so that a step needs no sum to find its row. Three rows at a time are loaded side by side.
    let mut rest = rows;
    'quarters: while size > 3 {
        let quarter = size / 4;
        let passed = reached(rest[quarter].key, key)
            + reached(rest[2 * quarter].key, key)
            + reached(rest[3 * quarter].key, key);
        let step = quarter * passed;
        rest = &rest[step..];
        base += step;
        size -= 3 * quarter;
    }
    'halves: while size > 1 {
        let half = size / 2;
        let step = half * reached(rest[half].key, key);
        rest = &rest[step..];
        base += step;
        size -= half;
    }
    base
}

// The place of a key, or the place that it would have.
fn locate<V>(rows: &[Row<V>], key: u64) -> Result<usize, usize>
    requires { Ascending rows.now }
    ensures { MatchResult result (Found rows.now key) (Gap rows.now key) }
{
    if rows.is_empty() {
        return Err(0);
    }
    let at = last_reached(rows, key);
    match rows[at].key.cmp(&key) {
        Ordering::Equal => Ok(at),
        Ordering::Less => Err(at + 1),
        Ordering::Greater => Err(at),
    }
}

// Puts a row in at a place of the first `len`, and moves the rows from there on up by one.
fn insert_at<V: Copy>(rows: &mut [Row<V>], len: &mut usize, at: usize, row: Row<V>)
    requires free { len.old < length rows.old }
    requires within { at ≤ len.old }
    ensures len { len.new ≡ len.old + 1 }
    ensures capacity { length rows.new ≡ length rows.old }
    ensures rows { take len.new rows.new ≡ insert (take len.old rows.old) at row }
{
    rows[*len] = row;
    *len += 1;
    rows[at..*len].rotate_right(1);
}

// Takes the row at a place of the first `len` out, and moves the rows after it down by one.
fn remove_at<V: Copy>(rows: &mut [Row<V>], len: &mut usize, at: usize)
    requires room { len.old ≤ length rows.old }
    requires within { at < len.old }
    ensures len { len.new ≡ len.old - 1 }
    ensures capacity { length rows.new ≡ length rows.old }
    ensures rows { take len.new rows.new ≡ without (take len.old rows.old) at }
{
    rows[at..*len].rotate_left(1);
    *len -= 1;
}

impl<'a, V: Copy> Register<'a, V> {
    // An empty register over the places handed in.
    pub fn new(rows: &'a mut [Row<V>]) -> Register<'a, V>
        ensures { result ≡ emptied (length rows.old) }
    {
        Register { rows, len: 0 }
    }

    // How many keys may have a value.
    pub(crate) fn capacity(&self) -> usize
        ensures { result ≡ self.now.capacity }
    {
        self.rows.len()
    }

    // How many keys have a value: no more than may have one, in every register that there is.
    pub fn len(&self) -> usize
        ensures value { result ≡ size self.now }
        ensures within { size self.now ≤ self.now.capacity }
    {
        self.len
    }

    // The value of a key, or none.
    pub fn find(&self, key: u64) -> Option<V>
        ensures { result ≡ value_of self.now key }
    {
        let rows = &self.rows[..self.len];
        let at = locate(rows, key).ok()?;
        Some(rows[at].value)
    }

    // Gives a key a value and answers the one that it replaces, or none; a new key is declined where the register is full.
    pub fn put(&mut self, key: u64, value: V) -> Result<Option<V>, Refusal>
        ensures answer { result ≡ put_reply self.old key }
        ensures state { self.new ≡ putted self.old key value }
    {
        let rows = &mut *self.rows;
        match locate(&rows[..self.len], key) {
            Ok(at) => Ok(Some(mem::replace(&mut rows[at].value, value))),
            Err(_) if self.len == rows.len() => Err(Refusal::Full),
            Err(at) => {
                insert_at(rows, &mut self.len, at, Row { key, value });
                Ok(None)
            }
        }
    }

    // Takes a key's value away and answers it, or none.
    pub fn remove(&mut self, key: u64) -> Option<V>
        ensures answer { result ≡ value_of self.old key }
        ensures state { self.new ≡ removed self.old key }
    {
        let rows = &mut *self.rows;
        let at = locate(&rows[..self.len], key).ok()?;
        let old = rows[at].value;
        remove_at(rows, &mut self.len, at);
        Some(old)
    }
}
