ghost use Rattle.std.specs.Prelude.{◌≡◌, ◌<◌, ◌≤◌, true, [], length, take, is_some};
ghost use Rattle.std.specs.List.{between};
ghost use Rattle.texts.specs.Tables.{bytes_in, rows_of, with_row, blank_rows, pushed, Taken, Popped};

use crate::table::{Rows, Span};

/// The items from one place to another, as far as there are any.
fn clipped<T>(items: &[T], from: usize, to: usize) -> &[T]
    ensures { result.now ≡ between from to items.now }
{
    let end = to.min(items.len());
    items.get(from..end).unwrap_or(&[])
}

impl<T: Copy> Rows<T> {
    /// A table of no rows; `blank` fills the room.
    pub fn new(blank: T) -> Rows<T>
        ensures none { rows_of result ≡ [] }
        ensures whole { result ≡ blank_rows blank }
    {
        Rows {
            rows: [blank; 64],
            count: 0,
        }
    }

    /// The rows.
    pub fn as_slice(&self) -> &[T]
        ensures rows { result.now ≡ rows_of self.now }
        ensures few { length result.now ≤ 64 }
    {
        &self.rows[..self.rows.len().min(self.count as usize)]
    }

    /// One row more at the end; a full table stays as it is.
    pub fn push(&mut self, row: T)
        ensures rows { rows_of self.new ≡ with_row (rows_of self.old) row }
        ensures whole { self.new ≡ pushed self.old row }
    {
        if self.count < 64 {
            self.rows[self.count as usize] = row;
            self.count += 1;
        }
    }

    /// The last row, taken off the end, if there is one.
    pub fn pop(&mut self) -> Option<T>
        ensures { Popped (rows_of self.old) (rows_of self.new) result }
    {
        let last = self.len().checked_sub(1)?;
        self.count = last as u8;
        Some(self.rows[last])
    }

    /// The first `count` rows; the others are taken off.
    pub fn truncate(&mut self, count: usize)
        ensures { rows_of self.new ≡ take count (rows_of self.old) }
    {
        if count < self.count as usize {
            self.count = count as u8;
        }
    }

    /// How many rows there are.
    pub fn len(&self) -> usize
        ensures count { result ≡ length (rows_of self.now) }
        ensures few { result ≤ 64 }
    {
        self.as_slice().len()
    }

    /// The row at an index, if there is one.
    pub fn get(&self, i: usize) -> Option<T>
        ensures row { Taken (rows_of self.now) i result }
        ensures few { is_some result ≡ true → i < 64 }
    {
        self.as_slice().get(i).copied()
    }

    /// The rows from one place to another, as far as there are any.
    pub fn between(&self, begin: usize, end: usize) -> &[T]
        ensures { result.now ≡ between begin end (rows_of self.now) }
    {
        clipped(self.as_slice(), begin, end)
    }
}

impl Span {
    /// The bytes of a span in its text, as far as the text goes.
    pub fn bytes<'a>(&self, text: &'a [u8]) -> &'a [u8]
        ensures { result.now ≡ bytes_in text.now self.now }
    {
        clipped(text, self.from as usize, self.to as usize)
    }
}
