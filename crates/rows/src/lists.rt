// A row as a list.
ghost use Rattle.std.specs.Prelude.{◌≡◌, ◌+◌, ◌-◌, ◌<◌, ◌≤◌, [], ◌∷◌, ◌++◌, length, take, Some, None, MatchOption, Decides};
ghost use Rattle.rows.specs.Rows.{items};

use crate::Row;

impl<T: Copy, const N: usize> Row<T, N> {
    // An empty row; a value stands where nothing is yet.
    pub fn new(blank: T) -> Row<T, N>
        ensures { items result ≡ [] }
    {
        Row {
            cells: [blank; N],
            len: 0,
        }
    }

    // An empty row over cells, whatever they hold. Of cells that are known where this is called no loop fills them.
    pub fn over(cells: [T; N]) -> Row<T, N>
        ensures { items result ≡ [] }
    {
        Row { cells, len: 0 }
    }

    // The first so many cells of an array; none where there are not so many.
    pub fn front(cells: [T; N], len: usize) -> Option<Row<T, N>>
        ensures { MatchOption result (N < len) (λ r. items r ≡ take len cells) }
    {
        if len > N {
            return None;
        }
        Some(Row { cells, len })
    }

    // What is in the row.
    pub fn as_slice(&self) -> &[T]
        ensures { result.now ≡ items self.now }
    {
        &self.cells[..self.len]
    }

    // How many there are.
    pub fn len(&self) -> usize
        ensures is { result ≡ length (items self.now) }
        ensures within { result ≤ N }
    {
        self.as_slice().len()
    }

    // Whether there is none.
    pub fn is_empty(&self) -> bool
        ensures { Decides result (items self.now ≡ []) }
    {
        self.len == 0
    }

    // The row of a list, if there is room for it.
    pub fn from_slice(list: &[T], blank: T) -> Option<Row<T, N>>
        ensures { MatchOption result (N < length list.now) (λ r. items r ≡ list.now) }
    {
        let len = list.len();
        if N < len {
            return None;
        }
        let mut cells = [blank; N];
        cells[..len].copy_from_slice(list);
        Some(Row { cells, len })
    }

    // Puts one more behind the others, if there is room.
    pub fn push(&mut self, x: T) -> Option<()>
        ensures { MatchOption result ((length (items self.old) ≡ N) × (self.new ≡ self.old)) (λ _. items self.new ≡ items self.old ++ x ∷ []) }
    {
        let len = self.len;
        if len == N {
            return None;
        }
        self.cells[len] = x;
        self.len = len + 1;
        Some(())
    }

    // Takes the last away, if there is one.
    pub fn pop(&mut self) -> Option<T>
        ensures { MatchOption result ((items self.old ≡ []) × (self.new ≡ self.old)) (λ x. items self.old ≡ items self.new ++ x ∷ []) }
    {
        let len = self.len.checked_sub(1)?;
        self.len = len;
        Some(self.cells[len])
    }
}
