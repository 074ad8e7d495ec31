//! Rows that may agree with literals.
ghost use Rattle.std.specs.Prelude.{◌≡◌, ◌<◌, Some, length, slice_get};

/// Rows of a table, by number.
#[derive(Clone, Copy)]
pub(crate) enum Candidates<'a> {
    /// All rows of a table that has this many.
    All(u32),
    /// The rows with these numbers.
    These(&'a [u32]),
}

impl Candidates<'_> {
    ghost use Rattle.table_rows.specs.Candidates.{candidates_of};

    /// The number of candidates.
    pub(crate) fn len(self) -> usize
        ensures { result ≡ length (candidates_of self.entry) }
    {
        match self {
            Candidates::All(count) => count as usize,
            Candidates::These(rows) => rows.len(),
        }
    }

    /// The candidate with this index.
    pub(crate) fn at(self, place: usize) -> u32
        requires { place < length (candidates_of self) }
        ensures { slice_get (candidates_of self.entry) place ≡ Some result }
    {
        match self {
            Candidates::All(count) => {
                prove!(place < count as usize);
                place as u32
            }
            Candidates::These(rows) => rows[place],
        }
    }
}
