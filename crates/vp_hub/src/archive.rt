use vp_world::CountingArchive;

/// What a hub hands the entries of its log out to.
#[derive(Clone, Copy, Debug, PartialEq, Eq)]
pub enum LogArchive {
    /// It takes none: the log holds all, and is full at last.
    Keeping,
    /// It counts them: the log holds the last.
    Counting(CountingArchive),
}
