/// How much a book of races holds at most.
#[derive(Clone, Copy, Debug, PartialEq, Eq)]
pub struct BookLimits {
    /// Races.
    pub races: usize,
    /// Steps of the races' orders, of each of which the book keeps the process.
    pub steps: usize,
}
