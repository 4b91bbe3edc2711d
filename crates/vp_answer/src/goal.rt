/// What a query does to the goal, the time until which the design may run, in time units.
#[derive(Clone, Copy, Debug, PartialEq, Eq)]
pub enum GoalChange {
    /// It stays.
    Stays,
    /// It rises to a time, unless it is later.
    RisesTo(u64),
    /// It ends: the design stands still until somebody asks for a run again.
    Ends,
}
