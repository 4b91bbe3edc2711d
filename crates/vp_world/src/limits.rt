use vp_race::BookLimits;

/// How much a world holds at most. Near its end the log is kept first for users, then for the operator, at last for closes.
#[derive(Clone, Copy, Debug, PartialEq, Eq)]
pub struct Limits {
    /// Entries that the log holds.
    pub log: usize,
    /// So many of them the simulation and its searches leave to users, beside those below.
    pub for_users: usize,
    /// So many of them users leave to the operator and to closes, beside those below.
    pub for_operator: usize,
    /// So many of them, the last, are left to closes.
    pub for_closes: usize,
    /// Bytes of texts in the entries that the log holds; as many as come, where there is none.
    pub bytes: Option<u64>,
    /// The book of races.
    pub book: BookLimits,
    /// Sessions that are open at once.
    pub sessions: usize,
}

impl Limits {
    ghost use Rattle.std.specs.Prelude.{◌≡◌};
    ghost use Rattle.vp_world.specs.History.{limit_of_operator, limit_of_simulation, limit_of_users};

    /// The greatest limits, by which no entry is left to anybody, and bytes are not counted.
    pub const GREATEST: Limits = Limits {
        log: 4_194_304,
        for_users: 0,
        for_operator: 0,
        for_closes: 0,
        bytes: None,
        book: BookLimits {
            races: 65_536,
            steps: 16_777_216,
        },
        sessions: 64,
    };

    /// So many entries the log holds at most where an operator's order is accepted: a Grant, an End or a Halt.
    pub(crate) fn limit_of_operator(&self) -> usize
        ensures { result ≡ limit_of_operator self.now }
    {
        self.log.saturating_sub(self.for_closes)
    }

    /// So many entries the log holds at most where an Open or an Ask is accepted.
    pub(crate) fn limit_of_users(&self) -> usize
        ensures { result ≡ limit_of_users self.now }
    {
        self.limit_of_operator().saturating_sub(self.for_operator)
    }

    /// So many entries the log holds at most where a Step, an Advance, a TakeJob or a Book is accepted.
    pub(crate) fn limit_of_simulation(&self) -> usize
        ensures { result ≡ limit_of_simulation self.now }
    {
        self.limit_of_users().saturating_sub(self.for_users)
    }
}
