use ncq_journal::Outcome;

/// The answer to a request: its number, the journal's entry that answered it, and how it ended.
#[derive(Clone, Copy, Debug, PartialEq, Eq)]
pub struct Reply {
    pub number: u64,
    pub entry: u64,
    pub outcome: Outcome,
}
