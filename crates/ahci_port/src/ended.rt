use ncq_journal::Outcome;

/// The place of the entry that answered a request, and how it ended.
#[derive(Clone, Copy, Debug, PartialEq, Eq)]
pub(crate) struct Ended {
    pub(crate) entry: u64,
    pub(crate) outcome: Outcome,
}
