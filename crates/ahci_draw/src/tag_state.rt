use ncq_journal::Phase;

/// The state of a tag's command, and whether it was last issued to write.
#[derive(Clone, Copy, Debug)]
pub(crate) struct TagState {
    pub(crate) phase: Phase,
    pub(crate) writes: bool,
}
