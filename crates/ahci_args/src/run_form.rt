/// What `ahci run` writes of a run.
#[derive(Clone, Copy, Debug, PartialEq, Eq)]
pub enum RunForm {
    /// A line a job, and one a sector that isn't all zero.
    Text,
    /// One JSON object a line: the same, with each job's worker, number and entry.
    Json,
    /// The journal, as a script that `replay` answers.
    Journal,
    /// The bytes of the disk.
    Image,
}
