/// What is written of a run.
#[derive(Clone, Copy, Debug, PartialEq, Eq)]
pub enum Form {
    /// A line for each job, and one for each sector that isn't all zero.
    Text,
    /// The same as JSON (RFC 8259), one object a line; a job's has its number, its worker, and the number of its request and
    /// of the answer's entry besides.
    Json,
    /// The journal as a script, which `replay` answers with the same journal and the same sectors.
    Journal,
    /// The bytes of the disk.
    Image,
}
