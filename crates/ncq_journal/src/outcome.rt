/// How a request ended.
#[derive(Clone, Copy, Debug, PartialEq, Eq)]
pub enum Outcome {
    Read,
    Wrote,
    /// With the error register's byte, and the LBA of the sector that failed.
    Failed { error: u8, lba: u64 },
}
