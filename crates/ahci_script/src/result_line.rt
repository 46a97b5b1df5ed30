/// A line that `ahci run` writes: the result of a job, or a sector of the disk after it. It becomes text where it is
/// written, by `push_result`. Contracts see it as a `Told`.
#[derive(Clone, Copy, Debug)]
pub enum ResultLine<'a> {
    /// A job's sectors were written.
    Wrote,
    /// A job's sectors of 512 bytes, joined.
    Read(&'a [u8]),
    /// A job's command failed, with the error register's byte and the LBA of the sector.
    Failed { error: u8, lba: u64 },
    /// A sector, by its first byte.
    Sector { byte: u8, lba: u64 },
}
