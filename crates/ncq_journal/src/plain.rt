/// A command that is not queued (ACS-3: IDENTIFY DEVICE, FLUSH CACHE EXT, READ LOG EXT). `ReadLog` is part of a
/// recovery, and has no entry of its own in a journal.
#[derive(Clone, Copy, Debug, PartialEq, Eq)]
pub enum Plain {
    Identify,
    Flush,
    ReadLog,
}
