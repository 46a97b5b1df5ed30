/// Why a worker has no answer yet.
#[derive(Clone, Copy, Debug, PartialEq, Eq, Drop)]
pub(crate) enum Unfinished {
    /// The port is halted, and room for its recovery was refused.
    OutOfMemory,
    /// The slot has no such request.
    Stranger,
    /// The port got on as often as one holder of the lock lets it, and the request isn't done.
    NotYet,
}
