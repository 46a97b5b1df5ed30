use streams::{Reads, Writes};

/// How the reads and writes of the standard streams went: whether one failed, and whether what was written is flushed.
#[derive(Drop)]
pub struct StreamLog {
    /// The reads of standard input.
    pub input: Reads,
    /// The writes to standard output.
    pub output: Writes,
    /// The writes to standard error.
    pub errors: Writes,
}

impl StreamLog {
    ghost use Rattle.std.specs.Prelude.{◌≡◌};
    ghost use Rattle.streams.specs.Ends.{unread, unwritten};

    /// Nothing was read or written.
    pub fn new() -> Self
        ensures { (result.input ≡ unread) × ((result.output ≡ unwritten) × (result.errors ≡ unwritten)) }
    {
        StreamLog {
            input: Reads::new(),
            output: Writes::new(),
            errors: Writes::new(),
        }
    }
}
