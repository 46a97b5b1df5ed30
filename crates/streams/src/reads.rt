use crate::input_failed::InputFailed;
use std::io::Read;
use std::marker::Model;

/// How the reads of an input went: whether one failed, and how many bytes came. Only a read changes it.
#[derive(Drop)]
pub struct Reads {
    failed: bool,
    came: u64,
}

impl Model for Reads {
    ghost use Rattle.streams.specs.Ends.{ReadSoFar};

    ghost Value = { ReadSoFar };

    ghost view = { λ r. record { failed = r.failed; came = r.came } };
}

impl Reads {
    ghost use Rattle.std.specs.Prelude.{◌≡◌, IfOk, OnErr};
    ghost use Rattle.std.specs.Io.{ReadsAtMost};
    ghost use Rattle.std.specs.Io.KnownBytes.{ReadConsumes};
    ghost use Rattle.streams.specs.Ends.{unread, with_bytes, with_failed_read};

    /// Nothing was read.
    pub fn new() -> Self
        ensures { result ≡ unread }
    {
        Reads {
            failed: false,
            came: 0,
        }
    }

    /// Reads some bytes. An interrupted read is a failed one.
    pub fn read<R: Read>(&mut self, reader: &mut R, bytes: &mut [u8]) -> Result<usize, InputFailed>
        ensures bound { ReadsAtMost result bytes.new }
        ensures bytes { ReadConsumes (R.remaining reader.old) (R.remaining reader.new) result bytes.new }
        ensures ok { IfOk result (λ count. self.new ≡ with_bytes self.old count) }
        ensures err { OnErr result (self.new ≡ with_failed_read self.old) }
    {
        let Ok(count) = reader.read(bytes) else {
            self.failed = true;
            return Err(InputFailed);
        };
        self.came = self.came.saturating_add(count as u64);
        Ok(count)
    }
}
