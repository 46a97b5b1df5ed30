//! How the writes to an output went.

use crate::output_failed::OutputFailed;
use std::io::Write;
use std::marker::Model;

/// How the writes to an output went: whether a write or a flush failed, and whether a flush came after the last write. Only a
/// write and a flush change it.
#[derive(Drop)]
pub struct Writes {
    failed: bool,
    flushed: bool,
}

impl Model for Writes {
    ghost use Rattle.streams.specs.Ends.{WrittenSoFar};

    ghost Value = { WrittenSoFar };

    ghost view = { λ w. record { failed = w.failed; flushed = w.flushed } };
}

impl Writes {
    ghost use Rattle.std.specs.Prelude.{◌≡◌, ◌<◌, ◌≤◌, ℕ, length, take, IfOk, OnErr, OnOk};
    ghost use Rattle.std.specs.Io.KnownBytes.{Appends, Keeps};
    ghost use Rattle.streams.specs.Ends.{unwritten, with_failed_write, with_flush, with_write};

    /// Nothing was written, and nothing flushed.
    pub fn new() -> Self
        ensures { result ≡ unwritten }
    {
        Writes {
            failed: false,
            flushed: false,
        }
    }

    /// Writes some first bytes of these. A write that takes none of them failed, and so did an interrupted one.
    fn write<W: Write>(&mut self, writer: &mut W, bytes: &[u8]) -> Result<usize, OutputFailed>
        requires { 0 < length bytes.now }
        ensures some { IfOk result (λ count. 0 < count) }
        ensures most { IfOk result (λ count. count ≤ length bytes.now) }
        ensures written { IfOk result (λ count. Appends (W.contents writer.old) (W.contents writer.new) (take count bytes.now)) }
        ensures none { OnErr result (Appends (W.contents writer.old) (W.contents writer.new) (take 0 bytes.now)) }
        ensures ok { OnOk result (self.new ≡ with_write self.old) }
        ensures err { OnErr result (self.new ≡ with_failed_write self.old) }
    {
        match writer.write(bytes) {
            Ok(count) if count > 0 => {
                self.flushed = false;
                Ok(count)
            }
            _ => Err(self.fail()),
        }
    }

    /// Flushes.
    fn flush<W: Write>(&mut self, writer: &mut W) -> Result<(), OutputFailed>
        ensures kept { Keeps (W.contents writer.old) (W.contents writer.new) }
        ensures ok { OnOk result (self.new ≡ with_flush self.old) }
        ensures err { OnErr result (self.new ≡ with_failed_write self.old) }
    {
        if writer.flush().is_err() {
            return Err(self.fail());
        }
        self.flushed = true;
        Ok(())
    }

    /// A write or a flush failed.
    fn fail(&mut self) -> OutputFailed
        ensures { self.new ≡ with_failed_write self.old }
    {
        self.failed = true;
        self.flushed = false;
        OutputFailed
    }

    /// Writes all of the bytes, and flushes. After a failure some first part of the bytes was written.
    pub fn write_whole<W: Write>(
        &mut self,
        writer: &mut W,
        bytes: &[u8],
    ) -> Result<(), OutputFailed>
        ensures written { OnOk result (Appends (W.contents writer.old) (W.contents writer.new) bytes.now) }
        ensures part { OnErr result
            ((n : ℕ) × Appends (W.contents writer.old) (W.contents writer.new) (take n bytes.now)) }
        ensures ok { OnOk result (self.new ≡ with_flush self.old) }
        ensures err { OnErr result (self.new ≡ with_failed_write self.old) }
    {
        let mut sent = 0;
        while sent < bytes.len() {
            sent += self.write(writer, &bytes[sent..])?;
        }
        self.flush(writer)
    }
}
