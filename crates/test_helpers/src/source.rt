use crate::read_failure::ReadFailure;
use std::io::{self, Read};

/// A reader that gives at most `step` bytes at once, and fails where it must.
#[derive(Drop)]
pub struct Source<'a> {
    pub bytes: &'a [u8],
    pub step: usize,
    pub failure: ReadFailure,
}

impl Read for Source<'_> {
    fn read(&mut self, buf: &mut [u8]) -> io::Result<usize> {
        match self.failure {
            ReadFailure::AtTheEnd if self.bytes.is_empty() => {
                return Err(io::Error::from(io::ErrorKind::Interrupted));
            }
            ReadFailure::After(0) => return Err(io::Error::from(io::ErrorKind::Other)),
            ReadFailure::After(reads) => {
                self.failure = ReadFailure::After(reads.saturating_sub(1));
            }
            ReadFailure::Once(0) => {
                self.failure = ReadFailure::Never;
                return Err(io::Error::from(io::ErrorKind::Interrupted));
            }
            ReadFailure::Once(reads) => {
                self.failure = ReadFailure::Once(reads.saturating_sub(1));
            }
            _ => {}
        }
        let count = self.step.min(self.bytes.len()).min(buf.len());
        buf[..count].copy_from_slice(&self.bytes[..count]);
        self.bytes = &self.bytes[count..];
        Ok(count)
    }
}
