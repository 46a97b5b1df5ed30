//! How software recovers, issues held commands again, and sends commands that are not queued.

ghost use Rattle.std.specs.Prelude.{◌≡◌};
ghost use Rattle.ahci_port.specs.Registers.{acknowledged};
ghost use Rattle.ahci_ffi.specs.Calls.{AnswersFlush, AnswersIdentify, AnswersRecover, AnswersReissue, AnswersTrim};

use crate::status::Status;
use ahci_port::Port;
use sector_store::SectorStore;
use std::alloc::Allocator;

/// Recovers from a failure: `tag` is the one whose command had failed then.
pub fn recover<A: Allocator, S: SectorStore>(port: &mut Port<A, S>, tag: &mut u32) -> Status
    ensures { AnswersRecover result port.old port.new tag.old tag.new }
{
    match port.recover() {
        Ok(failed) => {
            *tag = u32::from(failed);
            Status::Done
        }
        Err(fault) => Status::Refused(fault.into()),
    }
}

/// Issues a held command again.
pub fn reissue<A: Allocator, S: SectorStore>(port: &mut Port<A, S>, tag: u32) -> Status
    ensures { AnswersReissue tag result port.old port.new }
{
    if tag >= 32 {
        return Status::BadTag;
    }
    match port.reissue(tag as u8) {
        Ok(()) => Status::Done,
        Err(fault) => Status::Refused(fault.into()),
    }
}

/// Sends IDENTIFY DEVICE, and copies its page.
pub fn identify<A: Allocator, S: SectorStore>(port: &mut Port<A, S>, out: &mut [u8]) -> Status
    ensures { AnswersIdentify result port.old port.new out.old out.new }
{
    if out.len() != 512 {
        return Status::WrongLength;
    }
    match port.identify() {
        Ok(page) => {
            out.copy_from_slice(&page);
            Status::Done
        }
        Err(fault) => Status::Refused(fault.into()),
    }
}

/// Sends FLUSH CACHE EXT.
pub fn flush<A: Allocator, S: SectorStore>(port: &mut Port<A, S>) -> Status
    ensures { AnswersFlush result port.old port.new }
{
    match port.flush() {
        Ok(()) => Status::Done,
        Err(fault) => Status::Refused(fault.into()),
    }
}

/// Software acknowledges interrupts.
pub fn acknowledge<A: Allocator, S: SectorStore>(port: &mut Port<A, S>, mask: u32) -> Status
    ensures done { result ≡ Status.Done }
    ensures port { port.new ≡ record port.old { registers = acknowledged port.old.registers mask } }
{
    port.acknowledge(mask);
    Status::Done
}

/// Throws the journal away, with its memory: `entries` is how many it had.
pub fn trim<A: Allocator + Copy, S: SectorStore>(port: &mut Port<A, S>, entries: &mut u64) -> Status
    ensures { AnswersTrim result port.old port.new entries.old entries.new }
{
    match port.trim() {
        Ok(journal) => {
            *entries = journal.len();
            Status::Done
        }
        Err(fault) => Status::Refused(fault.into()),
    }
}
