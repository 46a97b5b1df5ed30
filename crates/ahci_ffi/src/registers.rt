//! What a driver writes to the registers, and reads of them between its writes.

ghost use Rattle.std.specs.Prelude.{◌≡◌};
ghost use Rattle.ahci_port.specs.Writes.{shown};
ghost use Rattle.ahci_regs.specs.Reading.{read_of};
ghost use Rattle.ahci_ffi.specs.{Done.{AnswersRegister}, Writing.{AnswersWord, AnswersWrite, flat_refused, flat_written}};

use crate::flat::FlatWritten;
use crate::status::Status;
use ahci_port::{Pending, Port, WriteFault, Written};
use sector_store::SectorStore;
use std::alloc::Allocator;

/// Takes a word that a driver writes to the register at an offset. A newly set bit of PxCI issues the command of that slot: its
/// header is in `list`, and its window in a 32nd part of `windows`. `done` reports what the write did, and of a command that
/// was not issued its slot.
pub fn write_register<A: Allocator + Clone, S: SectorStore>(
    port: &mut Port<A, S>,
    pending: &mut Pending,
    offset: u32,
    word: u32,
    list: &[u8],
    windows: &[u8],
    done: &mut FlatWritten,
) -> Status
    ensures { AnswersWrite offset word list.now windows.now result port.old port.new pending.old pending.new done.old done.new }
{
    let Ok(list) = <&[u8; 1024]>::try_from(list) else {
        return Status::WrongLength;
    };
    write_word(port, pending, offset, word, list, windows, done)
}

/// The same of a command list of the right length.
fn write_word<A: Allocator + Clone, S: SectorStore>(
    port: &mut Port<A, S>,
    pending: &mut Pending,
    offset: u32,
    word: u32,
    list: &[u8; 1024],
    windows: &[u8],
    done: &mut FlatWritten,
) -> Status
    ensures { AnswersWord offset word list.now windows.now result port.old port.new pending.old pending.new done.old done.new }
{
    match port.write_register(pending, offset, word, list, windows) {
        Ok(did) => {
            *done = flat_written(did);
            Status::Done
        }
        Err(fault) => {
            *done = flat_refused(fault, *done);
            Status::Refused(fault.into())
        }
    }
}

/// What a write did, as a struct.
fn flat_written(did: Written) -> FlatWritten
    ensures { result ≡ flat_written did }
{
    let (did, slots, tag) = match did {
        Written::Noted => (0, 0, 0),
        Written::Commanded(slots) => (1, slots, 0),
        Written::Recovered(tag) => (2, 0, u32::from(tag)),
    };
    FlatWritten { did, slots, tag }
}

/// What is reported of a write that was refused, if this was there before.
fn flat_refused(fault: WriteFault, before: FlatWritten) -> FlatWritten
    ensures { result ≡ flat_refused fault before }
{
    match fault {
        WriteFault::Issue { slot, .. } => FlatWritten {
            did: 3,
            slots: 0,
            tag: u32::from(slot),
        },
        _ => before,
    }
}

/// Reads the register at an offset, as a driver finds it between its writes.
pub fn read_register<A: Allocator, S: SectorStore>(
    port: &Port<A, S>,
    pending: &Pending,
    offset: u32,
    word: &mut u32,
) -> Status
    ensures { AnswersRegister (read_of (shown port.now pending.now) offset) result word.old word.new }
{
    match port.read_register(pending, offset) {
        Ok(read) => {
            *word = read;
            Status::Done
        }
        Err(fault) => Status::Refused(fault.into()),
    }
}
