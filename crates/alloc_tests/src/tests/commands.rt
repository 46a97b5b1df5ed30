//! Commands, their windows, and ports, in memory of the heap.
use crate::tests::heap::Heap;
use crate::tests::shown::SECTORS;
use ahci_port::Port;
use ahci_table::{Window, default_pieces};
use ncq_journal::{Bytes, Op};
use std::alloc::AllocError;
use std::test::Fail;

/// A command from LBA 0 on, by its tag.
#[derive(Clone, Copy, Debug, PartialEq, Eq)]
pub enum Command {
    /// Of one sector.
    Read(u8),
    /// Of one sector, filled with a byte.
    Write(u8, u8),
    /// Of one sector, with FUA and high PRIO.
    UrgentRead(u8),
    /// Of 256 sectors filled with a byte, with FUA and high PRIO.
    LongWrite(u8, u8),
}

impl Command {
    pub fn tag(self) -> u8 {
        match self {
            Command::Read(tag)
            | Command::Write(tag, _)
            | Command::UrgentRead(tag)
            | Command::LongWrite(tag, _) => tag,
        }
    }

    fn is_urgent(self) -> bool {
        matches!(self, Command::UrgentRead(_) | Command::LongWrite(..))
    }
}

/// A write from LBA 0 on.
fn write_of<'a>(heap: &'a Heap, byte: u8, len: usize) -> Result<Op<&'a Heap>, AllocError> {
    let bytes = Bytes::from_vec(vec![in heap; byte; len]?);
    Ok(Op::Write { lba: 0, bytes })
}

/// What a command asks of the disk.
pub fn op_of<'a>(heap: &'a Heap, command: Command) -> Result<Op<&'a Heap>, AllocError> {
    match command {
        Command::Read(_) | Command::UrgentRead(_) => Ok(Op::Read { lba: 0, sectors: 1 }),
        Command::Write(_, byte) => write_of(heap, byte, 512),
        Command::LongWrite(_, byte) => write_of(heap, byte, 131_072),
    }
}

/// The window of a command over the default pieces. FUA is bit 7 of device, PRIO bits 15:14 of count.
pub fn window_of<'a>(heap: &'a Heap, command: Command) -> Result<Window<&'a Heap>, Fail> {
    let tag = command.tag();
    if tag >= 32 {
        return Err(Fail::new("no tag"));
    }
    let op = op_of(heap, command)?;
    let sectors = op.sectors().min(256) as u32;
    let window = Window::build(heap, tag, &op, &default_pieces(sectors))?;
    if !command.is_urgent() {
        return Ok(window);
    }
    let mut bytes = Vec::from_slice(heap, window.bytes())?;
    for (place, byte) in [(7, 0xC0), (13, 0x80)] {
        if let Some(old) = bytes.get_mut(place) {
            *old = byte;
        }
    }
    Ok(Window::from_parts(tag, *window.header(), bytes))
}

/// Sectors of 5Ah.
pub fn image_of<'a>(heap: &'a Heap) -> Result<Vec<u8, &'a Heap>, AllocError> {
    vec![in heap; 0x5A; SECTORS * 512]
}

/// A port over sectors of 5Ah.
pub fn port_of<'a>(heap: &'a Heap, depth: u32) -> Result<Port<&'a Heap>, Fail> {
    Ok(Port::new(heap, image_of(heap)?, depth)?)
}
