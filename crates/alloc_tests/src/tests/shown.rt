//! All that a port shows.
use crate::tests::heap::Heap;
use ahci_port::{Port, Sent, TagSets};
use ahci_regs::RegFault;

/// How many sectors the disks of these tests have.
pub const SECTORS: usize = 4;

/// The registers of AHCI 1.3.1, sections 3.1 and 3.3, that this model has.
static REGISTERS: [u32; 18] = [
    0x000, 0x004, 0x00C, 0x010, 0x100, 0x104, 0x108, 0x10C, 0x110, 0x114, 0x118, 0x120, 0x124,
    0x128, 0x12C, 0x130, 0x134, 0x138,
];

/// What public calls show of a port.
#[derive(Clone, Copy, Debug, PartialEq)]
pub struct Shown {
    pub registers: [Result<u32, RegFault>; 18],
    pub received: [u8; 256],
    pub owners: [Option<u64>; 33],
    pub halted: bool,
    pub depth: u32,
    pub sectors: u32,
    pub entries: u64,
    pub room: u64,
    pub sets: TagSets,
    pub sent: Sent,
    pub image: [[u8; 512]; SECTORS],
}

pub fn look_at(port: &Port<&Heap>) -> Shown {
    let mut registers = [Ok(0); 18];
    for (word, off) in registers.iter_mut().zip(&REGISTERS) {
        *word = port.register(*off);
    }
    let mut owners = [None; 33];
    for tag in 0..33u8 {
        owners[usize::from(tag)] = port.owner(tag);
    }
    let mut image = [[0; 512]; SECTORS];
    for lba in 0..SECTORS {
        if (lba as u64) < u64::from(port.sectors()) {
            port.copy(lba as u64, &mut image[lba]);
        }
    }
    Shown {
        registers,
        received: *port.received(),
        owners,
        halted: port.halted(),
        depth: port.depth(),
        sectors: port.sectors(),
        entries: port.journal().len(),
        room: port.journal().room(),
        sets: port.tag_sets(),
        sent: *port.sent(),
        image,
    }
}
