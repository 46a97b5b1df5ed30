//! All that a controller shows.

use ahci_hba::{AccessSize, Hba, Power, Step, Want};
use ahci_port::TagSets;
use refusing_allocator::Refusing;
use std::alloc::Global;

/// What the controller that is tried takes its memory from.
pub type Heap = Refusing<Global>;

/// How many sectors its disk has.
pub const SECTORS: usize = 8;

static REGISTERS: [u32; 19] = [
    0x000, 0x004, 0x008, 0x00C, 0x010, 0x100, 0x104, 0x108, 0x10C, 0x110, 0x114, 0x118, 0x120,
    0x124, 0x128, 0x12C, 0x130, 0x134, 0x138,
];

/// What public calls show of a controller: its registers, what it reads or writes next, the next step with each slot, and its port.
#[derive(Clone, Copy, Debug, PartialEq)]
pub struct Shown {
    registers: [u64; 19],
    interrupt: bool,
    moves: (Want, u64, usize, usize),
    steps: [Option<Step>; 32],
    signs: bool,
    power: Power,
    received: [u8; 256],
    halted: bool,
    entries: (u64, u64),
    sets: TagSets,
    image: [[u8; 512]; SECTORS],
}

fn image_of(hba: &Hba<&Heap>) -> [[u8; 512]; SECTORS] {
    let mut image = [[0; 512]; SECTORS];
    for lba in 0..SECTORS {
        if (lba as u64) < u64::from(hba.port().sectors()) {
            hba.port().copy(lba as u64, &mut image[lba]);
        }
    }
    image
}

pub fn look_at(hba: &Hba<&Heap>) -> Shown {
    let mut registers = [0; 19];
    for (word, offset) in registers.iter_mut().zip(&REGISTERS) {
        *word = hba.read(*offset, AccessSize::Four);
    }
    let port = hba.port();
    Shown {
        registers,
        interrupt: hba.interrupt(),
        moves: (
            hba.want(),
            hba.address(),
            hba.read_length(),
            hba.bytes().len(),
        ),
        steps: hba.next_steps(),
        signs: hba.may_sign(),
        power: hba.power(),
        received: *port.received(),
        halted: port.halted(),
        entries: (port.journal().len(), port.journal().room()),
        sets: port.tag_sets(),
        image: image_of(hba),
    }
}
