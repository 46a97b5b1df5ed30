//! Examples of FISes: their bytes, and what they say.

use sata_fis::{
    D2h, DmaSetup, Fis, H2d, Payload, PioSetup, SetBits, is_lba, is_set_bits_status, is_tag,
};

/// What a FIS says, field by field. A static holds no value of a type that keeps a range, so `fis_of` makes the FIS.
#[derive(Clone, Copy)]
pub enum Said {
    /// Command, features, LBA, device, count and control; C is 1.
    Command(u8, u16, u64, u8, u16, u8),
    /// I, status, error and LBA of a Register FIS of the device; device and count are 0.
    Answer(bool, u8, u8, u64),
    Activate,
    /// D, tag and transfer count of a DMA Setup; A, I and the offset are 0.
    Setup(bool, u8, u32),
    /// Status, E_Status and transfer count of a PIO Setup; I and D are 1, the other fields 0.
    Pio(u8, u8, u16),
    /// Status, error and SActive of a Set Device Bits; I is 1.
    Done(u8, u8, u32),
    Data(&'static [u8]),
}

use Said::{Activate, Answer, Command, Data, Done, Pio, Setup};

/// The FIS that says this; none where a number is out of its range.
pub fn fis_of(said: Said) -> Option<Fis<'static>> {
    match said {
        Command(command, features, lba, device, count, control) if is_lba(lba) => {
            Some(Fis::H2d(H2d {
                c: true,
                command,
                features,
                lba,
                device,
                count,
                control,
            }))
        }
        Answer(i, status, error, lba) if is_lba(lba) => Some(Fis::D2h(D2h {
            i,
            status,
            error,
            lba,
            device: 0,
            count: 0,
        })),
        Activate => Some(Fis::DmaActivate),
        Setup(d, tag, count) if is_tag(tag) => Some(Fis::DmaSetup(DmaSetup {
            a: false,
            i: false,
            d,
            tag,
            offset: 0,
            count,
        })),
        Pio(status, e_status, bytes) => Some(Fis::PioSetup(pio_of(status, e_status, bytes))),
        Done(status, error, sactive) if is_set_bits_status(status) => Some(Fis::SetBits(SetBits {
            i: true,
            status,
            error,
            sactive,
        })),
        Data(bytes) => Some(Fis::Data(Payload::new(bytes)?)),
        _ => None,
    }
}

/// The PIO Setup of a page that the device sends.
fn pio_of(status: u8, e_status: u8, bytes: u16) -> PioSetup {
    PioSetup {
        i: true,
        d: true,
        status,
        error: 0,
        lba: 0,
        device: 0,
        count: 0,
        e_status,
        bytes,
    }
}

/// What a FIS is, its bytes, and what they say.
pub type Example = (&'static str, &'static [u8], Said);

/// Commands from the host, and answers of a device.
pub static EXAMPLES: [Example; 18] = [
    (
        "IDENTIFY DEVICE",
        &[
            0x27, 0x80, 0xEC, 0, 0, 0, 0, 0, 0, 0, 0, 0, 0, 0, 0, 0, 0, 0, 0, 0,
        ],
        Command(0xEC, 0, 0, 0, 0, 0),
    ),
    (
        "FLUSH CACHE EXT",
        &[
            0x27, 0x80, 0xEA, 0, 0, 0, 0, 0, 0, 0, 0, 0, 0, 0, 0, 0, 0, 0, 0, 0,
        ],
        Command(0xEA, 0, 0, 0, 0, 0),
    ),
    (
        "READ LOG EXT of log 10h, one page",
        &[
            0x27, 0x80, 0x2F, 0, 0x10, 0, 0, 0, 0, 0, 0, 0, 1, 0, 0, 0, 0, 0, 0, 0,
        ],
        Command(0x2F, 0, 0x10, 0, 1, 0),
    ),
    (
        "READ FPDMA QUEUED, 8 sectors at LBA 123456789Ah, tag 5",
        &[
            0x27, 0x80, 0x60, 8, 0x9A, 0x78, 0x56, 0x40, 0x34, 0x12, 0, 0, 0x28, 0, 0, 0, 0, 0, 0,
            0,
        ],
        Command(0x60, 8, 0x12_3456_789A, 0x40, 0x28, 0),
    ),
    (
        "WRITE FPDMA QUEUED, 1 sector at LBA 3, tag 1",
        &[
            0x27, 0x80, 0x61, 1, 3, 0, 0, 0x40, 0, 0, 0, 0, 8, 0, 0, 0, 0, 0, 0, 0,
        ],
        Command(0x61, 1, 3, 0x40, 8, 0),
    ),
    (
        "READ FPDMA QUEUED, 8 sectors at LBA 0, tag 18, as the Linux driver sends it",
        &[
            0x27, 0x80, 0x60, 8, 0, 0, 0, 0x40, 0, 0, 0, 0, 0x90, 0, 0, 8, 0, 0, 0, 0,
        ],
        Command(0x60, 8, 0, 0x40, 0x90, 8),
    ),
    (
        "READ LOG EXT of log 10h, one page, as the Linux driver sends it",
        &[
            0x27, 0x80, 0x2F, 0, 0x10, 0, 0, 0xA0, 0, 0, 0, 0, 1, 0, 0, 8, 0, 0, 0, 0,
        ],
        Command(0x2F, 0, 0x10, 0xA0, 1, 8),
    ),
    (
        "accepted: no interrupt",
        &[
            0x34, 0, 0x40, 0, 0, 0, 0, 0, 0, 0, 0, 0, 0, 0, 0, 0, 0, 0, 0, 0,
        ],
        Answer(false, 0x40, 0, 0),
    ),
    (
        "flushed",
        &[
            0x34, 0x40, 0x40, 0, 0, 0, 0, 0, 0, 0, 0, 0, 0, 0, 0, 0, 0, 0, 0, 0,
        ],
        Answer(true, 0x40, 0, 0),
    ),
    (
        "refused: ABRT",
        &[
            0x34, 0x40, 0x41, 4, 0, 0, 0, 0, 0, 0, 0, 0, 0, 0, 0, 0, 0, 0, 0, 0,
        ],
        Answer(true, 0x41, 4, 0),
    ),
    (
        "refused: IDNF at LBA 123456789Ah",
        &[
            0x34, 0x40, 0x41, 0x10, 0x9A, 0x78, 0x56, 0, 0x34, 0x12, 0, 0, 0, 0, 0, 0, 0, 0, 0, 0,
        ],
        Answer(true, 0x41, 0x10, 0x12_3456_789A),
    ),
    ("DMA Activate", &[0x39, 0, 0, 0], Activate),
    (
        "a write of one sector with tag 1",
        &[
            0x41, 0, 0, 0, 1, 0, 0, 0, 0, 0, 0, 0, 0, 0, 0, 0, 0, 0, 0, 0, 0, 2, 0, 0, 0, 0, 0, 0,
        ],
        Setup(false, 1, 512),
    ),
    (
        "a read of 65,536 sectors with tag 31",
        &[
            0x41, 0x20, 0, 0, 31, 0, 0, 0, 0, 0, 0, 0, 0, 0, 0, 0, 0, 0, 0, 0, 0, 0, 0, 2, 0, 0, 0,
            0,
        ],
        Setup(true, 31, 0x200_0000),
    ),
    (
        "a page of 512 bytes",
        &[
            0x5F, 0x60, 0x48, 0, 0, 0, 0, 0, 0, 0, 0, 0, 0, 0, 0, 0x40, 0, 2, 0, 0,
        ],
        Pio(0x48, 0x40, 512),
    ),
    (
        "tag 1 is done",
        &[0xA1, 0x40, 0x40, 0, 2, 0, 0, 0],
        Done(0x40, 0, 2),
    ),
    (
        "failed: UNC",
        &[0xA1, 0x40, 0x41, 0x40, 0, 0, 0, 0],
        Done(0x41, 0x40, 0),
    ),
    (
        "data of four bytes",
        &[0x46, 0, 0, 0, 1, 2, 3, 4],
        Data(&[1, 2, 3, 4]),
    ),
];
