ghost use Rattle.std.specs.Prelude.{◌≡◌, Some};
ghost use Rattle.sata_fis.specs.Command.{queued_in, h2d_for};

use crate::command::Queued;
use crate::h2d::H2d;
use crate::places::is_set;

/// READ FPDMA QUEUED.
const READ: u8 = 0x60;
/// WRITE FPDMA QUEUED.
const WRITE: u8 = 0x61;

/// The queued command that a FIS asks for, or None where C is 0, the command is neither READ nor WRITE
/// FPDMA QUEUED (ACS-3), or device bit 6 is 0. Features 0000h mean 65,536 sectors; the priority in
/// count 15:14 and the control byte are ignored.
pub fn queued(h2d: &H2d) -> Option<Queued>
    ensures { result ≡ queued_in h2d.now }
{
    if !h2d.c || !matches!(h2d.command, READ | WRITE) || !is_set(h2d.device, 6) {
        return None;
    }
    Some(Queued {
        write: h2d.command == WRITE,
        tag: (h2d.count >> 3 & 31) as u8,
        lba: h2d.lba,
        sectors: if h2d.features == 0 {
            65_536
        } else {
            u32::from(h2d.features)
        },
        fua: is_set(h2d.device, 7),
    })
}

/// The FIS that asks for a queued command: C is 1, priority and control are 0.
pub fn h2d_of(queued: &Queued) -> H2d
    ensures fields { result ≡ h2d_for queued.now }
    ensures back { queued_in result ≡ Some queued.now }
{
    H2d {
        c: true,
        command: if queued.write { WRITE } else { READ },
        features: (queued.sectors & 0xFFFF) as u16,
        lba: queued.lba,
        device: if queued.fua { 0xC0 } else { 0x40 },
        count: u16::from(queued.tag) << 3,
        control: 0,
    }
}
