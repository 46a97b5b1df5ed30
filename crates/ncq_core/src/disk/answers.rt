//! The FISes that the disk sends, by their bytes (Serial ATA, "FIS types").

ghost use Rattle.std.specs.Prelude.{◌≡◌, ◌^◌, ◌<◌, bit_and};
ghost use Rattle.sata_fis.specs.Encoding.{d2h_bytes, set_bits_bytes};
ghost use Rattle.ncq_core.specs.DiskFis.{accepted_bytes, aborted_bytes, not_found_bytes, flushed_bytes, pio_bytes, setup_bytes, activate_bytes, completed_bytes, failed_bytes, register_fis, done_fis};

use sata_fis::{
    D2h, DmaSetup, PioSetup, Queued, SetBits, d2h_bytes, dma_activate_bytes, dma_setup_bytes,
    pio_setup_bytes, set_bits_bytes,
};

/// Status DRDY, the device is ready (ACS-3, "Status field").
const READY: u8 = 0x40;
/// Status DRDY and DRQ, data come next.
const READY_WITH_DATA: u8 = 0x48;
/// Status DRDY and ERR, the command failed.
const FAILED: u8 = 0x41;
/// Error ABRT, the command was aborted (ACS-3, "Error field").
const ABRT: u8 = 0x04;
/// Error IDNF, a sector was not found.
pub(super) const IDNF: u8 = 0x10;

/// A Register FIS - Device to Host with a status, an error and an LBA.
fn register(i: bool, status: u8, error: u8, lba: u64) -> [u8; 20]
    requires { lba < 2 ^ 48 }
    ensures { result ≡ d2h_bytes (register_fis i status error lba) }
{
    d2h_bytes(&D2h {
        i,
        status,
        error,
        lba,
        device: 0,
        count: 0,
    })
}

/// A Set Device Bits FIS with a status, an error and the tags that are done.
fn set_bits(status: u8, error: u8, sactive: u32) -> [u8; 8]
    requires { bit_and status 0x77 ≡ status }
    ensures { result ≡ set_bits_bytes (done_fis status error sactive) }
{
    set_bits_bytes(&SetBits {
        i: true,
        status,
        error,
        sactive,
    })
}

/// A queued command is accepted.
pub(super) fn accepted() -> [u8; 20]
    ensures { result ≡ accepted_bytes }
{
    register(false, READY, 0, 0)
}

/// A command is refused with ABRT.
pub(super) fn aborted() -> [u8; 20]
    ensures { result ≡ aborted_bytes }
{
    register(true, FAILED, ABRT, 0)
}

/// A command that passes the last sector is refused with IDNF.
pub(super) fn not_found(lba: u64) -> [u8; 20]
    requires { lba < 2 ^ 48 }
    ensures { result ≡ not_found_bytes lba }
{
    register(true, FAILED, IDNF, lba)
}

/// A flush is done.
pub(super) fn flushed() -> [u8; 20]
    ensures { result ≡ flushed_bytes }
{
    register(true, READY, 0, 0)
}

/// 512 bytes come by PIO.
pub(super) fn pio_setup() -> [u8; 20]
    ensures { result ≡ pio_bytes }
{
    pio_setup_bytes(&PioSetup {
        i: true,
        d: true,
        status: READY_WITH_DATA,
        error: 0,
        lba: 0,
        device: 0,
        count: 0,
        e_status: READY,
        bytes: 512,
    })
}

/// The data of a command come next, all of them from the beginning of the buffer on.
pub(super) fn dma_setup(command: &Queued) -> [u8; 28]
    ensures { result ≡ setup_bytes command.now }
{
    dma_setup_bytes(&DmaSetup {
        a: false,
        i: false,
        d: !command.write,
        tag: command.tag,
        offset: 0,
        count: 512 * command.sectors,
    })
}

/// The commands of a word's tags are completed.
pub(super) fn completed(word: u32) -> [u8; 8]
    ensures { result ≡ completed_bytes word }
{
    set_bits(READY, 0, word)
}

/// A command failed, and none is completed.
pub(super) fn failed(error: u8) -> [u8; 8]
    ensures { result ≡ failed_bytes error }
{
    set_bits(FAILED, error, 0)
}

/// The next Data FIS of a write may come: DMA Activate.
pub(super) fn activate() -> [u8; 4]
    ensures { result ≡ activate_bytes }
{
    dma_activate_bytes()
}
