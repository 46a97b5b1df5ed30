//! Values as FIS bytes.

ghost use Rattle.std.specs.Prelude.{◌≡◌, ◌≤◌, ◌++◌, ℕ, List, Result, Ok, length};
ghost use Rattle.sata_fis.specs.declared.fis.Fis.{Fis};
ghost use Rattle.sata_fis.specs.declared.fis.Fis.TheVariants.{Data, DmaActivate};
ghost use Rattle.sata_fis.specs.declared.fault.FisFault.{FisFault};
ghost use Rattle.sata_fis.specs.Payload.{IsPayload};
ghost use Rattle.sata_fis.specs.Spelling.{Spells};
ghost use Rattle.sata_fis.specs.Fault.{Decodes};
ghost use Rattle.sata_fis.specs.Layout.{h2d_at, d2h_at, dma_setup_at, pio_setup_at, set_bits_at};
ghost use Rattle.sata_fis.specs.Encoding.{encoded, data_head_bytes, IsNotData, h2d_bytes, d2h_bytes, dma_setup_bytes, pio_setup_bytes, set_bits_bytes};

use crate::d2h::D2h;
use crate::dma_setup::DmaSetup;
use crate::fis::Fis;
use crate::h2d::H2d;
use crate::pio_setup::PioSetup;
use crate::places::{flags, from_dwords};
use crate::set_bits::SetBits;
use arrayvec::ArrayVec;

/// The first dword of a Data FIS, which its payload follows (Serial ATA, "Data FIS").
pub fn data_head() -> [u8; 4]
    ensures bytes { result ≡ data_head_bytes }
    ensures spells { (xs : List ℕ) → IsPayload xs → Spells (result ++ xs) (Data xs) }
{
    [0x46, 0, 0, 0]
}

impl Fis<'_> {
    /// The bytes of a FIS that isn't Data, reserved bits and bytes 0. Those of Data are `data_head` and
    /// its payload.
    pub fn encode(&self) -> ArrayVec<u8, 28>
        requires { IsNotData self.now }
        ensures bytes { result.items ≡ encoded self.now }
        ensures spells { Spells result.items self.now }
        ensures back { (r : Result Fis FisFault) → Decodes result.items r → r ≡ Ok self.now }
    {
        match self {
            Fis::H2d(f) => held(&h2d_bytes(f)),
            Fis::D2h(f) => held(&d2h_bytes(f)),
            Fis::DmaActivate => held(&dma_activate_bytes()),
            Fis::DmaSetup(f) => held(&dma_setup_bytes(f)),
            Fis::PioSetup(f) => held(&pio_setup_bytes(f)),
            Fis::SetBits(f) => held(&set_bits_bytes(f)),
            Fis::Data(_) => unreachable!(),
        }
    }
}

/// Bytes in room for the longest FIS but Data.
fn held(bytes: &[u8]) -> ArrayVec<u8, 28>
    requires { length bytes.now ≤ 28 }
    ensures { result.items ≡ bytes.now }
{
    let mut room = ArrayVec::new();
    room.try_extend_from_slice(bytes).unwrap();
    room
}

// The bytes of each type, one line a dword, reserved bits 0.

/// The bytes of a DMA Activate FIS.
pub fn dma_activate_bytes() -> [u8; 4]
    ensures { result ≡ encoded DmaActivate }
{
    [0x39, 0, 0, 0]
}

/// The bytes of a Register FIS - Host to Device.
pub fn h2d_bytes(f: &H2d) -> [u8; 20]
    ensures bytes { result ≡ h2d_bytes f.now }
    ensures back { h2d_at result ≡ f.now }
{
    let H2d {
        features,
        lba,
        count,
        ..
    } = *f;
    let [features_low, features_high] = features.to_le_bytes();
    let [lba_0, lba_1, lba_2, lba_3, lba_4, lba_5, _, _] = lba.to_le_bytes();
    let [count_low, count_high] = count.to_le_bytes();
    from_dwords(&[
        [0x27, flags(f.c, false, false), f.command, features_low],
        [lba_0, lba_1, lba_2, f.device],
        [lba_3, lba_4, lba_5, features_high],
        [count_low, count_high, 0, f.control],
        [0, 0, 0, 0],
    ])
}

/// The bytes of a Register FIS - Device to Host.
pub fn d2h_bytes(f: &D2h) -> [u8; 20]
    ensures bytes { result ≡ d2h_bytes f.now }
    ensures back { d2h_at result ≡ f.now }
{
    let D2h { lba, count, .. } = *f;
    let [lba_0, lba_1, lba_2, lba_3, lba_4, lba_5, _, _] = lba.to_le_bytes();
    let [count_low, count_high] = count.to_le_bytes();
    from_dwords(&[
        [0x34, flags(false, f.i, false), f.status, f.error],
        [lba_0, lba_1, lba_2, f.device],
        [lba_3, lba_4, lba_5, 0],
        [count_low, count_high, 0, 0],
        [0, 0, 0, 0],
    ])
}

/// The bytes of a DMA Setup FIS.
pub fn dma_setup_bytes(f: &DmaSetup) -> [u8; 28]
    ensures bytes { result ≡ dma_setup_bytes f.now }
    ensures back { dma_setup_at result ≡ f.now }
{
    from_dwords(&[
        [0x41, flags(f.a, f.i, f.d), 0, 0],
        [f.tag, 0, 0, 0],
        [0, 0, 0, 0],
        [0, 0, 0, 0],
        f.offset.to_le_bytes(),
        f.count.to_le_bytes(),
        [0, 0, 0, 0],
    ])
}

/// The bytes of a PIO Setup FIS.
pub fn pio_setup_bytes(f: &PioSetup) -> [u8; 20]
    ensures bytes { result ≡ pio_setup_bytes f.now }
    ensures back { pio_setup_at result ≡ f.now }
{
    let PioSetup {
        lba,
        count,
        bytes,
        ..
    } = *f;
    let [lba_0, lba_1, lba_2, lba_3, lba_4, lba_5, _, _] = lba.to_le_bytes();
    let [count_low, count_high] = count.to_le_bytes();
    let [bytes_low, bytes_high] = bytes.to_le_bytes();
    from_dwords(&[
        [0x5F, flags(false, f.i, f.d), f.status, f.error],
        [lba_0, lba_1, lba_2, f.device],
        [lba_3, lba_4, lba_5, 0],
        [count_low, count_high, 0, f.e_status],
        [bytes_low, bytes_high, 0, 0],
    ])
}

/// The bytes of a Set Device Bits FIS.
pub fn set_bits_bytes(f: &SetBits) -> [u8; 8]
    ensures bytes { result ≡ set_bits_bytes f.now }
    ensures back { set_bits_at result ≡ f.now }
{
    from_dwords(&[
        [0xA1, flags(false, f.i, false), f.status, f.error],
        f.sactive.to_le_bytes(),
    ])
}
