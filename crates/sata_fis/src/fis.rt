use crate::d2h::D2h;
use crate::dma_setup::DmaSetup;
use crate::h2d::H2d;
use crate::payload::Payload;
use crate::pio_setup::PioSetup;
use crate::set_bits::SetBits;

/// A frame information structure (Serial ATA, "FIS types").
#[derive(Debug, PartialEq, Eq, Drop)]
pub enum Fis<'a> {
    /// Type 27h, Register FIS - Host to Device.
    H2d(H2d),
    /// Type 34h, Register FIS - Device to Host.
    D2h(D2h),
    /// Type 39h, DMA Activate FIS - Device to Host.
    DmaActivate,
    /// Type 41h, DMA Setup FIS.
    DmaSetup(DmaSetup),
    /// Type 5Fh, PIO Setup FIS - Device to Host.
    PioSetup(PioSetup),
    /// Type A1h, Set Device Bits FIS - Device to Host.
    SetBits(SetBits),
    /// Type 46h, Data FIS.
    Data(Payload<'a>),
}
