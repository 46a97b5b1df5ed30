ghost use Rattle.ata_pages.specs.declared.page_fault.PageFault.TheVariants as the-fault;
ghost use Rattle.std.specs.Prelude.{◌≡◌};

use std::alloc::AllocError;
use streams::OutputFailed;

/// Why a page was not written to its end.
#[derive(Clone, Copy, Debug, PartialEq, Eq)]
pub enum PageFault {
    /// A write or a flush failed, or a write took no byte.
    Write,
    /// The system gave no memory for the text.
    OutOfMemory,
}

impl From<AllocError> for PageFault {
    ghost from_gives = { λ _ fault. fault ≡ the-fault.OutOfMemory };

    fn from(_refused: AllocError) -> PageFault {
        PageFault::OutOfMemory
    }
}

impl From<OutputFailed> for PageFault {
    ghost from_gives = { λ _ fault. fault ≡ the-fault.Write };

    fn from(_failed: OutputFailed) -> PageFault {
        PageFault::Write
    }
}
