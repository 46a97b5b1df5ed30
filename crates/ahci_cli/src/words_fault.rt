ghost use Rattle.ahci_cli.specs.Words.{words_fault};
ghost use Rattle.ahci_cli.specs.declared.words_fault.WordsFault.TheVariants as the-fault;
ghost use Rattle.std.specs.IoError.{error_kind};
ghost use Rattle.std.specs.Prelude.{◌≡◌};

use std::alloc::AllocError;
use std::io;

/// Why the words of a command line could not be read.
#[derive(Clone, Copy, Debug, PartialEq, Eq)]
pub enum WordsFault {
    /// An argument isn't text in UTF-8.
    NotText,
    /// The system gave no memory.
    OutOfMemory,
}

impl From<io::Error> for WordsFault {
    ghost from_gives = { λ error fault. fault ≡ words_fault (error_kind error) };

    fn from(error: io::Error) -> WordsFault {
        match error.kind() {
            io::ErrorKind::OutOfMemory => WordsFault::OutOfMemory,
            _ => WordsFault::NotText,
        }
    }
}

impl From<AllocError> for WordsFault {
    ghost from_gives = { λ _ fault. fault ≡ the-fault.OutOfMemory };

    fn from(_refused: AllocError) -> WordsFault {
        WordsFault::OutOfMemory
    }
}
