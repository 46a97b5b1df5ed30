//! The registers by their offsets (AHCI 1.3.1, sections 3.1 and 3.3).

ghost use Rattle.std.specs.Prelude.{◌≡◌, Some, MatchOption};
ghost use Rattle.hba_regs.specs.RegisterTable.{offset_of, register_at, takes_ones};

/// The registers that are not 0 at all times, by the standard's names.
#[derive(Clone, Copy, PartialEq, Eq, Debug)]
pub enum Register {
    /// HBA Capabilities.
    Cap,
    /// Global HBA Control.
    Ghc,
    /// Interrupt Status.
    Is,
    /// Ports Implemented.
    Pi,
    /// AHCI Version.
    Vs,
    /// Port x Command List Base Address.
    PxClb,
    /// Its upper 32 bits.
    PxClbu,
    /// Port x FIS Base Address.
    PxFb,
    /// Its upper 32 bits.
    PxFbu,
    /// Port x Interrupt Status.
    PxIs,
    /// Port x Interrupt Enable.
    PxIe,
    /// Port x Command and Status.
    PxCmd,
    /// Port x Task File Data.
    PxTfd,
    /// Port x Signature.
    PxSig,
    /// Port x Serial ATA Status.
    PxSsts,
    /// Port x Serial ATA Control.
    PxSctl,
    /// Port x Serial ATA Error.
    PxSerr,
    /// Port x Serial ATA Active.
    PxSact,
    /// Port x Command Issue.
    PxCi,
}

impl Register {
    /// The register's offset from the beginning of the HBA's registers, in bytes.
    #[tactic(auto, unfolding(crate::specs::RegisterTable::register_at))]
    pub fn offset(self) -> u32
        ensures place { result ≡ offset_of self }
        ensures found { register_at result ≡ Some self }
    {
        match self {
            Register::Cap => 0x000,
            Register::Ghc => 0x004,
            Register::Is => 0x008,
            Register::Pi => 0x00c,
            Register::Vs => 0x010,
            Register::PxClb => 0x100,
            Register::PxClbu => 0x104,
            Register::PxFb => 0x108,
            Register::PxFbu => 0x10c,
            Register::PxIs => 0x110,
            Register::PxIe => 0x114,
            Register::PxCmd => 0x118,
            Register::PxTfd => 0x120,
            Register::PxSig => 0x124,
            Register::PxSsts => 0x128,
            Register::PxSctl => 0x12c,
            Register::PxSerr => 0x130,
            Register::PxSact => 0x134,
            Register::PxCi => 0x138,
        }
    }

    /// The register at an offset, or `None` if none of these is there.
    #[tactic(auto, unfolding(crate::specs::RegisterTable::register_at))]
    pub fn at(off: u32) -> Option<Register>
        ensures { result ≡ register_at off }
    {
        Some(match off {
            0x000 => Register::Cap,
            0x004 => Register::Ghc,
            0x008 => Register::Is,
            0x00c => Register::Pi,
            0x010 => Register::Vs,
            0x100 => Register::PxClb,
            0x104 => Register::PxClbu,
            0x108 => Register::PxFb,
            0x10c => Register::PxFbu,
            0x110 => Register::PxIs,
            0x114 => Register::PxIe,
            0x118 => Register::PxCmd,
            0x120 => Register::PxTfd,
            0x124 => Register::PxSig,
            0x128 => Register::PxSsts,
            0x12c => Register::PxSctl,
            0x130 => Register::PxSerr,
            0x134 => Register::PxSact,
            0x138 => Register::PxCi,
            _ => return None,
        })
    }

    /// Whether writing 1 clears or sets a bit of the register, and writing 0 leaves it.
    pub fn takes_ones(self) -> bool
        ensures { result ≡ takes_ones self }
    {
        match self {
            Register::Is | Register::PxIs | Register::PxSerr => true,
            Register::PxSact | Register::PxCi => true,
            _ => false,
        }
    }
}
