//! The registers by their offsets and names (AHCI 1.3.1, sections 3.1 and 3.3).

ghost use Rattle.std.specs.Prelude.{◌≡◌, IfOk};
ghost use Rattle.ahci_regs.specs.RegisterTable.{name_of, offset_of, register_at, registers};

use crate::fault::RegFault;

/// The registers of this model, by the standard's names (AHCI 1.3.1, sections 3.1 and 3.3).
#[derive(Clone, Copy, PartialEq, Eq, Debug)]
pub enum Register {
    /// HBA Capabilities.
    Cap,
    /// Global HBA Control.
    Ghc,
    /// Ports Implemented.
    Pi,
    /// AHCI Version.
    Vs,
    /// Port x Command List Base Address.
    PxClb,
    /// Its upper 32 bits.
    PxClbu,
    /// Port x FIS Base Address.
    PxFb,
    /// Its upper 32 bits.
    PxFbu,
    /// Port x Interrupt Status.
    PxIs,
    /// Port x Interrupt Enable.
    PxIe,
    /// Port x Command and Status.
    PxCmd,
    /// Port x Task File Data.
    PxTfd,
    /// Port x Signature.
    PxSig,
    /// Port x Serial ATA Status.
    PxSsts,
    /// Port x Serial ATA Control.
    PxSctl,
    /// Port x Serial ATA Error.
    PxSerr,
    /// Port x Serial ATA Active.
    PxSact,
    /// Port x Command Issue.
    PxCi,
}

impl Register {
    /// All registers, in the order of their offsets.
    pub fn all() -> [Register; 18]
        ensures { result ≡ registers }
    {
        [
            Register::Cap,
            Register::Ghc,
            Register::Pi,
            Register::Vs,
            Register::PxClb,
            Register::PxClbu,
            Register::PxFb,
            Register::PxFbu,
            Register::PxIs,
            Register::PxIe,
            Register::PxCmd,
            Register::PxTfd,
            Register::PxSig,
            Register::PxSsts,
            Register::PxSctl,
            Register::PxSerr,
            Register::PxSact,
            Register::PxCi,
        ]
    }

    /// The standard's name.
    pub fn name(self) -> &'static str
        ensures { result.now ≡ name_of self }
    {
        match self {
            Register::Cap => "CAP",
            Register::Ghc => "GHC",
            Register::Pi => "PI",
            Register::Vs => "VS",
            Register::PxClb => "PxCLB",
            Register::PxClbu => "PxCLBU",
            Register::PxFb => "PxFB",
            Register::PxFbu => "PxFBU",
            Register::PxIs => "PxIS",
            Register::PxIe => "PxIE",
            Register::PxCmd => "PxCMD",
            Register::PxTfd => "PxTFD",
            Register::PxSig => "PxSIG",
            Register::PxSsts => "PxSSTS",
            Register::PxSctl => "PxSCTL",
            Register::PxSerr => "PxSERR",
            Register::PxSact => "PxSACT",
            Register::PxCi => "PxCI",
        }
    }

    /// The register's offset from the beginning of the HBA's registers, in bytes.
    #[tactic(auto, unfolding(crate::specs::RegisterTable::register_at))]
    pub fn offset(self) -> u32
        ensures place { result ≡ offset_of self }
        ensures found { register_at result ≡ Ok self }
    {
        match self {
            Register::Cap => 0x000,
            Register::Ghc => 0x004,
            Register::Pi => 0x00c,
            Register::Vs => 0x010,
            Register::PxClb => 0x100,
            Register::PxClbu => 0x104,
            Register::PxFb => 0x108,
            Register::PxFbu => 0x10c,
            Register::PxIs => 0x110,
            Register::PxIe => 0x114,
            Register::PxCmd => 0x118,
            Register::PxTfd => 0x120,
            Register::PxSig => 0x124,
            Register::PxSsts => 0x128,
            Register::PxSctl => 0x12c,
            Register::PxSerr => 0x130,
            Register::PxSact => 0x134,
            Register::PxCi => 0x138,
        }
    }

    /// The register at an offset: `Unaligned` where it isn't a multiple of 4, else `NoSuchRegister` if there is none.
    #[tactic(auto, unfolding(crate::specs::RegisterTable::register_at))]
    #[inline(always)]
    pub fn at(off: u32) -> Result<Register, RegFault>
        ensures answer { result ≡ register_at off }
        ensures place { IfOk result (λ register. offset_of register ≡ off) }
    {
        if off % 4 != 0 {
            return Err(RegFault::Unaligned);
        }
        Ok(match off {
            0x000 => Register::Cap,
            0x004 => Register::Ghc,
            0x00c => Register::Pi,
            0x010 => Register::Vs,
            0x100 => Register::PxClb,
            0x104 => Register::PxClbu,
            0x108 => Register::PxFb,
            0x10c => Register::PxFbu,
            0x110 => Register::PxIs,
            0x114 => Register::PxIe,
            0x118 => Register::PxCmd,
            0x120 => Register::PxTfd,
            0x124 => Register::PxSig,
            0x128 => Register::PxSsts,
            0x12c => Register::PxSctl,
            0x130 => Register::PxSerr,
            0x134 => Register::PxSact,
            0x138 => Register::PxCi,
            _ => return Err(RegFault::NoSuchRegister),
        })
    }
}
