//! What an HBA can do, and CAP, which shows it.

ghost use Rattle.std.specs.Prelude.{◌≡◌, ◌≤◌};
ghost use Rattle.hba_regs.specs.CapFields.{IsCapable, usual, with_iss, with_ncs};
ghost use Rattle.hba_regs.specs.Reading.{capabilities_word};

use crate::words::bit;
use std::marker::Model;

/// What an HBA can do, by the fields of CAP that may differ (AHCI 1.3.1, section 3.1.1).
#[derive(Clone, Copy, Debug, PartialEq, Eq)]
pub struct Capabilities {
    /// Number of Command Slots, 1 to 32. CAP has this number less 1.
    pub ncs: u8,
    /// Interface Speed Support: the fastest generation, 1 to 3.
    pub iss: u8,
    /// Supports 64-bit Addressing: with 0 the upper halves of all addresses are 0.
    pub s64a: bool,
    /// Supports Native Command Queuing: with 0 software is not to issue queued commands, which are carried out all the same.
    pub sncq: bool,
    /// Supports Staggered Spin-up: the device waits for PxCMD.SUD.
    pub sss: bool,
    /// Supports Command List Override: PxCMD.CLO has an effect.
    pub sclo: bool,
    /// Supports Aggressive Link Power Management: PxCMD.ALPE and PxCMD.ASP can be written. The link stays active all the same.
    pub salp: bool,
    /// PIO Multiple DRQ Block. A PIO command's data may be several blocks, whatever this bit says.
    pub pmd: bool,
}

impl Model for Capabilities {
    ghost use Rattle.hba_regs.specs.CapFields.{CapFields, IsCapable};

    ghost Value = { CapFields };

    ghost view = { λ c. c };

    ghost invariant = { IsCapable };

    ghost inverse = { λ c. c };
}

impl Capabilities {
    /// 32 slots, generation 2, and S64A, SNCQ, SCLO and PMD.
    pub fn new() -> Self
        ensures { result ≡ usual }
    {
        Capabilities {
            ncs: 32,
            iss: 2,
            s64a: true,
            sncq: true,
            sss: false,
            sclo: true,
            salp: false,
            pmd: true,
        }
    }

    /// The same with another number of command slots, or `None` if it is not 1 to 32.
    pub fn with_ncs(self, ncs: u32) -> Option<Capabilities>
        ensures { result ≡ with_ncs self ncs }
    {
        if 1 <= ncs && ncs <= 32 {
            let ncs = ncs as u8;
            Some(Capabilities { ncs, ..self })
        } else {
            None
        }
    }

    /// The same with another fastest generation, or `None` if it is not 1 to 3.
    pub fn with_iss(self, iss: u32) -> Option<Capabilities>
        ensures { result ≡ with_iss self iss }
    {
        if 1 <= iss && iss <= 3 {
            let iss = iss as u8;
            Some(Capabilities { iss, ..self })
        } else {
            None
        }
    }

    /// What all capabilities keep.
    pub(crate) fn keeps_its_rules(&self)
        ensures { IsCapable self.now }
    {
        let _ = &self.ncs;
    }

    /// The number of command slots, in its range.
    pub fn ncs(&self) -> u8
        ensures value { result ≡ self.now.ncs }
        ensures least { 1 ≤ result }
        ensures most { result ≤ 32 }
    {
        self.ncs
    }

    /// The fastest generation, in its range.
    pub fn iss(&self) -> u8
        ensures value { result ≡ self.now.iss }
        ensures least { 1 ≤ result }
        ensures most { result ≤ 3 }
    {
        self.iss
    }

    /// CAP.
    pub fn word(&self) -> u32
        ensures { result ≡ capabilities_word self.now }
    {
        let sam = 0x0004_0000; // no legacy mode
        let numbers = (u32::from(self.iss) << 20) + (u32::from(self.ncs - 1) << 8) + sam;
        let upper = bit(self.s64a, 31) + bit(self.sncq, 30) + bit(self.sss, 27);
        upper + bit(self.salp, 26) + bit(self.sclo, 24) + bit(self.pmd, 15) + numbers
    }
}
