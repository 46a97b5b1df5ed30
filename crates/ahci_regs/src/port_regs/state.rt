ghost use Rattle.std.specs.Prelude.{◌≡◌};
ghost use Rattle.word_bits.specs.Places.{bits};
ghost use Rattle.ahci_regs.specs.PortState.{IsLawful};

use super::PortRegs;

impl PortRegs {
    /// What every state of a port's registers keeps: no slot at or above the depth, only this model's interrupts, no
    /// command while the port is stopped, and aligned bases.
    pub fn keeps_its_rules(&self)
        ensures { IsLawful self.now }
    {
        let _ = &self.depth;
    }

    /// PxSACT: a bit for each slot whose queued command is outstanding.
    pub fn sact(&self) -> u32
        ensures { bits result ≡ self.now.sact }
    {
        self.sact
    }

    /// PxCI: a bit for each slot whose command the device hasn't taken.
    pub fn ci(&self) -> u32
        ensures { bits result ≡ self.now.ci }
    {
        self.ci
    }

    /// PxCMD.ST: whether the port processes its command list.
    pub fn started(&self) -> bool
        ensures { result ≡ self.now.st }
    {
        self.started
    }
}
