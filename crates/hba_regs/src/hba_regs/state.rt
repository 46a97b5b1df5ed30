//! What the HBA's registers say to the device's side.

ghost use Rattle.std.specs.Prelude.{◌≡◌, ◌<◌, true};
ghost use Rattle.word_bits.specs.Places.{bits};
ghost use Rattle.hba_regs.specs.HbaState.{HasWords, IsLawful};
ghost use Rattle.hba_regs.specs.Interrupts.{interrupt, is_pending};
ghost use Rattle.hba_regs.specs.Linking.{is_up};
ghost use Rattle.hba_regs.specs.PortStates.{p_idle_selects};
ghost use Rattle.hba_regs.specs.Receiving.{signature_moves};

use super::HbaRegs;
use crate::capabilities::Capabilities;
use crate::link::Link;
use crate::signature::Signature;
use crate::soft_reset::SoftReset;

impl HbaRegs {
    /// What every state of the registers keeps: the port's rules, and IS.IPS is 1 while an interrupt is pending.
    pub fn keeps_its_rules(&self)
        ensures port { IsLawful self.now.port }
        ensures words { HasWords self.now.port }
        ensures reports { is_pending self.now.port ≡ true → self.now.ips ≡ true }
    {
        self.port.keeps_its_rules();
    }

    /// What the HBA can do, which CAP shows.
    pub fn capabilities(&self) -> Capabilities
        ensures { result ≡ self.now.port.capabilities }
    {
        self.port.capabilities()
    }

    /// The level of the interrupt line: IS.IPS and GHC.IE.
    pub fn interrupt(&self) -> bool
        ensures { result ≡ interrupt self.now }
    {
        self.pending && self.enabled
    }

    /// PxCLB and PxCLBU: the address of the command list.
    pub fn list_base(&self) -> u64
        ensures { result ≡ self.now.port.clb }
    {
        self.port.clb()
    }

    /// PxFB and PxFBU: the address of the received FIS area.
    pub fn received_base(&self) -> u64
        ensures { result ≡ self.now.port.fb }
    {
        self.port.fb()
    }

    /// PxSACT: a bit for each slot whose queued command is outstanding.
    pub fn sact(&self) -> u32
        ensures { bits result ≡ self.now.port.sact }
    {
        self.port.sact()
    }

    /// PxCI: a bit for each slot whose command the device hasn't taken.
    pub fn ci(&self) -> u32
        ensures { bits result ≡ self.now.port.ci }
    {
        self.port.ci()
    }

    /// PxCMD.ST: whether the port processes its command list.
    pub fn is_started(&self) -> bool
        ensures { result ≡ self.now.port.st }
    {
        self.port.is_started()
    }

    /// PxCMD.FRE: whether received FISes are posted.
    pub fn is_receiving(&self) -> bool
        ensures { result ≡ self.now.port.fre }
    {
        self.port.is_receiving()
    }

    /// Whether no command is processed until ST is cleared (AHCI 1.3.1, section 6.2.2).
    pub fn is_halted(&self) -> bool
        ensures { result ≡ self.now.port.halted }
    {
        self.port.is_halted()
    }

    /// Whether the link to the device is up.
    pub fn link_is_up(&self) -> bool
        ensures { result ≡ is_up self.now.port.link }
    {
        matches!(self.port.link(), Link::Up)
    }

    /// The FIS that brings the device's signature.
    pub fn signature(&self) -> Signature
        ensures { result ≡ self.now.port.signature }
    {
        self.port.first_fis()
    }

    /// Whether that FIS can be taken, or posted, now.
    pub fn signature_moves(&self) -> bool
        ensures { result ≡ signature_moves self.now.port self.now.port.signature }
    {
        self.port.signature_moves()
    }

    /// How far the device is with a software reset.
    pub fn soft_reset(&self) -> SoftReset
        ensures { result ≡ self.now.port.soft }
    {
        self.port.soft()
    }

    /// Whether BSY and DRQ are 0, so that a command may be taken (section 5.3.2).
    pub fn is_free(&self) -> bool
        ensures { result ≡ p_idle_selects self.now.port }
    {
        self.port.is_free()
    }

    /// The slot with the highest priority to issue from (section 3.3.7, CCS).
    pub fn first_slot(&self) -> u8
        ensures value { result ≡ self.now.port.first }
        ensures slot { result < self.now.port.capabilities.ncs }
        ensures most { result < 32 }
    {
        self.port.first()
    }
}
