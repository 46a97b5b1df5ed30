//! The registers of the port (AHCI 1.3.1, section 3.3).

ghost use Rattle.std.specs.Prelude.{◌≡◌, ◌+◌, ◌*◌, ◌%◌, ◌^◌, ◌<◌, ◌≤◌, false, true, not, nat_eq};
ghost use Rattle.word_bits.specs.Places.{bits, intersection, no_places, word_of};
ghost use Rattle.hba_regs.specs.HbaState.{reset_port, up_port, HasWords, IsInReach, IsLawful};
ghost use Rattle.hba_regs.specs.Interrupts.{interrupts, is_pending, raised};
ghost use Rattle.hba_regs.specs.Reading.{command_word};
ghost use Rattle.hba_regs.specs.PortStates.{p_idle_selects};
ghost use Rattle.hba_regs.specs.Receiving.{signature_moves};
ghost use Rattle.hba_regs.specs.declared.link.Link.TheVariants.{Listening};
ghost use Rattle.hba_regs.specs.declared.signature.Signature.TheVariants.{Past};

use crate::capabilities::Capabilities;
use crate::link::Link;
use crate::signature::Signature;
use crate::soft_reset::SoftReset;
use crate::words::{bit, two_bytes};
use std::marker::Model;
use word_bits::{is_set, with_bit};

mod events;
mod moves;
mod writes;

use moves::is_busy;

/// Bits of PxIS (section 3.3.5).
const DHRS: u8 = 0;

const PSS: u8 = 1;

const SDBS: u8 = 3;

const UFS: u8 = 4;

const DPS: u8 = 5;

const PCS: u8 = 6;

const PRCS: u8 = 22;

const OFS: u8 = 24;

const INFS: u8 = 26;

const IFS: u8 = 27;

const TFES: u8 = 30;

/// DIAG.N, DIAG.F and DIAG.X of PxSERR (section 3.3.12) by their places, and DIAG.N, DIAG.X and DIAG.W, COMWAKE, in one word: what a link that comes
/// up reports.
const DIAG_N: u8 = 16;

const DIAG_F: u8 = 25;

const DIAG_X: u8 = 26;

const LINK_CHANGED: u32 = 0x0405_0000;

/// What PxSIG is before the device's first FIS (section 3.3.9).
const NO_SIGNATURE: u32 = 0xffff_ffff;

/// The registers of the port.
#[derive(Debug, Drop)]
pub struct Port {
    capabilities: Capabilities,
    clb: u64,
    fb: u64,
    is: u32,
    ie: u32,
    started: bool,
    receiving: bool,
    atapi: bool,
    drives_led: bool,
    spun_up: bool,
    saves_power: bool,
    slumbers: bool,
    status: u8,
    error: u8,
    signature: u32,
    link: Link,
    speed: u8,
    present: bool,
    control: u32,
    serr: u32,
    sact: u32,
    ci: u32,
    current: u8,
    first: u8,
    halted: bool,
    first_fis: Signature,
    soft: SoftReset,
}

impl Model for Port {
    ghost use Rattle.hba_regs.specs.HbaState.{HbaPort};

    ghost Value = { HbaPort };

    ghost use Rattle.hba_regs.specs.Fields.{port_of, PortIsLawful};

    ghost view = { port_of };

    ghost invariant = { PortIsLawful };
}

impl Port {
    /// The port after power-on, of an HBA that can do this, with a device or without one.
    pub fn new(capabilities: Capabilities, present: bool) -> Self
        ensures { result ≡ reset_port present capabilities 0 0 }
    {
        Port::with_bases(capabilities, 0, 0, present)
    }

    /// The port after a reset of the HBA, which leaves the bases (section 10.4.3), what the HBA can do, and the device that is plugged in.
    pub fn reset(&mut self)
        ensures { self.new ≡ reset_port self.old.present self.old.capabilities self.old.clb self.old.fb }
    {
        *self = Port::with_bases(self.capabilities, self.clb, self.fb, self.present);
    }

    /// The port after a reset, with these bases.
    fn with_bases(capabilities: Capabilities, clb: u64, fb: u64, present: bool) -> Self
        requires clb { clb % 2 ^ 10 ≡ 0 }
        requires fb { fb % 2 ^ 8 ≡ 0 }
        requires reach { IsInReach capabilities.s64a clb fb }
        ensures { result ≡ reset_port present capabilities clb fb }
    {
        let mut port = Port::up(capabilities, clb, fb);
        if capabilities.sss {
            port.listen(present);
        } else if !present {
            port.listen(present);
        }
        port
    }

    /// The same, while the link is up and the device's signature is due.
    #[tactic(auto, using(word_bits::proofs::BitsLemmas::bits_zero))]
    fn up(capabilities: Capabilities, clb: u64, fb: u64) -> Self
        requires clb { clb % 2 ^ 10 ≡ 0 }
        requires fb { fb % 2 ^ 8 ≡ 0 }
        requires reach { IsInReach capabilities.s64a clb fb }
        ensures { result ≡ up_port capabilities clb fb }
    {
        capabilities.keeps_its_rules();
        Port {
            capabilities,
            clb,
            fb,
            is: 0,
            ie: 0,
            started: false,
            receiving: false,
            atapi: false,
            drives_led: false,
            spun_up: true,
            saves_power: false,
            slumbers: false,
            status: 0x80,
            error: 0,
            signature: NO_SIGNATURE,
            link: Link::Up,
            speed: capabilities.iss(),
            present: true,
            control: 0,
            serr: LINK_CHANGED,
            sact: 0,
            ci: 0,
            current: 0,
            first: 0,
            halted: false,
            first_fis: Signature::Due,
            soft: SoftReset::Off,
        }
    }

    /// With CAP.SSS a device waits for PxCMD.SUD (section 10.1.1), or there is no device: there is no link, and nothing to report.
    #[tactic(auto, using(word_bits::proofs::BitsLemmas::bits_zero, crate::proofs::StateLemmas::or_twice))]
    fn listen(&mut self, present: bool)
        requires det { self.old.sctl ≡ 0 }
        ensures { self.new ≡ record self.old { present = present; sud = not self.old.capabilities.sss; sts = 0x7f; link = Listening; serr = no_places; signature = Past } }
    {
        self.present = present;
        self.spun_up = !self.capabilities.sss;
        self.status = 0x7f;
        self.link = Link::Listening;
        self.serr = 0;
        self.first_fis = Signature::Past;
    }

    /// What every state of a port's registers keeps.
    pub fn keeps_its_rules(&self)
        ensures lawful { IsLawful self.now }
        ensures words { HasWords self.now }
    {
        let _ = &self.clb;
    }

    /// What the HBA can do.
    pub fn capabilities(&self) -> Capabilities
        ensures { result ≡ self.now.capabilities }
    {
        self.capabilities
    }

    /// PxCLB and PxCLBU.
    pub fn clb(&self) -> u64
        ensures { result ≡ self.now.clb }
    {
        self.clb
    }

    /// PxFB and PxFBU.
    pub fn fb(&self) -> u64
        ensures { result ≡ self.now.fb }
    {
        self.fb
    }

    /// PxIS: the bits that are kept, with UFS, PCS and PRCS of PxSERR.
    pub fn is(&self) -> u32
        ensures { bits result ≡ interrupts self.now }
    {
        let unknown = raised(self.is, UFS, is_set(self.serr, DIAG_F));
        let changed = raised(unknown, PRCS, is_set(self.serr, DIAG_N));
        raised(changed, PCS, is_set(self.serr, DIAG_X))
    }

    /// PxIE.
    pub fn ie(&self) -> u32
        ensures { bits result ≡ self.now.ie }
    {
        self.ie
    }

    /// Whether some interrupt is set and enabled.
    pub fn is_pending(&self) -> bool
        ensures { result ≡ is_pending self.now }
    {
        meet(self.is(), self.ie)
    }

    /// PxCMD.
    pub fn command(&self) -> u32
        ensures { result ≡ command_word self.now }
    {
        let pod = 0x0000_0004; // the device is powered
        let ccs = if self.started {
            u32::from(self.current) << 8
        } else {
            0
        };
        let running = bit(self.started, 0) + bit(self.started, 15) + ccs;
        let receiving = bit(self.receiving, 4) + bit(self.receiving, 14);
        let device = bit(self.spun_up, 1) + bit(self.atapi, 24) + bit(self.drives_led, 25);
        let power = bit(self.saves_power, 26) + bit(self.slumbers, 27);
        running + receiving + device + power + pod
    }

    /// PxTFD.
    pub fn task_file(&self) -> u32
        ensures { result ≡ self.now.err * 2 ^ 8 + self.now.sts }
    {
        two_bytes(self.error, self.status)
    }

    /// PxSIG.
    pub fn signature(&self) -> u32
        ensures { result ≡ self.now.sig }
    {
        self.signature
    }

    /// The link, which PxSSTS shows.
    pub fn link(&self) -> Link
        ensures { result ≡ self.now.link }
    {
        self.link
    }

    /// Whether a device is plugged in.
    pub fn is_present(&self) -> bool
        ensures { result ≡ self.now.present }
    {
        self.present
    }

    /// The generation of the active link.
    pub fn speed(&self) -> u8
        ensures value { result ≡ self.now.speed }
        ensures most { result ≤ 3 }
    {
        self.speed
    }

    /// PxSCTL.
    pub fn control(&self) -> u32
        ensures { result ≡ self.now.sctl }
    {
        self.control
    }

    /// PxSERR.
    pub fn serr(&self) -> u32
        ensures { bits result ≡ self.now.serr }
    {
        self.serr
    }

    /// PxSACT.
    pub fn sact(&self) -> u32
        ensures { bits result ≡ self.now.sact }
    {
        self.sact
    }

    /// PxCI.
    pub fn ci(&self) -> u32
        ensures { bits result ≡ self.now.ci }
    {
        self.ci
    }

    /// PxCMD.ST.
    pub fn is_started(&self) -> bool
        ensures { result ≡ self.now.st }
    {
        self.started
    }

    /// PxCMD.FRE.
    pub fn is_receiving(&self) -> bool
        ensures { result ≡ self.now.fre }
    {
        self.receiving
    }

    /// Whether no command is processed until ST is cleared.
    pub fn is_halted(&self) -> bool
        ensures { result ≡ self.now.halted }
    {
        self.halted
    }

    /// The slot with the highest priority to issue from.
    pub fn first(&self) -> u8
        ensures value { result ≡ self.now.first }
        ensures slot { result < self.now.capabilities.ncs }
        ensures most { result < 32 }
    {
        self.first
    }

    /// Whether BSY and DRQ are 0, so that a command may be taken.
    pub fn is_free(&self) -> bool
        ensures { result ≡ p_idle_selects self.now }
    {
        !is_busy(self.status)
    }

    /// The FIS that brings the signature.
    pub fn first_fis(&self) -> Signature
        ensures { result ≡ self.now.signature }
    {
        self.first_fis
    }

    /// Whether that FIS can be taken, or posted, now (section 5.3.2).
    pub fn signature_moves(&self) -> bool
        ensures { result ≡ signature_moves self.now self.now.signature }
    {
        match self.first_fis {
            Signature::Past => false,
            Signature::Due => !self.started || (self.receiving && !self.halted),
            Signature::Unposted(_) => self.receiving,
        }
    }

    /// How far the device is with a software reset.
    pub fn soft(&self) -> SoftReset
        ensures { result ≡ self.now.soft }
    {
        self.soft
    }
}

/// A set of interrupts with one more, if it is raised.
fn raised(word: u32, place: u8, is_raised: bool) -> u32
    requires { place < 32 }
    ensures { bits result ≡ raised is_raised place (bits word) }
{
    if is_raised {
        with_bit(word, place)
    } else {
        word
    }
}

/// Whether two words have a bit in common.
#[tactic(auto, using(word_bits::proofs::BitsLemmas::bits_and, word_bits::proofs::BitsLemmas::words_back))]
fn meet(word: u32, other: u32) -> bool
    ensures { result ≡ not (nat_eq (word_of (intersection (bits word) (bits other))) 0) }
{
    word & other != 0
}
