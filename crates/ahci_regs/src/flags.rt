//! The bits of PxIS, PxCMD and PxTFD that this model has.

ghost use Rattle.std.specs.Prelude.{⊤, ◌≡◌, [], ◌∷◌, codes};
ghost use Rattle.word_bits.specs.Places.{bits, has_place, intersection, minus};
ghost use Rattle.ahci_regs.specs.PortState.{implemented};
ghost use Rattle.ahci_regs.specs.Reading.{command_word};
ghost use Rattle.ahci_regs.specs.Receiving.{has_error, is_done, raised, status_after_bits, tfes};

use bitflags::{Flag, Flags, bitflag_items};

/// Bits of PxIS and PxIE (AHCI 1.3.1, sections 3.3.5 and 3.3.6).
#[derive(Clone, Copy, PartialEq, Eq, Debug)]
pub struct Interrupts(pub u32);

bitflag_items! {
    impl Interrupts: u32 {
        const DHRS = 0x0000_0001;
        const PSS = 0x0000_0002;
        const DSS = 0x0000_0004;
        const SDBS = 0x0000_0008;
        const TFES = 0x4000_0000;
    }
}

impl Flags for Interrupts {
    type Bits = u32;

    ghost exact = { ⊤ };

    ghost table = { (codes "DHRS", 0x00000001) ∷ (codes "PSS", 0x00000002) ∷ (codes "DSS", 0x00000004) ∷ (codes "SDBS", 0x00000008) ∷ (codes "TFES", 0x40000000) ∷ [] };

    ghost set_of = { λ p. p.0 };

    fn flags<'a>() -> &'a [Flag<Interrupts>] {
        Interrupts::FLAGS
    }

    fn bits(&self) -> u32 {
        self.0
    }

    fn from_bits_retain(bits: u32) -> Interrupts {
        Interrupts(bits)
    }
}

impl Interrupts {
    /// The interrupts with one more, where it is raised.
    #[tactic(auto, using(word_bits::proofs::BitsLemmas::bits_or))]
    pub fn with(self, interrupt: Interrupts, is_raised: bool) -> Interrupts
        ensures { bits result.0 ≡ raised is_raised (bits interrupt.0) (bits self.0) }
    {
        if is_raised {
            self.union(interrupt)
        } else {
            self
        }
    }

    /// The interrupts after a FIS: with its own one where its bit I is 1, and with TFES where its status reports an
    /// error.
    pub fn after_fis(self, own: Interrupts, i: bool, status: Status) -> Interrupts
        ensures { bits result.0 ≡ raised (has_error status.0) tfes (raised i (bits own.0) (bits self.0)) }
    {
        self.with(own, i).with(Interrupts::TFES, status.has_error())
    }

    /// The interrupts without those to which software wrote 1.
    #[tactic(auto, using(word_bits::proofs::BitsLemmas::bits_and_not))]
    pub fn acknowledged(self, value: u32) -> Interrupts
        ensures { bits result.0 ≡ minus (bits self.0) (bits value) }
    {
        self.difference(Interrupts(value))
    }

    /// The interrupts of this model that a value names.
    #[tactic(auto, using(word_bits::proofs::BitsLemmas::bits_and), unfolding(bitflags::specs::Sets::known_from))]
    pub fn named(value: u32) -> Interrupts
        ensures { bits result.0 ≡ intersection (bits value) implemented }
    {
        Interrupts::from_bits_truncate(value)
    }
}

/// Bits of PxCMD (AHCI 1.3.1, section 3.3.7).
#[derive(Clone, Copy, PartialEq, Eq, Debug)]
pub struct PortCommand(pub u32);

bitflag_items! {
    impl PortCommand: u32 {
        const ST = 0x0000_0001;
        const FRE = 0x0000_0010;
        const FR = 0x0000_4000;
        const CR = 0x0000_8000;
    }
}

impl Flags for PortCommand {
    type Bits = u32;

    ghost exact = { ⊤ };

    ghost table = { (codes "ST", 0x00000001) ∷ (codes "FRE", 0x00000010) ∷ (codes "FR", 0x00004000) ∷ (codes "CR", 0x00008000) ∷ [] };

    ghost set_of = { λ p. p.0 };

    fn flags<'a>() -> &'a [Flag<PortCommand>] {
        PortCommand::FLAGS
    }

    fn bits(&self) -> u32 {
        self.0
    }

    fn from_bits_retain(bits: u32) -> PortCommand {
        PortCommand(bits)
    }
}

impl PortCommand {
    /// PxCMD while ST and FRE are these: CR and FR follow them at once.
    pub fn of(st: bool, fre: bool) -> PortCommand
        ensures { result.0 ≡ command_word st fre }
    {
        let mut command = PortCommand::empty();
        if st {
            command = command.union(PortCommand::ST).union(PortCommand::CR);
        }
        if fre {
            command = command.union(PortCommand::FRE).union(PortCommand::FR);
        }
        command
    }

    /// Whether ST is set.
    #[tactic(auto, using(crate::proofs::FlagLemmas::test_st))]
    pub fn starts(self) -> bool
        ensures { result ≡ has_place (bits self.0) 0 }
    {
        self.contains(PortCommand::ST)
    }

    /// Whether FRE is set.
    #[tactic(auto, using(crate::proofs::FlagLemmas::test_fre))]
    pub fn receives(self) -> bool
        ensures { result ≡ has_place (bits self.0) 4 }
    {
        self.contains(PortCommand::FRE)
    }
}

/// Bits of a status, the lower byte of PxTFD (AHCI 1.3.1, section 3.3.8).
#[derive(Clone, Copy, PartialEq, Eq, Debug)]
pub struct Status(pub u8);

bitflag_items! {
    impl Status: u8 {
        const ERR = 0x01;
        const DRQ = 0x08;
        const BSY = 0x80;
    }
}

impl Flags for Status {
    type Bits = u8;

    ghost exact = { ⊤ };

    ghost table = { (codes "ERR", 0x01) ∷ (codes "DRQ", 0x08) ∷ (codes "BSY", 0x80) ∷ [] };

    ghost set_of = { λ p. p.0 };

    fn flags<'a>() -> &'a [Flag<Status>] {
        Status::FLAGS
    }

    fn bits(&self) -> u8 {
        self.0
    }

    fn from_bits_retain(bits: u8) -> Status {
        Status(bits)
    }
}

impl Status {
    /// Whether the status reports an error.
    #[tactic(auto, using(crate::proofs::FlagLemmas::test_err))]
    pub fn has_error(self) -> bool
        ensures { result ≡ has_error self.0 }
    {
        self.contains(Status::ERR)
    }

    /// Whether BSY, DRQ and ERR are 0: the device has ended the command, or has queued it.
    #[tactic(auto, using(crate::proofs::FlagLemmas::test_err, crate::proofs::FlagLemmas::test_drq, crate::proofs::FlagLemmas::test_bsy))]
    pub fn is_done(self) -> bool
        ensures { result ≡ is_done self.0 }
    {
        !(self.contains(Status::BSY) || self.contains(Status::DRQ) || self.contains(Status::ERR))
    }

    /// The status with BSY and DRQ as they are, and the other bits as in `status`.
    pub fn after_bits(self, status: Status) -> Status
        ensures { result.0 ≡ status_after_bits self.0 status.0 }
    {
        let kept = Status::BSY.union(Status::DRQ);
        self.intersection(kept).union(status.difference(kept))
    }
}
