//! The registers of a port, and what reads, writes and received FISes do to them.

ghost use Rattle.std.specs.Prelude.{◌≡◌, ◌≤◌, ◌<◌, true, false, not, ◌&&◌, nat_eq, Ok, Err, OnOk, OnErr, IfErr, MatchResult, if◌then◌else◌};
ghost use Rattle.word_bits.specs.Places.{bits, has_place, union, intersection, minus, only_below};
ghost use Rattle.ahci_regs.specs.PortState.{first_state, implemented};
ghost use Rattle.ahci_regs.specs.Reading.{capabilities_word, task_file_word, read_of};
ghost use Rattle.ahci_regs.specs.Writing.{with_clb, with_fb, with_command, with_sact, with_ci, remaining, Follows, IsWritten, RefusesWrite};
ghost use Rattle.ahci_regs.specs.Receiving.{ended, after_register, after_bits, after_pio, after_pio_end};

use crate::fault::RegFault;
use crate::flags::{Interrupts, PortCommand, Status};
use crate::register::Register;
use bitflags::Flags;
use std::marker::Model;
use word_bits::{below, without_bit};

mod state;

/// The registers of one port, with the HBA's registers that a driver reads before it.
#[derive(Debug, Drop)]
pub struct PortRegs {
    depth: u32,
    sact: u32,
    ci: u32,
    is: Interrupts,
    ie: Interrupts,
    started: bool,
    receiving: bool,
    status: Status,
    error: u8,
    clb: u32,
    fb: u32,
}

impl Model for PortRegs {
    ghost use Rattle.ahci_regs.specs.PortState.{PortState};

    ghost Value = { PortState };

    ghost use Rattle.ahci_regs.specs.Fields.{state_of, StandsForLawful};

    ghost view = { state_of };

    ghost invariant = { StandsForLawful };
}

impl PortRegs {
    /// The registers of a port with `depth` slots that has not been started.
    #[tactic(auto, using(word_bits::proofs::BitsLemmas::bits_zero))]
    pub fn new(depth: u32) -> Self
        requires low { 1 ≤ depth }
        requires high { depth ≤ 32 }
        ensures { result ≡ first_state depth }
    {
        PortRegs {
            depth,
            sact: 0,
            ci: 0,
            is: Interrupts::empty(),
            ie: Interrupts::empty(),
            started: false,
            receiving: false,
            status: Status(0x40),
            error: 0,
            clb: 0,
            fb: 0,
        }
    }

    /// The word that a read of the register at an offset gives (AHCI 1.3.1, sections 3.1 and 3.3). The offset is in
    /// bytes from the beginning of the HBA's registers: `Unaligned` where it isn't a multiple of 4, `NoSuchRegister`
    /// if this model has no register there.
    #[tactic(auto, using(word_bits::proofs::BitsLemmas::words_back))]
    pub fn read(&self, off: u32) -> Result<u32, RegFault>
        ensures { result ≡ read_of self.now off }
    {
        Ok(match Register::at(off)? {
            Register::Cap => capabilities(self.depth),
            Register::Ghc => 0x8000_0000, // AE: the HBA has no legacy mode
            Register::Pi => 0x0000_0001, // one port
            Register::Vs => 0x0001_0301, // 1.3.1
            Register::PxClb => self.clb,
            Register::PxClbu => 0,
            Register::PxFb => self.fb,
            Register::PxFbu => 0,
            Register::PxIs => self.is.bits(),
            Register::PxIe => self.ie.bits(),
            Register::PxCmd => PortCommand::of(self.started, self.receiving).bits(),
            Register::PxTfd => task_file(self.status, self.error),
            Register::PxSig => 0x0000_0101, // an ATA device
            Register::PxSsts => 0x0000_0123, // present, at generation 2, active
            Register::PxSctl => 0,
            Register::PxSerr => 0,
            Register::PxSact => self.sact(),
            Register::PxCi => self.ci(),
        })
    }

    /// Takes a word that software writes to the register at an offset (AHCI 1.3.1, section 3.3). A read-only register
    /// takes it and stays as it is. Refused are: an offset that isn't a multiple of 4 (`Unaligned`) or is no
    /// register's (`NoSuchRegister`); PxSACT and PxCI while ST is 0 (`NotStarted`); PxCMD where it sets ST while FRE
    /// is 0 now or in the value (`NotReceiving`), or clears FRE while ST is 1 (`Running`); PxCLB and PxFB where they
    /// would change while ST is 1 (`Running`).
    // Where the offset is known, nothing is left but the register's own line.
    #[inline(always)]
    pub fn write(&mut self, off: u32, value: u32) -> Result<(), RegFault>
        ensures ok { OnOk result (IsWritten off value self.old self.new) }
        ensures fault { IfErr result (RefusesWrite off value self.old) }
        ensures err { OnErr result (self.new ≡ self.old) }
    {
        match Register::at(off)? {
            Register::Cap | Register::Ghc | Register::Pi | Register::Vs => Ok(()),
            Register::PxClb => self.write_clb(value),
            Register::PxFb => self.write_fb(value),
            Register::PxClbu | Register::PxFbu => Ok(()),
            Register::PxIs => {
                self.acknowledge(value);
                Ok(())
            }
            Register::PxIe => {
                self.enable(value);
                Ok(())
            }
            Register::PxCmd => self.command(PortCommand(value)),
            Register::PxTfd | Register::PxSig | Register::PxSsts => Ok(()),
            Register::PxSctl | Register::PxSerr => Ok(()),
            Register::PxSact => self.write_sact(value),
            Register::PxCi => self.write_ci(value),
        }
    }

    /// Takes a D2H Register FIS for the command of slot `tag`, below 32 (AHCI 1.3.1, sections 3.3.8 and 3.3.14): its
    /// status and error, and its I bit. PxCI loses the slot where BSY, DRQ and ERR of the status are 0.
    pub fn receive_register(&mut self, status: u8, error: u8, i: bool, tag: u8)
        requires { tag < 32 }
        ensures { self.new ≡ after_register self.old status error i tag }
    {
        let status = Status(status);
        self.status = status;
        self.error = error;
        self.is = self.is.after_fis(Interrupts::DHRS, i, status);
        self.ci = ended(status, tag, self.ci);
    }

    /// Takes a Set Device Bits FIS (AHCI 1.3.1, section 3.3.13): PxSACT loses the slots in `sactive`. BSY and DRQ stay
    /// as they are.
    pub fn receive_bits(&mut self, status: u8, error: u8, i: bool, sactive: u32)
        ensures { self.new ≡ after_bits self.old status error i sactive }
    {
        let status = Status(status);
        self.status = self.status.after_bits(status);
        self.error = error;
        self.is = self.is.after_fis(Interrupts::SDBS, i, status);
        self.sact = lost(self.sact, sactive);
    }

    /// Takes a PIO Setup FIS, before its data: its status and error.
    pub fn receive_pio(&mut self, status: u8, error: u8)
        ensures { self.new ≡ after_pio self.old status error }
    {
        let status = Status(status);
        self.status = status;
        self.error = error;
        self.is = self.is.with(Interrupts::TFES, status.has_error());
    }

    /// Ends a PIO Setup FIS's data, for the command of slot `tag`, below 32: the FIS's E_Status and its I bit.
    pub fn end_pio(&mut self, e_status: u8, i: bool, tag: u8)
        requires { tag < 32 }
        ensures { self.new ≡ after_pio_end self.old e_status i tag }
    {
        let status = Status(e_status);
        self.status = status;
        self.is = self.is.after_fis(Interrupts::PSS, i, status);
        self.ci = ended(status, tag, self.ci);
    }

    /// PxCLB stays where it is while the port runs (section 3.3.1).
    fn write_clb(&mut self, value: u32) -> Result<(), RegFault>
        ensures { Follows result self.old self.new (with_clb self.old value) }
    {
        self.clb = rebased(self.started, self.clb, value & !0x3ff)?;
        Ok(())
    }

    /// So does PxFB (section 3.3.3).
    fn write_fb(&mut self, value: u32) -> Result<(), RegFault>
        ensures { Follows result self.old self.new (with_fb self.old value) }
    {
        self.fb = rebased(self.started, self.fb, value & !0xff)?;
        Ok(())
    }

    /// Writing 1 to a bit of PxIS clears it (section 3.3.5).
    fn acknowledge(&mut self, value: u32)
        ensures { self.new ≡ record self.old { is = minus self.old.is (bits value) } }
    {
        self.is = self.is.acknowledged(value);
    }

    /// PxIE keeps the bits of the interrupts that the port has (section 3.3.6).
    fn enable(&mut self, value: u32)
        ensures { self.new ≡ record self.old { ie = intersection (bits value) implemented } }
    {
        self.ie = Interrupts::named(value);
    }

    /// Starts and stops the port, and its reception of FISes (section 3.3.7).
    fn command(&mut self, command: PortCommand) -> Result<(), RegFault>
        ensures { let st = has_place (bits command.0) 0 in
            let fre = has_place (bits command.0) 4 in
            Follows result self.old self.new (with_command self.old st fre) }
    {
        let starts = command.starts();
        let receives = command.receives();
        if self.started && !receives {
            return Err(RegFault::Running);
        }
        if !self.started && starts && !(self.receiving && receives) {
            return Err(RegFault::NotReceiving);
        }
        self.sact = remaining(self.sact, self.started, starts);
        self.ci = remaining(self.ci, self.started, starts);
        self.started = starts;
        self.receiving = receives;
        Ok(())
    }

    /// Writing 1 to a bit of PxSACT sets it, while the port is started (section 3.3.13).
    fn write_sact(&mut self, value: u32) -> Result<(), RegFault>
        ensures { Follows result self.old self.new (with_sact self.old value) }
    {
        self.sact = gained(self.started, self.sact, value, self.depth)?;
        Ok(())
    }

    /// Writing 1 to a bit of PxCI sets it, while the port is started (section 3.3.14).
    fn write_ci(&mut self, value: u32) -> Result<(), RegFault>
        ensures { Follows result self.old self.new (with_ci self.old value) }
    {
        self.ci = gained(self.started, self.ci, value, self.depth)?;
        Ok(())
    }
}

/// PxCI after a status for a slot's command.
fn ended(status: Status, tag: u8, ci: u32) -> u32
    requires { tag < 32 }
    ensures { bits result ≡ ended status.0 tag (bits ci) }
{
    if status.is_done() {
        without_bit(ci, tag)
    } else {
        ci
    }
}

/// CAP of a port with `depth` slots: their number less one in bits 12:8, and SNCQ in bit 30 (section 3.1.1).
fn capabilities(depth: u32) -> u32
    requires low { 1 ≤ depth }
    requires high { depth ≤ 32 }
    ensures { result ≡ capabilities_word depth }
{
    ((depth - 1) << 8) + (1 << 30)
}

/// PxTFD: the error above the status (section 3.3.8).
fn task_file(status: Status, error: u8) -> u32
    ensures { result ≡ task_file_word status.0 error }
{
    (u32::from(error) << 8) + u32::from(status.bits())
}

/// A base address after a write: one that moves is refused while the port runs.
fn rebased(started: bool, old: u32, base: u32) -> Result<u32, RegFault>
    ensures { result ≡ (if started && not (nat_eq base old) then Err RegFault.Running else Ok base) }
{
    if started && base != old {
        return Err(RegFault::Running);
    }
    Ok(base)
}

/// The slots of a word after a write of ST: none is left where the port is stopped.
#[tactic(auto, using(word_bits::proofs::BitsLemmas::bits_zero))]
fn remaining(word: u32, started: bool, starts: bool) -> u32
    ensures { bits result ≡ remaining (started && not starts) (bits word) }
{
    if started && !starts { 0 } else { word }
}

/// The slots of a word with those of a value that the port has, while it is started.
#[tactic(auto, using(word_bits::proofs::BitsLemmas::bits_or, word_bits::proofs::BitsLemmas::bits_below))]
fn gained(started: bool, word: u32, value: u32, depth: u32) -> Result<u32, RegFault>
    requires { depth ≤ 32 }
    ensures { MatchResult
        result
        (λ slots. (started ≡ true) × (bits slots ≡ union (bits word) (only_below depth (bits value))))
        (λ fault. (started ≡ false) × (fault ≡ RegFault.NotStarted)) }
{
    if !started {
        return Err(RegFault::NotStarted);
    }
    Ok(word | (value & below(depth)))
}

/// The slots of a word without those of another.
#[tactic(auto, using(word_bits::proofs::BitsLemmas::bits_and_not))]
fn lost(word: u32, other: u32) -> u32
    ensures { bits result ≡ minus (bits word) (bits other) }
{
    word & !other
}
