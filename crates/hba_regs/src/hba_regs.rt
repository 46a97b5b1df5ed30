//! The registers of an HBA with one port, and what reads, writes, received FISes and errors do to them.

ghost use Rattle.std.specs.Prelude.{◌≡◌, ◌*◌, ◌/◌};
ghost use Rattle.hba_regs.specs.CapFields.{usual};
ghost use Rattle.hba_regs.specs.HbaState.{power_on, powered_with};
ghost use Rattle.hba_regs.specs.RegisterTable.{register_at};
ghost use Rattle.hba_regs.specs.Reading.{word_at, word_of_offset};
ghost use Rattle.hba_regs.specs.Writing.{word_written, written};
ghost use Rattle.hba_regs.specs.Accessing.{read_of, word_beside, write_of};

use crate::access_size::AccessSize;
use crate::capabilities::Capabilities;
use crate::consequence::Consequence;
use crate::port::Port;
use crate::register::Register;
use crate::words::{byte_of, lower, pair_of, upper, with_byte, with_pair};
use std::marker::Model;
use word_bits::is_set;

mod events;
mod moves;
mod state;

/// The registers of an HBA with one port, which is its port 0.
#[derive(Debug, Drop)]
pub struct HbaRegs {
    enabled: bool,
    pending: bool,
    port: Port,
}

impl Model for HbaRegs {
    ghost use Rattle.hba_regs.specs.HbaState.{HbaState};

    ghost Value = { HbaState };

    ghost use Rattle.hba_regs.specs.Fields.{hba_of, Reports};

    ghost view = { hba_of };

    ghost invariant = { Reports };
}

impl HbaRegs {
    /// The registers after power-on, of an HBA with the usual capabilities: the link is up, and the device has sent its signature.
    pub fn new() -> Self
        ensures { result ≡ power_on usual }
    {
        HbaRegs::with_capabilities(Capabilities::new())
    }

    /// The registers after power-on, of an HBA that can do this. With CAP.SSS the device waits for PxCMD.SUD.
    pub fn with_capabilities(capabilities: Capabilities) -> Self
        ensures { result ≡ power_on capabilities }
    {
        HbaRegs::powered(capabilities, true)
    }

    /// Power-on of an HBA that can do the same: each register has its reset value (chapter 3), the bases too, which a reset of the HBA
    /// leaves (section 10.4.3), and software has to initialize it anew (section 10.1). A device that is unplugged stays so.
    pub fn power_on(&mut self)
        ensures { self.new ≡ powered_with self.old.port.present self.old.port.capabilities }
    {
        *self = HbaRegs::powered(self.port.capabilities(), self.port.is_present());
    }

    /// The registers after power-on, with a device or without one.
    fn powered(capabilities: Capabilities, present: bool) -> Self
        ensures { result ≡ powered_with present capabilities }
    {
        HbaRegs {
            enabled: false,
            pending: false,
            port: Port::new(capabilities, present),
        }
    }

    /// What a read answers, in the bytes of the size from the lowest on (AHCI 1.3.1, sections 3.1 and 3.3). The offset is in
    /// bytes from the beginning of the HBA's registers. Reserved offsets and registers that this model has not answer 0, as
    /// does an offset that isn't a multiple of the size.
    pub fn read(&self, off: u32, size: AccessSize) -> u64
        ensures { result ≡ read_of self.now off size }
    {
        if off % size.bytes() != 0 {
            return 0;
        }
        match size {
            AccessSize::One => byte_of(self.word(off / 4 * 4), off % 4),
            AccessSize::Two => pair_of(self.word(off / 4 * 4), off % 4),
            AccessSize::Four => u64::from(self.word(off)),
            AccessSize::Eight => {
                u64::from(self.word(off)) + (u64::from(self.word(off + 4)) << 32)
            }
        }
    }

    /// Takes what software writes, and answers what it means for the commands and the device (sections 3.1 and 3.3). A
    /// read-only or reserved register stays as it is, and an offset that isn't a multiple of the size changes nothing.
    /// Fewer than 4 bytes are a word whose other bytes are written as they read, or as 0 if writing 1 clears or sets bits.
    pub fn write(&mut self, off: u32, size: AccessSize, value: u64) -> Consequence
        ensures state { self.new ≡ (write_of self.old off size value).state }
        ensures consequence { result ≡ (write_of self.old off size value).consequence }
    {
        if off % size.bytes() != 0 {
            return Consequence::Nothing;
        }
        match size {
            AccessSize::One => {
                let word = with_byte(self.word_beside(off), off % 4, value);
                self.write_word(off / 4 * 4, word)
            }
            AccessSize::Two => {
                let word = with_pair(self.word_beside(off), off % 4, value);
                self.write_word(off / 4 * 4, word)
            }
            AccessSize::Four => self.write_word(off, lower(value)),
            AccessSize::Eight => {
                let first = self.write_word(off, lower(value));
                let second = self.write_word(off + 4, upper(value));
                first.and_then(second)
            }
        }
    }

    /// The word at an offset that is a multiple of 4.
    fn word(&self, off: u32) -> u32
        ensures { result ≡ word_of_offset self.now off }
    {
        match Register::at(off) {
            Some(register) => self.word_at(register),
            None => 0,
        }
    }

    /// The word of a register, as an aligned read of 4 bytes has it.
    #[tactic(auto, using(word_bits::proofs::BitsLemmas::words_back))]
    pub fn word_at(&self, register: Register) -> u32
        ensures { result ≡ word_at self.now register }
    {
        match register {
            Register::Cap => self.port.capabilities().word(),
            Register::Ghc => 0x8000_0000 + (u32::from(self.enabled) << 1), // AE: no legacy mode
            Register::Is => u32::from(self.pending),
            Register::Pi => 0x0000_0001, // port 0
            Register::Vs => 0x0001_0301, // 1.3.1
            Register::PxClb => lower(self.port.clb()),
            Register::PxClbu => upper(self.port.clb()),
            Register::PxFb => lower(self.port.fb()),
            Register::PxFbu => upper(self.port.fb()),
            Register::PxIs => self.port.is(),
            Register::PxIe => self.port.ie(),
            Register::PxCmd => self.port.command(),
            Register::PxTfd => self.port.task_file(),
            Register::PxSig => self.port.signature(),
            Register::PxSsts => self.port.link().status(self.port.speed()),
            Register::PxSctl => self.port.control(),
            Register::PxSerr => self.port.serr(),
            Register::PxSact => self.port.sact(),
            Register::PxCi => self.port.ci(),
        }
    }

    /// A word that is written at an offset that is a multiple of 4.
    fn write_word(&mut self, off: u32, value: u32) -> Consequence
        ensures state { self.new ≡ (word_written self.old off value).state }
        ensures consequence { result ≡ (word_written self.old off value).consequence }
    {
        match Register::at(off) {
            Some(register) => self.write_register(register, value),
            None => Consequence::Nothing,
        }
    }

    /// A word that is written to a register; at the end IS.IPS is set if an interrupt is pending.
    fn write_register(&mut self, register: Register, value: u32) -> Consequence
        ensures state { self.new ≡ (written self.old value register).state }
        ensures consequence { result ≡ (written self.old value register).consequence }
    {
        let mut consequence = Consequence::Nothing;
        match register {
            Register::Ghc if is_set(value, 0) => {
                self.enabled = false;
                self.pending = false;
                self.port.reset();
                consequence = Consequence::Reset;
            }
            Register::Ghc => self.enabled = is_set(value, 1),
            Register::Is => self.pending = self.pending && !is_set(value, 0),
            _ => consequence = self.port.write(register, value),
        }
        self.pending = self.pending || self.port.is_pending();
        consequence
    }

    /// The word whose other bytes are written with fewer than 4.
    fn word_beside(&self, off: u32) -> u32
        ensures { result ≡ word_beside self.now (register_at (off / 4 * 4)) }
    {
        match Register::at(off / 4 * 4) {
            Some(register) if register.takes_ones() => 0,
            Some(register) => self.word_at(register),
            None => 0,
        }
    }
}
