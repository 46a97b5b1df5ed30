//! What a driver writes to the registers (AHCI 1.3.1, section 3.3).

ghost use Rattle.std.specs.Prelude.{◌≡◌, ◌<◌, ◌≤◌, ◌*◌, ◌&&◌, true, false, take, drop, IfOk, IfErr, OnOk, OnErr};
ghost use Rattle.ahci_regs.specs.Reading.{read_of};
ghost use Rattle.ncq_journal.specs.Halted.{halted};
ghost use Rattle.word_bits.specs.Places.{bits, has_place, minus, only_below, union, word_of};
ghost use Rattle.ahci_port.specs.{
  Headline.{Headline},
  Steps.{LacksRoom},
  Writes.{CommandsBelow, CommandsSlot, Leaves, RefusesCi, RefusesSact, RefusesSlot, RefusesStart, RefusesWord, RefusesWrite, Starts, StoresWord, TakesCi, TakesCommand, TakesSact, TakesWrite, keeps_commands, newly_set, share, shown, unannounced},
};

use crate::fault::{IssueFault, RecoverFault, ReissueFault, WriteFault};
use crate::pending::Pending;
use crate::port::Port;
use crate::written::Written;
use ahci_regs::{RegFault, Register};
use ahci_table::Window;
use ncq_journal::Phase;
use sector_store::SectorStore;
use std::alloc::Allocator;
use word_bits::{below, is_set};

/// ST and FRE in PxCMD, by their places.
const ST: u8 = 0;

const FRE: u8 = 4;

/// PxCMD of a stopped port: FRE, and FR with it.
const STOPPED: u32 = 0x4010;

/// The bits of a word that another has not.
#[tactic(auto, using(word_bits::proofs::BitsLemmas::bits_and_not))]
fn beyond(word: u32, other: u32) -> u32
    ensures { bits result ≡ minus (bits word) (bits other) }
{
    word & !other
}

/// The bits of two words.
#[tactic(auto, using(word_bits::proofs::BitsLemmas::bits_or))]
fn joined(word: u32, other: u32) -> u32
    ensures { bits result ≡ union (bits word) (bits other) }
{
    word | other
}

/// The bits of a word below a place.
#[tactic(auto, using(word_bits::proofs::BitsLemmas::bits_below))]
fn lower(word: u32, place: u32) -> u32
    requires { place ≤ 32 }
    ensures { bits result ≡ only_below place (bits word) }
{
    word & below(place)
}

/// The header of a slot, in a command list of 32.
fn header_from(list: &[u8; 1024], tag: u8) -> [u8; 32]
    requires { tag < 32 }
    ensures { result ≡ take 32 (drop (32 * tag) list.now) }
{
    let first = 32 * tag as usize;
    let mut header = [0; 32];
    header.copy_from_slice(&list[first..first + 32]);
    header
}

/// The bytes of a slot's window, a 32nd part of the memory.
fn bytes_from(windows: &[u8], tag: u8) -> &[u8]
    requires { tag < 32 }
    ensures { result.now ≡ take (share windows.now) (drop (share windows.now * tag) windows.now) }
{
    let share = windows.len() / 32;
    let first = share * tag as usize;
    &windows[first..first + share]
}

impl<A: Allocator + Clone, S: SectorStore> Port<A, S> {
    /// Takes a word that software writes to the register at an offset, in bytes from the beginning of the HBA's registers. A
    /// bit of PxSACT, then of PxCI, issues the command of that slot: its header is in `list`, the 1,024 bytes at PxCLB,
    /// and its window in `windows`, of which each slot has a 32nd part, slot 0 the first. A held command is issued again, as
    /// it is in its slot. PxCMD without ST, after a failure, and then with it is the way back, `recover`. Every other
    /// register takes the word as `PortRegs::write` says, so PxIS loses the bits that are 1.
    ///
    /// # Errors
    /// The first case of `WriteFault` that holds of the register; nothing has changed then.
    pub fn write_register(
        &mut self,
        pending: &mut Pending,
        offset: u32,
        word: u32,
        list: &[u8; 1024],
        windows: &[u8],
    ) -> Result<Written, WriteFault>
        ensures ok { IfOk result (TakesWrite offset word list.now windows.now self.old self.new pending.old pending.new) }
        ensures fault { IfErr result (RefusesWrite offset word list.now windows.now self.old self.new pending.old) }
        ensures err { IfErr result (Leaves word list.now windows.now self.old self.new pending.old pending.new) }
        ensures headline { Headline self.new }
    {
        let result = self.take_word(pending, offset, word, list, windows);
        self.keeps_its_promise();
        result
    }

    /// The same by the register.
    fn take_word(
        &mut self,
        pending: &mut Pending,
        offset: u32,
        word: u32,
        list: &[u8; 1024],
        windows: &[u8],
    ) -> Result<Written, WriteFault>
        ensures ok { IfOk result (TakesWrite offset word list.now windows.now self.old self.new pending.old pending.new) }
        ensures fault { IfErr result (RefusesWrite offset word list.now windows.now self.old self.new pending.old) }
        ensures err { IfErr result (Leaves word list.now windows.now self.old self.new pending.old pending.new) }
    {
        match Register::at(offset) {
            Err(fault) => Err(WriteFault::Register(fault)),
            Ok(Register::PxSact) => self.announce(pending, word),
            Ok(Register::PxCi) => self.command(pending, word, list, windows),
            Ok(Register::PxCmd) => self.start_or_stop(pending, word),
            Ok(register) => self.store(register, word),
        }
    }

    /// PxCI: the bits of announced slots issue their commands.
    fn command(
        &mut self,
        pending: &mut Pending,
        word: u32,
        list: &[u8; 1024],
        windows: &[u8],
    ) -> Result<Written, WriteFault>
        ensures ok { IfOk result (TakesCi word list.now windows.now self.old self.new pending.old pending.new) }
        ensures fault { IfErr result (RefusesCi word list.now windows.now self.old self.new pending.old) }
        ensures err { IfErr result (Leaves word list.now windows.now self.old self.new pending.old pending.new) }
    {
        if self.halted() {
            return Err(WriteFault::Halted);
        }
        if self.unannounced(pending, word) != 0 {
            return Err(WriteFault::NotQueued);
        }
        let slots = self.newly_set(word);
        match self.command_slots(slots, list, windows) {
            Ok(()) => {
                pending.sact = beyond(pending.sact, slots);
                Ok(Written::Commanded(slots))
            }
            Err((slot, fault)) => {
                pending.sact = beyond(pending.sact, lower(slots, u32::from(slot)));
                Err(WriteFault::Issue { slot, fault })
            }
        }
    }

    /// Issues the commands of some slots, the lowest first, up to one that is refused.
    #[tactic(auto, unfolding(crate::specs::Writes::CommandsBelow))]
    fn command_slots(
        &mut self,
        slots: u32,
        list: &[u8; 1024],
        windows: &[u8],
    ) -> Result<(), (u8, IssueFault)>
        ensures ok { OnOk result (CommandsBelow 32 (bits slots) list.now windows.now self.old self.new) }
        ensures low { IfErr result (λ e. e.0 < 32) }
        ensures here { IfErr result (λ e. has_place (bits slots) e.0 ≡ true) }
        ensures below { IfErr result (λ e. CommandsBelow e.0 (bits slots) list.now windows.now self.old self.new) }
        ensures fault { IfErr result (λ e. RefusesSlot list.now windows.now e.0 self.new e.1) }
    {
        for slot in 0..32u8 {
            if let Err(fault) = self.command_if(is_set(slots, slot), slot, list, windows) {
                return Err((slot, fault));
            }
        }
        Ok(())
    }

    /// Issues the command of a slot whose bit is newly set.
    fn command_if(
        &mut self,
        is_set: bool,
        slot: u8,
        list: &[u8; 1024],
        windows: &[u8],
    ) -> Result<(), IssueFault>
        requires { slot < 32 }
        ensures ok { OnOk result (CommandsSlot is_set list.now windows.now slot self.old self.new) }
        ensures set { OnErr result (is_set ≡ true) }
        ensures fault { IfErr result (RefusesSlot list.now windows.now slot self.old) }
        ensures err { OnErr result (self.new ≡ self.old) }
    {
        if is_set {
            self.command_slot(slot, list, windows)
        } else {
            Ok(())
        }
    }

    /// Issues the command of a slot by the memory's window, or again where it is held. No window is copied for a slot that
    /// takes none.
    #[tactic(auto, using(crate::proofs::TakenLemmas::early_may))]
    fn command_slot(
        &mut self,
        slot: u8,
        list: &[u8; 1024],
        windows: &[u8],
    ) -> Result<(), IssueFault>
        requires { slot < 32 }
        ensures ok { OnOk result (CommandsSlot true list.now windows.now slot self.old self.new) }
        ensures fault { IfErr result (RefusesSlot list.now windows.now slot self.old) }
        ensures err { OnErr result (self.new ≡ self.old) }
    {
        if let Phase::Held = self.phase(slot) {
            return match self.reissue(slot) {
                Ok(()) => Ok(()),
                Err(ReissueFault::Halted) => Err(IssueFault::Halted),
                Err(ReissueFault::NotHeld) => unreachable!(),
            };
        }
        if let Some(fault) = self.early_fault(slot) {
            return Err(fault);
        }
        let bytes = Self::copy_of(&self.alloc, bytes_from(windows, slot))?;
        match self.issue(Window::from_parts(slot, header_from(list, slot), bytes)) {
            Ok(_number) => Ok(()),
            Err((_window, fault)) => Err(fault),
        }
    }
}

impl<A: Allocator, S: SectorStore> Port<A, S> {
    /// The word that a driver reads of the register at an offset, between its writes: PxSACT has what is announced, and after
    /// ST went off the port shows itself stopped (AHCI 1.3.1, section 3.3.7). `Unaligned` and `NoSuchRegister` as `register`
    /// has them.
    #[tactic(auto, using(crate::proofs::WritingLemmas::word_of_none))]
    pub fn read_register(&self, pending: &Pending, offset: u32) -> Result<u32, RegFault>
        ensures { result ≡ read_of (shown self.now pending.now) offset }
    {
        let stopped = self.is_stopped(pending);
        match Register::at(offset)? {
            Register::PxSact | Register::PxCi if stopped => Ok(0),
            Register::PxSact => Ok(self.shown_sact(pending)),
            Register::PxCmd if stopped => Ok(STOPPED),
            _ => self.registers.read(offset),
        }
    }

    /// Whether ST is off, on the way back from a failure.
    fn is_stopped(&self, pending: &Pending) -> bool
        ensures { result ≡ (pending.now.stopped && halted self.now.past) }
    {
        pending.stopped && self.halted()
    }

    /// PxSACT with what is announced.
    #[tactic(auto, using(word_bits::proofs::BitsLemmas::words_back))]
    fn shown_sact(&self, pending: &Pending) -> u32
        ensures { result ≡ word_of (union self.now.registers.sact (bits pending.now.sact)) }
    {
        joined(self.registers.sact(), pending.sact)
    }

    /// PxSACT: a bit announces a command.
    fn announce(&mut self, pending: &mut Pending, word: u32) -> Result<Written, WriteFault>
        ensures ok { IfOk result (TakesSact word self.old self.new pending.old pending.new) }
        ensures fault { IfErr result (RefusesSact self.old) }
        ensures err { OnErr result ((self.new ≡ self.old) × (pending.new ≡ pending.old)) }
    {
        if self.halted() {
            return Err(WriteFault::Halted);
        }
        self.shape();
        let own = lower(word, self.depth());
        pending.sact = joined(pending.sact, beyond(own, self.registers.sact()));
        Ok(Written::Noted)
    }

    /// The bits of a word that PxCI has not.
    fn newly_set(&self, word: u32) -> u32
        ensures { bits result ≡ newly_set self.now word }
    {
        beyond(word, self.registers.ci())
    }

    /// Those of them that were not announced.
    #[tactic(auto, using(word_bits::proofs::BitsLemmas::words_back))]
    fn unannounced(&self, pending: &Pending, word: u32) -> u32
        ensures { result ≡ unannounced self.now pending.now word }
    {
        beyond(self.newly_set(word), pending.sact)
    }

    /// PxCMD: ST off and on after a failure is the way back.
    fn start_or_stop(&mut self, pending: &mut Pending, word: u32) -> Result<Written, WriteFault>
        ensures ok { IfOk result (TakesCommand word self.old self.new pending.old pending.new) }
        ensures fault { IfErr result (RefusesStart word self.old pending.old) }
        ensures err { OnErr result ((self.new ≡ self.old) × (pending.new ≡ pending.old)) }
    {
        if !is_set(word, FRE) {
            return Err(WriteFault::Register(RegFault::Running));
        }
        if is_set(word, ST) {
            return self.start(pending);
        }
        if !self.halted() {
            return Err(WriteFault::NotHalted);
        }
        *pending = Pending {
            sact: 0,
            stopped: true,
        };
        Ok(Written::Noted)
    }

    /// ST goes on.
    fn start(&mut self, pending: &mut Pending) -> Result<Written, WriteFault>
        ensures ok { IfOk result (λ did. Starts (pending.old.stopped && halted self.old.past) self.old self.new did × (pending.new ≡ record pending.old { stopped = false })) }
        ensures fault { IfErr result (λ fault. (fault ≡ WriteFault.OutOfMemory) × (pending.old.stopped ≡ true) × (halted self.old.past ≡ true) × LacksRoom self.old) }
        ensures err { OnErr result ((self.new ≡ self.old) × (pending.new ≡ pending.old)) }
    {
        if self.is_stopped(pending) {
            return match self.recover() {
                Ok(tag) => {
                    pending.stopped = false;
                    Ok(Written::Recovered(tag))
                }
                Err(RecoverFault::OutOfMemory) => Err(WriteFault::OutOfMemory),
                Err(RecoverFault::NotHalted) => unreachable!(),
            };
        }
        pending.stopped = false;
        Ok(Written::Noted)
    }

    /// Any other register takes the word as its table says.
    fn store(&mut self, register: Register, word: u32) -> Result<Written, WriteFault>
        requires { keeps_commands register ≡ true }
        ensures ok { IfOk result (λ did. (did ≡ Written.Noted) × StoresWord register word self.old self.new) }
        ensures fault { IfErr result (RefusesWord register word self.old) }
        ensures err { OnErr result (self.new ≡ self.old) }
    {
        match self.registers.write(register.offset(), word) {
            Ok(()) => Ok(Written::Noted),
            Err(fault) => Err(WriteFault::Register(fault)),
        }
    }
}
