//! How software issues a command.

ghost use Rattle.std.specs.Prelude.{◌≡◌, ◌≢◌, true, false, IfOk, IfErr, OnOk, OnErr};
ghost use Rattle.ahci_table.specs.{Command.{op, queued_of}, Fit.{IsFit}, Prdt.{pieces}};
ghost use Rattle.ncq_journal.specs.{Image.{is_write}, Work.{work_of}};
ghost use Rattle.ahci_port.specs.{Faults.{RefusesIssue, MayTake, early_refusal}, Moves.{issue_fault_of}, PortView.{next_number}, Steps.{IsIssued, LacksRoom, MayLack}};

use crate::fault::IssueFault;
use crate::port::{Port, ROOM};
use crate::slot::Slot;
use crate::software::issue;
use ahci_table::{Command, Piece, TableFault, Window};
use ncq_journal::{Bytes, Event, Op, Phase};
use sata_fis::Queued;
use sector_store::SectorStore;
use std::alloc::{AllocError, Allocator};

/// The port's fault where the rule of a window is broken.
fn issue_fault(fault: TableFault) -> IssueFault
    ensures { result ≡ issue_fault_of fault }
{
    match fault {
        TableFault::BadHeader => IssueFault::BadHeader,
        TableFault::BadCommand => IssueFault::BadCommand,
        TableFault::WrongTag => IssueFault::WrongTag,
        TableFault::BadList => IssueFault::BadList,
    }
}

/// What a window asks of the disk: a write has a copy of the text.
fn op_of<A: Allocator + Clone>(
    alloc: &A,
    window: &Window<A>,
    queued: &Queued,
    list: &[Piece],
) -> Result<Op<A>, AllocError>
    requires fit { IsFit window.now }
    requires queued { queued.now ≡ queued_of window.now }
    requires list { list.now ≡ pieces window.now }
    ensures work { IfOk result (λ o. work_of o ≡ op window.now) }
    ensures lacking { OnErr result (is_write (op window.now) ≡ true) }
{
    let lba = queued.lba;
    if !queued.write {
        let sectors = queued.sectors;
        return Ok(Op::Read { lba, sectors });
    }
    let bytes = window.text_in(list, alloc.clone()?)?;
    Ok(Op::Write {
        lba,
        bytes: Bytes::from_vec(bytes),
    })
}

impl<A: Allocator, S: SectorStore> Port<A, S> {
    /// Why the port takes no window of this tag, whatever the window holds: `Halted`, `NoSuchTag`, `SlotOwned`.
    pub fn early_fault(&self, tag: u8) -> Option<IssueFault>
        ensures { result ≡ early_refusal self.now tag }
    {
        if self.halted() {
            return Some(IssueFault::Halted);
        }
        if u32::from(tag) >= self.depth() {
            return Some(IssueFault::NoSuchTag);
        }
        match self.phase(tag) {
            Phase::Free => None,
            _ => Some(IssueFault::SlotOwned),
        }
    }

    /// The command of a window that isn't refused. This and `enter` are inline in each call, so that the command with its
    /// list of pieces is not moved.
    #[inline(always)]
    fn command_of(&self, window: &Window<A>) -> Result<Command, IssueFault>
        ensures taken { OnOk result (MayTake self.now window.now.tag × IsFit window.now) }
        ensures queued { IfOk result (λ c. c.queued ≡ queued_of window.now) }
        ensures pieces { IfOk result (λ c. c.pieces.items ≡ pieces window.now) }
        ensures fault { IfErr result (RefusesIssue self.now window.now) }
        ensures lacking { IfErr result (λ e. e ≢ IssueFault.OutOfMemory) }
    {
        if let Some(fault) = self.early_fault(window.tag()) {
            return Err(fault);
        }
        match window.check() {
            Ok(command) => Ok(command),
            Err(fault) => Err(issue_fault(fault)),
        }
    }
}

impl<A: Allocator + Clone, S: SectorStore> Port<A, S> {
    /// Issues the command of a window (AHCI 1.3.1, "Building a Command"): its header goes into the command list, the window
    /// into its slot, and the tag's bit is set in PxSACT, then in PxCI. The answer is the request's number, that of
    /// its Issue entry. Room for every later entry that the request needs without an error is reserved here, and in the store the
    /// pages that a write goes to.
    ///
    /// # Errors
    /// `Halted`, `NoSuchTag` where the tag is not below the depth, `SlotOwned`, the first rule that the window breaks, and
    /// `OutOfMemory` if a write's bytes, the pages that they go to, or room for the request's entries could not be allocated; the
    /// window comes back as it was.
    pub fn issue(&mut self, window: Window<A>) -> Result<u64, (Window<A>, IssueFault)>
        ensures number { IfOk result (λ n. n ≡ next_number self.old) }
        ensures issued { OnOk result (IsIssued window self.old self.new) }
        ensures taken { OnOk result (MayTake self.old window.tag × IsFit window) }
        ensures fault { IfErr result (λ e. RefusesIssue self.old window e.1) }
        ensures lacking { IfErr result (λ e. e.1 ≡ IssueFault.OutOfMemory → is_write (op window) ≡ false → LacksRoom self.old) }
        ensures err { IfErr result (λ e. (e.0 ≡ window) × (self.new ≡ self.old)) }
    {
        let command = match self.command_of(&window) {
            Ok(command) => command,
            Err(fault) => return Err((window, fault)),
        };
        match op_of(&self.alloc, &window, &command.queued, &command.pieces) {
            Ok(op) => self.entered(window, command, op),
            Err(refused) => Err((window, refused.into())),
        }
    }

    /// Issues the command of a window as `issue` does, where what it asks is at hand: `asked` goes into the journal as it is, and
    /// of a write no byte is copied.
    ///
    /// # Errors
    /// Those of `issue`, but that only pages or room for entries can be lacking; the window comes back as it was.
    pub fn issue_asked(
        &mut self,
        window: Window<A>,
        asked: Op<A>,
    ) -> Result<u64, (Window<A>, IssueFault)>
        requires { IsFit window → work_of asked ≡ op window }
        ensures number { IfOk result (λ n. n ≡ next_number self.old) }
        ensures issued { OnOk result (IsIssued window self.old self.new) }
        ensures taken { OnOk result (MayTake self.old window.tag × IsFit window) }
        ensures fault { IfErr result (λ e. RefusesIssue self.old window e.1) }
        ensures lacking { IfErr result (λ e. e.1 ≡ IssueFault.OutOfMemory → MayLack S.can_grow self.old (op window)) }
        ensures err { IfErr result (λ e. (e.0 ≡ window) × (self.new ≡ self.old)) }
    {
        match self.command_of(&window) {
            Ok(command) => self.entered(window, command, asked),
            Err(fault) => Err((window, fault)),
        }
    }

    /// Issues the command of a window as `issue_asked` does, where the command is at hand too, as `Window::over_layout`
    /// answers it: the window is not read.
    ///
    /// # Errors
    /// `Halted`, `NoSuchTag`, `SlotOwned`, and `OutOfMemory` if pages or room for entries are lacking; the window comes back as it was.
    #[tactic(auto, using(crate::proofs::TakenLemmas::early_may))]
    pub fn issue_built(
        &mut self,
        window: Window<A>,
        command: Command,
        asked: Op<A>,
    ) -> Result<u64, (Window<A>, IssueFault)>
        requires fit { IsFit window }
        requires queued { command.queued ≡ queued_of window }
        requires pieces { command.pieces.items ≡ pieces window }
        requires asked { work_of asked ≡ op window }
        ensures number { IfOk result (λ n. n ≡ next_number self.old) }
        ensures issued { OnOk result (IsIssued window self.old self.new) }
        ensures taken { OnOk result (MayTake self.old window.tag) }
        ensures fault { IfErr result (λ e. RefusesIssue self.old window e.1) }
        ensures lacking { IfErr result (λ e. e.1 ≡ IssueFault.OutOfMemory → MayLack S.can_grow self.old (op window)) }
        ensures err { IfErr result (λ e. (e.0 ≡ window) × (self.new ≡ self.old)) }
    {
        if let Some(fault) = self.early_fault(window.tag()) {
            return Err((window, fault));
        }
        self.entered(window, command, asked)
    }

    /// Issues a command that isn't refused, as `enter` does; where memory is refused, its window comes back.
    #[inline(always)]
    fn entered(
        &mut self,
        window: Window<A>,
        command: Command,
        asked: Op<A>,
    ) -> Result<u64, (Window<A>, IssueFault)>
        requires taken { MayTake self.old window.tag }
        requires fit { IsFit window }
        requires queued { command.queued ≡ queued_of window }
        requires pieces { command.pieces.items ≡ pieces window }
        requires asked { work_of asked ≡ op window }
        ensures number { IfOk result (λ n. n ≡ next_number self.old) }
        ensures issued { OnOk result (IsIssued window self.old self.new) }
        ensures fault { IfErr result (λ e. e.1 ≡ IssueFault.OutOfMemory) }
        ensures lacking { OnErr result (MayLack S.can_grow self.old (op window)) }
        ensures err { IfErr result (λ e. (e.0 ≡ window) × (self.new ≡ self.old)) }
    {
        match self.enter(window, command, asked) {
            Ok(number) => Ok(number),
            Err((window, _asked, refused)) => Err((window, refused.into())),
        }
    }

    /// Issues a command that isn't refused: its window goes into the slot, and what it asks into the journal.
    ///
    /// # Errors
    /// Window and command come back where room for the request's entries was refused.
    #[inline(always)]
    pub(super) fn enter(
        &mut self,
        window: Window<A>,
        command: Command,
        asked: Op<A>,
    ) -> Result<u64, (Window<A>, Op<A>, AllocError)>
        requires taken { MayTake self.old window.tag }
        requires fit { IsFit window }
        requires queued { command.queued ≡ queued_of window }
        requires pieces { command.pieces.items ≡ pieces window }
        requires asked { work_of asked ≡ op window }
        ensures number { IfOk result (λ n. n ≡ next_number self.old) }
        ensures issued { OnOk result (IsIssued window self.old self.new) }
        ensures lacking { OnErr result (MayLack S.can_grow self.old (op window)) }
        ensures err { IfErr result (λ e. (e.0 ≡ window) × (e.1 ≡ asked) × (self.new ≡ self.old)) }
    {
        let tag = window.tag();
        match self.disk.reserve(&command.queued) {
            Ok(()) => {}
            Err(refused) => return Err((window, asked, refused)),
        }
        match self.journal.reserve(ROOM) {
            Ok(()) => {}
            Err(refused) => return Err((window, asked, refused)),
        }
        let place = self.journal.len();
        let number = self.journal.end();
        self.headers[tag as usize] = *window.header();
        issue(&mut self.registers, tag);
        self.slots[tag as usize] = Some(Slot::issued(place, command, window));
        self.journal.push_reserved(Event::Issue(tag, asked));
        Ok(number)
    }
}
