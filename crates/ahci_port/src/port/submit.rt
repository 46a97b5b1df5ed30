//! How software submits a command: its window is laid out here.

ghost use Rattle.std.specs.Prelude.{◌≡◌, None, IfOk, IfErr, IsErrAnd, MatchOption, OnOk, false};
ghost use Rattle.ncq_journal.specs.Work.{is_ragged, lba_of, sectors_of, work_of};
ghost use Rattle.ahci_port.specs.{Faults.{op_refusal, submit_refusal}, PortView.{next_number}, Steps.{IsSubmitted}};

use crate::fault::{IssueFault, SubmitFault};
use crate::port::Port;
use ahci_table::{PieceLayout, Window};
use ncq_journal::{LBA_LIMIT, MAX_COUNT, Op};
use sector_store::SectorStore;
use std::alloc::{AllocError, Allocator};

impl<A: Allocator, S: SectorStore> Port<A, S> {
    /// Why a command of so many sectors from an LBA on would not be submitted for a tag, memory aside. All of it can be known
    /// before there are data: a refused command needs none.
    pub fn submit_fault(&self, tag: u8, lba: u64, sectors: u64) -> Option<SubmitFault>
        ensures { result ≡ submit_refusal self.now tag lba sectors }
    {
        if sectors == 0 || sectors > u64::from(MAX_COUNT) {
            return Some(SubmitFault::BadCount);
        }
        if lba >= LBA_LIMIT {
            return Some(SubmitFault::BadLba);
        }
        match self.early_fault(tag) {
            Some(fault) => Some(SubmitFault::Issue(fault)),
            None => None,
        }
    }

    /// Why a command would not be submitted, memory aside.
    fn op_fault(&self, tag: u8, op: &Op<A>) -> Option<SubmitFault>
        ensures { result ≡ op_refusal self.now tag (work_of op.now) }
    {
        if op.is_ragged() {
            return Some(SubmitFault::BadCount);
        }
        self.submit_fault(tag, op.lba(), op.sectors())
    }
}

impl<A: Allocator + Clone, S: SectorStore> Port<A, S> {
    /// Submits a command without FUA: its window is laid out over the default pieces and issued as by `issue`, and the command goes into the
    /// journal as it is. The answer is the request's number.
    ///
    /// # Errors
    /// `BadCount`, `BadLba`, and then those of an issue: `Halted`, `NoSuchTag`, `SlotOwned`, and `OutOfMemory` where room for the
    /// window, for the pages that a write goes to, or for the request's entries was refused. The command comes back as it was.
    pub fn submit(&mut self, tag: u8, op: Op<A>) -> Result<u64, (Op<A>, SubmitFault)>
        ensures number { IfOk result (λ n. n ≡ next_number self.old) }
        ensures submitted { OnOk result (IsSubmitted tag (work_of op) false PieceLayout.Default self.old self.new) }
        ensures fault { MatchOption (op_refusal self.old tag (work_of op)) (IfErr result (λ e. e.1 ≡ SubmitFault.Issue IssueFault.OutOfMemory)) (λ fault. IsErrAnd result (λ e. e.1 ≡ fault)) }
        ensures err { IfErr result (λ e. (e.0 ≡ op) × (self.new ≡ self.old)) }
    {
        if let Some(fault) = self.op_fault(tag, &op) {
            return Err((op, fault));
        }
        match self.submit_tested(tag, op, false, PieceLayout::Default) {
            Ok(number) => Ok(number),
            Err((op, refused)) => Err((op, SubmitFault::Issue(refused.into()))),
        }
    }

    /// Submits a command of whole sectors that `submit_fault` has no fault with, as `submit` does, its data where `layout` says; with FUA,
    /// if `fua` says so, it is the bit of the command FIS (ACS-3, READ and WRITE FPDMA QUEUED, Device bit 7).
    ///
    /// # Errors
    /// The command comes back where room for the window or for the request's entries was refused.
    pub fn submit_tested(
        &mut self,
        tag: u8,
        op: Op<A>,
        fua: bool,
        layout: PieceLayout,
    ) -> Result<u64, (Op<A>, AllocError)>
        requires whole { is_ragged (work_of op) ≡ false }
        requires free { submit_refusal self.old tag (lba_of (work_of op)) (sectors_of (work_of op)) ≡ None }
        ensures number { IfOk result (λ n. n ≡ next_number self.old) }
        ensures submitted { OnOk result (IsSubmitted tag (work_of op) fua layout self.old self.new) }
        ensures err { IfErr result (λ e. (e.0 ≡ op) × (self.new ≡ self.old)) }
    {
        let alloc = match self.alloc.clone() {
            Ok(alloc) => alloc,
            Err(refused) => return Err((op, refused)),
        };
        let (window, command) = match Window::over_layout(alloc, tag, &op, fua, layout) {
            Ok(made) => made,
            Err(refused) => return Err((op, refused)),
        };
        match self.enter(window, command, op) {
            Ok(number) => Ok(number),
            Err((_window, op, refused)) => Err((op, refused)),
        }
    }
}
