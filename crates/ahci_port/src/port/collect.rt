//! How requests end: their answers are collected, and held commands are issued again.

ghost use Rattle.std.specs.Prelude.{◌≡◌, Some, IfOk, OnOk, OnErr};
ghost use Rattle.ahci_table.specs.{Fit.{IsFit}, Prdt.{pieces}};
ghost use Rattle.ahci_port.specs.{Faults.{Answers, collect_refusal, reissue_refusal}, PortView.{window_at}, Slots.{bytes_in}, Steps.{IsCollected, IsReissued, answer_to}};

use crate::fault::{CollectFault, ReissueFault};
use crate::port::{Port, number_at};
use crate::reply::Reply;
use crate::software::issue;
use ahci_table::{Piece, Window};
use arrayvec::ArrayVec;
use ncq_journal::{Event, Phase};
use sector_store::SectorStore;
use std::alloc::Allocator;

impl<A: Allocator, S: SectorStore> Port<A, S> {
    /// Takes the answer of request `number` of a tag and frees the slot. The window is the slot's; for a finished read its
    /// text is the sectors, as they were at the entry that answered it. It takes no memory.
    ///
    /// # Errors
    /// `Stranger` where the slot is free or its request has another number, `NotYet` where the request isn't done.
    pub fn collect(&mut self, tag: u8, number: u64) -> Result<(Reply, Window<A>), CollectFault>
        ensures ok { OnOk result (IsCollected tag self.old self.new) }
        ensures number { IfOk result (λ r. r.0.number ≡ number) }
        ensures reply { IfOk result (λ r. answer_to self.old number ≡ Some (record { entry = r.0.entry; outcome = r.0.outcome; bytes = bytes_in r.0.outcome r.1 })) }
        ensures window { IfOk result (λ r. window_at self.old tag ≡ Some r.1) }
        ensures fit { IfOk result (λ r. IsFit r.1) }
        ensures fault { Answers result (collect_refusal self.old tag number) }
        ensures err { OnErr result (self.new ≡ self.old) }
    {
        let (reply, _pieces, window) = self.collect_with_pieces(tag, number)?;
        Ok((reply, window))
    }

    /// Takes an answer as `collect` does, with the window's pieces, so that its text can be moved by `gather_in` and the PRDT isn't read again.
    ///
    /// # Errors
    /// Those of `collect`.
    pub fn collect_with_pieces(
        &mut self,
        tag: u8,
        number: u64,
    ) -> Result<(Reply, ArrayVec<Piece, 32>, Window<A>), CollectFault>
        ensures ok { OnOk result (IsCollected tag self.old self.new) }
        ensures number { IfOk result (λ r. r.0.number ≡ number) }
        ensures reply { IfOk result (λ r. answer_to self.old number ≡ Some (record { entry = r.0.entry; outcome = r.0.outcome; bytes = bytes_in r.0.outcome r.2 })) }
        ensures window { IfOk result (λ r. window_at self.old tag ≡ Some r.2) }
        ensures fit { IfOk result (λ r. IsFit r.2) }
        ensures pieces { IfOk result (λ r. r.1.items ≡ pieces r.2) }
        ensures fault { Answers result (collect_refusal self.old tag number) }
        ensures err { OnErr result (self.new ≡ self.old) }
    {
        if let Some(fault) = self.collect_fault(tag, number) {
            return Err(fault);
        }
        let slot = self.slots[tag as usize].take().unwrap();
        let (ended, pieces, window) = slot.answer();
        let entry = number_at(&self.journal, ended.entry);
        self.journal.push_reserved(Event::Collect(tag));
        let reply = Reply {
            number,
            entry,
            outcome: ended.outcome,
        };
        Ok((reply, pieces, window))
    }

    /// Why request `number` of a tag is not collected.
    fn collect_fault(&self, tag: u8, number: u64) -> Option<CollectFault>
        ensures { result ≡ collect_refusal self.now tag number }
    {
        match self.owner(tag) {
            Some(owner) if owner == number => match self.phase(tag) {
                Phase::Done => None,
                _ => Some(CollectFault::NotYet),
            },
            _ => Some(CollectFault::Stranger),
        }
    }

    /// Issues a held command again (AHCI 1.3.1, section 6.2.2): its bits of PxSACT and PxCI are set. It takes no memory.
    ///
    /// # Errors
    /// `Halted` where a command has failed and the port has not recovered, `NotHeld` where the tag's command isn't held.
    pub fn reissue(&mut self, tag: u8) -> Result<(), ReissueFault>
        ensures ok { OnOk result (IsReissued tag self.old self.new) }
        ensures fault { Answers result (reissue_refusal self.old tag) }
        ensures err { OnErr result (self.new ≡ self.old) }
    {
        if let Some(fault) = self.reissue_fault(tag) {
            return Err(fault);
        }
        match &mut self.slots[tag as usize] {
            Some(slot) => slot.reissue(),
            None => unreachable!(),
        }
        issue(&mut self.registers, tag);
        self.journal.push_reserved(Event::Reissue(tag));
        Ok(())
    }

    /// Why a tag's command is not issued again.
    fn reissue_fault(&self, tag: u8) -> Option<ReissueFault>
        ensures { result ≡ reissue_refusal self.now tag }
    {
        if self.halted() {
            return Some(ReissueFault::Halted);
        }
        match self.phase(tag) {
            Phase::Held => None,
            _ => Some(ReissueFault::NotHeld),
        }
    }
}
