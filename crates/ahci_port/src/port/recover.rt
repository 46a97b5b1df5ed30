//! How software recovers from a failure, and sends commands that are not queued, by slot 0 (AHCI 1.3.1, section 6.2.2;
//! ACS-3, READ LOG EXT, IDENTIFY DEVICE and FLUSH CACHE EXT).

ghost use Rattle.std.specs.Prelude.{◌≡◌, true, IfOk, IfErr, OnOk, OnErr};
ghost use Rattle.ncq_core.specs.Identify.{identify_page};
ghost use Rattle.ncq_journal.specs.{Lawful.{IsJournalled}, Phase.{phase, is_failed}, declared.plain.Plain.TheVariants.{Identify}};
ghost use Rattle.ahci_port.specs.{Faults.{AnswersOr, recover_refusal, plain_refusal}, PortView.{sectors_in}, Steps.{IsCarriedOut, IsRecovered, IsIdentified, IsFlushed, LacksRoom}};

use crate::fault::{PlainFault, RecoverFault};
use crate::port::{Port, ROOM};
use crate::slot::recover_slots;
use crate::software::restart;
use crate::unqueued::carry_out;
use ncq_journal::{Event, Plain};
use sector_store::SectorStore;
use std::alloc::Allocator;

impl<A: Allocator, S: SectorStore> Port<A, S> {
    /// Recovers from a failure: the port is stopped and started, and the page that READ LOG EXT reads names the failed tag,
    /// which is the answer. The failed request is done, and every other command that was issued or accepted is held.
    ///
    /// # Errors
    /// `NotHalted` if no command has failed, else `OutOfMemory` if room for the entries that follow could not be allocated.
    pub fn recover(&mut self) -> Result<u8, RecoverFault>
        ensures failed { IfOk result (λ tag. is_failed (phase self.old.past tag) ≡ true) }
        ensures recovered { IfOk result (λ tag. IsRecovered tag self.old self.new) }
        ensures fault { AnswersOr result (recover_refusal self.old) RecoverFault.OutOfMemory }
        ensures lacking { IfErr result (λ e. e ≡ RecoverFault.OutOfMemory → LacksRoom self.old) }
        ensures err { OnErr result (self.new ≡ self.old) }
    {
        if !self.halted() {
            return Err(RecoverFault::NotHalted);
        }
        self.journal.reserve(ROOM)?;
        restart(&mut self.registers);
        carry_out(
            Plain::ReadLog,
            &mut self.headers,
            &mut self.unqueued,
            &mut self.registers,
            &mut self.area,
            &mut self.disk,
        );
        let tag = self.unqueued.page()[0] % 32; // bits 4:0
        recover_slots(&mut self.slots);
        self.journal.push_reserved(Event::Recover(tag));
        Ok(tag)
    }

    /// Sends IDENTIFY DEVICE and answers its page, word w in bytes 2w and 2w + 1, the low one first.
    ///
    /// # Errors
    /// `Halted` where a command has failed and the port has not recovered, `QueueBusy` where a queued command is issued or
    /// accepted, else `OutOfMemory` if room for the entries that follow could not be allocated.
    pub fn identify(&mut self) -> Result<[u8; 512], PlainFault>
        ensures page { IfOk result (λ page. page ≡ identify_page (sectors_in self.old) self.old.depth) }
        ensures identified { OnOk result (IsIdentified self.old self.new) }
        ensures fault { AnswersOr result (plain_refusal self.old) PlainFault.OutOfMemory }
        ensures lacking { IfErr result (λ e. e ≡ PlainFault.OutOfMemory → LacksRoom self.old) }
        ensures err { OnErr result (self.new ≡ self.old) }
    {
        self.send_unqueued(Plain::Identify)
    }

    /// Sends FLUSH CACHE EXT. There is no volatile cache, so it changes no sector.
    ///
    /// # Errors
    /// As for `identify`.
    pub fn flush(&mut self) -> Result<(), PlainFault>
        ensures flushed { OnOk result (IsFlushed self.old self.new) }
        ensures fault { AnswersOr result (plain_refusal self.old) PlainFault.OutOfMemory }
        ensures lacking { IfErr result (λ e. e ≡ PlainFault.OutOfMemory → LacksRoom self.old) }
        ensures err { OnErr result (self.new ≡ self.old) }
    {
        self.send_unqueued(Plain::Flush)?;
        Ok(())
    }

    /// Carries out IDENTIFY DEVICE or FLUSH CACHE EXT, and answers the page that the device sent last. It is inline in both, so
    /// that a flush moves no page.
    #[inline(always)]
    fn send_unqueued(&mut self, plain: Plain) -> Result<[u8; 512], PlainFault>
        requires { IsJournalled plain }
        ensures page { IfOk result (λ page. plain ≡ Identify → page ≡ identify_page (sectors_in self.old) self.old.depth) }
        ensures carried { OnOk result (IsCarriedOut plain self.old self.new) }
        ensures fault { AnswersOr result (plain_refusal self.old) PlainFault.OutOfMemory }
        ensures lacking { IfErr result (λ e. e ≡ PlainFault.OutOfMemory → LacksRoom self.old) }
        ensures err { OnErr result (self.new ≡ self.old) }
    {
        if let Some(fault) = self.plain_fault() {
            return Err(fault);
        }
        self.journal.reserve(ROOM)?;
        carry_out(
            plain,
            &mut self.headers,
            &mut self.unqueued,
            &mut self.registers,
            &mut self.area,
            &mut self.disk,
        );
        self.journal.push_reserved(Event::Plain(plain));
        Ok(*self.unqueued.page())
    }

    /// Why IDENTIFY DEVICE or FLUSH CACHE EXT would not be sent, memory aside. While the port is not halted, PxSACT has the tags that are
    /// issued or accepted.
    #[tactic(auto, using(word_bits::proofs::BitsLemmas::bits_zero))]
    pub fn plain_fault(&self) -> Option<PlainFault>
        ensures { result ≡ plain_refusal self.now }
    {
        if self.halted() {
            return Some(PlainFault::Halted);
        }
        if self.registers.sact() != 0 {
            return Some(PlainFault::QueueBusy);
        }
        None
    }
}
