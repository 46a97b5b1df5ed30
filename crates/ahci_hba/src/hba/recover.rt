//! How a driver reads the log of a failed queued command (AHCI 1.3.1, section 6.2.2; ACS-3, "NCQ Command Error log").

ghost use Rattle.std.specs.Prelude.{◌≡◌, ◌<◌, ◌≤◌, ◌&&◌, not, true, [], IfErr, IfOk, OnErr, OnOk, is_some, vec_capacity};
ghost use Rattle.std.specs.List.{list_any};
ghost use Rattle.ncq_journal.specs.Halted.{halted};
ghost use Rattle.ahci_hba.specs.Queueing.{command_at, has_queued};
ghost use Rattle.ahci_hba.specs.Stepping.{fault_if, may_recover};
ghost use Rattle.ahci_hba.specs.Recovering.{CollectsFailed, ReadsErrorLog, error_log_in, error_log_of, error_page};

use crate::command::Command;
use crate::fault::HbaFault;
use crate::hba::Hba;
use crate::hba::write::reset;
use ahci_port::{Journal, Outcome, Port, RecoverFault, Reply};
use hba_command::{Action, Log, Page, Protocol, action_of, not_queued_page};
use hba_regs::Slot;
use ncq_core::{LBA_LIMIT, log_page};
use sector_store::SectorStore;
use std::alloc::Allocator;

/// The page of the failed command of a tag.
fn error_page(tag: u8, outcome: Outcome) -> [u8; 512]
    ensures { result ≡ error_page tag outcome }
{
    match outcome {
        Outcome::Failed { error, lba } => {
            if tag < 32 && lba < LBA_LIMIT {
                log_page(tag, error, lba)
            } else {
                not_queued_page()
            }
        }
        _ => not_queued_page(),
    }
}

/// How a command reads the log of failed queued commands; nothing if it doesn't.
fn error_log_of(action: &Action) -> Option<Protocol>
    ensures { result ≡ error_log_of action.now }
{
    match action {
        Action::Page(Page::Log(Log::QueuedError), protocol) => Some(*protocol),
        _ => None, // it has no log
    }
}

impl<A: Allocator, S: SectorStore> Hba<A, S> {
    /// How the command of a slot reads the log of failed queued commands; nothing if it doesn't.
    pub fn error_log_in(&self, slot: Slot) -> Option<Protocol>
        ensures { result ≡ error_log_in (command_at self.now slot) }
    {
        match &self.slots[slot.index()] {
            Some(slot) => match &slot.command {
                Command::Fetched(task, _, _) => error_log_of(&action_of(task)),
                Command::Sent(_, _) => None,
            },
            None => None,
        }
    }

    /// Whether a command reads the log of failed queued commands, one has failed, and no queued command is outstanding. `queueing` is what `is_queueing` answers.
    pub(super) fn recovers_by(&self, action: &Action, queueing: bool) -> bool
        requires { queueing ≡ list_any has_queued self.now.slots }
        ensures { result ≡ (is_some (error_log_of action.now) && (halted self.now.port.past && not (list_any has_queued self.now.slots))) }
    {
        error_log_of(action).is_some() && self.port.halted() && !queueing
    }

    /// Whether the device reads the log of failed queued commands for the command of a slot now: one has failed, and no queued command
    /// is outstanding.
    pub fn may_recover(&self, slot: Slot) -> bool
        ensures { result ≡ may_recover self.now slot }
    {
        self.is_ready()
            && self.error_log_in(slot).is_some()
            && self.port.halted()
            && !self.is_queueing()
    }
}

/// A halted port recovers, and the failed request is collected: its tag and its reply.
fn recover<A: Allocator, S: SectorStore>(port: &mut Port<A, S>) -> Result<(u8, Reply), HbaFault>
    requires { halted port.old.past ≡ true }
    ensures ok { IfOk result (λ r. CollectsFailed r.0 r.1 port.old port.new) }
    ensures fault { IfErr result (λ e. e ≡ HbaFault.OutOfMemory) }
    ensures err { OnErr result (port.new ≡ port.old) }
{
    port.keeps_its_promise();
    let tag = match port.recover() {
        Ok(tag) => tag,
        Err(RecoverFault::OutOfMemory) => return Err(HbaFault::OutOfMemory),
        Err(RecoverFault::NotHalted) => unreachable!(),
    };
    let Some(number) = port.owner(tag) else {
        unreachable!() // a failed command has a request
    };
    let Ok((reply, _)) = port.collect(tag, number) else {
        unreachable!() // it is done
    };
    Ok((tag, reply))
}

impl<A: Allocator + Copy, S: SectorStore> Hba<A, S> {
    /// The device answers a command of a slot that reads the log of failed queued commands, after one has failed: the port recovers,
    /// the failed request is collected, what was held is dropped, and the page goes to the driver. The port is reset after that, and the
    /// journal that it hands out is the answer.
    ///
    /// # Errors
    /// `NotReady` exactly if `may_recover` is false; else `OutOfMemory` if an allocation failed, and it can be tried again. Nothing has changed.
    pub fn recover(&mut self, slot: Slot) -> Result<Option<Journal<A>>, HbaFault>
        ensures ready { OnOk result (may_recover self.old slot ≡ true) }
        ensures ok { IfOk result (λ j. ReadsErrorLog slot self.old self.new j) }
        ensures err { IfErr result (λ e. (e ≡ fault_if (may_recover self.old slot)) × (self.new ≡ self.old)) }
    {
        if !self.may_recover(slot) {
            return Err(HbaFault::NotReady);
        }
        let Some(protocol) = self.error_log_in(slot) else {
            unreachable!() // it reads that log
        };
        let page = Vec::with_capacity(self.alloc, 512)?;
        let (tag, reply) = match recover(&mut self.port) {
            Ok(recovered) => recovered,
            Err(fault) => return Err(fault),
        };
        let journal = reset(&mut self.port);
        self.give_page(
            slot,
            protocol,
            filled(page, &error_page(tag, reply.outcome)),
        );
        Ok(journal)
    }
}

/// Some bytes in the room that there is.
fn filled<A: Allocator>(room: Vec<u8, A>, bytes: &[u8; 512]) -> Vec<u8, A>
    requires empty { room.items ≡ [] }
    requires room { 512 ≤ vec_capacity room }
    ensures { result.items ≡ bytes.now }
{
    let mut filled = room;
    let Ok(()) = filled.extend_from_slice(bytes) else {
        unreachable!() // there is room
    };
    filled
}
