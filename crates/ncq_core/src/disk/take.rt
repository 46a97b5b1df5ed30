//! How the disk takes the bytes of a command.

ghost use Rattle.std.specs.Prelude.{◌≡◌, false, Some};
ghost use Rattle.ncq_core.specs.Verdict.{verdict, command_in, queued_verdict, plain_verdict, stopped_verdict, idle_verdict, accepted, not_found, is_read_log, is_taken_tag, is_past_end, is_busy};

use crate::disk::Disk;
use crate::disk::answers::{IDNF, aborted, accepted, not_found};
use crate::taken::Taken;
use ncq_journal::Plain;
use sata_fis::{Fis, H2d, Queued, decode, queued};
use sector_store::SectorStore;

/// IDENTIFY DEVICE (ACS-3).
const IDENTIFY: u8 = 0xEC;
/// FLUSH CACHE EXT.
const FLUSH: u8 = 0xEA;
/// READ LOG EXT.
const READ_LOG: u8 = 0x2F;
/// The NCQ Command Error log.
const ERROR_LOG: u64 = 0x10;

/// The command that the bytes carry, if they are a Register FIS - Host to Device whose C is 1.
fn command_in(h2d: &[u8]) -> Option<H2d>
    ensures { result ≡ command_in h2d.now }
{
    match &decode(h2d) {
        Ok(Fis::H2d(command)) if command.c => Some(*command),
        _ => None,
    }
}

/// Whether this is a READ LOG EXT for page 0 of log 10h.
fn is_read_log(command: &H2d) -> bool
    ensures { result ≡ is_read_log command.now }
{
    command.command == READ_LOG && command.lba == ERROR_LOG && command.count == 1
}

impl<S: SectorStore> Disk<S> {
    /// Takes the bytes of a command, by the first case that applies: there is an error condition, they carry no command, a queued
    /// one, or another one.
    pub fn take(&mut self, h2d: &[u8]) -> Taken
        ensures answer { result ≡ (verdict self.old h2d.now).answer }
        ensures state { self.new ≡ (verdict self.old h2d.now).state }
    {
        let command = command_in(h2d);
        if self.stopped() {
            return self.take_stopped(command);
        }
        let Some(command) = command else {
            return Taken::Refused(aborted());
        };
        match queued(&command) {
            Some(queued) => self.take_queued(queued),
            None => self.take_plain(command.command),
        }
    }

    /// During an error condition only the READ LOG EXT that reports it is let through.
    fn take_stopped(&self, command: Option<H2d>) -> Taken
        ensures { result ≡ (stopped_verdict self.now command).answer }
    {
        match command {
            Some(command) if is_read_log(&command) => Taken::Plain(Plain::ReadLog),
            _ => Taken::Refused(aborted()),
        }
    }

    /// A queued command is refused where its tag is not free, or where it passes the last sector.
    fn take_queued(&mut self, command: Queued) -> Taken
        requires { self.old.error ≡ None }
        ensures answer { result ≡ (queued_verdict self.old command).answer }
        ensures state { self.new ≡ (queued_verdict self.old command).state }
    {
        if self.is_taken_tag(command.tag) {
            return Taken::Refused(aborted());
        }
        if self.is_past_end(&command) {
            return self.refuse(&command);
        }
        self.accept(command)
    }

    /// Accepts a command: it is outstanding at its tag.
    fn accept(&mut self, command: Queued) -> Taken
        requires running { self.old.error ≡ None }
        requires free { is_taken_tag self.old command.tag ≡ false }
        requires fits { is_past_end self.old command ≡ false }
        ensures answer { result ≡ (accepted self.old command).answer }
        ensures state { self.new ≡ (accepted self.old command).state }
    {
        self.commands[usize::from(command.tag)] = Some(command);
        Taken::Accepted(accepted())
    }

    /// Refuses a command that passes the last sector: this error ends every command.
    fn refuse(&mut self, command: &Queued) -> Taken
        ensures answer { result ≡ (not_found self.old command.now).answer }
        ensures state { self.new ≡ (not_found self.old command.now).state }
    {
        let lba = command.lba.max(u64::from(self.sectors()));
        self.stop(command.tag, IDNF, lba);
        Taken::Refused(not_found(lba))
    }

    /// An IDENTIFY DEVICE or FLUSH CACHE EXT waits until nothing is outstanding. Every other command is refused.
    fn take_plain(&self, code: u8) -> Taken
        ensures { result ≡ (plain_verdict self.now code).answer }
    {
        match code {
            IDENTIFY => self.take_idle(Plain::Identify),
            FLUSH => self.take_idle(Plain::Flush),
            _ => Taken::Refused(aborted()),
        }
    }

    /// A command that is let through where nothing is outstanding.
    fn take_idle(&self, command: Plain) -> Taken
        ensures { result ≡ (idle_verdict self.now command).answer }
    {
        if self.is_busy() {
            return Taken::Refused(aborted());
        }
        Taken::Plain(command)
    }

    /// Whether a command can't have this tag: it is not below the depth, or another one is outstanding at it.
    fn is_taken_tag(&self, tag: u8) -> bool
        ensures { result ≡ is_taken_tag self.now tag }
    {
        self.depth() <= u32::from(tag) || self.command(tag).is_some()
    }

    /// Whether some of a command's sectors are not on the disk.
    pub(super) fn is_past_end(&self, command: &Queued) -> bool
        ensures { result ≡ is_past_end self.now command.now }
    {
        command.lba + u64::from(command.sectors) > u64::from(self.sectors())
    }

    /// Whether some command is outstanding.
    fn is_busy(&self) -> bool
        ensures { result ≡ is_busy self.now }
    {
        self.commands.iter().any(|command| command.is_some())
    }
}
