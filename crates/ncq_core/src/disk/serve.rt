//! How the disk ends a command that is outstanding: by serving it, or by an error, which a page of the log reports.

ghost use Rattle.std.specs.Prelude.{◌≡◌, ◌+◌, ◌<◌, ◌≤◌, ◌&&◌, slice_set, None, Some, Err, length, IfOk, IfErr, IfSome, IsOk, OnOk, OnErr, IsSome, IsSomeAnd, MatchOption};
ghost use Rattle.ncq_core.specs.DiskState.{IsDisk, IsOutstanding, command_of, disk_sectors, is_reserved_in};
ghost use Rattle.ncq_core.specs.DiskFis.{setup_bytes, failed_bytes};
ghost use Rattle.ncq_core.specs.Verdict.{stopped_by};
ghost use Rattle.ncq_core.specs.Log.{log_page};
ghost use Rattle.sector_store.specs.Reserved.{StayReserved};
ghost use Rattle.ncq_core.specs.Serving.{HasMemory, HasMoved, answered, byte_count, fail_fault, covers_sector, serve_fault, served};
ghost use Rattle.ncq_core.specs.Traffic.{moved_by, passed_for};

use crate::disk::Disk;
use crate::disk::answers::{dma_setup, failed};
use crate::disk::data::move_data;
use crate::disk::error::DiskError;
use crate::disk::log::log_page;
use crate::host::Host;
use crate::serve_fault::ServeFault;
use sata_fis::Queued;
use sector_store::SectorStore;

/// Whether the sector is one that the command reads or writes.
fn covers_sector(command: &Queued, lba: u64) -> bool
    ensures { result ≡ covers_sector command.now lba }
{
    command.lba <= lba && lba - command.lba < u64::from(command.sectors)
}

impl<S: SectorStore> Disk<S> {
    /// Serves the command outstanding at a tag: one DMA Setup, then its data, in Data FISes with 8,192 bytes of payload and the rest; each of
    /// a write after a DMA Activate. A read puts its sectors at the beginning of
    /// the host's text; a write makes its sectors the first bytes of that text. A store that may need memory for a write has it reserved. Which Set Device Bits FIS says that it is
    /// completed, alone or with others, `completed` says.
    ///
    /// # Errors
    /// `Stopped` if there is an error condition, `NotAccepted` where nothing is outstanding at the tag.
    pub fn serve<H: Host>(&mut self, tag: u8, host: &mut H) -> Result<(), ServeFault>
        requires room { IfSome (command_of self.old tag) (λ q. byte_count q ≤ length (H.text host.old)) }
        requires reserved { IfSome (command_of self.old tag) (HasMemory (S.can_grow && self.old.grows) (disk_sectors self.old) self.old.reserved) }
        ensures answer { MatchOption (serve_fault self.old tag) (IsOk result) (λ f. result ≡ Err f) }
        ensures state { OnOk result (self.new ≡ served self.old tag self.new.image self.new.reserved) }
        ensures stay { OnOk result (StayReserved (is_reserved_in self.old.reserved) (is_reserved_in self.new.reserved)) }
        ensures data { OnOk result (IsSomeAnd (command_of self.old tag) (λ q. HasMoved q self.old.image self.new.image (H.text host.old) (H.text host.new))) }
        ensures setup { OnOk result (IsSomeAnd (command_of self.old tag) (λ q. H.last_setup host.new ≡ setup_bytes q)) }
        ensures offset { OnOk result (IsSomeAnd (command_of self.old tag) (λ q. H.offset host.new ≡ byte_count q)) }
        ensures saw { OnOk result (IsSomeAnd (command_of self.old tag) (λ q. H.saw host.old (passed_for q) host.new)) }
        ensures others { H.keeps host.old host.new }
        ensures disk_at_err { OnErr result (self.new ≡ self.old) }
        ensures host_at_err { OnErr result (host.new ≡ host.old) }
    {
        let command = self.outstanding(tag)?;
        host.setup(&dma_setup(&command));
        self.move_sectors(&command, host);
        self.free(tag);
        Ok(())
    }

    /// Fails the command outstanding at a tag, with an error at one of its sectors, `at`. The error condition lasts, and has ended
    /// every command. No sector changes. The answer is a Set Device Bits FIS.
    ///
    /// # Errors
    /// `Stopped` if there is an error condition, `NotAccepted` where nothing is outstanding at the tag, `OutsideCommand` where `at`
    /// is not a sector of its command.
    #[tactic(auto, using(crate::proofs::DiskLemmas::sector_fits))]
    pub fn fail(&mut self, tag: u8, error: u8, at: u64) -> Result<[u8; 8], ServeFault>
        ensures answer { result ≡ answered (fail_fault self.old tag at) (failed_bytes error) }
        ensures state { OnOk result (self.new ≡ stopped_by self.old (record { tag = tag; error = error; lba = at })) }
        ensures err { OnErr result (self.new ≡ self.old) }
    {
        if !covers_sector(&self.outstanding(tag)?, at) {
            return Err(ServeFault::OutsideCommand);
        }
        self.stop(tag, error, at);
        Ok(failed(error))
    }

    /// Answers page 0 of log 10h, which reports the error, and ends the error condition.
    pub fn read_log(&mut self) -> [u8; 512]
        requires { IsSome self.old.error }
        ensures page { IsSomeAnd self.old.error (λ e. result ≡ log_page e) }
        ensures state { self.new ≡ record self.old { error = None } }
    {
        let DiskError { tag, error, lba } = self.error.take().unwrap();
        log_page(tag, error, lba)
    }

    /// The command outstanding at a tag, while there is no error condition.
    fn outstanding(&self, tag: u8) -> Result<Queued, ServeFault>
        ensures ok { IfOk result (λ q. (command_of self.now tag ≡ Some q) × IsOutstanding self.now tag q) }
        ensures none { OnOk result (serve_fault self.now tag ≡ None) }
        ensures disk { IsDisk self.now }
        ensures err { IfErr result (λ e. serve_fault self.now tag ≡ Some e) }
    {
        if self.error.is_some() {
            return Err(ServeFault::Stopped);
        }
        match self.command(tag) {
            Some(command) => Ok(command),
            None => Err(ServeFault::NotAccepted),
        }
    }

    /// Moves the sectors of a command between the image and the host. Nothing else of the disk changes.
    #[tactic(auto, using(crate::proofs::DiskLemmas::is_disk_moved, crate::proofs::ReservedLemmas::listed_stay, crate::proofs::ReservedLemmas::may_move))]
    fn move_sectors<H: Host>(&mut self, command: &Queued, host: &mut H)
        requires sectors { command.now.lba + command.now.sectors ≤ disk_sectors self.old }
        requires reserved { HasMemory (S.can_grow && self.old.grows) (disk_sectors self.old) self.old.reserved command.now }
        requires start { H.offset host.old ≡ 0 }
        requires room { byte_count command.now ≤ length (H.text host.old) }
        ensures state { self.new ≡ record self.old { image = self.new.image; reserved = self.new.reserved } }
        ensures stay { StayReserved (is_reserved_in self.old.reserved) (is_reserved_in self.new.reserved) }
        ensures data { HasMoved command.now self.old.image self.new.image (H.text host.old) (H.text host.new) }
        ensures offset { H.offset host.new ≡ byte_count command.now }
        ensures setup { H.last_setup host.new ≡ H.last_setup host.old }
        ensures saw { H.saw host.old (moved_by command.now.write (byte_count command.now)) host.new }
        ensures others { H.keeps host.old host.new }
    {
        move_data(host, &mut self.room, command, &mut self.store);
    }

    /// Ends the command at a tag. The others stay.
    fn free(&mut self, tag: u8)
        requires { tag < 32 }
        ensures { self.new ≡ record self.old { commands = slice_set self.old.commands tag None } }
    {
        self.commands[usize::from(tag)] = None;
    }
}
