use hba_command::HostLogs;
use hba_memory::{Blocks, Scatter};
use hba_regs::Slot;
use sata_fis::D2h;
use std::alloc::{AllocError, Allocator, Global};
use std::marker::Model;

/// A transfer by PIO, block by block (Serial ATA, "PIO Setup").
#[derive(Drop)]
pub(crate) struct Transfer<A: Allocator = Global> {
    slot: Slot,
    write: bool,
    most: u32,
    done: u32,
    left: u32,
    moved: u32,
    short: bool,
    processed: bool,
    rest: Blocks<A>,
    finish: Option<D2h>,
    logs: Option<HostLogs<A>>,
}

impl<A: Allocator> Model for Transfer<A> {
    ghost use Rattle.std.specs.Prelude.{◌≤◌, ◌+◌, ◌*◌};
    ghost use Rattle.ahci_hba.specs.Transfer.{TransferView};

    ghost Value = { TransferView };

    ghost view = { λ t. record { slot = t.slot; write = t.write; most = t.most; done = t.done; left = t.left; moved = t.moved; short = t.short; processed = t.processed; rest = t.rest; finish = t.finish; logs = t.logs } };

    ghost invariant = { λ t. (t.done + t.left ≤ 65536) × (t.moved + 512 * t.left ≤ 33554432) × (1 ≤ t.most) × (t.most ≤ 16) };
}

impl<A: Allocator> Transfer<A> {
    ghost use Rattle.std.specs.Prelude.{◌≡◌, ◌≤◌, ◌<◌, ◌*◌, ◌+◌};
    ghost use Rattle.ahci_hba.specs.Transfer.{first_block, fits, has_interrupt, is_last, moved_next, moved_so_far, next_block, next_list, next_processes, next_sectors, sends_block, writing_log};

    /// A transfer of so many sectors, in blocks of at most so many, for a slot; a D2H Register FIS ends it, or its last block.
    pub(crate) fn new(
        slot: Slot,
        write: bool,
        sectors: u32,
        most: u32,
        rest: Blocks<A>,
        finish: Option<D2h>,
    ) -> Self
        requires sectors { sectors ≤ 65536 }
        requires some { 1 ≤ most }
        requires most { most ≤ 16 }
        ensures { result ≡ first_block slot write sectors most rest finish }
    {
        Transfer {
            slot,
            write,
            most,
            done: 0,
            left: sectors,
            moved: 0,
            short: false,
            processed: false,
            rest,
            finish,
            logs: None,
        }
    }

    /// The same of a transfer that writes a log of the host's: once it ends the logs are these.
    pub(crate) fn writing_log(self, logs: HostLogs<A>) -> Self
        ensures { result ≡ writing_log self logs }
    {
        Transfer {
            logs: Some(logs),
            ..self
        }
    }

    /// The host's logs once it ends, if it writes one.
    pub(crate) fn into_logs(self) -> Option<HostLogs<A>>
        ensures { result ≡ self.logs }
    {
        self.logs
    }

    /// Its slot.
    pub(crate) fn slot(&self) -> Slot
        ensures { result ≡ self.now.slot }
    {
        self.slot
    }

    /// Whether the data go to the device.
    pub(crate) fn is_write(&self) -> bool
        ensures { result ≡ self.now.write }
    {
        self.write
    }

    /// Whether a block to the driver comes next.
    pub(crate) fn sends_block(&self) -> bool
        ensures { result ≡ sends_block self.now }
    {
        !self.write && self.left > 0
    }

    /// How many sectors are left.
    pub(crate) fn left(&self) -> u32
        ensures { result ≡ self.now.left }
    {
        self.left
    }

    /// How many blocks are done.
    pub(crate) fn done(&self) -> u32
        ensures value { result ≡ self.now.done }
        ensures most { result ≤ 65536 }
    {
        self.done
    }

    /// How many sectors the next block has.
    pub(crate) fn next_sectors(&self) -> u32
        ensures value { result ≡ next_sectors self.now }
        ensures most { result ≤ 16 }
    {
        self.most.min(self.left)
    }

    /// The FIS that ends it; none if its last block does.
    pub(crate) fn finish(&self) -> Option<D2h>
        ensures { result ≡ self.now.finish }
    {
        self.finish
    }

    /// The data and the list that are left.
    pub(crate) fn rest(&self) -> &Blocks<A>
        ensures { result.now ≡ self.now.rest }
    {
        &self.rest
    }

    /// Whether the PIO Setup FIS of the block before has I.
    pub(crate) fn has_interrupt(&self) -> bool
        ensures { result ≡ has_interrupt self.now }
    {
        !self.write || self.done > 1
    }

    /// Whether the next block ends it.
    pub(crate) fn is_last(&self) -> bool
        ensures { result ≡ is_last self.now }
    {
        self.left <= self.most && self.finish.is_none()
    }

    /// Whether the list has room for the next block.
    pub(crate) fn fits(&self) -> bool
        ensures { result ≡ fits (512 * next_sectors self.now) (next_list self.now) }
    {
        let sectors = self.next_sectors();
        u128::from(512 * sectors) <= self.rest.block_room(sectors)
    }

    /// How many bytes have moved.
    pub(crate) fn moved(&self) -> u32
        ensures { result ≡ self.now.moved }
    {
        self.moved
    }

    /// Whether the list had no room for the whole last block.
    pub(crate) fn is_short(&self) -> bool
        ensures { result ≡ self.now.short }
    {
        self.short
    }

    /// Whether the last block had the last byte of an entry with I.
    pub(crate) fn has_processed(&self) -> bool
        ensures { result ≡ self.now.processed }
    {
        self.processed
    }

    /// Whether the next block has the last byte of an entry with I.
    pub(crate) fn next_processes(&self) -> bool
        ensures { result ≡ next_processes self.now }
    {
        self.rest.block_processes(self.next_sectors())
    }

    /// How many bytes the next block moves: those of a read that the list has room for.
    fn moved_next(&self) -> u32
        ensures value { result ≡ moved_next self.now }
        ensures most { result ≤ 512 * next_sectors self.now }
    {
        let sectors = self.next_sectors();
        if self.write {
            512 * sectors
        } else {
            self.rest.block_room(sectors).min(u128::from(512 * sectors)) as u32
        }
    }

    /// How many bytes have moved with the next block.
    pub(crate) fn moved_so_far(&self) -> u32
        ensures value { result ≡ moved_so_far self.now }
        ensures most { result ≤ self.now.moved + 512 * next_sectors self.now }
    {
        self.moved + self.moved_next()
    }

    /// The next block is done. Some sector is left.
    pub(crate) fn advance(&mut self)
        requires { 0 < self.old.left }
        ensures { self.new ≡ next_block self.old }
    {
        let sectors = self.next_sectors();
        let moved = self.moved_so_far();
        let short = !self.write && !self.fits();
        let processed = self.next_processes();
        self.rest.advance(sectors);
        self.done += 1;
        self.left -= sectors;
        self.moved = moved;
        self.short = short;
        self.processed = processed;
    }
}
