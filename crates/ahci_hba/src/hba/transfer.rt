//! How the data of a command by PIO move, block by block (Serial ATA, "PIO Setup"; ACS-3, "PIO data-in command protocol").

ghost use Rattle.std.specs.Prelude.{◌≡◌, ◌<◌, ◌≤◌, false, true, IfOk, OnErr, OnOk};
ghost use Rattle.hba_memory.specs.Blocks.{block_puts};
ghost use Rattle.ahci_hba.specs.Delivering.{block_content, block_in, block_out, block_writes, content_of, finishing, going_on, gone_on, only_before, sends_data, setup_put, stepped_on};
ghost use Rattle.ahci_hba.specs.Transfer.{next_block, next_sectors, sends_block};

use crate::dma_state::DmaState;
use crate::ending::Ending;
use crate::hba::Hba;
use crate::last_fis::LastFis;
use crate::transfer::Transfer;
use hba_memory::{DmaWrites, Scatter};
use sector_store::SectorStore;
use std::alloc::{AllocError, Allocator};
use std::mem;

impl<A: Allocator, S: SectorStore> Hba<A, S> {
    /// What a block to the driver writes: a PIO Setup FIS, the block, and PRDBC with the bytes so far.
    fn block_writes(
        &self,
        transfer: &Transfer<A>,
        content: Scatter<A>,
        e_status: u8,
    ) -> DmaWrites<A>
        requires { content ≡ block_puts transfer.now.rest (next_sectors transfer.now) }
        ensures { result ≡ block_writes self.now.registers transfer.now e_status }
    {
        DmaWrites::new(
            self.setup_put(true, true, e_status, transfer.next_sectors()),
            content,
            self.count_put(transfer.slot(), transfer.moved_so_far()),
            None,
        )
    }

    /// A block of a read.
    fn block_in(&mut self, transfer: Transfer<A>, content: Scatter<A>)
        requires left { 0 < transfer.left }
        requires content { content ≡ block_puts transfer.rest (next_sectors transfer) }
        ensures { self.new ≡ block_in self.old transfer }
    {
        let slot = transfer.slot();
        if transfer.is_last() {
            let writes = self.block_writes(&transfer, content, 0x40);
            let last = LastFis::Pio { slot };
            let processed = transfer.next_processes();
            self.answer(writes, Ending::of_data(transfer.fits(), processed, last));
        } else {
            let writes = self.block_writes(&transfer, content, 0xC0);
            self.block(writes, next_of(transfer));
        }
    }
}

/// A transfer behind its next block.
fn next_of<A: Allocator>(transfer: Transfer<A>) -> Transfer<A>
    requires { 0 < transfer.left }
    ensures { result ≡ next_block transfer }
{
    let mut next = transfer;
    next.advance();
    next
}

/// The next block of a transfer to the driver; nothing if none comes.
fn block_content<A: Allocator + Copy>(
    alloc: A,
    transfer: &Transfer<A>,
) -> Result<Scatter<A>, AllocError>
    ensures ok { IfOk result (λ s. s ≡ block_content transfer.now) }
    ensures lacking { OnErr result (sends_block transfer.now ≡ true) }
{
    if !transfer.sends_block() {
        return Ok(Scatter::new(Vec::new(alloc), Vec::new(alloc)));
    }
    transfer.rest().block(alloc, transfer.next_sectors())
}

impl<A: Allocator + Copy, S: SectorStore> Hba<A, S> {
    /// An answer of a PIO Setup FIS alone, for a block of so many sectors to the device.
    fn out_writes(&self, i: bool, sectors: u32) -> DmaWrites<A>
        requires { sectors ≤ 16 }
        ensures { result ≡ only_before (setup_put self.now.registers false i 0xC0 sectors) }
    {
        let content = Scatter::new(Vec::new(self.alloc), Vec::new(self.alloc));
        DmaWrites::new(self.setup_put(false, i, 0xC0, sectors), content, None, None)
    }

    /// A block of a write, of so many sectors, which the transfer has behind it then.
    fn block_out(&mut self, sectors: u32, transfer: Transfer<A>)
        requires { sectors ≤ 16 }
        ensures { self.new ≡ block_out self.old sectors transfer }
    {
        let writes = self.out_writes(transfer.has_interrupt(), sectors);
        self.block(writes, transfer);
    }

    /// The end of a transfer, whose blocks are done. If it writes a log of the host's, the log is written now.
    fn finish(&mut self, transfer: Transfer<A>)
        ensures { self.new ≡ finishing self.old transfer transfer.finish }
    {
        match transfer.finish() {
            Some(fis) => {
                let slot = transfer.slot();
                let moved = transfer.moved();
                self.log_behind(transfer.into_logs());
                self.close(slot, moved, false, fis);
            }
            None => self.turn_to(DmaState::Idle),
        }
    }

    /// The next step of a transfer.
    fn move_on(&mut self, transfer: Transfer<A>, content: Scatter<A>)
        requires { content ≡ block_content transfer }
        ensures { self.new ≡ going_on self.old transfer }
    {
        if transfer.left() == 0 {
            self.finish(transfer);
        } else if transfer.is_write() {
            let sectors = transfer.next_sectors();
            self.block_out(sectors, next_of(transfer));
        } else {
            self.block_in(transfer, content);
        }
    }

    /// The next block of a transfer to the driver, on its way.
    fn next_content(&self) -> Result<Scatter<A>, AllocError>
        ensures ok { IfOk result (λ s. s ≡ content_of self.now.dma) }
        ensures lacking { OnErr result (sends_data self.now.dma ≡ true) }
    {
        match &self.dma {
            DmaState::Pio(transfer) => block_content(self.alloc, transfer),
            _ => Ok(Scatter::new(Vec::new(self.alloc), Vec::new(self.alloc))),
        }
    }

    /// Puts together the next block of a transfer, while FRE is 1.
    pub(super) fn go_on(&mut self) -> Result<(), AllocError>
        ensures ok { OnOk result (self.new ≡ gone_on self.old self.old.dma) }
        ensures err { OnErr result (self.new ≡ self.old) }
        ensures lacking { OnErr result (sends_data self.old.dma ≡ true) }
    {
        if self.registers.is_receiving() {
            return self.step_on();
        }
        Ok(())
    }

    /// Puts together the next block of a transfer.
    fn step_on(&mut self) -> Result<(), AllocError>
        ensures ok { OnOk result (self.new ≡ stepped_on self.old self.old.dma) }
        ensures err { OnErr result (self.new ≡ self.old) }
        ensures lacking { OnErr result (sends_data self.old.dma ≡ true) }
    {
        let content = self.next_content()?;
        match mem::replace(&mut self.dma, DmaState::Idle) {
            DmaState::Pio(transfer) => self.move_on(transfer, content),
            other => self.dma = other,
        }
        Ok(())
    }
}
