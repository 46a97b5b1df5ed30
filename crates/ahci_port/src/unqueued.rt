//! Commands that are not queued: they are issued in slot 0, over a command table of their own (AHCI 1.3.1, sections 4.2.2 and
//! 4.2.3).

ghost use Rattle.std.specs.Prelude.{◌≡◌};
ghost use Rattle.ahci_regs.specs.{declared.register.Register.TheVariants.{PxCi}, RegisterTable.{offset_of}};
ghost use Rattle.ncq_core.specs.Verdict.{verdict};
ghost use Rattle.ncq_core.specs.declared.taken.Taken.TheVariants as taken;
ghost use Rattle.ahci_port.specs.{Carrying.{HasRead, Passes, area_after, carried, disk_after, told}, Registers.{after_write}, Unqueued.{cfis_for, entries_for, header_for, sent_for}};

use crate::receive::{receive_pio, receive_register};
use crate::sent::Sent;
use crate::software::write;
use ahci_regs::{PortRegs, Register};
use ncq_core::Disk;
use ncq_journal::Plain;
use sector_store::SectorStore;

/// How many entries the command's PRDT has: a page is one piece, and a flush has no data.
fn entries_for(plain: Plain) -> u8
    ensures { result ≡ entries_for plain }
{
    match plain {
        Plain::Identify | Plain::ReadLog => 1,
        Plain::Flush => 0,
    }
}

/// The command header: CFL 5, PRDTL, CTBA 00020000h.
fn header_for(plain: Plain) -> [u8; 32]
    ensures { result ≡ header_for plain }
{
    let mut header = [0; 32];
    header[0] = 5;
    header[2] = entries_for(plain);
    header[10] = 2;
    header
}

/// The command FIS (ACS-3, IDENTIFY DEVICE, FLUSH CACHE EXT, and READ LOG EXT for page 0 of log 10h).
fn cfis_for(plain: Plain) -> [u8; 20]
    ensures { result ≡ cfis_for plain }
{
    match plain {
        Plain::Identify => [
            0x27, 0x80, 0xEC, 0, 0, 0, 0, 0, 0, 0, 0, 0, 0, 0, 0, 0, 0, 0, 0, 0,
        ],
        Plain::Flush => [
            0x27, 0x80, 0xEA, 0, 0, 0, 0, 0, 0, 0, 0, 0, 0, 0, 0, 0, 0, 0, 0, 0,
        ],
        Plain::ReadLog => [
            0x27, 0x80, 0x2F, 0, 0x10, 0, 0, 0, 0, 0, 0, 0, 1, 0, 0, 0, 0, 0, 0, 0,
        ],
    }
}

/// What is sent for a command.
fn sent_for(plain: Plain) -> Sent
    ensures { result ≡ sent_for plain }
{
    Sent {
        header: header_for(plain),
        cfis: cfis_for(plain),
        entry: PAGE_ENTRY,
    }
}

/// Sends a command by slot 0: header and command table are put where the device finds them, and PxCI[0] is set. The device lets
/// the command through, by which nothing of the disk changes: so its bytes, which are known here, are not read again.
#[tactic(auto, using(crate::proofs::CarryingLemmas::passes_through, crate::proofs::CarryingLemmas::state_stays))]
fn send<S: SectorStore>(
    plain: Plain,
    header: &mut [u8; 32],
    table: &mut UnqueuedTable,
    registers: &mut PortRegs,
    disk: &Disk<S>,
)
    requires { Passes plain disk.now }
    ensures taken { (verdict disk.now (cfis_for plain)).answer ≡ taken.Plain plain }
    ensures disk { (verdict disk.now (cfis_for plain)).state ≡ disk.now }
    ensures sent { table.new.sent ≡ sent_for plain }
    ensures header { header.new ≡ header_for plain }
    ensures registers { registers.new ≡ after_write registers.old (offset_of PxCi) 1 }
{
    table.sent = sent_for(plain);
    *header = table.sent.header;
    write(registers, Register::PxCi, 1);
}

/// Receives what the device answers to a command that it has taken: a page by PIO, or the end of a flush.
fn receive<S: SectorStore>(
    plain: Plain,
    table: &mut UnqueuedTable,
    registers: &mut PortRegs,
    area: &mut [u8; 256],
    disk: &mut Disk<S>,
)
    requires { Passes plain disk.old }
    ensures page { HasRead plain disk.old table.new.page }
    ensures sent { table.new.sent ≡ table.old.sent }
    ensures registers { registers.new ≡ told plain registers.old }
    ensures area { area.new ≡ area_after plain area.old }
    ensures disk { disk.new ≡ disk_after plain disk.old }
{
    match plain {
        Plain::Identify => {
            receive_pio(registers, area, &Disk::pio_setup());
            table.take_page(disk.identify());
        }
        Plain::Flush => {
            receive_register(registers, area, &Disk::flushed(), 0);
        }
        Plain::ReadLog => {
            receive_pio(registers, area, &Disk::pio_setup());
            table.take_page(disk.read_log());
        }
    }
}

/// Carries a command out by slot 0: it is sent, and what the device answers is received. The header of the window that is
/// in slot 0 is put aside meanwhile.
pub(crate) fn carry_out<S: SectorStore>(
    plain: Plain,
    headers: &mut [[u8; 32]; 32],
    table: &mut UnqueuedTable,
    registers: &mut PortRegs,
    area: &mut [u8; 256],
    disk: &mut Disk<S>,
)
    requires { Passes plain disk.old }
    ensures page { HasRead plain disk.old table.new.page }
    ensures sent { table.new.sent ≡ sent_for plain }
    ensures headers { headers.new ≡ headers.old }
    ensures registers { registers.new ≡ carried plain registers.old }
    ensures area { area.new ≡ area_after plain area.old }
    ensures disk { disk.new ≡ disk_after plain disk.old }
{
    let aside = headers[0];
    send(plain, &mut headers[0], table, registers, &*disk);
    receive(plain, table, registers, area, disk);
    headers[0] = aside;
}

/// The PRDT's one entry: 512 bytes at 00020200h.
const PAGE_ENTRY: [u8; 16] = [0, 2, 2, 0, 0, 0, 0, 0, 0, 0, 0, 0, 0xFF, 1, 0, 0];

/// Slot 0's table for commands that are not queued, with the header that names it, and the page at 00020200h.
#[derive(Drop)]
pub(crate) struct UnqueuedTable {
    pub(crate) sent: Sent,
    page: [u8; 512],
}

impl UnqueuedTable {
    ghost use Rattle.std.specs.Prelude.{◌≡◌};
    ghost use Rattle.ahci_port.specs.Unqueued.{nothing_sent};

    /// A table before the first command.
    pub(crate) fn new() -> Self
        ensures { result.sent ≡ nothing_sent }
    {
        UnqueuedTable {
            sent: Sent {
                header: [0; 32],
                cfis: [0; 20],
                entry: [0; 16],
            },
            page: [0; 512],
        }
    }

    /// Takes a page that the device sends.
    pub(crate) fn take_page(&mut self, page: [u8; 512])
        ensures page { self.new.page ≡ page }
        ensures sent { self.new.sent ≡ self.old.sent }
    {
        self.page = page;
    }

    /// The page that came last.
    pub(crate) fn page(&self) -> &[u8; 512]
        ensures { result.now ≡ self.now.page }
    {
        &self.page
    }
}
