//! Power-on of a controller that is there (AHCI 1.3.1, chapter 3 and section 10.4).

ghost use Rattle.std.specs.Prelude.{◌≡◌};
ghost use Rattle.ahci_hba.specs.PoweringOn.{power_on_journal, powered_on};

use crate::hba::Hba;
use ahci_port::Journal;
use hba_regs::Consequence;
use sector_store::SectorStore;
use std::alloc::Allocator;

impl<A: Allocator + Copy, S: SectorStore> Hba<A, S> {
    /// Power-on: the machine is reset or the PCI function is (FLR), or the function has lost its power, as by hot unplug. The controller is as
    /// `with_capabilities` makes it with the same capabilities and depth, over the disk as it is: each register has its reset value (AHCI
    /// 1.3.1, chapter 3), PxCLB and PxFB too, which a reset of the HBA leaves (section 10.4.3), and the disk is Active with the default settings, its counters of log 11h at 0. All commands are
    /// dropped, and none changes a sector or the driver's memory any more. If the port has requests or a failure has halted it, it is reset,
    /// and the journal that it hands out is the answer; it goes on by number.
    pub fn power_on(&mut self) -> Option<Journal<A>>
        ensures state { self.new ≡ powered_on self.old }
        ensures journal { result ≡ power_on_journal self.old }
    {
        let journal = self.reset_port(Consequence::Reset);
        self.registers.power_on();
        self.wake();
        self.cycle_power();
        self.empty();
        journal
    }
}
