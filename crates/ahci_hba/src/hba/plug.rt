//! How another disk is plugged in where one was pulled out (AHCI 1.3.1, chapter 7).

ghost use Rattle.std.specs.Prelude.{◌≡◌, ◌/◌, ◌≤◌, false, length, None, IfOk, OnErr, OnOk};
ghost use Rattle.ahci_port.specs.{Faults.{AnswersOr, over_refusal, reset_refusal}, PortView.{journal_in, next_number, port_over}};
ghost use Rattle.ahci_hba.specs.Plugging.{other_device, other_plugged, plug_refusal};

use crate::fault::PlugFault;
use crate::hba::{Hba, SLOTS};
use ahci_port::{Journal, Port, ResumeFault};
use hba_command::{Device, HostLogs, Identity, Uncorrectable, named, with_cache, with_trim_zeros};
use sector_store::SectorStore;
use std::alloc::Allocator;

/// The port of a disk over a store, which has a tag for each slot, and whose journal's first entry has this number.
fn port_from<A: Allocator + Copy, S: SectorStore + Drop>(
    alloc: A,
    store: S,
    depth: u32,
    first: u64,
) -> Result<Port<A, S>, ResumeFault>
    requires { length (S.starting store) ≡ length (S.image store) }
    ensures some { OnOk result (1 ≤ depth) }
    ensures most { OnOk result (depth ≤ 32) }
    ensures port { IfOk result (λ p. p ≡ port_over (S.grows store) first (S.image store) 32) }
    ensures fault { AnswersOr result (over_refusal (length (S.image store) / 512) depth first) ResumeFault.OutOfMemory }
{
    if depth == 0 || depth > SLOTS {
        return Port::resume_over(alloc, store, depth, first);
    }
    Port::resume_over(alloc, store, SLOTS, first)
}

/// The journal of a port whose numbers go on.
fn journal_of<A: Allocator + Copy, S: SectorStore>(port: &mut Port<A, S>) -> Journal<A>
    requires { reset_refusal port.old ≡ None }
    ensures { result ≡ journal_in port.old }
{
    match port.reset() {
        Ok(journal) => journal,
        Err(_) => unreachable!(), // its numbers go on
    }
}

impl<A: Allocator, S: SectorStore> Hba<A, S> {
    /// What the other disk keeps between commands.
    fn other_device(&self, identity: &Identity) -> Device
        ensures { result ≡ other_device self.now identity.now }
    {
        let new = with_cache(&Device::new(), self.device.has_cache);
        let new = with_trim_zeros(&new, self.device.trim_zeros);
        named(&new, identity)
    }
}

impl<A: Allocator + Copy, S: SectorStore + Drop> Hba<A, S> {
    /// Another disk is plugged in where one was pulled out: one over this store, with this name and queue depth. It is as new: its settings, logs, buffer and
    /// counters are those of a disk that has never been used, no sector is marked uncorrectable, no page of the host's logs is written, it is Active, and it has a volatile write cache, and
    /// trimmed sectors that read as zeros, if the one that was pulled out had. It makes itself known as by `plug`. No command of the other one is left, so none reaches it. The store keeps its sectors as they are now.
    ///
    /// The journal of the disk that was pulled out is the answer, with all that `unplug` has not handed out, and its store is dropped. The journal of the new one
    /// begins with the number that comes next.
    ///
    /// # Errors
    /// `Occupied` if a disk is plugged in; `BadSize` if the store has no sectors or more than 2^32 - 1, `BadDepth` if the depth is not 1 to 32, `BadFirst` if the
    /// next number is over 2^63; else `OutOfMemory` if an allocation failed. Nothing has changed, and the store that was given is dropped.
    #[tactic(auto, using(crate::proofs::PluggingLemmas::plugs))]
    pub fn plug_other(
        &mut self,
        store: S,
        identity: &Identity,
        depth: u32,
    ) -> Result<Journal<A>, PlugFault>
        requires { length (S.starting store) ≡ length (S.image store) }
        ensures journal { IfOk result (λ j. j ≡ journal_in self.old.port) }
        ensures ok { OnOk result (self.new ≡ other_plugged self.old (S.grows store) (S.image store) identity.now depth) }
        ensures fault { AnswersOr result (plug_refusal self.old (length (S.image store) / 512) depth) (PlugFault.Disk ResumeFault.OutOfMemory) }
        ensures err { OnErr result (self.new ≡ self.old) }
    {
        if self.registers.is_present() {
            return Err(PlugFault::Occupied);
        }
        let port = self.next_port(store, depth)?;
        Ok(self.turn_to_other(port, identity, depth))
    }

    /// The port of another disk, whose journal goes on.
    #[tactic(auto, using(crate::proofs::PluggingLemmas::goes_on))]
    fn next_port(&self, store: S, depth: u32) -> Result<Port<A, S>, ResumeFault>
        requires { length (S.starting store) ≡ length (S.image store) }
        ensures some { OnOk result (1 ≤ depth) }
        ensures most { OnOk result (depth ≤ 32) }
        ensures port { IfOk result (λ p. p ≡ port_over (S.grows store) (next_number self.now.port) (S.image store) 32) }
        ensures goes_on { OnOk result (reset_refusal self.now.port ≡ None) }
        ensures fault { AnswersOr result (over_refusal (length (S.image store) / 512) depth (next_number self.now.port)) ResumeFault.OutOfMemory }
    {
        let first = self.port.journal().end();
        port_from(self.alloc, store, depth, first)
    }

    /// The same over the port of the other disk.
    fn turn_to_other(&mut self, port: Port<A, S>, identity: &Identity, depth: u32) -> Journal<A>
        requires some { 1 ≤ depth }
        requires most { depth ≤ 32 }
        requires goes_on { reset_refusal self.old.port ≡ None }
        requires port { port ≡ port_over port.grows (next_number self.old.port) port.image 32 }
        ensures journal { result ≡ journal_in self.old.port }
        ensures other { self.new ≡ other_plugged self.old port.grows port.image identity.now depth }
    {
        let device = self.other_device(identity);
        let journal = journal_of(&mut self.port);
        self.port = port;
        self.depth = depth;
        self.keep(device);
        self.uncorrectable = Uncorrectable::new();
        self.logs = HostLogs::new(self.alloc);
        self.wake();
        self.empty();
        self.registers.plug();
        journal
    }
}
