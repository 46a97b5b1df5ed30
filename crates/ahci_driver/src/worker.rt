//! One worker of a run, and why it ends.

ghost use Rattle.std.specs.Prelude.{◌≡◌, ◌≤◌, length, true, IfErr, IfOk, OnOk};
ghost use Rattle.ncq_journal.specs.Work.{work_of};
ghost use Rattle.word_bits.specs.Places.{has_place};
ghost use Rattle.ahci_driver.specs.{
  Finishing.{HasAnswered, HasReceived, HasWaited},
  Pumping.{HasGotOn},
  Received.{received_of},
  Sharing.{OfEach, turns},
  Stopping.{IsStopAmong, IsStopAt, stop_at, stop_waiting},
  Submitting.{buffer_for},
  Tickets.{answer_length},
};

use crate::chooser::Chooser;
use crate::crowd::Crowd;
use crate::driver::Driver;
use crate::fault::{PumpFault, SubmitFault};
use crate::gate::Gate;
use crate::pumped::Pumped;
use crate::receipt::Receipt;
use crate::ticket::Ticket;
use crate::unfinished::Unfinished;
use ahci_port::{IssueFault, Reply};
use ahci_table::BuildFault;
use ncq_journal::{Bytes, Op};
use std::alloc::{AllocError, Allocator};
use std::sync::Wait;
use std::sync::atomic::AtomicBool;
use std::sync::atomic::Ordering::SeqCst;
use std::thread;
use tag_board::TagSeat;

/// Why a worker ended before its last job.
#[derive(Clone, Copy, Debug, PartialEq, Eq, Drop)]
pub(crate) enum Stop {
    /// A growth was refused.
    OutOfMemory,
    /// The port refused this job in a way that the driver's own protocol excludes.
    Lost(usize),
    /// Another worker has raised the flag.
    FlagRaised,
}

impl From<AllocError> for Stop {
    ghost use Rattle.std.specs.Prelude.{◌≡◌};
    ghost use Rattle.ahci_driver.specs.declared.worker.Stop.TheVariants as the-fault;

    ghost from_gives = { λ _ fault. fault ≡ the-fault.OutOfMemory };

    fn from(_refused: AllocError) -> Stop {
        Stop::OutOfMemory
    }
}

/// One worker of a run: job i is that of worker i mod `workers`.
#[derive(Drop)]
pub(crate) struct Worker<'a, A: Allocator, C, G> {
    pub(crate) driver: &'a Driver<A>,
    pub(crate) jobs: &'a [Op<A>],
    pub(crate) gate: &'a G,
    /// Raised by the first worker that has to stop.
    pub(crate) flag: &'a AtomicBool,
    pub(crate) crowd: &'a Crowd,
    pub(crate) alloc: A,
    pub(crate) seat: TagSeat,
    pub(crate) chooser: C,
    pub(crate) first: usize,
    pub(crate) workers: usize,
    ghost own: { seat.board ≡ driver.now },
    ghost some: { 1 ≤ workers },
}

/// Why a worker stops at a job that was not submitted; none, where it is to be tried again.
fn stop_at(fault: SubmitFault, job: usize) -> Option<Stop>
    ensures { result ≡ stop_at fault job }
{
    match fault {
        SubmitFault::NoTag => None,
        SubmitFault::Issue(IssueFault::Halted | IssueFault::SlotOwned) => None,
        SubmitFault::Build(BuildFault::OutOfMemory) | SubmitFault::Issue(IssueFault::OutOfMemory) =>
            Some(Stop::OutOfMemory),
        SubmitFault::Build(_) | SubmitFault::Issue(_) => Some(Stop::Lost(job)),
    }
}

/// Why a worker stops at a job that has no answer; none, where it is to wait for it.
fn stop_waiting(unfinished: Unfinished, job: usize) -> Option<Stop>
    ensures { result ≡ stop_waiting unfinished job }
{
    match unfinished {
        Unfinished::OutOfMemory => Some(Stop::OutOfMemory),
        Unfinished::Stranger => Some(Stop::Lost(job)),
        Unfinished::NotYet => None,
    }
}

impl<'a, A: Allocator + Clone, C: Chooser, G: Gate> Worker<'a, A, C, G> {
    /// Does the worker's jobs in rising order, one at a time. Who stops raises the flag.
    pub(crate) fn work<R: Wait>(mut self, rt: &R) -> Result<Vec<Receipt<A>, A>, Stop>
    where
        C: Drop,
        ensures all { IfOk result (λ receipts. length receipts.items ≡ turns (length self.entry.jobs.now) self.entry.workers self.entry.first) }
        ensures passed { OnOk result (OfEach (length self.entry.jobs.now) self.entry.workers self.entry.first
            (λ job. G.began self.entry.gate.now job × G.ended self.entry.gate.now job)) }
        ensures stop { IfErr result (IsStopAmong (length self.entry.jobs.now)) }
    {
        let done = self.all(rt);
        self.crowd.retire();
        if done.is_err() {
            self.flag.store(true, SeqCst);
        }
        done
    }

    /// The receipts of the worker's jobs, in order.
    #[tactic(auto, using(crate::proofs::SharingLemmas::turns_more, crate::proofs::SharingLemmas::turns_past))]
    fn all<R: Wait>(&mut self, rt: &R) -> Result<Vec<Receipt<A>, A>, Stop>
        ensures all { IfOk result (λ receipts. length receipts.items ≡ turns (length self.old.jobs.now) self.old.workers self.old.first) }
        ensures passed { OnOk result (OfEach (length self.old.jobs.now) self.old.workers self.old.first
            (λ job. G.began self.old.gate.now job × G.ended self.old.gate.now job)) }
        ensures stop { IfErr result (IsStopAmong (length self.old.jobs.now)) }
    {
        let (jobs, workers) = (self.jobs, self.workers);
        let mut receipts = Vec::with_capacity(self.alloc.clone()?, jobs.len().div_ceil(workers))?;
        let mut job = self.first;
        while let Some(op) = jobs.get(job) {
            let receipt = self.one(rt, job, op)?;
            if let Err(failed) = receipts.push(receipt) {
                return Err(AllocError::from(failed).into());
            }
            job = job.saturating_add(workers);
        }
        Ok(receipts)
    }

    /// Does one job, from its submission to its answer.
    fn one<R: Wait>(&mut self, rt: &R, job: usize, op: &Op<A>) -> Result<Receipt<A>, Stop>
        ensures received { IfOk result (λ receipt. HasReceived C.gives self.old.chooser self.new.chooser (received_of receipt)) }
        ensures passed { OnOk result (G.began self.old.gate.now job × G.ended self.old.gate.now job) }
        ensures gate { self.new.gate.now ≡ self.old.gate.now }
        ensures length { IfOk result (λ receipt. length receipt.bytes.bytes ≡ answer_length receipt.reply.outcome (length (buffer_for (work_of op.now)))) }
        ensures stop { IfErr result (IsStopAt job) }
    {
        self.gate.before(job);
        let ticket = self.submitted(rt, job, op)?;
        self.crowd.enter();
        let (reply, bytes) = self.answered(rt, job, ticket)?;
        self.crowd.leave();
        self.gate.after(job);
        let bytes = Bytes::from_vec(bytes);
        Ok(Receipt { reply, bytes })
    }

    /// Submits a job until it is taken, with one pump between two tries.
    fn submitted<R: Wait>(&mut self, rt: &R, job: usize, op: &Op<A>) -> Result<Ticket<A>, Stop>
        ensures waited { OnOk result (HasWaited C.gives self.old.chooser self.new.chooser) }
        ensures held { IfOk result (λ t. has_place self.new.seat.tags t.tag ≡ true) }
        ensures gate { self.new.gate.now ≡ self.old.gate.now }
        ensures buffer { IfOk result (λ t. t.buffer ≡ buffer_for (work_of op.now)) }
        ensures stop { IfErr result (IsStopAt job) }
    {
        for _ in rt.forever() {
            if self.flag.load(SeqCst) {
                return Err(Stop::FlagRaised);
            }
            let alloc = self.alloc.clone()?;
            match self.driver.submit(rt, alloc, &mut self.seat, op) {
                Ok(ticket) => return Ok(ticket),
                Err(fault) => {
                    if let Some(stop) = stop_at(fault, job) {
                        return Err(stop);
                    }
                }
            }
            self.pump(rt)?;
        }
        unreachable!()
    }

    /// Collects a job's answer once it is there.
    fn answered<R: Wait>(
        &mut self,
        rt: &R,
        job: usize,
        mut ticket: Ticket<A>,
    ) -> Result<(Reply, Vec<u8, A>), Stop>
        requires { has_place self.old.seat.tags ticket.tag ≡ true }
        ensures answered { IfOk result (λ r. HasAnswered C.gives self.old.chooser self.new.chooser ticket.tag r.0.number r.0.entry r.0.outcome r.1.items) }
        ensures gate { self.new.gate.now ≡ self.old.gate.now }
        ensures number { IfOk result (λ r. r.0.number ≡ ticket.number) }
        ensures length { IfOk result (λ r. length r.1.items ≡ answer_length r.0.outcome (length ticket.buffer)) }
        ensures stop { IfErr result (IsStopAt job) }
    {
        for _ in rt.forever() {
            if self.flag.load(SeqCst) {
                return Err(Stop::FlagRaised);
            }
            match self
                .driver
                .finish(rt, &mut self.seat, &mut self.chooser, ticket)
            {
                Ok(finished) => return Ok(finished),
                Err((waiting, unfinished)) => {
                    if let Some(stop) = stop_waiting(unfinished, job) {
                        return Err(stop);
                    }
                    ticket = waiting;
                }
            }
        }
        unreachable!()
    }

    /// Lets the port get on. A worker that finds nothing to do lets others go first.
    #[tactic(auto, using(crate::proofs::PumpingLemmas::got_on))]
    fn pump<R: Wait>(&mut self, rt: &R) -> Result<(), Stop>
        ensures seat { self.new.seat ≡ self.old.seat }
        ensures gate { self.new.gate.now ≡ self.old.gate.now }
        ensures asked { OnOk result (HasGotOn C.gives self.old.chooser self.new.chooser) }
        ensures stop { IfErr result (λ stop. stop ≡ Stop.OutOfMemory) }
    {
        match self.driver.pump(rt, &mut self.chooser) {
            Ok(Pumped::Idle) => {
                thread::yield_now();
                Ok(())
            }
            Ok(_) => Ok(()),
            Err(PumpFault::OutOfMemory) => Err(Stop::OutOfMemory),
        }
    }
}
