//! A whole run: its workers, their ends, and the check of what they bring back.

ghost use Rattle.std.specs.Prelude.{◌≡◌, ◌≢◌, ◌↔◌, ◌⊎◌, ◌<◌, ◌≤◌, ℕ, map, length, vec_len, Err, IfOk, IfErr, IfSome, IsSome, IsTrue, MatchOption, None, OnOk, Some};
ghost use Rattle.std.specs.List.{list_any};
ghost use Rattle.ncq_journal.specs.Work.{work_of};
ghost use Rattle.ahci_driver.specs.{
  Crew.{AreCrew},
  Gathering.{HaveEnded, OfAllDone, receipts_in},
  Received.{received_of},
  Running.{HasRun, IsFirstBad, IsGivenUp, IsLate, IsRefused, IsReturned, IsStill, MayRun, NamesJob, is_lacking, least_lost, lost_by, unsettled, why_stopped},
  Settled.{IsSettled},
  Sharing.{in_turn, of_job},
  Stopping.{AreAmong},
};

use crate::chooser::Chooser;
use crate::crowd::Crowd;
use crate::driver::Driver;
use crate::fault::SettleFault;
use crate::gate::Gate;
use crate::gather::{End, Ends, in_order};
use crate::left::is_left;
use crate::receipt::Receipt;
use crate::run_fault::RunFault;
use crate::settlement::settle;
use crate::worker::{Stop, Worker};
use ahci_port::Port;
use ncq_journal::{Op, is_proper};
use std::alloc::{AllocError, Allocator, Global};
use std::sync::Wait;
use std::sync::atomic::AtomicBool;
use std::thread;
use std::thread::Threads;
use tag_board::{TagBoard, TagSeat};

/// A run that is settled: the port as the workers left it, and the receipt of each job, in the order of the jobs.
#[derive(Drop)]
pub struct RunEnd<A: Allocator = Global> {
    pub port: Port<A>,
    pub replies: Vec<Receipt<A>, A>,
}

/// The least job whose command can't be issued.
fn bad_job<A: Allocator>(jobs: &[Op<A>]) -> Option<usize>
    ensures { IsFirstBad (map work_of jobs.now) result }
{
    for (index, job) in jobs.iter().enumerate() {
        if !is_proper(job) {
            return Some(index);
        }
    }
    None
}

/// Why a run isn't begun.
fn early_fault<A: Allocator>(port: &Port<A>, jobs: &[Op<A>]) -> Option<RunFault>
    ensures { MatchOption result (MayRun port.now (map work_of jobs.now)) (IsGivenUp port.now (map work_of jobs.now)) }
{
    if !port.journal().is_empty() {
        return Some(RunFault::NotFresh);
    }
    match bad_job(jobs) {
        Some(job) => Some(RunFault::BadJob(job)),
        None => None,
    }
}

/// The workers of a run, each with a seat and a chooser of its own.
fn crew<'a, A: Allocator + Clone, C: Chooser + Drop, G: Gate>(
    driver: &'a Driver<A>,
    mut seat: TagSeat,
    jobs: &'a [Op<A>],
    gate: &'a G,
    flag: &'a AtomicBool,
    crowd: &'a Crowd,
    alloc: &A,
    choosers: Vec<C, A>,
) -> Result<Vec<Worker<'a, A, C, G>, A>, AllocError>
    requires seat { seat.board ≡ driver.now }
    requires some { 1 ≤ vec_len choosers }
    ensures { IfOk result (λ crew. AreCrew driver.now jobs.now gate.now choosers.items crew.items) }
{
    let workers = choosers.len();
    let mut crew = Vec::new(alloc.clone()?);
    for (first, chooser) in choosers.into_iter().enumerate() {
        let own = driver.board().split(&mut seat);
        crew.push(Worker {
            driver,
            jobs,
            gate,
            flag,
            crowd,
            alloc: alloc.clone()?,
            seat: own,
            chooser,
            first,
            workers,
        })?;
    }
    Ok(crew)
}

/// Whether a worker has stopped for want of memory.
fn is_lacking<A: Allocator>(end: &End<A>) -> bool
    ensures { result ≡ is_lacking end.now }
{
    matches!(end, Err(Stop::OutOfMemory))
}

/// The job that a worker has lost.
fn lost_by<A: Allocator>(end: &End<A>) -> Option<usize>
    ensures { result ≡ lost_by end.now }
{
    match end {
        Err(Stop::Lost(job)) => Some(*job),
        _ => None,
    }
}

/// Whether some worker has.
fn is_any_lacking<A: Allocator>(ends: &[End<A>]) -> bool
    ensures { result ≡ list_any is_lacking ends.now }
{
    ends.iter().any(|end| is_lacking(end))
}

/// The least job that a worker has lost.
fn least_lost<A: Allocator>(ends: &[End<A>]) -> Option<usize>
    ensures { result ≡ least_lost ends.now }
{
    ends.iter().filter_map(|end| lost_by(end)).min()
}

/// Why the run is given up, where some worker has stopped: want of memory before a lost job, and the least of these.
fn why_stopped<A: Allocator>(ends: &[End<A>]) -> Option<RunFault>
    ensures why { result ≡ why_stopped ends.now }
    ensures late { IfSome result IsLate }
{
    if is_any_lacking(ends) {
        return Some(RunFault::OutOfMemory);
    }
    match least_lost(ends) {
        Some(job) => Some(RunFault::Lost(job)),
        None => None,
    }
}

/// Puts the port behind a driver, lets the workers do the jobs, and takes it out again.
fn worked<R, G, C, A>(
    rt: &R,
    alloc: &A,
    port: Port<A>,
    jobs: &[Op<A>],
    choosers: Vec<C, A>,
    gate: &G,
) -> Result<(Port<A>, Ends<A>), RunFault>
where
    R: Threads + Wait + Sync,
    G: Gate,
    C: Chooser + Send + Drop,
    A: Allocator + Clone + Send + Sync,
    requires { 1 ≤ vec_len choosers }
    ensures among { IfOk result (λ done. AreAmong (length (map work_of jobs.now)) done.1.items) }
    ensures each { IfOk result (λ done. HaveEnded (length jobs.now) (vec_len choosers) done.1.items) }
    ensures passed { IfOk result (λ done. OfAllDone (length jobs.now) (vec_len choosers) (λ job. G.began gate.now job × G.ended gate.now job) done.1.items) }
    ensures fault { IfErr result (λ fault. fault ≡ RunFault.OutOfMemory) }
{
    port.shape();
    let depth = port.depth();
    let (board, seat) = TagBoard::new(alloc.clone()?, depth)?;
    let driver = Driver::new(port, board);
    let flag = AtomicBool::new(false);
    let crowd = Crowd::new(choosers.len(), depth as usize);
    let crew = crew(&driver, seat, jobs, gate, &flag, &crowd, alloc, choosers)?;
    let ends = thread::map_vec(rt, crew, &|worker: Worker<A, C, G>| worker.work(rt))?;
    let (port, _board) = driver.into_parts();
    Ok((port, ends))
}

/// Why a run is given up that isn't settled: a lack of memory is reported as itself.
fn unsettled(fault: SettleFault) -> RunFault
    ensures why { result ≡ unsettled fault }
    ensures late { IsLate result }
{
    match fault {
        SettleFault::OutOfMemory => RunFault::OutOfMemory,
        SettleFault::Count | SettleFault::Wrong(_) | SettleFault::Extra(_) => RunFault::Unsettled(
            fault,
        ),
    }
}

/// The end of a run, by what `settle` has said of its receipts.
fn end_of<A: Allocator>(
    settled: Result<(), SettleFault>,
    port: Port<A>,
    replies: Vec<Receipt<A>, A>,
) -> Result<RunEnd<A>, RunFault>
    ensures ok { OnOk settled (result ≡ Ok (record { port = port; replies = replies })) }
    ensures fault { IfErr settled (λ f. result ≡ Err (unsettled f)) }
{
    match settled {
        Ok(()) => Ok(RunEnd { port, replies }),
        Err(fault) => Err(unsettled(fault)),
    }
}

/// What a run ends with whose workers have brought these receipts.
fn checked<A: Allocator + Clone>(
    alloc: A,
    port: Port<A>,
    handed: &Handed<A>,
    jobs: &[Op<A>],
    replies: Vec<Receipt<A>, A>,
    workers: u32,
) -> Result<RunEnd<A>, RunFault>
    requires { 1 ≤ workers }
    ensures still { IfOk result (λ end. IsReturned end.port handed.now) }
    ensures replies { IfOk result (λ end. end.replies ≡ replies) }
    ensures settled { IfOk result (λ end. IsSettled end.port (map work_of jobs.now) (map received_of end.replies.items) workers) }
    ensures foreign { ¬ (IsReturned port handed.now) → result ≡ Err RunFault.Foreign }
    ensures why { IfErr result (IsRefused port handed.now (map work_of jobs.now) (map received_of replies.items) workers) }
{
    if !is_returned(&port, handed) {
        return Err(RunFault::Foreign);
    }
    let settled = settle(alloc, &port, jobs, &replies, workers);
    end_of(settled, port, replies)
}

/// What a run ends with: the first reason to give it up, or the receipts, once they are settled.
fn ended<A: Allocator + Clone>(
    alloc: A,
    port: Port<A>,
    handed: &Handed<A>,
    ends: Ends<A>,
    jobs: &[Op<A>],
    workers: u32,
) -> Result<RunEnd<A>, RunFault>
    requires some { 1 ≤ workers }
    requires among { AreAmong (length (map work_of jobs.now)) ends.items }
    requires each { HaveEnded (length jobs.now) workers ends.items }
    ensures still { IfOk result (λ end. IsReturned end.port handed.now) }
    ensures replies { IfOk result (λ end. end.replies.items ≡ in_turn (map receipts_in ends.items) workers (length jobs.now)) }
    ensures settled { IfOk result (λ end. IsSettled end.port (map work_of jobs.now) (map received_of end.replies.items) workers) }
    ensures whole { OnOk result ((job : ℕ) → job < length jobs.now → IsSome (of_job (map receipts_in ends.items) workers job)) }
    ensures late { IfErr result IsLate }
    ensures names { IfErr result (NamesJob (length (map work_of jobs.now))) }
    ensures stopped { (fault : RunFault) → why_stopped ends.items ≡ Some fault → result ≡ Err fault }
    ensures foreign { why_stopped ends.items ≡ None → ¬ (IsReturned port handed.now) → (result ≡ Err RunFault.Foreign) ⊎ (result ≡ Err RunFault.OutOfMemory) }
    ensures why { why_stopped ends.items ≡ None → IfErr result (λ f. f ≢ RunFault.OutOfMemory
        → IsRefused port handed.now (map work_of jobs.now) (map received_of (in_turn (map receipts_in ends.items) workers (length jobs.now))) workers f) }
{
    if let Some(fault) = why_stopped(&ends) {
        return Err(fault);
    }
    let replies = in_order(alloc.clone()?, ends, jobs.len(), workers as usize)?;
    checked(alloc, port, handed, jobs, replies, workers)
}

/// What a run keeps of the port that it was handed.
#[derive(Drop)]
struct Handed<A: Allocator> {
    starting: Vec<u8, A>,
    depth: u32,
    first: u64,
}

/// Whether the port has the starting image, the depth and the first number of the one that was handed in.
fn is_still<A: Allocator>(port: &Port<A>, handed: &Handed<A>) -> bool
    ensures { IsTrue result ↔ IsStill port.now handed.now }
{
    if port.depth() != handed.depth {
        return false;
    }
    if port.journal().first() != handed.first {
        return false;
    }
    port.starting_image() == handed.starting.as_slice()
}

/// Whether the port is still the one that was handed in, and is as workers leave it.
fn is_returned<A: Allocator>(port: &Port<A>, handed: &Handed<A>) -> bool
    ensures { IsTrue result ↔ IsReturned port.now handed.now }
{
    is_still(port, handed) && is_left(port)
}

/// A copy of what a run keeps.
fn kept<A: Allocator + Clone>(alloc: &A, port: &Port<A>) -> Result<Handed<A>, AllocError>
    ensures { IfOk result (IsStill port.now) }
{
    let starting = Vec::from_slice(alloc.clone()?, port.starting_image())?;
    let depth = port.depth();
    let first = port.journal().first();
    Ok(Handed {
        starting,
        depth,
        first,
    })
}

/// Does all jobs on a port whose journal is empty, a new one or one that was trimmed: job i by worker i mod `workers`, each
/// worker in rising order with one request at a time, on threads of their own where they can be made. Where it answers Ok,
/// the port is over the same starting image with as many slots, its journal begins with the same number and has only entries of
/// the workers' calls, every slot is free, the run is settled, and each job has passed the gate before it was submitted and after
/// it was answered, whatever the threads and the choosers did.
///
/// # Errors
/// The first case of `RunFault` that holds; the port is given up.
pub fn run<R, G, C, A>(
    rt: &R,
    alloc: A,
    port: Port<A>,
    jobs: &[Op<A>],
    workers: u32,
    choosers: Vec<C, A>,
    gate: &G,
) -> Result<RunEnd<A>, RunFault>
where
    R: Threads + Wait + Sync,
    G: Gate,
    C: Chooser + Send + Drop,
    A: Allocator + Clone + Send + Sync,
    requires some { 1 ≤ workers }
    requires most { workers ≤ 32 }
    requires choosers { vec_len choosers ≡ workers }
    ensures ok { IfOk result (λ end. HasRun port end.port (map work_of jobs.now) (map received_of end.replies.items) workers) }
    ensures passed { OnOk result ((job : ℕ) → job < length jobs.now → G.began gate.now job × G.ended gate.now job) }
    ensures fault { IfErr result (IsGivenUp port (map work_of jobs.now)) }
{
    if let Some(fault) = early_fault(&port, jobs) {
        return Err(fault);
    }
    let handed = kept(&alloc, &port)?;
    let (port, ends) = worked(rt, &alloc, port, jobs, choosers, gate)?;
    ended(alloc, port, &handed, ends, jobs, workers)
}
