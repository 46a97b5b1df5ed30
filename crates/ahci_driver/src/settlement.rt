//! Whether a run is settled: one pass over the receipts, which notes what each claims to have been answered, one over the journal,
//! which holds each answer against the claim where it is given, and one over each again, for a claim that failed and for a command
//! without a receipt.

ghost use Rattle.std.specs.Prelude.{◌≡◌, ◌↔◌, ◌<◌, ◌≤◌, ◌-◌, map, length, false, Some, None, is_some, IsTrue, IfErr, IfOk, OnOk, replicate, slice_index_or, slice_set};
ghost use Rattle.ncq_journal.specs.{Claims.{AreJudged}, Work.{work_of}};
ghost use Rattle.ahci_driver.specs.{Received.{received_of}, Settled.{AnsweredBefore, AreClaimed, AreFit, Fits, IsFirstUnnamed, IsFirstWrong, IsFit, IsSettled, IsUnsettled, claim_of, issued_as}};

use crate::fault::SettleFault;
use crate::receipt::Receipt;
use ahci_port::Port;
use ncq_journal::{Claim, Event, Op, claims_hold};
use std::alloc::{AllocError, Allocator};

/// The claims of receipts, each at the place of its number, and of how many receipts they are.
#[derive(Drop)]
struct Claims<'r, C: Allocator> {
    places: Vec<Option<Claim<'r>>, C>,
    count: usize,
}

/// What the receipt claims of its request's answer, whose entry is a place, where entries are numbered from `first`.
fn claim_of<B: Allocator>(receipt: &Receipt<B>, first: u64) -> Claim<'_>
    requires { first ≤ receipt.now.reply.entry }
    ensures { result ≡ claim_of first (received_of receipt.now) }
{
    Claim {
        entry: receipt.reply.entry - first,
        outcome: receipt.reply.outcome,
        bytes: receipt.bytes.as_slice(),
    }
}

/// Whether two commands are the same.
fn is_same<A: Allocator, B: Allocator>(op: &Op<A>, other: &Op<B>) -> bool
    ensures { IsTrue result ↔ (work_of op.now ≡ work_of other.now) }
{
    match (op, other) {
        (Op::Read { lba, sectors }, Op::Read { lba: l, sectors: n }) => lba == l && sectors == n,
        (Op::Write { lba, bytes }, Op::Write { lba: l, bytes: b }) => {
            lba == l && bytes.as_slice() == b.as_slice()
        }
        _ => false,
    }
}

/// Whether the job's command was issued under this number.
fn is_issued<A: Allocator, B: Allocator>(port: &Port<A>, number: u64, job: &Op<B>) -> bool
    ensures { IsTrue result ↔ (issued_as port.now number ≡ Some (work_of job.now)) }
{
    match port.journal().get(number) {
        Some(Event::Issue(_, op)) => is_same(op, job),
        _ => false,
    }
}

/// Whether the job before of the same worker was answered before this number.
fn is_in_turn<B: Allocator>(
    receipts: &[Receipt<B>],
    workers: u32,
    index: usize,
    number: u64,
) -> bool
    ensures { IsTrue result ↔ AnsweredBefore (map received_of receipts.now) workers index number }
{
    if index < workers as usize {
        return true;
    }
    match receipts.get(index - workers as usize) {
        Some(before) => before.reply.entry < number,
        None => false,
    }
}

/// Whether the receipt may be that of this job, among all receipts, where what those before it claim is noted.
fn is_fit<A: Allocator, B: Allocator>(
    port: &Port<A>,
    claims: &[Option<Claim>],
    job: &Op<B>,
    receipts: &[Receipt<B>],
    workers: u32,
    index: usize,
    receipt: &Receipt<B>,
) -> bool
    requires index { index < length receipts.now }
    requires claims { AreClaimed (map received_of receipts.now) port.now.first (length port.now.past) index claims.now }
    ensures { IsTrue result ↔ IsFit port.now (map received_of receipts.now) workers index (work_of job.now) (received_of receipt.now) }
{
    let number = receipt.reply.number;
    if !is_issued(port, number, job) {
        return false;
    }
    let first = port.journal().first();
    if receipt.reply.entry < first {
        return false;
    }
    if claims[(number - first) as usize].is_some() {
        return false;
    }
    is_in_turn(receipts, workers, index, number)
}

/// Whether the receipt at an index may be that of its job.
fn fits<A: Allocator, B: Allocator>(
    port: &Port<A>,
    claims: &[Option<Claim>],
    jobs: &[Op<B>],
    receipts: &[Receipt<B>],
    workers: u32,
    index: usize,
) -> bool
    requires job { index < length jobs.now }
    requires receipt { index < length receipts.now }
    requires claims { AreClaimed (map received_of receipts.now) port.now.first (length port.now.past) index claims.now }
    ensures { IsTrue result ↔ Fits port.now (map work_of jobs.now) (map received_of receipts.now) workers index }
{
    let job = &jobs[index];
    let receipt = &receipts[index];
    is_fit(port, claims, job, receipts, workers, index, receipt)
}

/// As many places at which nothing is claimed.
fn no_claims<'r, C: Allocator>(
    alloc: C,
    count: usize,
) -> Result<Vec<Option<Claim<'r>>, C>, AllocError>
    ensures { IfOk result (λ v. v.items ≡ replicate count None) }
{
    let mut claims = Vec::with_capacity(alloc, count)?;
    for _place in 0..count {
        claims.push(None)?;
    }
    Ok(claims)
}

/// Notes what is claimed of a request.
fn note<'r, C: Allocator>(claims: &mut Vec<Option<Claim<'r>>, C>, place: u64, claim: Claim<'r>)
    requires { place < length claims.old.items }
    ensures { claims.new.items ≡ slice_set claims.old.items place (Some claim.entry) }
{
    claims[place as usize] = Some(claim);
}

/// What the receipts claim, up to the first that can't be that of its job.
fn claimed<'r, A: Allocator, B: Allocator, C: Allocator>(
    alloc: C,
    port: &Port<A>,
    jobs: &[Op<B>],
    receipts: &'r [Receipt<B>],
    workers: u32,
) -> Result<Claims<'r, C>, AllocError>
    requires { length receipts.now ≡ length jobs.now }
    ensures fit { IfOk result (λ c. AreFit port.now (map work_of jobs.now) (map received_of receipts.now) workers c.count c.places.items) }
    ensures end { IfOk result (λ c. c.count < length jobs.now → ¬ (Fits port.now (map work_of jobs.now) (map received_of receipts.now) workers c.count)) }
{
    let journal = port.journal();
    let first = journal.first();
    let mut places = no_claims(alloc, journal.entries().len())?;
    for index in 0..jobs.len() {
        if !fits(port, &places, jobs, receipts, workers, index) {
            return Ok(Claims {
                places,
                count: index,
            });
        }
        let receipt = &receipts[index];
        note(
            &mut places,
            receipt.reply.number - first,
            claim_of(receipt, first),
        );
    }
    Ok(Claims {
        places,
        count: jobs.len(),
    })
}

/// Which claims the journal bears out.
fn holding<A: Allocator, C: Allocator + Clone>(
    alloc: C,
    port: &Port<A>,
    claims: &[Option<Claim>],
) -> Result<Vec<bool, C>, AllocError>
    ensures { IfOk result (λ v. AreJudged port.now.starting port.now.past claims.now v.items) }
{
    port.shape();
    let depth = port.depth();
    let events = port.journal().entries();
    claims_hold(alloc, port.starting_image(), events, depth, claims)
}

/// Whether what the receipt claims is borne out.
fn is_held<B: Allocator>(receipt: &Receipt<B>, first: u64, holding: &[bool]) -> bool
    requires { first ≤ receipt.now.reply.number }
    ensures { result ≡ slice_index_or holding.now (receipt.now.reply.number - first) false }
{
    match holding.get((receipt.reply.number - first) as usize) {
        Some(holds) => *holds,
        None => false,
    }
}

/// The least receipt that is not that of its job, where what they claim was held against the journal.
fn first_wrong<A: Allocator, B: Allocator, C: Allocator>(
    port: &Port<A>,
    jobs: &[Op<B>],
    receipts: &[Receipt<B>],
    workers: u32,
    claims: &Claims<C>,
    holding: &[bool],
) -> Option<usize>
    requires counted { length receipts.now ≡ length jobs.now }
    requires fit { AreFit port.now (map work_of jobs.now) (map received_of receipts.now) workers claims.now.count claims.now.places.items }
    requires end { claims.now.count < length jobs.now → ¬ (Fits port.now (map work_of jobs.now) (map received_of receipts.now) workers claims.now.count) }
    requires held { AreJudged port.now.starting port.now.past claims.now.places.items holding.now }
    ensures { IsFirstWrong port.now (map work_of jobs.now) (map received_of receipts.now) workers result }
{
    let first = port.journal().first();
    for index in 0..claims.count {
        if !is_held(&receipts[index], first, holding) {
            return Some(index);
        }
    }
    if claims.count < jobs.len() {
        return Some(claims.count);
    }
    None
}

/// The least entry that issues a command of which there is no receipt.
fn unclaimed<A: Allocator, B: Allocator>(
    port: &Port<A>,
    receipts: &[Receipt<B>],
    claims: &[Option<Claim>],
) -> Option<u64>
    requires { AreClaimed (map received_of receipts.now) port.now.first (length port.now.past) (length receipts.now) claims.now }
    ensures { IsFirstUnnamed port.now (map received_of receipts.now) result }
{
    let journal = port.journal();
    let first = journal.first();
    for number in first..journal.end() {
        if let Some(Event::Issue(..)) = journal.get(number) {
            if claims[(number - first) as usize].is_none() {
                return Some(number);
            }
        }
    }
    None
}

/// Whether the run with these jobs and receipts, by so many workers, is settled against the port's journal: each job
/// was issued once, its receipt is the journal's answer, and it was answered before its worker's next job was issued;
/// and nothing else was issued. It goes twice over the journal and twice over the receipts, and copies no byte of them.
///
/// # Errors
/// The first case of `SettleFault` that holds.
pub fn settle<A: Allocator, B: Allocator, C: Allocator + Clone>(
    alloc: C,
    port: &Port<A>,
    jobs: &[Op<B>],
    receipts: &[Receipt<B>],
    workers: u32,
) -> Result<(), SettleFault>
    requires { 1 ≤ workers }
    ensures ok { OnOk result (IsSettled port.now (map work_of jobs.now) (map received_of receipts.now) workers) }
    ensures fault { IfErr result (IsUnsettled port.now (map work_of jobs.now) (map received_of receipts.now) workers) }
{
    if receipts.len() != jobs.len() {
        return Err(SettleFault::Count);
    }
    let claims = claimed(alloc.clone()?, port, jobs, receipts, workers)?;
    let holding = holding(alloc, port, &claims.places)?;
    if let Some(index) = first_wrong(port, jobs, receipts, workers, &claims, &holding) {
        return Err(SettleFault::Wrong(index));
    }
    match unclaimed(port, receipts, &claims.places) {
        Some(number) => Err(SettleFault::Extra(number)),
        None => Ok(()),
    }
}
