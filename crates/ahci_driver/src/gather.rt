//! What the workers of a run bring back, in the order of the jobs.

ghost use Rattle.std.specs.Prelude.{◌≡◌, ◌≤◌, ◌++◌, IfOk, OnOk, drop, length, map, slice_get};
ghost use Rattle.std.specs.Option.{option_to_list};
ghost use Rattle.ahci_driver.specs.{Gathering.{AllWell, HaveEnded, left_in, receipts_in}, Sharing.{in_turn}};

use crate::receipt::Receipt;
use crate::worker::Stop;
use std::alloc::{AllocError, Allocator};
use std::vec::IntoIter;

/// The end of a worker.
pub(crate) type End<A> = Result<Vec<Receipt<A>, A>, Stop>;

/// The ends of the workers, in their order.
pub(crate) type Ends<A> = Vec<End<A>, A>;

/// What is left of a worker's receipts, the next one first; nothing where it has stopped.
type Pile<A> = Option<IntoIter<Receipt<A>, A>>;

/// A worker's receipts.
fn pile_of<A: Allocator>(end: End<A>) -> Pile<A>
    ensures { left_in result ≡ receipts_in end }
{
    match end {
        Ok(receipts) => Some(receipts.into_iter()),
        Err(_) => None,
    }
}

/// The receipts of each worker.
fn piles_of<A: Allocator + Clone>(alloc: A, ends: Ends<A>) -> Result<Vec<Pile<A>, A>, AllocError>
    ensures { IfOk result (λ piles. map left_in piles.items ≡ map receipts_in ends.items) }
{
    let mut piles = Vec::with_capacity(alloc, ends.len())?;
    for brought in ends {
        piles.push(pile_of(brought))?;
    }
    Ok(piles)
}

/// The next of a worker's receipts.
fn next_of<A: Allocator>(pile: &mut Pile<A>) -> Option<Receipt<A>>
    ensures next { result ≡ slice_get (left_in pile.old) 0 }
    ensures rest { left_in pile.new ≡ drop 1 (left_in pile.old) }
{
    match pile {
        Some(left) => left.next(),
        None => None,
    }
}

/// Adds a receipt, if there is one.
fn add<A: Allocator>(
    replies: &mut Vec<Receipt<A>, A>,
    next: Option<Receipt<A>>,
) -> Result<(), AllocError>
    ensures { OnOk result (replies.new.items ≡ replies.old.items ++ option_to_list next) }
{
    if let Some(receipt) = next {
        replies.push(receipt)?;
    }
    Ok(())
}

/// The receipts of all jobs in the order of the jobs: that of job i is the next of worker i mod `workers`.
pub(crate) fn in_order<A: Allocator + Clone>(
    alloc: A,
    ends: Ends<A>,
    jobs: usize,
    workers: usize,
) -> Result<Vec<Receipt<A>, A>, AllocError>
    requires some { 1 ≤ workers }
    requires each { length ends.items ≡ workers }
    ensures order { IfOk result (λ replies. replies.items ≡ in_turn (map receipts_in ends.items) workers jobs) }
    ensures whole { HaveEnded jobs workers ends.items → AllWell ends.items → IfOk result (λ replies. length replies.items ≡ jobs) }
{
    let mut piles = piles_of(alloc.clone()?, ends)?;
    let mut replies = Vec::with_capacity(alloc, jobs)?;
    for job in 0..jobs {
        let next = next_of(&mut piles[job % workers]);
        add(&mut replies, next)?;
    }
    Ok(replies)
}
