//! What is claimed of all requests' answers, held against the events in one pass, with an image that is changed in place.
ghost use Rattle.std.specs.Prelude.{◌≡◌, ◌↔◌, ◌+◌, ◌*◌, ◌/◌, ◌<◌, ◌≤◌, IfOk, IsSome, IsTrue, None, Some, [], false, length, replicate, slice_index_or, slice_set};
ghost use Rattle.std.specs.Option.{option_map};
ghost use Rattle.ncq_journal.specs.Claims.{AreJudged, Holds};
ghost use Rattle.ncq_journal.specs.History.{history_of};
ghost use Rattle.ncq_journal.specs.Image.{IsZeroedOver};
ghost use Rattle.ncq_journal.specs.Lawful.{IsLawful, end_of, IsWhole};
ghost use Rattle.ncq_journal.specs.Passing.{IsImageAfter, completed_over};
ghost use Rattle.ncq_journal.specs.Request.{request};
ghost use Rattle.ncq_journal.specs.Work.{work_of};

use crate::claim::Claim;
use crate::event::Event;
use crate::op::Op;
use crate::outcome::Outcome;
use crate::sector::{write_sectors, zero_sectors};
use std::alloc::{AllocError, Allocator};

/// Whether this is claimed of a request: that it ended so at an entry, with these bytes.
fn is_claimed(
    claims: &[Option<Claim>],
    request: usize,
    entry: u64,
    outcome: Outcome,
    bytes: &[u8],
) -> bool
    ensures { IsTrue result ↔ Holds (slice_index_or claims.now request None) (Some (record { entry = entry; outcome = outcome; bytes = bytes.now })) }
{
    match claims.get(request) {
        Some(Some(claim)) => {
            claim.entry == entry && claim.outcome == outcome && claim.bytes == bytes
        }
        _ => false,
    }
}

/// Completes a request's command at an entry, over the image as it is then, and answers whether the claim about it holds.
fn completed_over<A: Allocator, B: Allocator>(
    image: &mut Vec<u8, B>,
    entry: u64,
    op: &Op<A>,
    claims: &[Option<Claim>],
    request: usize,
) -> bool
    requires fits { 512 * end_of (work_of op.now) ≤ length image.old.items }
    requires whole { IsWhole (work_of op.now) }
    ensures claim { IsTrue result ↔ Holds (slice_index_or claims.now request None) (Some (completed_over image.old.items entry (work_of op.now))) }
    ensures image { IsImageAfter (work_of op.now) image.old.items image.new.items }
{
    match op {
        Op::Read { lba, sectors } => {
            let start = *lba as usize * 512;
            let end = start + *sectors as usize * 512;
            is_claimed(claims, request, entry, Outcome::Read, &image[start..end])
        }
        Op::Write { lba, bytes } => {
            write_sectors(image, *lba, bytes.as_slice());
            is_claimed(claims, request, entry, Outcome::Wrote, &[])
        }
    }
}

/// Makes so many sectors of the image as it is then, from an LBA on, zeros.
fn zeroed_over<B: Allocator>(image: &mut Vec<u8, B>, lba: u64, sectors: u32)
    requires { 512 * (lba + sectors) ≤ length image.old.items }
    ensures len { length image.new.items ≡ length image.old.items }
    ensures zeros { IsZeroedOver lba sectors image.old.items image.new.items }
{
    zero_sectors(image, lba, sectors);
}

/// The number of a tag's request, and its command, after these events.
fn asked<'e, A: Allocator>(
    requests: &[Option<u64>],
    past: &'e [Event<A>],
    tag: u8,
) -> (usize, &'e Op<A>)
    requires low { tag < length requests.now }
    requires some { IsSome (request (history_of past.now) tag) }
    requires number { slice_index_or requests.now tag None ≡ option_map (λ r. r.number) (request (history_of past.now) tag) }
    ensures { request (history_of past.now) tag ≡ Some (record { number = result.0; work = work_of result.1.now }) }
{
    let Some(request) = requests[tag as usize] else {
        unreachable!();
    };
    match &past[request as usize] {
        Event::Issue(_, op) => (request as usize, op),
        _ => unreachable!(),
    }
}

/// Notes whether the claim about a request holds.
fn note<B: Allocator>(holding: &mut Vec<bool, B>, request: usize, holds: bool)
    requires { request < length holding.old.items }
    ensures { holding.new.items ≡ slice_set holding.old.items request holds }
{
    holding[request] = holds;
}

/// As many tags without a request.
fn no_requests<B: Allocator>(alloc: B, count: usize) -> Result<Vec<Option<u64>, B>, AllocError>
    ensures { IfOk result (λ v. v.items ≡ replicate count None) }
{
    Vec::from_elem(alloc, None, count)
}

/// As many truth values, all false.
fn all_false<B: Allocator>(alloc: B, count: usize) -> Result<Vec<bool, B>, AllocError>
    ensures { IfOk result (λ v. v.items ≡ replicate count false) }
{
    Vec::from_elem(alloc, false, count)
}

/// Which claims hold after these events, the oldest first, over a starting image: at index n that about the request whose Issue is
/// entry n, `claims[n]`; where nothing is claimed, nothing holds. The events are those of a port with `depth` slots. It goes over
/// the events once, compares each answer where it is given, and takes a time that grows with the events and with the bytes that
/// they move. Only a refused growth fails.
pub fn claims_hold<A: Allocator, B: Allocator + Clone>(
    alloc: B,
    image: &[u8],
    events: &[Event<A>],
    depth: u32,
    claims: &[Option<Claim>],
) -> Result<Vec<bool, B>, AllocError>
    requires whole { length image.now ≡ 512 * (length image.now / 512) }
    requires lawful { IsLawful (length image.now / 512) depth (history_of events.now) }
    ensures { IfOk result (λ v. AreJudged image.now (history_of events.now) claims.now v.items) }
{
    let mut now = Vec::from_slice(alloc.clone()?, image)?;
    let mut requests = no_requests(alloc.clone()?, depth as usize)?;
    let mut holding = all_false(alloc, events.len())?;
    for (number, event) in events.iter().enumerate() {
        match event {
            Event::Issue(tag, _) => requests[*tag as usize] = Some(number as u64),
            Event::Complete(tag) => {
                let (request, op) = asked(&requests, &events[..number], *tag);
                let holds = completed_over(&mut now, number as u64, op, claims, request);
                note(&mut holding, request, holds);
            }
            Event::Fail { tag, error, lba } => {
                let (request, _) = asked(&requests, &events[..number], *tag);
                let outcome = Outcome::Failed {
                    error: *error,
                    lba: *lba,
                };
                let holds = is_claimed(claims, request, number as u64, outcome, &[]);
                note(&mut holding, request, holds);
            }
            Event::Zero { lba, sectors } => zeroed_over(&mut now, *lba, *sectors),
            _ => {}
        }
    }
    Ok(holding)
}
