//! Threads over one board. A second table of owners, apart from the board, notes where two hands have one tag.
ghost use Rattle.std.specs.Prelude.{◌≡◌, ◌≤◌};
ghost use denote.Param.Send.{IsSync};

use std::alloc::{AllocError, Global};
use std::process::Abort;
use std::sync::atomic::AtomicU64;
use std::sync::atomic::Ordering::SeqCst;
use std::test::Fail;
use std::thread;
use std::thread::{Threads, join};
use tag_board::{Full, TagBoard, TagSeat};

/// Who has which tag, counted beside the board.
#[derive(Drop)]
struct Owners {
    tags: Vec<AtomicU64>,
    clashes: AtomicU64,
    claims: AtomicU64,
}

impl Owners {
    fn new(alloc: Global) -> Result<Self, AllocError> {
        let mut tags = Vec::new(alloc);
        for _ in 0..32u8 {
            tags.push(AtomicU64::new(0))?;
        }
        let clashes = AtomicU64::new(0);
        let claims = AtomicU64::new(0);
        Ok(Owners {
            tags,
            clashes,
            claims,
        })
    }

    fn take(&self, tag: u8) {
        self.claims.fetch_add(1, SeqCst);
        match self.tags.get(usize::from(tag)) {
            Some(owners) if owners.fetch_add(1, SeqCst) == 0 => {}
            _ => {
                self.clashes.fetch_add(1, SeqCst);
            }
        }
    }

    fn leave(&self, tag: u8) {
        if let Some(owners) = self.tags.get(usize::from(tag)) {
            owners.fetch_sub(1, SeqCst);
        }
    }
}

/// What each thread does: so many claims, within so many tries.
#[derive(Clone, Copy)]
struct Work {
    claims: u32,
    tries: u32,
}

/// Claims a tag and gives it back, over and over. A thread that meets `Full` lets others go on and tries again.
fn works(board: &TagBoard, mut seat: TagSeat, owners: &Owners, work: Work) -> TagSeat
    requires { seat.board ≡ board.now }
    ensures { result.board ≡ board.now }
{
    let mut left = work.claims;
    for _ in 0..work.tries {
        if left == 0 {
            break;
        }
        match board.claim(&mut seat) {
            Ok(tag) => {
                owners.take(tag);
                owners.leave(tag);
                board.give_back(&mut seat, tag);
                left -= 1;
            }
            Err(Full) => thread::yield_now(),
        }
    }
    seat
}

/// So many threads at work, one at least, each with a seat of its own.
fn crew<R: Threads + Sync>(
    rt: &R,
    board: &TagBoard,
    mut seat: TagSeat,
    owners: &Owners,
    work: Work,
    threads: u32,
) -> TagSeat
    requires { seat.board ≡ board.now }
    ensures { result.board ≡ board.now }
{
    if threads <= 1 {
        return works(board, seat, owners, work);
    }
    let (few, rest) = (threads / 2, threads - threads / 2);
    let other = board.split(&mut seat);
    let (mut seat, other) = join(
        rt,
        move || -> TagSeat
            requires { IsSync R.row × (seat.board ≡ board.now) }
            ensures { result.board ≡ board.entry.now }
        { crew(rt, board, seat, owners, work, few) },
        move || -> TagSeat
            requires { IsSync R.row × (other.board ≡ board.now) }
            ensures { result.board ≡ board.entry.now }
        { crew(rt, board, other, owners, work, rest) },
    );
    board.join(&mut seat, other);
    seat
}

fn equal(rt: &impl Abort, found: u64, wanted: u64) {
    assert!(rt; found == wanted, "{found}, not {wanted}");
}

/// Has so many threads claim tags of a board of so many, each a thousand times, with so many tries. No tag is two threads' at once,
/// and at the end the seat has none. The answer is how often one was claimed, and the tags that are free at the end.
fn claimed<R: Threads + Sync + Abort>(
    rt: &R,
    alloc: Global,
    depth: u32,
    threads: u32,
    tries: u32,
) -> Result<(u64, u32), Fail>
    requires low { 1 ≤ depth }
    requires high { depth ≤ 32 }
{
    let owners = Owners::new(alloc)?;
    let work = Work {
        claims: 1_000,
        tries,
    };
    let (board, seat) = TagBoard::new(alloc, depth)?;
    let seat = crew(rt, &board, seat, &owners, work, threads);
    equal(rt, owners.clashes.load(SeqCst), 0);
    equal(rt, u64::from(seat.held()), 0);
    Ok((owners.claims.load(SeqCst), board.close(seat)))
}

#[test]
fn three_threads_claim_a_thousand_times_each(rt: HostRuntime) -> Result<(), Fail> {
    let (claims, free) = claimed(&rt, rt.alloc(), 3, 3, 1_001_000)?;
    equal(&rt, claims, 3_000);
    equal(&rt, u64::from(free), 7);
    Ok(())
}

#[test]
fn eight_threads_over_five_tags_never_share_one(rt: HostRuntime) -> Result<(), Fail> {
    let (claims, free) = claimed(&rt, rt.alloc(), 5, 8, 1_000)?;
    assert!(rt; claims > 0);
    equal(&rt, u64::from(free), 31);
    Ok(())
}
