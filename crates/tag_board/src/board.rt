//! The board of free tags, which threads share without a lock.

ghost use Rattle.std.specs.Prelude.{◌≡◌, ℕ, ◌<◌, ◌≤◌, true, false, ◌∷◌, IfOk, OnErr};
ghost use Rattle.word_bits.specs.Places.{bits, has_place, with_place, without_place, union};
ghost use Rattle.tag_board.specs.View.{missed};
ghost use Rattle.tag_board.specs.Partition.{Stands};
ghost use Rattle.tag_board.specs.Board.{view_of, newcomer, IsFreeBeside};

use crate::board_fault::BoardFault;
use crate::finding::Finding;
use crate::full::Full;
use crate::rule::{FreeOrHeld, Part};
use crate::seat::TagSeat;
use crate::steps::{fetch_and, fetch_or, load};
use crate::view::View;
use atomic_table::Table;
use std::alloc::{Allocator, Global};
use std::marker::Model;
use word_bits::{below, place, without_bit};

/// The free tags of a port, as the bits of one word that any number of threads share without a lock.
#[derive(Drop)]
pub struct TagBoard<A: Allocator = Global> {
    table: Table<(), View, u32, FreeOrHeld, A>,
    depth: u32,
}

impl<A: Allocator> Model for TagBoard<A> {
    ghost use Rattle.std.specs.Prelude.{◌≡◌, ◌≤◌};
    ghost use Rattle.tag_board.specs.Board.{Board};

    ghost Value = { Board };

    ghost view = { λ b. record { name = b.table.shared.table_id; depth = b.depth } };

    ghost invariant = { λ b. (b.table.shared.key ≡ b.depth) × (b.table.shared.table_id.words ≡ 1) × (b.table.shared.table_id.slots ≡ 0) × (1 ≤ b.depth) × (b.depth ≤ 32) };
}

impl<A: Allocator> TagBoard<A> {
    /// A board of `depth` free tags, 0 to `depth` - 1, and its first seat, which has none of them.
    pub fn new(alloc: A, depth: u32) -> Result<(TagBoard<A>, TagSeat), BoardFault>
        requires low { 1 ≤ depth }
        requires high { depth ≤ 32 }
        ensures depth { IfOk result (λ made. made.0.depth ≡ depth) }
        ensures seat { IfOk result (λ made. made.1 ≡ newcomer made.0) }
    {
        let (table, place) = Table::of_words(alloc, &[u64::from(below(depth))], &depth)?;
        Ok((TagBoard { table, depth }, TagSeat { held: 0, place }))
    }

    /// A seat of its own for another thread, with no tags. One step.
    pub fn split(&self, seat: &mut TagSeat) -> TagSeat
        requires { seat.old.board ≡ self.now }
        ensures old { seat.new ≡ seat.old }
        ensures new { result ≡ newcomer self.now }
    {
        let place = self.table.shared.split_seat::<Part>(&mut seat.place);
        TagSeat { held: 0, place }
    }

    /// Ends the other seat. The first then has the tags of both. One step.
    pub fn join(&self, seat: &mut TagSeat, other: TagSeat)
        requires seat { seat.old.board ≡ self.now }
        requires other { other.board ≡ self.now }
        ensures { seat.new ≡ record { board = self.now; tags = union seat.old.tags other.tags; log = seat.old.log } }
    {
        let TagSeat { held, place } = other;
        self.table.shared.join_seat::<Part>(&mut seat.place, place);
        seat.held |= held;
    }

    /// Tries one tag.
    fn try_tag(&self, seat: &mut TagSeat, tag: u8) -> bool
        requires seat { seat.old.board ≡ self.now }
        requires tag { tag < 32 }
        ensures board { seat.new.board ≡ seat.old.board }
        ensures log { seat.new.log ≡ Finding.Tried tag result ∷ seat.old.log }
        ensures taken { result ≡ false → seat.new.tags ≡ seat.old.tags }
        ensures gained { result ≡ true → seat.new.tags ≡ with_place seat.old.tags tag }
        ensures fresh { result ≡ true → has_place seat.old.tags tag ≡ false }
        ensures has { result ≡ true → has_place seat.new.tags tag ≡ true }
        ensures alone { result ≡ true → (word : ℕ) × Stands word (view_of seat.new) }
    {
        let had = fetch_and(&self.table.shared, &mut seat.place, tag);
        if had {
            seat.held |= place(tag);
        }
        had
    }

    /// Tries the tags from 0 upwards, one step each, and takes the first that was free when it was tried.
    #[tactic(auto, using(crate::proofs::BoardLemmas::missed_none, crate::proofs::BoardLemmas::missed_next))]
    pub fn claim(&self, seat: &mut TagSeat) -> Result<u8, Full>
        requires { seat.old.board ≡ self.now }
        ensures board { seat.new.board ≡ seat.old.board }

        ensures below { IfOk result (λ t. t < self.now.depth) }
        ensures low { IfOk result (λ t. t < 32) }
        ensures fresh { IfOk result (λ t. has_place seat.old.tags t ≡ false) }
        ensures gained { IfOk result (λ t. seat.new.tags ≡ with_place seat.old.tags t) }
        ensures has { IfOk result (λ t. has_place seat.new.tags t ≡ true) }
        ensures tried { IfOk result (λ t. seat.new.log ≡ Finding.Tried t true ∷ missed t seat.old.log) }
        ensures alone { IfOk result (λ _. (word : ℕ) × Stands word (view_of seat.new)) }

        ensures full { OnErr result (seat.new.tags ≡ seat.old.tags) }
        ensures all_tried { OnErr result (seat.new.log ≡ missed self.now.depth seat.old.log) }
    {
        for tag in 0..self.depth as u8 {
            if self.try_tag(seat, tag) {
                return Ok(tag);
            }
        }
        Err(Full)
    }

    /// Gives back a tag that the seat has. One step.
    pub fn give_back(&self, seat: &mut TagSeat, tag: u8)
        requires seat { seat.old.board ≡ self.now }
        requires held { has_place seat.old.tags tag ≡ true }
        ensures board { seat.new.board ≡ seat.old.board }
        ensures tags { seat.new.tags ≡ without_place seat.old.tags tag }
        ensures log { seat.new.log ≡ Finding.Gave tag ∷ seat.old.log }
        ensures free { (word : ℕ) × Stands word (view_of seat.new) × (has_place (bits word) tag ≡ true) }
    {
        fetch_or(&self.table.shared, &mut seat.place, tag);
        seat.held = without_bit(seat.held, tag);
    }

    /// The tags that are free at one moment, as the bits of a word. One step.
    pub fn free_now(&self, seat: &mut TagSeat) -> u32
        requires { seat.old.board ≡ self.now }
        ensures board { seat.new.board ≡ seat.old.board }
        ensures tags { seat.new.tags ≡ seat.old.tags }
        ensures log { seat.new.log ≡ Finding.Seen result ∷ seat.old.log }
        ensures word { IsFreeBeside seat.old result }
        ensures moment { Stands result (view_of seat.new) }
    {
        load(&self.table.shared, &mut seat.place)
    }

    /// Ends the board with one of its seats: the tags that are free at the end. This takes no step.
    pub fn close(self, seat: TagSeat) -> u32
        requires { seat.board ≡ self }
        ensures word { IsFreeBeside seat result }
        ensures moment { Stands result (view_of seat) }
    {
        let TagBoard { table, depth: _ } = self;
        let TagSeat { held: _, place } = seat;
        let closed = table.close_with(place);
        let word = closed.word(0);
        closed.free();
        word as u32
    }
}
