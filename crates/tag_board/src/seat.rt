ghost use Rattle.std.specs.Prelude.{◌≡◌};

use crate::steps::Place;
use std::marker::Model;

/// The right to step on a board, with the tags that were claimed with it. Each thread has its own, and it may go to
/// another thread. The tags of a seat that is dropped stay taken.
#[derive(Drop)]
pub struct TagSeat {
    pub(crate) held: u32,
    pub(crate) place: Place,
}

impl Model for TagSeat {
    ghost use Rattle.std.specs.Prelude.{◌≡◌, []};
    ghost use Rattle.word_bits.specs.Places.{bits};
    ghost use Rattle.tag_board.specs.Board.{Seated};

    ghost Value = { Seated };

    ghost view = { λ s. record { board = record { name = s.place.table_id; depth = s.place.me.0.depth }; tags = s.place.me.0.tags; log = s.place.me.0.log } };

    ghost invariant = { λ s. (bits s.held ≡ s.place.me.0.tags) × (s.place.me.1 ≡ []) };
}

impl TagSeat {
    ghost use Rattle.word_bits.specs.Places.{bits};

    /// The seat's tags, as the bits of a word. This takes no step.
    pub fn held(&self) -> u32
        ensures { bits result ≡ self.now.tags }
    {
        self.held
    }
}
