//! The rule of the board's word, and the kinds of step that it knows. There are no others.

ghost use Rattle.tag_board.specs.Partition.{IsKept};
ghost use Rattle.tag_board.specs.Steps.{Loads, Tries, Gives};
ghost use Rattle.tag_board.specs.View.{blank, joined, spent};

use crate::view::View;
use atomic_table::{Join, Play, Split, TableRule};

/// Each tag below the depth is free in the word or in exactly one view.
pub struct FreeOrHeld;

impl<S> TableRule<S, View, u32> for FreeOrHeld {
    ghost holds = { IsKept };

    ghost first = { blank };
}

// `free_now`: the word is loaded.
pub(crate) struct Load;

impl<S> Play<S, View> for Load {
    ghost then = { Loads };
}

// `claim`, once for each tag that it tries: the word loses the tag.
pub(crate) struct Try;

impl<S> Play<S, View> for Try {
    ghost then = { Tries };
}

// `give_back`: the word gains the tag.
pub(crate) struct Give;

impl<S> Play<S, View> for Give {
    ghost then = { Gives };
}

// `split` and `join`: the word is loaded and stays.
pub(crate) struct Part;

impl Split<View> for Part {
    ghost left = { λ v. v };

    ghost right = { λ v. blank v.depth };
}

impl Join<View> for Part {
    ghost both = { joined };

    ghost spent = { spent };
}
