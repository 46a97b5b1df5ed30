//! Laws: each function is empty, and its clause holds of every board. They say what the partition means, and what a
//! seat may conclude where a call's clause says that a word and its view are in it.
ghost use Rattle.tag_board.specs.Laws.{FreeOrHeldOnce, NoneFromDepth, HeldAlone, FreeInNoView, EachTried, TriedOnce, TakenIsHeld};

/// Between any two steps a tag below the depth is free or in exactly one view, and not in both. No other tag is in the
/// word or in a view.
pub fn a_tag_is_free_or_in_exactly_one_view()
    ensures below { FreeOrHeldOnce }
    ensures past { NoneFromDepth }
{}

/// After `claim` answers a tag, neither the word nor any other view has it.
pub fn a_claimed_tag_is_in_no_other_view()
    ensures { HeldAlone }
{}

/// After `give_back` the tag is in the word, and in no view.
pub fn a_returned_tag_is_in_no_view()
    ensures { FreeInNoView }
{}

/// After `Full` the log has one entry more for each tag below the depth, in order. At the step of such an entry one
/// view had the tag; nothing is said of any one moment for all tags.
pub fn each_tag_was_found_taken_at_a_step_of_its_own()
    ensures entries { EachTried }
    ensures no_more { TriedOnce }
    ensures held { TakenIsHeld }
{}
