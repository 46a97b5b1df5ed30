//! Laws: each function is empty, and its clause holds of all sets, orders and draws.
ghost use Rattle.device_choice.specs.Laws.{NamesOne, IsOneTurn, AreOfTheSet, AreDistinct, AreFew, AreSome, FailsAlone};

/// An order names one tag of a set, and so there is one turn: what `tag_of` and `turn_of` return is fixed.
pub fn there_is_one_choice()
    ensures tag { NamesOne }
    ensures turn { IsOneTurn }
{}

/// The tags of a turn are of the set, and none comes twice.
pub fn a_turn_has_tags_of_the_set_once()
    ensures set { AreOfTheSet }
    ensures once { AreDistinct }
{}

/// A turn has at most as many tags as it may have, and at least one if it may have one and there is one.
pub fn a_turn_has_some_tags()
    ensures most { AreFew }
    ensures some { AreSome }
{}

/// A tag that is to fail is a turn of its own.
pub fn a_tag_that_is_to_fail_is_alone()
    ensures { FailsAlone }
{}
