//! Laws: each function is empty, and its clause holds of all pictures.
ghost use Rattle.ahci_draw.specs.Laws.{AreAtTheirPlaces, AreClosed, AreClosedBefore, HaveCharactersAlone, HoldEachOnce, PlacesHoldEachOnce};

/// The picture of a script that was replayed to its end is closed: each element is closed by its name, attributes are in quotes,
/// and nothing of an entry is read as a tag.
pub fn a_picture_is_closed()
    ensures { AreClosed }
{}

/// So is the picture of what was done before a fault.
pub fn a_picture_before_a_fault_is_closed()
    ensures { AreClosedBefore }
{}

/// A text that is closed has printable characters of ASCII and line feeds alone.
pub fn a_closed_text_has_characters_alone()
    ensures { HaveCharactersAlone }
{}

/// The rows of a picture hold each entry that is drawn once, in their order: as many as its heading counts.
pub fn rows_hold_each_entry_once()
    ensures { HoldEachOnce }
{}

/// The entry of an index is at place index * 1200 / count of an overview.
pub fn entries_are_at_their_places()
    ensures { AreAtTheirPlaces }
{}

/// The places of an overview hold each entry once, in their order.
pub fn places_hold_each_entry_once()
    ensures { PlacesHoldEachOnce }
{}
