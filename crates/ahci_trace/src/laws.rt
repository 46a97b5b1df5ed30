//! Laws: each function is empty, and its clause holds of all scripts.
ghost use Rattle.ahci_trace.specs.Area.{TellsReceived};
ghost use Rattle.ahci_trace.specs.Lines.{HasObjects, KeepsAnswers};
ghost use Rattle.ahci_trace.specs.Moves.{TellsWrites};

/// The lines of a trace that aren't indented are the answers of the script alone: what any lines of a script add to a trace is
/// what they add without it, and after each answer lines that begin with two spaces.
pub fn a_trace_without_its_notes_is_the_answers()
    ensures { KeepsAnswers }
{}

/// The objects of a trace as JSON have the answers of the script alone, in their order: what any lines of a script add is an
/// object on a line for each answer, with the number and the text of the script's line.
pub fn each_object_has_its_answer()
    ensures { HasObjects }
{}

/// What is reported as received is all that has changed in the received FIS area: each byte that a command has changed there is one
/// of a FIS that is reported of it.
pub fn all_that_changed_in_the_area_is_told()
    ensures { TellsReceived }
{}

/// The writes that are reported of a command are those by which the port's registers have moved: after a command that was issued, now or
/// again, they are the registers before it after these writes; after a recovery, or a command that is not queued, after these
/// writes and what the device then has sent.
pub fn the_writes_that_are_told_have_moved_the_registers()
    ensures { TellsWrites }
{}
