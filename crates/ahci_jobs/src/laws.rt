//! A law: its function is empty, and its clause holds of all journals.
ghost use Rattle.ahci_jobs.specs.Scripts.{AreLinesRead};

/// Each line that is written of an entry of a journal is read by a script as the command of that entry, if its numbers are in their
/// ranges; the line of a READ LOG EXT, or of sectors that become zeros, is a comment.
pub fn a_journals_lines_are_read()
    ensures { AreLinesRead }
{}
