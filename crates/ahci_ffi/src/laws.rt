//! Laws: their functions are empty, and their clauses hold of all entries.
ghost use Rattle.ahci_ffi.specs.Judging.{AreEntriesJudged, DoEntriesNameTheirEvents};

/// A struct that `entry` fills in names to `journal_check` the event that it was filled in from, if that has a tag of a port.
#[tactic(auto, using(crate::proofs::NamingLemmas::entries_name_their_events))]
pub fn entries_name_their_events()
    ensures { DoEntriesNameTheirEvents }
{}

/// `journal_check` takes the structs of a list of entries exactly if the entries are a lawful journal, as those of a port are: when an
/// event may come depends on no byte of a write.
pub fn entries_are_judged_as_their_journal()
    ensures { AreEntriesJudged }
{}
