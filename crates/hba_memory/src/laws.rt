//! Laws over the definitions alone: each is the contract of a function that does nothing.

ghost use Rattle.hba_memory.specs.Laws.{ByAnEntry, EnoughEntries, InTwoParts, SamePlaces, WholeData};

/// A read's data are written to the very runs that a write's of that length are read from.
pub fn data_is_written_where_it_is_read_from()
    ensures { SamePlaces }
{}

/// All bytes of a read's data are written, in their order, if the list is long enough.
pub fn whole_data_is_written_in_order()
    ensures { WholeData }
{}

/// Data have processed an entry with I if and only if all of its bytes are among them (AHCI 1.3.1, sections 3.3.5, DPS, and 4.2.3.3).
pub fn an_entry_is_processed_with_its_last_byte()
    ensures { ByAnEntry }
{}

/// Data that move in two parts process what they process in one.
pub fn blocks_process_what_the_whole_does()
    ensures { InTwoParts }
{}

/// The entries for a block of sectors are enough to say whether it processes one.
pub fn a_block_needs_its_entries_alone()
    ensures { EnoughEntries }
{}
