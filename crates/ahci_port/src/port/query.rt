//! What a driver asks a port of. None of these calls takes memory.

ghost use Rattle.std.specs.{Prelude.{◌≡◌, ◌≤◌, is_some, IfSome}, Option.{option_copied}};
ghost use Rattle.sector_store.specs.Shown.{ChangesAmong};
ghost use Rattle.word_bits.specs.Places.{bits};
ghost use Rattle.ncq_journal.specs.Owed.{owed};
ghost use Rattle.ahci_port.specs.{Headline.{Headline}, Looking.{issued_tags, accepted_tags, held_tags, read_length, HasShape}, PortView.{window_at}};

use crate::port::Port;
use crate::sent::Sent;
use crate::slot::{read_in, window_in};
use crate::tag_sets::TagSets;
use ahci_table::Window;
use ncq_journal::Phase;
use sector_store::{SectorStore, Sectors};
use std::alloc::Allocator;
use word_bits::with_bit;

impl<A: Allocator, S: SectorStore> Port<A, S> {
    /// Which tags wait for what, in one look at the slots.
    #[tactic(auto, using(ncq_journal::proofs::SetLemmas::among_none, ncq_journal::proofs::SetLemmas::among_with, ncq_journal::proofs::SetLemmas::among_without, ncq_journal::proofs::SetLemmas::among_all))]
    pub fn tag_sets(&self) -> TagSets
        ensures issued { bits result.issued ≡ issued_tags self.now.past }
        ensures accepted { bits result.accepted ≡ accepted_tags self.now.past }
        ensures held { bits result.held ≡ held_tags self.now.past }
    {
        let mut issued = 0;
        let mut accepted = 0;
        let mut held = 0;
        for tag in 0..32u8 {
            match self.phase(tag) {
                Phase::Issued => issued = with_bit(issued, tag),
                Phase::Accepted => accepted = with_bit(accepted, tag),
                Phase::Held => held = with_bit(held, tag),
                _ => {}
            }
        }
        TagSets {
            issued,
            accepted,
            held,
        }
    }

    /// The tags whose command waits for the device, as the bits of a word.
    pub fn issued(&self) -> u32
        ensures { bits result ≡ issued_tags self.now.past }
    {
        self.tag_sets().issued
    }

    /// The tags whose command the device has taken, as the bits of a word. An error doesn't empty it.
    pub fn accepted(&self) -> u32
        ensures { bits result ≡ accepted_tags self.now.past }
    {
        self.tag_sets().accepted
    }

    /// The tags whose command another's error has ended, as the bits of a word.
    pub fn held(&self) -> u32
        ensures { bits result ≡ held_tags self.now.past }
    {
        self.tag_sets().held
    }

    /// How many bytes the request of a tag's slot reads; `None` where the slot is free, or its request is a write.
    pub fn read_length(&self, tag: u8) -> Option<u64>
        ensures { result ≡ read_length self.now.past tag }
    {
        read_in(&self.slots, tag)
    }

    /// The window of a tag's slot: its command header, and the command table with the data after it. `None` where the slot
    /// is free.
    pub fn window(&self, tag: u8) -> Option<&Window<A>>
        ensures { option_copied result ≡ window_at self.now tag }
    {
        window_in(&self.slots, tag)
    }

    /// What slot 0 sent last that was not queued: zeros before the first such command.
    pub fn sent(&self) -> &Sent
        ensures { result.now ≡ self.now.sent }
    {
        &self.unqueued.sent
    }

    /// Shows what every port has: 1 to 32 slots and 1 to 2^32 - 1 sectors, all whole. It does nothing.
    pub fn shape(&self)
        ensures { HasShape self.now }
    {
        let _depth = self.disk.depth();
    }

    /// Shows what holds of every port, so of one that comes out of a lock: the headline, its shape, and that the journal has
    /// room for all that its requests can still need. It does nothing.
    pub fn keeps_its_promise(&self)
        ensures headline { Headline self.now }
        ensures shape { HasShape self.now }
        ensures room { owed self.now.past ≤ self.now.room }
    {
        let _depth = self.disk.depth();
    }
}

impl<A: Allocator> Port<A> {
    /// The sectors as they were when the port was made, last trimmed or last reset, one after the other.
    pub fn starting_image(&self) -> &[u8]
        ensures { result.now ≡ self.now.starting }
    {
        self.disk.starting_image()
    }
}

impl<A: Allocator> Port<A, Sectors<A>> {
    /// The numbers of the pages of eight sectors that may have changed since the port was made, last trimmed or last reset; nothing if
    /// that isn't known.
    pub fn touched(&self) -> Option<&[u32]>
        ensures known { is_some (option_copied result) ≡ self.now.grows }
        ensures pages { IfSome (option_copied result) (λ touched. ChangesAmong touched self.now.image self.now.starting) }
    {
        self.disk.touched()
    }
}
