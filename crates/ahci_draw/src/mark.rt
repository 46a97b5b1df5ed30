ghost use Rattle.std.specs.Prelude.{◌≡◌, None, Some};
ghost use Rattle.std.specs.Option.{option_copied};
ghost use Rattle.ahci_draw.specs.Mark.{mark_of};

use crate::tag_state::TagState;
use crate::tags::{tags_in, tags_of_none};
use ahci_port::Port;
use std::alloc::Allocator;

/// What is kept of the port that a command finds, to draw later what the command has added.
#[derive(Clone, Copy, Debug)]
pub(crate) struct Mark {
    /// The number of the journal's next entry; 0 before the disk.
    pub(crate) end: u64,
    /// The states of the tags.
    pub(crate) tags: [TagState; 32],
}

impl Mark {
    /// The mark before the disk.
    pub(crate) fn of_none() -> Mark
        ensures { result ≡ mark_of None }
    {
        Mark {
            end: 0,
            tags: tags_of_none(),
        }
    }

    /// The mark of a port, or of none before the disk. It takes no memory, and of the journal one entry a tag is read at most.
    pub(crate) fn of<A: Allocator>(port: Option<&Port<A>>) -> Mark
        ensures { result ≡ mark_of (option_copied port.entry) }
    {
        match port {
            None => Mark::of_none(),
            Some(port) => Mark {
                end: port.journal().end(),
                tags: tags_in(port),
            },
        }
    }
}
