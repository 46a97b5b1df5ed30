//! Who collects the entries of a script for its picture.

ghost use Rattle.std.specs.Prelude.{◌≡◌};
ghost use Rattle.ahci_draw.specs.Mark.{mark_of};
ghost use Rattle.ahci_draw.specs.Listing.{listing_text};

use crate::entries::push_added;
use crate::mark::Mark;
use ahci_port::Port;
use ahci_replay::AnswerWriter;
use ahci_script::{Output, ScriptAnswer};
use std::alloc::{AllocError, Allocator};
use streams::TextBuffer;

/// Tells of each answer which entries its command has added, on the listing from which the picture is made.
#[derive(Drop)]
pub(crate) struct Drawer<A: Allocator> {
    alloc: A,
}

impl<A: Allocator + Copy> Drawer<A> {
    ghost use Rattle.std.specs.Prelude.{◌≡◌, IfOk, Option};
    ghost use Rattle.std.specs.Option.{option_copied};
    ghost use Rattle.ahci_port.specs.PortView.{PortView};
    ghost use Rattle.ahci_draw.specs.Mark.{mark_of};
    ghost use Rattle.ahci_draw.specs.Listing.{added_between};

    /// The listing is made with this allocator.
    pub(crate) fn new(alloc: A) -> Self {
        Drawer { alloc }
    }

    /// What a command has added that found the port of the mark, and has left this one.
    fn lines(&self, mark: &Mark, port: Option<&Port<A>>) -> Result<Vec<u8, A>, AllocError>
        ensures { IfOk result (λ text. (before : Option PortView) → mark.now ≡ mark_of before
            → text.items ≡ added_between before (option_copied port.entry)) }
    {
        let mut text = TextBuffer::new(self.alloc);
        if let Some(port) = port {
            push_added(&mut text, mark, port)?;
        }
        Ok(text.into_bytes())
    }
}

impl<A: Allocator + Copy> AnswerWriter<A> for Drawer<A> {
    type Before = Mark;

    ghost telling = { listing_text };

    ghost IsOf = { λ mark port. mark ≡ mark_of port };

    fn look(&self, port: Option<&Port<A>>) -> Mark {
        Mark::of(port)
    }

    fn tell(
        &self,
        _number: u64,
        _line: &[u8],
        before: Mark,
        _answer: &ScriptAnswer<A>,
        port: Option<&Port<A>>,
        output: &mut Output<A>,
    ) -> Result<(), AllocError> {
        let lines = self.lines(&before, port)?;
        output.put_text(&lines)
    }
}
