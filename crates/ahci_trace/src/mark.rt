//! What a trace keeps of a port: the words of its registers, and the end of its journal.

ghost use Rattle.std.specs.Option.{option_copied};
ghost use Rattle.std.specs.Prelude.{◌≡◌, None, Some};
ghost use Rattle.ahci_regs.specs.Reading.{word_at};
ghost use Rattle.ahci_trace.specs.Mark.{mark_of, words_of};

use ahci_port::Port;
use ahci_regs::Register;
use std::alloc::Allocator;

/// A register's word, as a read of its offset gives it.
pub(crate) fn word<A: Allocator>(port: &Port<A>, register: Register) -> u32
    ensures { result ≡ word_at port.now.registers register }
{
    match port.register(register.offset()) {
        Ok(word) => word,
        // A register is at its own offset.
        Err(_) => unreachable!(),
    }
}

/// What is kept of the port that a command finds, to report later what the command has changed.
#[derive(Clone, Copy, Debug)]
pub struct Mark {
    /// The number of the journal's next entry; 0 before the disk.
    pub end: u64,
    /// The words of all registers, in the order of their offsets; `None` before the disk.
    pub words: [Option<u32>; 18],
}

impl Mark {
    /// The mark before the disk.
    pub(crate) fn of_none() -> Mark
        ensures { result ≡ mark_of None }
    {
        Mark {
            end: 0,
            words: [None; 18],
        }
    }

    /// The mark of a port, or of none before the disk. It takes no memory, and the journal isn't read.
    pub fn of<A: Allocator>(port: Option<&Port<A>>) -> Mark
        ensures { result ≡ mark_of (option_copied port.entry) }
    {
        match port {
            None => Mark::of_none(),
            Some(port) => Mark {
                end: port.journal().end(),
                words: words(port),
            },
        }
    }
}

/// The words of all registers.
fn words<A: Allocator>(port: &Port<A>) -> [Option<u32>; 18]
    ensures { result ≡ words_of (Some port.now) }
{
    Register::all().map(|register| Some(word(port, register)))
}
