//! Where a line of a script is: before its disk, or on a port.

ghost use Rattle.std.specs.Prelude.{◌≡◌};
ghost use Rattle.ahci_check.specs.Complaints.{is_in_place, misplaced, place_after, place_by};

use crate::excess::disk_excess;
use ahci_script::{Breach, Fault, Line, ScriptCommand, after_first, read_line};

/// Where a line of a script is: the first `disk` whose numbers are in the port's limits begins what comes after it.
#[derive(Clone, Copy, Debug, PartialEq, Eq)]
pub enum Place {
    BeforeDisk,
    /// After a disk of so many sectors, on a port of so many slots.
    AfterDisk { sectors: u64, depth: u64 },
}

impl Place {
    /// The place of the next line, after one without its line feed.
    pub fn after(self, line: &[u8]) -> Place
        ensures { result ≡ place_after self line.now }
    {
        self.after_reading(line, &read_line(line))
    }

    /// The place of the next line, after one that was read.
    pub(crate) fn after_reading(self, line: &[u8], read: &Result<Line<'_>, Breach>) -> Place
        ensures { result ≡ place_by self line.now read.now }
    {
        match (self, read) {
            (
                Place::BeforeDisk,
                Ok(
                    Line::Run(
                        ScriptCommand::Disk {
                            sectors,
                            depth,
                            first,
                        },
                    ),
                ),
            ) if disk_excess(after_first(line), *sectors, *depth, *first).is_none() =>
                Place::AfterDisk {
                    sectors: *sectors,
                    depth: *depth,
                },
            _ => self,
        }
    }

    /// Whether a command is allowed here.
    pub(crate) fn takes(self, command: &ScriptCommand<'_>) -> bool
        ensures { result ≡ is_in_place self command.now }
    {
        match self {
            Place::BeforeDisk => matches!(command, ScriptCommand::Disk { .. }),
            Place::AfterDisk { .. } => !matches!(command, ScriptCommand::Disk { .. }),
        }
    }

    /// The rule that a command breaks if it isn't allowed here.
    pub(crate) fn rule(self) -> Fault
        ensures { result ≡ misplaced self }
    {
        match self {
            Place::BeforeDisk => Fault::BeforeDisk,
            Place::AfterDisk { .. } => Fault::SecondDisk,
        }
    }
}
