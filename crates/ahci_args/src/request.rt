use crate::pick::Pick;
use crate::run_form::RunForm;

/// What a command line asks for.
#[derive(Clone, Copy, Debug, PartialEq, Eq)]
pub enum Asked {
    /// `ahci replay`: run the script on standard input.
    Replay,
    /// `ahci trace`: run it, and print what each command did to the port.
    Trace {
        /// One JSON object a line, and not the text.
        json: bool,
    },
    /// `ahci check`: judge the lines on standard input, with nothing run.
    Check {
        /// The lines are jobs, and not a script.
        jobs: bool,
        /// One JSON object a line, and not the text.
        json: bool,
    },
    /// `ahci draw`: run it, and draw what the port did.
    Draw {
        /// The number of the first entry that is drawn.
        from: u64,
        /// The number of the last one, at most `LAST_ENTRY`.
        to: u64,
    },
    /// `ahci run`: let workers do the jobs on standard input.
    Run {
        /// Threads that do the jobs, 1 to `MAX_WORKERS`.
        workers: u32,
        /// Slots of the port, 1 to `MAX_DEPTH`.
        depth: u32,
        /// Sectors of the disk, 1 to `MAX_SECTORS`.
        sectors: u32,
        pick: Pick,
        /// What is written.
        form: RunForm,
    },
    /// `ahci identify`: write the page that IDENTIFY DEVICE reads of a disk.
    Identify {
        /// Sectors of the disk, 1 to `MAX_SECTORS`.
        sectors: u32,
        /// Tags of the disk, 1 to `MAX_DEPTH`.
        depth: u32,
        /// The 512 bytes of the page, and not its text.
        raw: bool,
    },
    /// `ahci log`: write page 0 of log 10h after an error.
    Log {
        /// The tag of the command that failed, 0 to `LAST_TAG`.
        tag: u8,
        /// The error byte.
        error: u8,
        /// The LBA of the failing sector, 0 to `LAST_LBA`.
        lba: u64,
        /// The 512 bytes of the page, and not its text.
        raw: bool,
    },
}
