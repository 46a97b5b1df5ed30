//! The lines of a job list.

ghost use Rattle.std.specs.Prelude.{◌≡◌};
ghost use Rattle.ahci_script.specs.Jobs.{job_of, job_reading, read_job_of, write_job_of};

use crate::breach::Breach;
use crate::grammar::{comment, unnamed};
use crate::words::{Words, first};

/// A line of a job list, read and not yet judged.
#[derive(Clone, Copy, Debug, PartialEq, Eq)]
pub enum JobLine {
    /// An empty line or a comment.
    Skip,
    /// A job.
    Do(Job),
}

/// A job of a job list. Sectors are at most 131,072; the other numbers are any that fit their type.
#[derive(Clone, Copy, Debug, PartialEq, Eq)]
pub enum Job {
    /// `write LBA N BB`: writes sectors that are filled with one byte.
    Write { lba: u64, sectors: u32, fill: u8 },
    /// `read LBA N`: reads sectors.
    Read { lba: u64, sectors: u32 },
}

/// Reads a line of a job list, without its line feed: what it spells; else the first rule of the language that it breaks, from
/// the left. A byte that no job has is reported before all else.
pub fn read_job(line: &[u8]) -> Result<JobLine, Breach>
    ensures { result ≡ job_reading line.now }
{
    match line {
        [] => Ok(JobLine::Skip),
        [b'#', ..] => {
            comment(line)?;
            Ok(JobLine::Skip)
        }
        _ => match spelled(line) {
            Ok(job) => Ok(JobLine::Do(job)),
            Err(breach) => Err(breach.seen_in(line)),
        },
    }
}

/// A job, by its name and the words after it.
fn spelled(line: &[u8]) -> Result<Job, Breach>
    ensures { result ≡ job_of line.now }
{
    let (name, words) = first(line);
    if name == b"write".as_slice() {
        write(words)
    } else if name == b"read".as_slice() {
        read(words)
    } else {
        Err(unnamed(line, name))
    }
}

fn write(words: Words<'_>) -> Result<Job, Breach>
    ensures { result ≡ write_job_of words.entry }
{
    let (lba, words) = words.number()?;
    let (sectors, words) = words.sectors()?;
    let (fill, words) = words.byte()?;
    words.end()?;
    Ok(Job::Write { lba, sectors, fill })
}

fn read(words: Words<'_>) -> Result<Job, Breach>
    ensures { result ≡ read_job_of words.entry }
{
    let (lba, words) = words.number()?;
    let (sectors, words) = words.sectors()?;
    words.end()?;
    Ok(Job::Read { lba, sectors })
}
