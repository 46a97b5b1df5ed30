//! The jobs of the runs.
use ncq_journal::Op;
use std::alloc::{AllocError, Global};
use test_helpers::{Job, TWELVE};

/// The jobs of a run.
#[derive(Clone, Copy, Debug)]
pub enum Jobs {
    None,
    /// Twelve over three sectors.
    Few,
    /// The first five of these.
    Five,
    /// A write of a sector, and a read of it.
    Pair,
    /// Thirty-two writes, of which that of job 17 is past the last of 64 sectors.
    Crowd,
    /// Four thousand over 64 sectors, of which every third reads.
    Many,
}

fn count_of(jobs: Jobs) -> u32 {
    match jobs {
        Jobs::None => 0,
        Jobs::Few => 12,
        Jobs::Five => 5,
        Jobs::Pair => 2,
        Jobs::Crowd => 32,
        Jobs::Many => 4_000,
    }
}

fn job_at(jobs: Jobs, index: u32) -> Job {
    let lba = u64::from(index % 64);
    match jobs {
        Jobs::None | Jobs::Few | Jobs::Five => TWELVE[index as usize % 12],
        Jobs::Pair if index == 0 => Job::Write(0, 0x11),
        Jobs::Pair => Job::Read(0),
        Jobs::Crowd => Job::Write(if index == 17 { 64 } else { lba }, (index % 32) as u8),
        Jobs::Many if index % 3 == 2 => Job::Read(lba),
        Jobs::Many => Job::Write(lba, (index % 251) as u8),
    }
}

/// The commands of jobs.
pub fn commands(alloc: Global, jobs: Jobs) -> Result<Vec<Op>, AllocError> {
    let mut ops = Vec::new(alloc);
    for index in 0..count_of(jobs) {
        ops.push(job_at(jobs, index).op(alloc)?)?;
    }
    Ok(ops)
}
