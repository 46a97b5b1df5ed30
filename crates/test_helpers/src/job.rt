use ncq_journal::{Bytes, Op};
use std::alloc::{AllocError, Allocator};

/// A job of one sector: its LBA, and the byte of a write.
#[derive(Clone, Copy, Debug)]
pub enum Job {
    Read(u64),
    Write(u64, u8),
}

impl Job {
    /// Its command.
    pub fn op<A: Allocator + Copy>(self, alloc: A) -> Result<Op<A>, AllocError> {
        match self {
            Job::Read(lba) => Ok(Op::Read { lba, sectors: 1 }),
            Job::Write(lba, byte) => {
                let bytes = Bytes::from_vec(vec![in alloc; byte; 512]?);
                Ok(Op::Write { lba, bytes })
            }
        }
    }
}

/// The commands of jobs.
pub fn ops_of<A: Allocator + Copy>(alloc: A, jobs: &[Job]) -> Result<Vec<Op<A>, A>, AllocError> {
    let mut ops = Vec::with_capacity(alloc, jobs.len())?;
    for job in jobs {
        ops.push(job.op(alloc)?)?;
    }
    Ok(ops)
}

/// Twelve jobs on three sectors: the even ones write, the odd ones read.
pub const TWELVE: &[Job] = &[
    Job::Write(0, 0),
    Job::Read(1),
    Job::Write(1, 2),
    Job::Read(0),
    Job::Write(0, 4),
    Job::Read(2),
    Job::Write(1, 6),
    Job::Read(1),
    Job::Write(0, 8),
    Job::Read(0),
    Job::Write(1, 10),
    Job::Read(2),
];
