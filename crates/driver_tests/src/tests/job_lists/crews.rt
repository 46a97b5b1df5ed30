//! A job list, done by a crew.
use ahci_driver::Chooser;
use ahci_jobs::{Form, JobsFault, RunSize, run_jobs};
use std::alloc::Global;
use std::io::{Read, Write};
use std::sync::Wait;
use std::thread::Threads;

/// Workers, depth and sectors.
pub type Crew = (u32, u32, u32);

/// Does the jobs that the reader gives. A crew out of its ranges does none, which no test expects.
pub fn done<H, R, W, C>(
    rt: &H,
    alloc: Global,
    crew: Crew,
    chooser: C,
    reader: &mut R,
    writer: &mut W,
) -> Option<Result<(), JobsFault>>
where
    H: Threads + Wait + Sync,
    R: Read,
    W: Write,
    C: Chooser + Copy + Send + Drop,
{
    let (workers, depth, sectors) = crew;
    if 1 <= workers
        && workers <= 32
        && 1 <= depth
        && depth <= 32
        && 1 <= sectors
        && sectors <= 131_072
    {
        let size = RunSize::new(workers, depth, sectors);
        Some(run_jobs(rt, alloc, size, chooser, Form::Text, reader, writer))
    } else {
        None
    }
}
