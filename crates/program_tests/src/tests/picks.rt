//! A job list by the program's own call, with each chooser that the command line can pick. The jobs of two workers are on
//! sectors of their own, so every run has the same results.
use crate::tests::table::{equal, equal_bytes};
use ahci_cli::{Pick, run_jobs};
use std::test::Fail;

static JOBS: &[u8] = b"write 0 2 11\nwrite 4 1 22\nread 1 1\nread 4 2\n";

static RESULTS: &[u8] =
    b"wrote\nwrote\nread 11\nread 22 00\nsector 0 11\nsector 1 11\nsector 4 22\n";

#[test]
fn each_pick_does_the_jobs(rt: HostRuntime) -> Result<(), Fail> {
    for (row, pick) in [Pick::Low, Pick::High, Pick::All].iter().enumerate() {
        let mut reader = JOBS;
        let mut written = Vec::new(rt.alloc());
        let outcome = run_jobs(&rt, rt.alloc(), 2, 2, 8, *pick, &mut reader, &mut written);
        equal(&rt, row, &outcome, &Ok(()));
        equal_bytes(&rt, row, written.as_slice(), RESULTS);
    }
    Ok(())
}
