//! Runs that don't begin.

use crate::tests::common::{Way, crowd};
use ahci_driver::{Open, RunFault, run};
use ahci_port::Port;
use ncq_journal::Op;
use std::alloc::Global;
use std::process::Abort;
use std::sync::Wait;
use std::test::Fail;
use std::thread::Threads;

/// Whether the port was used before, the LBA and the sectors of two reads, and why their run doesn't begin.
type Row = (bool, [(u64, u32); 2], Option<RunFault>);

static ROWS: [Row; 6] = [
    (false, [(0, 1), (1, 65_536)], None),
    (true, [(0, 1), (0, 1)], Some(RunFault::NotFresh)),
    (true, [(0, 0), (0, 1)], Some(RunFault::NotFresh)),
    (false, [(0, 1), (0, 0)], Some(RunFault::BadJob(1))),
    (false, [(1 << 48, 1), (0, 0)], Some(RunFault::BadJob(0))),
    (false, [(0, 1), (0, 65_537)], Some(RunFault::BadJob(1))),
];

fn begins<R: Threads + Wait + Sync + Abort>(
    rt: &R,
    alloc: Global,
    row: Row,
) -> Result<Option<RunFault>, Fail> {
    let (is_used, [(first, few), (second, many)], _) = row;
    let mut port = Port::new(alloc, vec![in alloc; 0; 512]?, 1)?;
    if is_used {
        port.flush()?;
    }
    let jobs = [
        Op::Read {
            lba: first,
            sectors: few,
        },
        Op::Read {
            lba: second,
            sectors: many,
        },
    ];
    let choosers = crowd(alloc, Way::Lowest, 1)?;
    Ok(run(rt, alloc, port, &jobs, 1, choosers, &Open).err())
}

#[test]
fn a_run_does_not_begin_on_a_used_port_or_with_a_bad_job(rt: HostRuntime) -> Result<(), Fail> {
    for row in ROWS {
        let found = begins(&rt, rt.alloc(), row)?;
        assert!(rt; found == row.2, "{row:?}: {found:?}");
    }
    Ok(())
}
