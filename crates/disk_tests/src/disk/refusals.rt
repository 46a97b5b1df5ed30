//! Where commands and disks are refused.
use super::memory::QUIET;
use super::rig::Call::{Queue, ReadLog, Serve, Take};
use super::rig::{ABORTED, ACCEPTED, FAR_READ, Rig, Row, disk_of, plays};
use crate::table::equal;
use ncq_core::{Disk, DiskFault, Taken};
use std::alloc::Global;
use std::test::Fail;

/// Refused with IDNF at LBA 123456789Ah.
const FAR_REFUSED: Taken = Taken::Refused([
    0x34, 0x40, 0x41, 0x10, 0x9A, 0x78, 0x56, 0, 0x34, 0x12, 0, 0, 0, 0, 0, 0, 0, 0, 0, 0,
]);

/// What the log says of it: tag 5, status, error, LBA, and the byte that makes the sum 0.
const FAR_LOG: [(usize, u8); 9] = [
    (0, 5),
    (2, 0x41),
    (3, 0x10),
    (4, 0x9A),
    (5, 0x78),
    (6, 0x56),
    (8, 0x34),
    (9, 0x12),
    (511, 0xFC),
];

static FAR: [Row; 3] = [
    (Queue(0x61, 9, 0, 1, ACCEPTED), 1 << 9, false),
    (Take(FAR_READ, FAR_REFUSED), 0, true),
    (ReadLog(&FAR_LOG), 0, false),
];

#[test]
fn a_far_command_is_refused_at_acceptance(rt: HostRuntime) -> Result<(), Fail> {
    plays(&rt, rt.alloc(), (32, 0, 0), &FAR, &QUIET, &[0; 1000])
}

/// Refused with IDNF at LBA 8.
const AT_8: Taken = Taken::Refused([
    0x34, 0x40, 0x41, 0x10, 8, 0, 0, 0, 0, 0, 0, 0, 0, 0, 0, 0, 0, 0, 0, 0,
]);

/// Refused with IDNF at LBA 9.
const AT_9: Taken = Taken::Refused([
    0x34, 0x40, 0x41, 0x10, 9, 0, 0, 0, 0, 0, 0, 0, 0, 0, 0, 0, 0, 0, 0, 0,
]);

/// A command, and then one of a tag that the disk has not.
static ENDS: [[Row; 2]; 7] = [
    [
        (Queue(0x60, 1, 7, 1, ACCEPTED), 2, false),
        (Queue(0x60, 2, 0, 1, ABORTED), 2, false),
    ],
    [
        (Queue(0x61, 1, 0, 8, ACCEPTED), 2, false),
        (Queue(0x60, 2, 0, 1, ABORTED), 2, false),
    ],
    [
        (Queue(0x61, 1, 8, 1, AT_8), 0, true),
        (Queue(0x60, 2, 0, 1, ABORTED), 0, true),
    ],
    [
        (Queue(0x60, 1, 7, 2, AT_8), 0, true),
        (Queue(0x60, 2, 0, 1, ABORTED), 0, true),
    ],
    [
        (Queue(0x60, 1, 9, 1, AT_9), 0, true),
        (Queue(0x60, 2, 0, 1, ABORTED), 0, true),
    ],
    [
        (Queue(0x61, 1, 0, 9, AT_8), 0, true),
        (Queue(0x60, 2, 0, 1, ABORTED), 0, true),
    ],
    [
        (Queue(0x60, 1, 0, 0, AT_8), 0, true),
        (Queue(0x60, 2, 0, 1, ABORTED), 0, true),
    ],
];

#[test]
fn the_last_sector_and_one_past_it(rt: HostRuntime) -> Result<(), Fail> {
    for rows in &ENDS {
        plays(&rt, rt.alloc(), (2, 0, 0), rows, &QUIET, &[0; 8])?;
    }
    Ok(())
}

#[test]
fn each_of_32_tags_is_taken_once(rt: HostRuntime) -> Result<(), Fail> {
    let mut rig = Rig::new(rt.alloc(), 64, 32, 0, 1)?;
    for tag in 0..32u8 {
        let tags = u32::MAX >> (31 - u32::from(tag));
        rig.goes(
            &rt,
            usize::from(tag),
            (Queue(0x61, tag, tag, 1, ACCEPTED), tags, false),
        );
    }
    for tag in 0..32u8 {
        for refused in [
            Queue(0x61, tag, tag, 1, ABORTED),
            Queue(0x60, tag, 63, 2, ABORTED),
        ] {
            rig.goes(&rt, usize::from(tag), (refused, u32::MAX, false));
        }
    }
    for tag in (0..32u8).rev() {
        let bit = 1u32 << tag;
        rig.goes(&rt, usize::from(tag), (Serve(tag, Ok(())), bit - 1, false));
    }
    Ok(())
}

/// Why a disk of so many bytes is refused.
fn refused(alloc: Global, bytes: usize, depth: u32) -> Result<Option<DiskFault>, Fail> {
    Ok(Disk::new(vec![in alloc; 0u8; bytes]?, depth).err())
}

#[test]
fn a_disk_has_1_to_131072_sectors_and_1_to_32_tags(rt: HostRuntime) -> Result<(), Fail> {
    for (bytes, depth, fault) in [
        (0, 4, DiskFault::BadSize),
        (511, 4, DiskFault::BadSize),
        (513, 33, DiskFault::BadSize),
        (131_073 * 512, 4, DiskFault::BadSize),
        (512, 0, DiskFault::BadDepth),
        (512, 33, DiskFault::BadDepth),
    ] {
        equal(
            &rt,
            bytes,
            &refused(rt.alloc(), bytes, depth)?,
            &Some(fault),
        );
    }
    let disk = disk_of(rt.alloc(), 0, 131_072, 1)?;
    equal(&rt, 0, &(disk.sectors(), disk.depth()), &(131_072, 1));
    Ok(())
}
