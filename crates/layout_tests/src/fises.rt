//! FISes as bytes and as values: examples, every length and every change of one byte.
mod asked;
mod checker;
mod examples;

use crate::table::{equal, equal_bytes};
use arrayvec::ArrayVec;
use checker::agrees;
use examples::{EXAMPLES, Said, fis_of};
use sata_fis::{
    Fis, FisFault, Payload, SetBits, data_head, decode, is_lba, is_sector_count,
    is_set_bits_status, is_tag,
};
use std::alloc::{AllocError, Global};
use std::process::Abort;
use std::test::Fail;

/// The types with a length that each may have.
static LENGTHS: [(u8, usize); 8] = [
    (0x27, 20),
    (0x34, 20),
    (0x39, 4),
    (0x41, 28),
    (0x46, 8),
    (0x46, 8196),
    (0x5F, 20),
    (0xA1, 8),
];

/// The bytes of a FIS that isn't Data.
fn written(fis: &Fis<'_>) -> Option<ArrayVec<u8, 28>> {
    match fis {
        Fis::Data(_) => None,
        _ => Some(fis.encode()),
    }
}

/// Whether the bytes are read as the FIS that says this, and the FIS is written as the bytes.
fn reads_and_writes(bytes: &[u8], said: Said) -> bool {
    let Some(fis) = fis_of(said) else {
        return false;
    };
    let is_read = match decode(bytes) {
        Ok(found) => found == fis,
        Err(_) => false,
    };
    let is_written = match written(&fis) {
        Some(list) => list.as_slice() == bytes,
        None => true,
    };
    is_read && is_written
}

#[test]
fn each_example_is_read_and_written_again(rt: HostRuntime) {
    for (name, bytes, said) in &EXAMPLES {
        assert!(rt; reads_and_writes(bytes, *said), "{name}: {bytes:?}");
    }
}

/// What `decode` answers to a FIS of this type with this many bytes, the others 0.
fn fault_of(alloc: Global, kind: u8, len: usize) -> Result<Option<FisFault>, AllocError> {
    let mut text = vec![in alloc; 0; len]?;
    if let Some(first) = text.first_mut() {
        *first = kind;
    }
    Ok(decode(&text).err())
}

/// Types, lengths and their faults.
static FAULTS: [(u8, usize, Option<FisFault>); 3] = [
    (0x46, 8200, Some(FisFault::WrongLength(8200))),
    (0x46, 4, Some(FisFault::WrongLength(4))),
    (0, 0, Some(FisFault::Empty)),
];

/// Compares the faults of a type at a length, at one byte less and at one more.
fn lengths(rt: &impl Abort, alloc: Global, kind: u8, len: usize) -> Result<(), AllocError> {
    for wrong in [len.saturating_sub(1), len.saturating_add(1)] {
        let fault = fault_of(alloc, kind, wrong)?;
        equal(
            rt,
            usize::from(kind),
            &fault,
            &Some(FisFault::WrongLength(wrong)),
        );
    }
    equal(rt, usize::from(kind), &fault_of(alloc, kind, len)?, &None);
    Ok(())
}

#[test]
fn one_byte_less_or_more_is_a_wrong_length(rt: HostRuntime) -> Result<(), Fail> {
    for (kind, len) in LENGTHS {
        lengths(&rt, rt.alloc(), kind, len)?;
    }
    for (kind, len, fault) in FAULTS {
        equal(&rt, len, &fault_of(rt.alloc(), kind, len)?, &fault);
    }
    Ok(())
}

/// What one byte alone answers: it is of one of seven types, or unknown.
fn fault_of_byte(kind: u8) -> FisFault {
    for (known, _) in LENGTHS {
        if known == kind {
            return FisFault::WrongLength(1);
        }
    }
    FisFault::UnknownType(kind)
}

#[test]
fn bytes_begin_with_one_of_seven_types(rt: HostRuntime) {
    equal(&rt, 0, &decode(&[]).err(), &Some(FisFault::Empty));
    for kind in 0..=u8::MAX {
        let fault = decode(&[kind]).err();
        equal(&rt, usize::from(kind), &fault, &Some(fault_of_byte(kind)));
    }
}

fn shorter_is_wrong(rt: &impl Abort, name: &str, bytes: &[u8]) {
    for len in 1..bytes.len() {
        let fault = decode(&bytes[..len]).err();
        equal(rt, (name, len), &fault, &Some(FisFault::WrongLength(len)));
    }
}

/// Whether the bytes are read field by field, and what was read is written and read again.
fn is_read(bytes: &[u8]) -> bool {
    let Ok(fis) = decode(bytes) else {
        return false;
    };
    let is_right = agrees(bytes, &fis);
    match written(&fis) {
        Some(list) => is_right && decode(&list) == Ok(fis),
        None => is_right,
    }
}

/// Reads the bytes with each byte changed to each value. After byte 0 no value is refused.
fn each_change_is_read(
    rt: &impl Abort,
    alloc: Global,
    name: &str,
    bytes: &[u8],
) -> Result<(), AllocError> {
    for place in 0..bytes.len() {
        let mut text = Vec::from_slice(alloc, bytes)?;
        for value in 0..=u8::MAX {
            if let Some(byte) = text.get_mut(place) {
                *byte = value;
            }
            let is_refused = place == 0 && decode(&text).is_err();
            assert!(rt; is_refused || is_read(&text), "{name}: at {text:?}");
        }
    }
    Ok(())
}

#[test]
fn each_prefix_and_each_changed_byte_is_read_field_by_field(rt: HostRuntime) -> Result<(), Fail> {
    for (name, bytes, _) in &EXAMPLES {
        shorter_is_wrong(&rt, name, bytes);
        each_change_is_read(&rt, rt.alloc(), name, bytes)?;
    }
    Ok(())
}

#[test]
fn busy_and_request_bits_do_not_come_through(rt: HostRuntime) {
    let bits = SetBits {
        i: false,
        status: 0x77,
        error: 0,
        sactive: 0,
    };
    let fis = decode(&[0xA1, 0, 0xFF, 0, 0, 0, 0, 0]);
    assert!(rt; fis == Ok(Fis::SetBits(bits)));
    equal_bytes(
        &rt,
        0,
        Fis::SetBits(bits).encode().as_slice(),
        &[0xA1, 0, 0x77, 0, 0, 0, 0, 0],
    );
}

#[test]
fn data_is_its_head_and_its_payload(rt: HostRuntime) {
    assert_eq!(rt; data_head(), [0x46, 0, 0, 0]);
    for len in [4, 8, 8192] {
        assert!(rt; Payload::new(&[0; 8200][..len]).is_some(), "{len} bytes");
    }
    for len in [0, 3, 5, 8196] {
        assert!(rt; Payload::new(&[0; 8200][..len]).is_none(), "{len} bytes");
    }
}

#[test]
fn the_ranges_end_where_the_standard_says(rt: HostRuntime) {
    assert!(rt; is_lba(0xFFFF_FFFF_FFFF) && !is_lba(0x1_0000_0000_0000));
    assert!(rt; is_tag(31) && !is_tag(32));
    assert!(rt; is_sector_count(1) && is_sector_count(65_536));
    assert!(rt; !is_sector_count(0) && !is_sector_count(65_537));
    assert!(rt; is_set_bits_status(0x77) && !is_set_bits_status(0x80));
    assert!(rt; !is_set_bits_status(0x08));
}
