//! The kinds of a command, and what each leaves in the command FIS of the tag's window.
use crate::tests::heap::{Heap, HeapPort, port_of};
use ahci_ffi::{Status, submit};
use refusing_allocator::Refusing;
use std::test::Fail;

// Of each kind the answer, and the code and the device of the command FIS (ACS-3, READ and WRITE FPDMA QUEUED): bit 6 of the device is
// one, and bit 7 is FUA. No window is there of a command that is refused.
static KINDS: [(u32, Status, [u8; 2]); 6] = [
    (0, Status::Done, [0x60, 0x40]),
    (1, Status::Done, [0x61, 0x40]),
    (2, Status::Done, [0x60, 0xC0]),
    (3, Status::Done, [0x61, 0xC0]),
    (4, Status::BadKind, [0, 0]),
    (u32::MAX, Status::BadKind, [0, 0]),
];

/// Bytes 2 and 7 of the command FIS in the window of tag 1 (Serial ATA, "Register - Host to Device").
fn code_and_device(port: &HeapPort<'_>) -> [u8; 2] {
    let Some(window) = port.window(1) else {
        return [0, 0];
    };
    match window.bytes() {
        [_, _, code, _, _, _, _, device, ..] => [*code, *device],
        _ => [0, 0],
    }
}

/// A command of this kind for sector 3 by tag 1, and what its window has.
fn submits<'a>(heap: &'a Heap, kind: u32) -> Result<(Status, [u8; 2]), Fail> {
    let mut port = port_of(heap)?;
    let said = submit(&mut *port, heap, 1, kind, 3, 1, &[0xAB; 512], &mut 0);
    Ok((said, code_and_device(&port)))
}

#[test]
fn a_kind_with_fua_has_bit_7_of_the_device(rt: HostRuntime) -> Result<(), Fail> {
    for (kind, said, found) in KINDS {
        let heap = Refusing::new(rt.alloc());
        assert_eq!(rt; submits(&heap, kind)?, (said, found), "kind {kind}");
    }
    Ok(())
}
