//! Ports are made, or leave nothing behind where a request for memory is refused; and how much a port asks for.
use crate::tests::heap::{DEPTH, Heap, refuse_from};
use ahci_ffi::{Status, make, make_zeros};
use port_refusal::Refusal;
use refusing_allocator::Refusing;
use std::alloc::Global;
use std::test::Fail;

// The image, the port's copy of it, its slots (there is room for 4 of them at once), and the box.
static GROWTHS: u64 = 4;

/// An image of 2 sectors.
static SMALL: [u8; 1024] = [0x5A; 1024];

/// An image of 16 sectors.
static LARGE: [u8; 8192] = [0x5A; 8192];

/// Whether a port is made over an image, or over as many zeros.
fn made(heap: &Heap, is_image: bool, image: &[u8], growth: u64) -> Status {
    refuse_from(heap, growth);
    let port = if is_image {
        make(heap, image, DEPTH, 7)
    } else {
        make_zeros(heap, u32::try_from(image.len() / 512).unwrap_or(0), DEPTH)
    };
    match port {
        Ok(_) => Status::Done,
        Err(reason) => reason,
    }
}

#[test]
fn a_port_is_made_or_leaves_nothing_behind(rt: HostRuntime) -> Result<(), Fail> {
    for is_image in [false, true] {
        for growth in 0..=GROWTHS {
            let heap = Refusing::new(rt.alloc());
            let said = made(&heap, is_image, &SMALL, growth);
            let wanted = if growth < GROWTHS {
                (Status::Refused(Refusal::OutOfMemory), growth + 1, 0)
            } else {
                (Status::Done, GROWTHS, 0)
            };
            assert_eq!(rt;
                (said, heap.requests(), heap.out()),
                wanted,
                "image {is_image}, growth {growth}"
            );
        }
    }
    Ok(())
}

/// How it is answered, and how many bytes it asks for.
fn asked(alloc: Global, is_image: bool, image: &[u8]) -> (Status, u64) {
    let heap = Refusing::new(alloc);
    let said = made(&heap, is_image, image, GROWTHS);
    (said, heap.bytes())
}

// 14 sectors more are in the image, and in the port's copy of it.
#[test]
fn a_port_asks_for_its_image_and_one_copy_of_it(rt: HostRuntime) -> Result<(), Fail> {
    for is_image in [false, true] {
        let (said, bytes) = asked(rt.alloc(), is_image, &SMALL);
        assert_eq!(rt; said, Status::Done);
        let found = asked(rt.alloc(), is_image, &LARGE);
        let wanted = (Status::Done, bytes.saturating_add(2 * 14 * 512));
        assert_eq!(rt; found, wanted, "image {is_image}");
    }
    Ok(())
}
