//! Which requests the allocator of the tests refuses.
use refusing_allocator::{Refusals, Refusing};
use std::test::Fail;

/// Which of three requests are granted, and how many are refused.
static ROWS: [(Refusals, [bool; 3], u64); 3] = [
    (Refusals::None, [true, true, true], 0),
    (Refusals::Only(1), [true, false, true], 1),
    (Refusals::From(1), [true, false, false], 2),
];

#[test]
fn requests_are_refused_by_their_numbers(rt: HostRuntime) -> Result<(), Fail> {
    for (refusals, granted, refused) in ROWS {
        let heap = Refusing::new(rt.alloc());
        heap.refuse(refusals);
        let mut found = [false; 3];
        for is_granted in &mut found {
            *is_granted = Box::new(&heap, 0u8).is_ok();
        }
        assert_eq!(rt;
            (
                found,
                heap.refused(),
                heap.requests(),
                heap.bytes(),
                heap.out()
            ),
            (granted, refused, 3, 3, 0),
            "{refusals:?}"
        );
    }
    Ok(())
}
