//! What `All` answers, by the words of the tags that wait for the device and of those that it has.
use ahci_driver::{All, Chooser};
use std::process::Abort;
use test_helpers::TableStep::{Accept, Serve};
use test_helpers::{RISING, TableStep};

static STEPS: [(u32, u32, TableStep); 7] = [
    (0b100, 0b11, Accept(2)),
    (0x8000_0000, 0x7FFF_FFFF, Accept(31)),
    (0xFFFF_FFFF, 0, Accept(0)),
    (0, 0x8000_0101, Serve(&[0, 8, 31])),
    (0, 1, Serve(&[0])),
    (0, 0x8000_0000, Serve(&[31])),
    (0, 0xFFFF_FFFF, Serve(RISING)),
];

#[test]
fn all_that_is_accepted_is_served_once_nothing_waits(rt: HostRuntime) {
    for (issued, accepted, wanted) in STEPS {
        let found = All.next(issued, accepted);
        assert!(rt;
            found == wanted.of_device(),
            "{issued:x} wait, {accepted:x} are in the device: {found:?}"
        );
    }
}
