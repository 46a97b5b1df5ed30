//! Windows: made of parts, checked, and their data moved.
use super::unasked;
use crate::tests::commands::{Command, window_of};
use crate::tests::heap::{Heap, refuse_from};
use ahci_table::Window;
use refusing_allocator::Refusing;
use std::alloc::Global;
use std::process::Abort;
use std::test::Fail;

/// Puts two bytes into a window's text, and takes them out again with the two beside them. The text's length is found in
/// memory of another allocator.
fn moves(rt: &impl Abort, alloc: Global, window: &mut Window<&Heap>) -> Result<[u8; 4], Fail> {
    let Ok(_command) = window.check() else {
        panic!(rt; "the window is not fit");
    };
    let text = window.text(alloc)?;
    assert!(rt; text.len() >= 8);
    window.scatter(2, &[0xA1, 0xA2]);
    let Ok(_command) = window.check() else {
        panic!(rt; "the window is not fit");
    };
    let text = window.text(alloc)?;
    assert!(rt; text.len() >= 8);
    let mut out = [0; 4];
    window.gather(1, &mut out);
    Ok(out)
}

#[test]
fn windows_are_checked_and_moved_with_no_memory(rt: HostRuntime) -> Result<(), Fail> {
    let heap = Refusing::new(rt.alloc());
    let built = window_of(&heap, Command::Write(3, 0x77))?;
    let bytes = Vec::from_slice(&heap, built.bytes())?;
    refuse_from(&heap, 0);
    let mut window = Window::from_parts(3, *built.header(), bytes);
    let found = moves(&rt, rt.alloc(), &mut window)?;
    unasked(&rt, &heap, &"moves", &found, &[0x77, 0xA1, 0xA2, 0x77]);
    let shown = (window.tag(), *window.header(), window.bytes().len());
    unasked(&rt, &heap, &"shows", &shown, &(3, *built.header(), 0x1200));
    Ok(())
}
