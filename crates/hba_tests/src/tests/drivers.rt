//! Recorded drivers, each from power-on to its data. What a read answers is what AHCI 1.3.1 and docs/LAYOUTS.md say of it.

use crate::tests::player::plays;
use crate::tests::{edk2, grub, linux, linux_error, seabios};
use std::test::Fail;

#[test]
fn seabios_reads_and_writes_sectors(rt: HostRuntime) -> Result<(), Fail> {
    plays(&rt, rt.alloc(), &seabios::STORY)
}

#[test]
fn grub_sets_a_bit_of_px_sact_for_each_command(rt: HostRuntime) -> Result<(), Fail> {
    plays(&rt, rt.alloc(), &grub::STORY)
}

#[test]
fn edk2_starts_and_stops_the_port_around_each_command(rt: HostRuntime) -> Result<(), Fail> {
    plays(&rt, rt.alloc(), &edk2::STORY)
}

#[test]
fn linux_resets_the_link_and_queues_commands(rt: HostRuntime) -> Result<(), Fail> {
    plays(&rt, rt.alloc(), &linux::STORY)
}

#[test]
fn linux_issues_again_what_an_error_has_dropped(rt: HostRuntime) -> Result<(), Fail> {
    plays(&rt, rt.alloc(), &linux_error::STORY)
}
