//! What the device does: it accepts commands, serves them and fails them.

ghost use Rattle.std.specs.Prelude.{◌≡◌, ◌≤◌, length};
ghost use Rattle.ahci_port.specs.{Faults.{step_refusal}, Refusals.{of_step}};
ghost use Rattle.ahci_ffi.specs.{Calls.{AnswersAccept, AnswersFail, AnswersServe}, Done.{HasStepped, Same}, Flat.{flat_step}, Status.{refused}, Told.{Told}};

use crate::flat::FlatStep;
use crate::status::Status;
use ahci_port::{DeviceStep, Port, Stepped};
use arrayvec::ArrayVec;
use sector_store::SectorStore;
use std::alloc::Allocator;

/// How many tags there are.
const MOST_TAGS: usize = 32;

/// The device takes a tag's command, or fails it where it passes the last sector.
pub fn accept<A: Allocator, S: SectorStore>(
    port: &mut Port<A, S>,
    tag: u32,
    done: &mut FlatStep,
) -> Status
    ensures { AnswersAccept tag result port.old port.new done.old done.new }
{
    if tag >= 32 {
        return Status::BadTag;
    }
    step(port, DeviceStep::Accept(tag as u8), done)
}

/// The device serves the commands of some tags, in the list's order.
pub fn serve<A: Allocator, S: SectorStore>(
    port: &mut Port<A, S>,
    tags: &[u8],
    done: &mut FlatStep,
) -> Status
    ensures { AnswersServe tags.now result port.old port.new done.old done.new }
{
    if tags.len() > MOST_TAGS {
        return Status::TooManyTags;
    }
    step(port, DeviceStep::Serve(listed(tags)), done)
}

/// A list of tags as the port takes it.
fn listed(tags: &[u8]) -> ArrayVec<u8, 32>
    requires { length tags.now ≤ 32 }
    ensures { result.items ≡ tags.now }
{
    let mut list = ArrayVec::new();
    list.try_extend_from_slice(tags).unwrap();
    list
}

/// The device fails a tag's accepted command, with an error byte at one of its sectors.
pub fn fail<A: Allocator, S: SectorStore>(
    port: &mut Port<A, S>,
    tag: u32,
    error: u8,
    lba: u64,
    done: &mut FlatStep,
) -> Status
    ensures { AnswersFail tag error lba result port.old port.new done.old done.new }
{
    if tag >= 32 {
        return Status::BadTag;
    }
    let tag = tag as u8;
    step(
        port,
        DeviceStep::Fail {
            tag,
            error,
            at: lba,
        },
        done,
    )
}

/// The device takes a step.
fn step<A: Allocator, S: SectorStore>(
    port: &mut Port<A, S>,
    step: DeviceStep,
    done: &mut FlatStep,
) -> Status
    ensures { Told result (refused of_step (step_refusal port.old step)) (HasStepped step port.old port.new done.new)
        (Same port.old port.new done.old done.new) }
{
    match port.step(step) {
        Ok(stepped) => {
            *done = flat_step(stepped);
            Status::Done
        }
        Err(fault) => Status::Refused(fault.into()),
    }
}

/// The step's entries, and what it was.
fn flat_step(stepped: Stepped) -> FlatStep
    ensures { result ≡ flat_step stepped }
{
    let (first, count, did) = match stepped {
        Stepped::Accepted(first) => (first, 1, 0),
        Stepped::Completed { first, count } => (first, count, 1),
        Stepped::Failed(first) => (first, 1, 2),
    };
    FlatStep { first, count, did }
}
