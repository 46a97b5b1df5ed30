//! A run as JSON: its objects.

ghost use Rattle.std.specs.Prelude.{◌≡◌, ◌++◌, ◌≤◌, OnOk};
ghost use Rattle.ahci_driver.specs.Received.{received_of};
ghost use Rattle.ahci_script.specs.Results.{told};
ghost use Rattle.ahci_jobs.specs.Objects.{answer_member, job_members, job_object, number_members, sector_object};

use crate::text::line_of;
use ahci_driver::Receipt;
use ahci_script::{ResultLine, push_result};
use std::alloc::{AllocError, Allocator};
use streams::TextBuffer;

/// Appends the last member of an object, and its end.
#[tactic(auto, unfolding(crate::specs::Objects::answer_member))]
fn push_answer<A: Allocator>(
    text: &mut TextBuffer<A>,
    line: ResultLine<'_>,
) -> Result<(), AllocError>
    ensures { OnOk result (text.new.bytes ≡ text.old.bytes ++ answer_member (told line.entry)) }
{
    text.push(b",\"answer\":\"")?;
    push_result(text, line)?;
    text.push(b"\"}\n")
}

/// Appends which job it is, and which worker did it.
#[tactic(auto, unfolding(crate::specs::Objects::job_members))]
fn push_who<A: Allocator>(
    text: &mut TextBuffer<A>,
    workers: u32,
    job: u64,
) -> Result<(), AllocError>
    requires { 1 ≤ workers }
    ensures { OnOk result (text.new.bytes ≡ text.old.bytes ++ job_members workers job) }
{
    text.push_number(b"{\"job\":", job)?;
    text.push_number(b",\"worker\":", job % u64::from(workers))
}

/// Appends the numbers of a job's request and of its answer's entry.
#[tactic(auto, unfolding(crate::specs::Objects::number_members))]
fn push_numbers<A: Allocator, B: Allocator>(
    text: &mut TextBuffer<A>,
    receipt: &Receipt<B>,
) -> Result<(), AllocError>
    ensures { OnOk result (text.new.bytes ≡ text.old.bytes ++ number_members (received_of receipt.now)) }
{
    text.push_number(b",\"number\":", receipt.reply.number)?;
    text.push_number(b",\"entry\":", receipt.reply.entry)
}

/// Appends the object of a job.
#[tactic(auto, unfolding(crate::specs::Objects::job_object))]
pub(crate) fn push_object<A: Allocator, B: Allocator>(
    text: &mut TextBuffer<A>,
    workers: u32,
    job: u64,
    receipt: &Receipt<B>,
) -> Result<(), AllocError>
    requires { 1 ≤ workers }
    ensures { OnOk result (text.new.bytes ≡ text.old.bytes ++ job_object workers job (received_of receipt.now)) }
{
    push_who(text, workers, job)?;
    push_numbers(text, receipt)?;
    push_answer(text, line_of(receipt))
}

/// Appends the object of a sector, by its first byte.
#[tactic(auto, unfolding(crate::specs::Objects::sector_object))]
pub(crate) fn push_sector_object<A: Allocator>(
    text: &mut TextBuffer<A>,
    lba: u64,
    byte: u8,
) -> Result<(), AllocError>
    ensures { OnOk result (text.new.bytes ≡ text.old.bytes ++ sector_object lba byte) }
{
    text.push_number(b"{\"sector\":", lba)?;
    push_answer(text, ResultLine::Sector { lba, byte })
}
