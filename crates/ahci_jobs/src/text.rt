//! What is written of a run, by its form: something of each job, in the order of the jobs, and then of each sector, rising; or the
//! journal.

ghost use Rattle.std.specs.Prelude.{◌≡◌, ◌++◌, ◌<◌, ◌≤◌, IfOk, OnOk, map};
ghost use Rattle.ahci_port.specs.PortView.{sectors_in};
ghost use Rattle.ahci_script.specs.Results.{told};
ghost use Rattle.ahci_driver.specs.Received.{received_of};
ghost use Rattle.ahci_jobs.specs.Forms.{job_in, jobs_in, parts_of, pieces_of, sector_in, written_of};
ghost use Rattle.ahci_jobs.specs.Results.{fed, is_blank, line_for};

use crate::form::Form;
use crate::objects::{push_object, push_sector_object};
use crate::script::script;
use ahci_driver::{Receipt, RunEnd};
use ahci_port::{Outcome, Port};
use ahci_script::{ResultLine, push_result};
use ncq_core::SECTOR;
use std::alloc::{AllocError, Allocator};
use streams::TextBuffer;

/// The line of a job's receipt.
pub(crate) fn line_of<A: Allocator>(receipt: &Receipt<A>) -> ResultLine<'_>
    ensures { told result ≡ line_for (received_of receipt.now).answer }
{
    match receipt.reply.outcome {
        Outcome::Read => ResultLine::Read(receipt.bytes.as_slice()),
        Outcome::Wrote => ResultLine::Wrote,
        Outcome::Failed { error, lba } => ResultLine::Failed { error, lba },
    }
}

/// Appends a line and its line feed.
fn push_line<A: Allocator>(text: &mut TextBuffer<A>, line: ResultLine<'_>) -> Result<(), AllocError>
    ensures { OnOk result (text.new.bytes ≡ text.old.bytes ++ fed (told line.entry)) }
{
    push_result(text, line)?;
    text.push(b"\n")
}

/// Appends what a form has of a job.
fn push_job<A: Allocator, B: Allocator>(
    text: &mut TextBuffer<A>,
    form: Form,
    workers: u32,
    job: u64,
    receipt: &Receipt<B>,
) -> Result<(), AllocError>
    requires { 1 ≤ workers }
    ensures { OnOk result (text.new.bytes ≡ text.old.bytes ++ job_in form workers job (received_of receipt.now)) }
{
    match form {
        Form::Text => push_line(text, line_of(receipt)),
        Form::Json => push_object(text, workers, job, receipt),
        Form::Journal | Form::Image => Ok(()),
    }
}

/// Appends what a form has of all jobs, in their order.
fn push_jobs<A: Allocator, B: Allocator>(
    text: &mut TextBuffer<A>,
    form: Form,
    workers: u32,
    replies: &[Receipt<B>],
) -> Result<(), AllocError>
    requires { 1 ≤ workers }
    ensures { OnOk result (text.new.bytes ≡ text.old.bytes ++ jobs_in form workers 0 (map received_of replies.now)) }
{
    for (job, receipt) in replies.iter().enumerate() {
        push_job(text, form, workers, job as u64, receipt)?;
    }
    Ok(())
}

/// Whether each byte is 0.
fn is_all_zero(bytes: &[u8]) -> bool
    ensures { result ≡ is_blank bytes.now }
{
    bytes.iter().all(|b| *b == 0)
}

/// Appends what a form has of a sector.
fn push_sector<A: Allocator>(
    text: &mut TextBuffer<A>,
    form: Form,
    lba: u64,
    bytes: &[u8; SECTOR],
) -> Result<(), AllocError>
    ensures { OnOk result (text.new.bytes ≡ text.old.bytes ++ sector_in form lba bytes.now) }
{
    let byte = bytes[0];
    match form {
        Form::Text | Form::Json if is_all_zero(bytes) => Ok(()),
        Form::Text => push_line(text, ResultLine::Sector { lba, byte }),
        Form::Json => push_sector_object(text, lba, byte),
        Form::Image => text.push(bytes),
        Form::Journal => Ok(()),
    }
}

/// Appends what a form has of all sectors, rising.
fn push_sectors<A: Allocator, B: Allocator>(
    text: &mut TextBuffer<A>,
    form: Form,
    port: &Port<B>,
) -> Result<(), AllocError>
    ensures { OnOk result (text.new.bytes ≡ text.old.bytes ++ pieces_of (sector_in form) port.now (sectors_in port.now)) }
{
    for lba in 0..port.sectors() {
        let mut bytes = [0; SECTOR];
        port.copy(u64::from(lba), &mut bytes);
        push_sector(text, form, u64::from(lba), &bytes)?;
    }
    Ok(())
}

/// What a form has of all jobs and sectors. Room for an image is asked for at once.
fn parts<A: Allocator, B: Allocator>(
    alloc: A,
    form: Form,
    workers: u32,
    end: &RunEnd<B>,
) -> Result<Vec<u8, A>, AllocError>
    requires { 1 ≤ workers }
    ensures { IfOk result (λ text. text.items ≡ parts_of form workers end.now.port (map received_of end.now.replies.items)) }
{
    let mut text = TextBuffer::new(alloc);
    if let Form::Image = form {
        text.reserve(end.port.sectors() as usize * SECTOR)?;
    }
    push_jobs(&mut text, form, workers, &end.replies)?;
    push_sectors(&mut text, form, &end.port)?;
    Ok(text.into_bytes())
}

/// All that is written of a run by so many workers, in this form.
pub(crate) fn text_of<A: Allocator, B: Allocator>(
    alloc: A,
    form: Form,
    workers: u32,
    end: &RunEnd<B>,
) -> Result<Vec<u8, A>, AllocError>
    requires { 1 ≤ workers }
    ensures { IfOk result (λ text. text.items ≡ written_of form workers end.now.port (map received_of end.now.replies.items)) }
{
    match form {
        Form::Journal => script(alloc, &end.port),
        Form::Text | Form::Json | Form::Image => parts(alloc, form, workers, end),
    }
}
