//! A command that is made ready before the port's lock is taken.

ghost use Rattle.std.specs.Prelude.{◌≡◌, ◌<◌, false, None, IfOk, IfErr, OnOk, OnErr};
ghost use Rattle.ncq_journal.specs.Work.{work_of, sectors_of};
ghost use Rattle.ahci_table.specs.{Build.{Carries}, Command.{op, queued_of}, Defaults.{default_list}, Fit.{IsFit}, Prdt.{pieces}};
ghost use Rattle.ahci_port.specs.{Faults.{RefusesIssue}, PortView.{next_number}, Steps.{IsIssued}};
ghost use Rattle.ahci_driver.specs.Submitting.{IsNotBuilt, buffer_for, default_refusal};

use crate::ticket::Ticket;
use ahci_port::{IssueFault, Port};
use ahci_table::{BuildFault, Command, PieceLayout, Window, default_fault};
use ncq_core::SECTOR;
use ncq_journal::{Bytes, Op};
use std::alloc::{AllocError, Allocator};

/// A command that is ready to be issued: its window with the command that it says, what the journal keeps of it, and the buffer for
/// its answer. All of it is made before the port's lock is taken.
#[derive(Drop)]
pub(crate) struct Ready<A: Allocator> {
    window: Window<A>,
    command: Command,
    asked: Op<A>,
    buffer: Vec<u8, A>,
}

impl<A: Allocator + Clone> Ready<A> {
    /// A command without FUA, in a window over the default pieces.
    ///
    /// # Errors
    /// Those of `default_fault`, and `OutOfMemory` where memory for the window, the buffer or the copy was refused.
    pub(crate) fn new(alloc: A, tag: u8, op: &Op<A>) -> Result<Self, BuildFault>
        requires { tag < 32 }
        ensures carries { IfOk result (λ r. Carries tag (work_of op.now) false (default_list (sectors_of (work_of op.now))) r.window) }
        ensures fit { IfOk result (λ r. IsFit r.window) }
        ensures queued { IfOk result (λ r. r.command.queued ≡ queued_of r.window) }
        ensures pieces { IfOk result (λ r. r.command.pieces.items ≡ pieces r.window) }
        ensures asked { IfOk result (λ r. work_of r.asked ≡ work_of op.now) }
        ensures buffer { IfOk result (λ r. r.buffer.items ≡ buffer_for (work_of op.now)) }
        ensures built { OnOk result (default_refusal (work_of op.now) ≡ None) }
        ensures fault { IfErr result (IsNotBuilt (work_of op.now)) }
    {
        if let Some(fault) = default_fault(op) {
            return Err(fault);
        }
        let (spare, other): (Result<A, AllocError>, Result<A, AllocError>) = (
            alloc.clone(),
            alloc.clone(),
        );
        let (window, command) = Window::over_layout(alloc, tag, op, false, PieceLayout::Default)?;
        match kept(spare, other, op) {
            Ok((asked, buffer)) => Ok(Ready {
                window,
                command,
                asked,
                buffer,
            }),
            Err(refused) => Err(refused.into()),
        }
    }

    /// Issues the command, on a port whose lock is held. What is asked goes into the journal as it is.
    ///
    /// # Errors
    /// Those of `Port::issue_built`.
    pub(crate) fn submit_locked(self, port: &mut Port<A>) -> Result<Ticket<A>, IssueFault>
        requires fit { IsFit self.window }
        requires queued { self.command.queued ≡ queued_of self.window }
        requires pieces { self.command.pieces.items ≡ pieces self.window }
        requires asked { work_of self.asked ≡ op self.window }
        ensures ticket { IfOk result (λ t. t ≡ record { tag = self.window.tag; number = next_number port.old; buffer = self.buffer.items }) }
        ensures issued { OnOk result (IsIssued self.window port.old port.new) }
        ensures fault { IfErr result (RefusesIssue port.old self.window) }
        ensures err { OnErr result (port.new ≡ port.old) }
    {
        let Ready {
            window,
            command,
            asked,
            buffer,
        } = self;
        let tag = window.tag();
        match port.issue_built(window, command, asked) {
            Ok(number) => Ok(Ticket {
                tag,
                number,
                buffer,
            }),
            Err((_window, fault)) => Err(fault),
        }
    }
}

/// What the journal keeps of a command, and the buffer for its answer, where there is memory for both.
fn kept<A: Allocator>(
    spare: Result<A, AllocError>,
    other: Result<A, AllocError>,
    op: &Op<A>,
) -> Result<(Op<A>, Vec<u8, A>), AllocError>
    ensures asked { IfOk result (λ kept. work_of kept.0 ≡ work_of op.now) }
    ensures buffer { IfOk result (λ kept. kept.1.items ≡ buffer_for (work_of op.now)) }
{
    let buffer = buffer_for(spare?, op)?;
    let asked = copied(other?, op)?;
    Ok((asked, buffer))
}

/// A copy of a command.
fn copied<A: Allocator>(alloc: A, op: &Op<A>) -> Result<Op<A>, AllocError>
    ensures { IfOk result (λ copy. work_of copy ≡ work_of op.now) }
{
    match op {
        Op::Read { lba, sectors } => Ok(Op::Read {
            lba: *lba,
            sectors: *sectors,
        }),
        Op::Write { lba, bytes } => {
            let bytes = Vec::from_slice(alloc, bytes.as_slice())?;
            Ok(Op::Write {
                lba: *lba,
                bytes: Bytes::from_vec(bytes),
            })
        }
    }
}

/// As many zeros as a command reads bytes.
fn buffer_for<A: Allocator>(alloc: A, op: &Op<A>) -> Result<Vec<u8, A>, AllocError>
    ensures { IfOk result (λ v. v.items ≡ buffer_for (work_of op.now)) }
{
    match op {
        Op::Read { sectors, .. } => Vec::from_elem(alloc, 0, *sectors as usize * SECTOR),
        Op::Write { .. } => Ok(Vec::new(alloc)),
    }
}
