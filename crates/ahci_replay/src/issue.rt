//! How a script's commands are issued: by a window over the default pieces, or by one of any bytes.

ghost use Rattle.std.specs.Prelude.{◌≡◌, ◌<◌, ◌≤◌, ◌*◌, false, IfErr, IfOk, IsErr, IsOkAnd, None, OnErr, MatchOption, replicate};
ghost use Rattle.ncq_journal.specs.Work.{work_of, is_ragged, lba_of, sectors_of};
ghost use Rattle.ahci_port.specs.Faults.{submit_refusal};
ghost use Rattle.ahci_script.specs.Said.{said};
ghost use Rattle.ahci_replay.specs.Commands.{AnswersWindow, HasIssued, MayLackOn, RunsOn, issue_said};

use crate::refused::refused;
use crate::unanswered::Unanswered;
use crate::window::read_window;
use ahci_port::{IssueFault, PieceLayout, Port};
use ahci_script::{RawWindow, ScriptAnswer, ScriptCommand};
use ahci_table::Window;
use ncq_core::{MAX_SECTORS, SECTOR};
use ncq_journal::{Bytes, Op};
use std::alloc::{AllocError, Allocator};

/// Sectors that are filled with one byte.
pub(crate) fn uniform_sectors<A: Allocator>(
    alloc: A,
    sectors: u32,
    fill: u8,
) -> Result<Vec<u8, A>, AllocError>
    requires { sectors ≤ MAX_SECTORS }
    ensures { IfOk result (λ bytes. bytes.items ≡ replicate (sectors * SECTOR) fill) }
{
    vec![in alloc; fill; sectors as usize * SECTOR]
}

/// Issues a write. A command that is refused needs no data.
#[inline(never)]
pub(crate) fn write<A: Allocator + Copy>(
    port: &mut Port<A>,
    alloc: &A,
    tag: u8,
    lba: u64,
    sectors: u32,
    fill: u8,
) -> Result<ScriptAnswer<A>, Unanswered>
    requires { tag < 32 }
    ensures ok { IfOk result (λ answer. RunsOn port.old (ScriptCommand.Write tag lba sectors fill) port.new (said answer)) }
    ensures err { OnErr result (port.new ≡ port.old) }
    ensures why { IfErr result (λ e. e ≡ Unanswered.OutOfMemory) }
    ensures lacking { OnErr result (MayLackOn port.old (ScriptCommand.Write tag lba sectors fill)) }
{
    if let Some(fault) = port.submit_fault(tag, lba, u64::from(sectors)) {
        return refused(fault.into());
    }
    let bytes = Bytes::from_vec(uniform_sectors(*alloc, sectors, fill)?);
    submit(port, tag, Op::Write { lba, bytes })
}

/// Issues a read.
#[inline(never)]
pub(crate) fn read<A: Allocator + Copy>(
    port: &mut Port<A>,
    tag: u8,
    lba: u64,
    sectors: u32,
) -> Result<ScriptAnswer<A>, Unanswered>
    requires { tag < 32 }
    ensures ok { IfOk result (λ answer. RunsOn port.old (ScriptCommand.Read tag lba sectors) port.new (said answer)) }
    ensures err { OnErr result (port.new ≡ port.old) }
    ensures why { IfErr result (λ e. e ≡ Unanswered.OutOfMemory) }
    ensures lacking { OnErr result (MayLackOn port.old (ScriptCommand.Read tag lba sectors)) }
{
    if let Some(fault) = port.submit_fault(tag, lba, u64::from(sectors)) {
        return refused(fault.into());
    }
    submit(port, tag, Op::Read { lba, sectors })
}

/// Submits a command that has no fault.
fn submit<A: Allocator + Copy>(
    port: &mut Port<A>,
    tag: u8,
    op: Op<A>,
) -> Result<ScriptAnswer<A>, Unanswered>
    requires whole { is_ragged (work_of op) ≡ false }
    requires free { submit_refusal port.old tag (lba_of (work_of op)) (sectors_of (work_of op)) ≡ None }
    ensures ok { IfOk result (λ answer. HasIssued tag (work_of op) port.old port.new (said answer)) }
    ensures err { OnErr result (port.new ≡ port.old) }
    ensures why { IfErr result (λ e. e ≡ Unanswered.OutOfMemory) }
{
    match port.submit_tested(tag, op, false, PieceLayout::Default) {
        Ok(number) => Ok(ScriptAnswer::Issued(number)),
        Err((_op, refused)) => Err(refused.into()),
    }
}

/// Issues a window of any bytes.
#[inline(never)]
pub(crate) fn issue_raw<A: Allocator + Copy>(
    port: &mut Port<A>,
    alloc: &A,
    tag: u8,
    window: &RawWindow<'_>,
) -> Result<ScriptAnswer<A>, Unanswered>
    requires { tag < 32 }
    ensures ok { IfOk result (λ answer. RunsOn port.old (ScriptCommand.Raw tag window.now) port.new (said answer)) }
    ensures err { OnErr result (port.new ≡ port.old) }
    ensures why { IfErr result (λ e. e ≡ Unanswered.OutOfMemory) }
{
    issue_window(port, read_window(*alloc, tag, window)?)
}

/// Issues a window.
fn issue_window<A: Allocator + Copy>(
    port: &mut Port<A>,
    window: Window<A>,
) -> Result<ScriptAnswer<A>, Unanswered>
    ensures ok { IfOk result (λ answer. AnswersWindow window port.old port.new (said answer)) }
    ensures err { OnErr result (port.new ≡ port.old) }
    ensures why { IfErr result (λ e. e ≡ Unanswered.OutOfMemory) }
{
    told(port.issue(window))
}

/// What an issue is reported as.
fn told<A: Allocator>(
    issued: Result<u64, (Window<A>, IssueFault)>,
) -> Result<ScriptAnswer<A>, Unanswered>
    ensures why { IfErr result (λ e. e ≡ Unanswered.OutOfMemory) }
    ensures says { MatchOption (issue_said issued) (IsErr result) (λ says. IsOkAnd result (λ answer. said answer ≡ says)) }
{
    match issued {
        Ok(number) => Ok(ScriptAnswer::Issued(number)),
        Err((_window, fault)) => refused(fault.into()),
    }
}
