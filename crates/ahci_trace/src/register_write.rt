//! The registers that software writes for a command.

ghost use Rattle.std.specs.Prelude.{◌≡◌, ◌<◌, IfOk};
ghost use Rattle.ahci_trace.specs.Writes.{issuing, recovering, sending, write, writes_by};

use ahci_regs::Register;
use ncq_journal::EventKind;
use std::alloc::{AllocError, Allocator};
use word_bits::place;

/// A word that software has written to a register.
#[derive(Clone, Copy, Debug)]
pub struct RegisterWrite {
    pub register: Register,
    pub word: u32,
}

/// FRE of PxCMD, with ST and without.
const RUNNING: u32 = 0x11;

const STOPPED: u32 = 0x10;

/// A write.
fn write(register: Register, word: u32) -> RegisterWrite
    ensures { result ≡ write register word }
{
    RegisterWrite { register, word }
}

/// Some writes.
fn list_of<A: Allocator>(
    alloc: A,
    writes: &[RegisterWrite],
) -> Result<Vec<RegisterWrite, A>, AllocError>
    ensures { IfOk result (λ list. list.items ≡ writes.now) }
{
    let mut list = Vec::new(alloc);
    list.extend_from_slice(writes)?;
    Ok(list)
}

/// The writes that issue the command of a slot; the port has 32.
fn issuing<A: Allocator>(alloc: A, tag: u8) -> Result<Vec<RegisterWrite, A>, AllocError>
    ensures { IfOk result (λ list. list.items ≡ issuing tag) }
{
    if tag >= 32 {
        return Ok(Vec::new(alloc));
    }
    list_of(
        alloc,
        &[
            write(Register::PxSact, place(tag)),
            write(Register::PxCi, place(tag)),
        ],
    )
}

/// The write that sends the command of slot 0 that is not queued.
fn sending<A: Allocator>(alloc: A) -> Result<Vec<RegisterWrite, A>, AllocError>
    ensures { IfOk result (λ list. list.items ≡ sending) }
{
    list_of(alloc, &[write(Register::PxCi, 1)])
}

/// The writes of a recovery, READ LOG EXT with them.
fn recovering<A: Allocator>(alloc: A) -> Result<Vec<RegisterWrite, A>, AllocError>
    ensures { IfOk result (λ list. list.items ≡ recovering) }
{
    list_of(
        alloc,
        &[
            write(Register::PxCmd, STOPPED),
            write(Register::PxSerr, u32::MAX),
            write(Register::PxIs, u32::MAX),
            write(Register::PxCmd, RUNNING),
            write(Register::PxCi, 1),
        ],
    )
}

/// What software has written to the registers for the command whose newest entry this is, one after the other.
pub(crate) fn writes_by<A: Allocator>(
    alloc: A,
    newest: Option<EventKind>,
) -> Result<Vec<RegisterWrite, A>, AllocError>
    ensures { IfOk result (λ list. list.items ≡ writes_by newest) }
{
    match newest {
        Some(EventKind::Issue { tag, .. }) => issuing(alloc, tag),
        Some(EventKind::Reissue(tag)) => issuing(alloc, tag),
        Some(EventKind::Recover(_)) => recovering(alloc),
        Some(EventKind::Plain(_)) => sending(alloc),
        _ => Ok(Vec::new(alloc)),
    }
}
