//! What software does.

ghost use Rattle.std.specs.Prelude.{◌≡◌, ⊤};
ghost use Rattle.ahci_ffi.specs.{
  Asked.{AnswersIssue},
  Calls.{AnswersCollect, AnswersFlush, AnswersIdentify, AnswersRecover, AnswersReissue, AnswersSubmit, AnswersTrim},
  Over.{Changes, Supersedes},
  PlaceView.{view_of},
};

use ahci_ffi::{FlatReply, Place, Status};
use std::alloc::Global;

/// Issues the command of a window as it lies in memory.
#[unsafe(no_mangle)]
pub extern "C" fn ahci_port_issue(
    port: &mut Place,
    heap: Global,
    tag: u32,
    header: &[u8],
    memory: &[u8],
    number: &mut u64,
) -> u32
    ensures { Supersedes result (view_of port.old) (view_of port.new) (number.new ≡ number.old)
        (λ answer old new. AnswersIssue tag header.now memory.now answer old new number.old number.new) }
{
    superseding!(
        port,
        heap,
        |held| ahci_ffi::issue(&mut held, heap, tag, header, memory, number)
    )
}

/// Issues a read or a write of whole sectors.
#[unsafe(no_mangle)]
pub extern "C" fn ahci_port_submit(
    port: &mut Place,
    heap: Global,
    tag: u32,
    kind: u32,
    lba: u64,
    sectors: u32,
    payload: &[u8],
    number: &mut u64,
) -> u32
    ensures { Supersedes result (view_of port.old) (view_of port.new) (number.new ≡ number.old)
        (λ answer old new. AnswersSubmit tag kind lba sectors payload.now answer old new number.old number.new) }
{
    superseding!(
        port,
        heap,
        |held| ahci_ffi::submit(&mut held, heap, tag, kind, lba, sectors, payload, number)
    )
}

/// Software recovers from a failure.
#[unsafe(no_mangle)]
pub extern "C" fn ahci_port_recover(port: &mut Place, heap: Global, tag: &mut u32) -> u32
    ensures { Supersedes result (view_of port.old) (view_of port.new) (tag.new ≡ tag.old)
        (λ answer old new. AnswersRecover answer old new tag.old tag.new) }
{
    superseding!(port, heap, |held| ahci_ffi::recover(&mut held, tag))
}

/// Software issues a held command again.
#[unsafe(no_mangle)]
pub extern "C" fn ahci_port_reissue(port: &mut Place, heap: Global, tag: u32) -> u32
    ensures { Supersedes result (view_of port.old) (view_of port.new) ⊤
        (λ answer old new. AnswersReissue tag answer old new) }
{
    superseding!(port, heap, |held| ahci_ffi::reissue(&mut held, tag))
}

/// Takes the answer of a request, and frees its slot.
#[unsafe(no_mangle)]
pub extern "C" fn ahci_port_collect(
    port: &mut Place,
    heap: Global,
    tag: u32,
    number: u64,
    reply: &mut FlatReply,
    out: &mut [u8],
) -> u32
    ensures { Changes result (view_of port.old) (view_of port.new) ((reply.new ≡ reply.old) × (out.new ≡ out.old))
        (λ answer old new. AnswersCollect tag number answer old new reply.old reply.new out.old out.new) }
{
    over!(
        port,
        heap,
        |held| ahci_ffi::collect(&mut held, tag, number, reply, out)
    )
}

/// Sends IDENTIFY DEVICE, and copies its page.
#[unsafe(no_mangle)]
pub extern "C" fn ahci_port_identify(port: &mut Place, heap: Global, out: &mut [u8]) -> u32
    ensures { Changes result (view_of port.old) (view_of port.new) (out.new ≡ out.old)
        (λ answer old new. AnswersIdentify answer old new out.old out.new) }
{
    over!(port, heap, |held| ahci_ffi::identify(&mut held, out))
}

/// Sends FLUSH CACHE EXT.
#[unsafe(no_mangle)]
pub extern "C" fn ahci_port_flush(port: &mut Place, heap: Global) -> u32
    ensures { Changes result (view_of port.old) (view_of port.new) ⊤
        (λ answer old new. AnswersFlush answer old new) }
{
    over!(port, heap, |held| ahci_ffi::flush(&mut held))
}

/// Throws the journal away where every slot is free.
#[unsafe(no_mangle)]
pub extern "C" fn ahci_port_trim(port: &mut Place, heap: Global, entries: &mut u64) -> u32
    ensures { Changes result (view_of port.old) (view_of port.new) (entries.new ≡ entries.old)
        (λ answer old new. AnswersTrim answer old new entries.old entries.new) }
{
    over!(port, heap, |held| ahci_ffi::trim(&mut held, entries))
}
