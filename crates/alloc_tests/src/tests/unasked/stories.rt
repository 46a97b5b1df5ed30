//! Stories of a port, in which memory is there for commands that are issued and for recoveries alone.
use super::unasked;
use crate::tests::heap::{Heap, grant_all, refuse_from};
use crate::tests::shown::look_at;
use ahci_port::{
    CollectFault, IssueFault, Outcome, PlainFault, Port, RecoverFault, ReissueFault, ResetFault,
    StepFault, Stepped, TrimFault,
};
use ahci_regs::RegFault;
use ahci_table::{Window, default_pieces};
use ncq_journal::{Bytes, Op};
use refusing_allocator::Refusing;
use std::process::Abort;
use std::test::Fail;
use test_helpers::TableStep::{Accept, Serve};
use test_helpers::{FAIL_1_AT_7, FAIL_1_AT_8, TableStep};

/// A call of a port.
#[derive(Clone, Copy, Debug)]
enum Call {
    /// A command of one sector: its tag and LBA, and a write's byte. With memory.
    Issue(u8, u64, Option<u8>),
    /// The same with none, for the window is there already.
    IssueInVain(u8, u64, Option<u8>),
    /// With memory.
    Recover,
    RecoverInVain,
    Step(TableStep),
    /// A request by its tag and number.
    Collect(u8, u64),
    Reissue(u8),
    Flush,
    Register(u32),
    Acknowledge(u32),
    /// The first byte of a sector.
    Sector(u64),
    Entries,
    Trim,
    Reset,
    /// How many blocks of memory are lent.
    Blocks,
}

/// What it answers.
#[derive(Clone, Copy, Debug, PartialEq)]
enum Said {
    Number(u64),
    NotIssued(IssueFault),
    Recovered(Result<u8, RecoverFault>),
    Stepped(Result<Stepped, StepFault>),
    /// The reply's number, entry and outcome, and the first byte of the window's data.
    Collected(u64, u64, Outcome, u8),
    NotCollected(CollectFault),
    Reissued(Result<(), ReissueFault>),
    Flushed(Result<(), PlainFault>),
    Word(Result<u32, RegFault>),
    /// How many entries were handed out.
    Trimmed(Result<u64, TrimFault>),
    WasReset(Result<u64, ResetFault>),
    Byte(u8),
    Nothing,
}

use Call::{
    Acknowledge, Blocks, Collect, Entries, Flush, Issue, IssueInVain, Recover, RecoverInVain,
    Register, Reissue, Reset, Sector, Step, Trim,
};
use Said::{Byte, Collected, NotCollected, NotIssued, Nothing, Number, Trimmed, Word};
use Stepped::{Accepted, Completed, Failed};

/// A call with its answer.
type Row = (Call, Said);

static STRANGERS: [Row; 18] = [
    (Issue(0, 0, Some(0x11)), Number(0)),
    (Trim, Trimmed(Err(TrimFault::Busy))),
    (Collect(0, 0), NotCollected(CollectFault::NotYet)),
    (Step(Accept(0)), Said::Stepped(Ok(Accepted(1)))),
    (
        Step(Serve(&[0])),
        Said::Stepped(Ok(Completed { first: 2, count: 1 })),
    ),
    (Collect(0, 0), Collected(0, 2, Outcome::Wrote, 0x11)),
    (Trim, Trimmed(Ok(4))),
    (Entries, Number(0)),
    (Collect(0, 0), NotCollected(CollectFault::Stranger)),
    (Issue(0, 0, None), Number(4)),
    (Collect(0, 0), NotCollected(CollectFault::Stranger)),
    (
        IssueInVain(1, 0, Some(0x22)),
        NotIssued(IssueFault::NoSuchTag),
    ),
    (
        IssueInVain(0, 0, Some(0x22)),
        NotIssued(IssueFault::SlotOwned),
    ),
    (
        Step(Serve(&[0])),
        Said::Stepped(Err(StepFault::NotAccepted)),
    ),
    (Step(Accept(0)), Said::Stepped(Ok(Accepted(5)))),
    (Step(Accept(0)), Said::Stepped(Err(StepFault::NotIssued))),
    (
        Step(Serve(&[0])),
        Said::Stepped(Ok(Completed { first: 6, count: 1 })),
    ),
    (Collect(0, 4), Collected(4, 6, Outcome::Read, 0x11)),
];

// A port has its image, the copy of it and its slots.
static RESETS: [Row; 21] = [
    (Blocks, Number(3)),
    (Reset, Said::WasReset(Ok(0))),
    (Issue(0, 0, Some(0x11)), Number(0)),
    (Issue(1, 7, Some(0x22)), Number(1)),
    (Issue(2, 0, None), Number(2)),
    (Step(Accept(0)), Said::Stepped(Ok(Accepted(3)))),
    (Step(Accept(1)), Said::Stepped(Ok(Accepted(4)))),
    (
        Step(Serve(&[0])),
        Said::Stepped(Ok(Completed { first: 5, count: 1 })),
    ),
    (Reset, Said::WasReset(Ok(6))),
    (Blocks, Number(3)),
    (Sector(0), Byte(0x11)),
    (Sector(7), Byte(0)),
    (Collect(0, 0), NotCollected(CollectFault::Stranger)),
    (Issue(1, 7, None), Number(6)),
    (Step(Accept(1)), Said::Stepped(Ok(Accepted(7)))),
    (Step(FAIL_1_AT_7), Said::Stepped(Ok(Failed(8)))),
    (Reset, Said::WasReset(Ok(3))),
    (Blocks, Number(3)),
    (RecoverInVain, Said::Recovered(Err(RecoverFault::NotHalted))),
    (Register(0x110), Word(Ok(0))),
    (Entries, Number(0)),
];

static ERROR_IN_A_QUEUE: [Row; 33] = [
    (Issue(0, 0, None), Number(0)),
    (Issue(1, 7, None), Number(1)),
    (Issue(2, 9, Some(0x5A)), Number(2)),
    (Step(Accept(0)), Said::Stepped(Ok(Accepted(3)))),
    (Step(Accept(1)), Said::Stepped(Ok(Accepted(4)))),
    (Step(Accept(2)), Said::Stepped(Ok(Accepted(5)))),
    (
        Step(FAIL_1_AT_8),
        Said::Stepped(Err(StepFault::OutsideCommand)),
    ),
    (Step(FAIL_1_AT_7), Said::Stepped(Ok(Failed(6)))),
    (Register(0x120), Word(Ok(0x4041))),
    (Register(0x134), Word(Ok(7))),
    (Register(0x138), Word(Ok(0))),
    (Register(0x110), Word(Ok(0x4000_0008))),
    (Step(Serve(&[0])), Said::Stepped(Err(StepFault::Halted))),
    (IssueInVain(3, 0, Some(1)), NotIssued(IssueFault::Halted)),
    (Flush, Said::Flushed(Err(PlainFault::Halted))),
    (Recover, Said::Recovered(Ok(1))),
    (Register(0x120), Word(Ok(0x40))),
    (Register(0x134), Word(Ok(0))),
    (Register(0x110), Word(Ok(2))),
    (Acknowledge(2), Nothing),
    (Register(0x110), Word(Ok(0))),
    (RecoverInVain, Said::Recovered(Err(RecoverFault::NotHalted))),
    (
        Collect(1, 1),
        Collected(
            1,
            6,
            Outcome::Failed {
                error: 0x40,
                lba: 7,
            },
            0,
        ),
    ),
    (Reissue(1), Said::Reissued(Err(ReissueFault::NotHeld))),
    (Reissue(0), Said::Reissued(Ok(()))),
    (Reissue(2), Said::Reissued(Ok(()))),
    (Step(Accept(0)), Said::Stepped(Ok(Accepted(11)))),
    (
        Step(Serve(&[0])),
        Said::Stepped(Ok(Completed {
            first: 12,
            count: 1,
        })),
    ),
    (Step(Accept(2)), Said::Stepped(Ok(Accepted(13)))),
    (
        Step(Serve(&[2])),
        Said::Stepped(Ok(Completed {
            first: 14,
            count: 1,
        })),
    ),
    (Collect(0, 0), Collected(0, 12, Outcome::Read, 0)),
    (Sector(9), Byte(0x5A)),
    (Entries, Number(16)),
];

static LISTS: [Row; 12] = [
    (Issue(0, 3, Some(0x11)), Number(0)),
    (Issue(1, 3, None), Number(1)),
    (Issue(2, 3, Some(0x22)), Number(2)),
    (Step(Accept(0)), Said::Stepped(Ok(Accepted(3)))),
    (Step(Accept(1)), Said::Stepped(Ok(Accepted(4)))),
    (Step(Accept(2)), Said::Stepped(Ok(Accepted(5)))),
    (Step(Serve(&[])), Said::Stepped(Err(StepFault::BadTags))),
    (
        Step(Serve(&[0, 2, 0])),
        Said::Stepped(Err(StepFault::BadTags)),
    ),
    (
        Step(Serve(&[0, 3])),
        Said::Stepped(Err(StepFault::NotAccepted)),
    ),
    (
        Step(Serve(&[2, 1, 0])),
        Said::Stepped(Ok(Completed { first: 6, count: 3 })),
    ),
    (Collect(1, 1), Collected(1, 7, Outcome::Read, 0x22)),
    (Sector(3), Byte(0x11)),
];

/// The window of a command of one sector over the default pieces.
fn window_of<'a>(
    heap: &'a Heap,
    tag: u8,
    lba: u64,
    byte: Option<u8>,
) -> Result<Window<&'a Heap>, Fail> {
    if tag >= 32 {
        return Err(Fail::new("no tag"));
    }
    let op = match byte {
        Some(byte) => Op::Write {
            lba,
            bytes: Bytes::from_vec(vec![in heap; byte; 512]?),
        },
        None => Op::Read { lba, sectors: 1 },
    };
    Ok(Window::build(heap, tag, &op, &default_pieces(1))?)
}

fn issues<'a>(port: &mut Port<&'a Heap>, window: Window<&'a Heap>) -> Said {
    match port.issue(window) {
        Ok(number) => Number(number),
        Err((_, fault)) => NotIssued(fault),
    }
}

fn collects(port: &mut Port<&Heap>, tag: u8, number: u64) -> Said {
    match port.collect(tag, number) {
        Ok((reply, window)) => {
            let byte = window.bytes().get(0x1000).copied().unwrap_or(0xEE);
            Collected(reply.number, reply.entry, reply.outcome, byte)
        }
        Err(fault) => NotCollected(fault),
    }
}

/// The first byte of a sector.
fn first_byte(port: &Port<&Heap>, lba: u64) -> Said {
    let mut sector = [0xEE; 512];
    if lba < u64::from(port.sectors()) {
        port.copy(lba, &mut sector);
    }
    Byte(sector[0])
}

/// Makes a call with no memory, but that a window is made before.
fn goes<'a>(heap: &'a Heap, port: &mut Port<&'a Heap>, call: Call) -> Result<Said, Fail> {
    Ok(match call {
        Issue(tag, lba, byte) => issues(port, window_of(heap, tag, lba, byte)?),
        IssueInVain(tag, lba, byte) => {
            let window = window_of(heap, tag, lba, byte)?;
            refuse_from(heap, 0);
            issues(port, window)
        }
        Recover | RecoverInVain => Said::Recovered(port.recover()),
        Step(step) => Said::Stepped(port.step(step.of_device())),
        Collect(tag, number) => collects(port, tag, number),
        Reissue(tag) => Said::Reissued(port.reissue(tag)),
        Flush => Said::Flushed(port.flush()),
        Register(off) => Word(port.register(off)),
        Acknowledge(mask) => {
            port.acknowledge(mask);
            Nothing
        }
        Sector(lba) => first_byte(port, lba),
        Entries => Number(port.journal().len()),
        Trim => Trimmed(port.trim().map(|journal| journal.len())),
        Reset => Said::WasReset(port.reset().map(|journal| journal.len())),
        Blocks => Number(heap.out()),
    })
}

/// Whether a call begins with memory at hand.
fn has_memory(call: Call) -> bool {
    matches!(call, Issue(..) | IssueInVain(..) | Recover)
}

/// Makes the calls of a table on a port over so many sectors of zeros.
fn plays(
    rt: &impl Abort,
    heap: &Heap,
    sectors: usize,
    depth: u32,
    rows: &[Row],
) -> Result<(), Fail> {
    let image = vec![in heap; 0; sectors.min(1_000) * 512]?;
    let mut port = Port::new(heap, image, depth)?;
    for (call, said) in rows {
        if has_memory(*call) {
            grant_all(heap);
        } else {
            refuse_from(heap, 0);
        }
        let found = goes(heap, &mut port, *call)?;
        if matches!(*call, Issue(..) | Recover) {
            refuse_from(heap, 0);
        }
        unasked(rt, heap, call, &found, said);
        let shown = look_at(&port);
        unasked(rt, heap, call, &shown.entries, &port.journal().len());
    }
    Ok(())
}

#[test]
fn strangers_are_refused_with_no_memory(rt: HostRuntime) -> Result<(), Fail> {
    let heap = Refusing::new(rt.alloc());
    plays(&rt, &heap, 8, 1, STRANGERS.as_slice())
}

#[test]
fn a_reset_takes_no_memory_and_gives_back_what_requests_held(rt: HostRuntime) -> Result<(), Fail> {
    let heap = Refusing::new(rt.alloc());
    plays(&rt, &heap, 8, 4, RESETS.as_slice())
}

#[test]
fn lists_are_served_with_no_memory(rt: HostRuntime) -> Result<(), Fail> {
    let heap = Refusing::new(rt.alloc());
    plays(&rt, &heap, 8, 4, LISTS.as_slice())
}

#[test]
fn an_error_in_a_queue_takes_memory_for_its_recovery_alone(rt: HostRuntime) -> Result<(), Fail> {
    let heap = Refusing::new(rt.alloc());
    plays(&rt, &heap, 1_000, 32, ERROR_IN_A_QUEUE.as_slice())
}
