//! The calls of a port that may want memory: what they answer where it is refused, the state then, and what they answer
//! with memory.
use crate::tests::commands::{Command, image_of, op_of, port_of, window_of};
use crate::tests::heap::{Heap, Row, Tried, equal, grant_all, growths_of, refuse_from, tries_each};
use crate::tests::journal::ROOM;
use crate::tests::shown::{Shown, look_at};
use ahci_port::{
    DeviceStep, DiskFault, IssueFault, PlainFault, Port, RecoverFault, Stepped, SubmitFault,
};
use ahci_table::{Window, default_pieces};
use ncq_journal::Op;
use std::process::Abort;
use std::test::Fail;

/// The depth of a port, or why none is made.
type Made = Result<u32, DiskFault>;

const NO_PORT: Made = Err(DiskFault::OutOfMemory);

// How many growths a new port of each depth meets: one is the copy of the image; the slots are pushed one by one, so
// that there is room for 4 of them, and for 8, 16 and 32 where there are more.
static DEPTHS: [Row<u32, Made>; 8] = [
    Row(1, &[NO_PORT; 2], Ok(1), 0),
    Row(4, &[NO_PORT; 2], Ok(4), 0),
    Row(5, &[NO_PORT; 3], Ok(5), 0),
    Row(8, &[NO_PORT; 3], Ok(8), 0),
    Row(9, &[NO_PORT; 4], Ok(9), 0),
    Row(16, &[NO_PORT; 4], Ok(16), 0),
    Row(17, &[NO_PORT; 5], Ok(17), 0),
    Row(32, &[NO_PORT; 5], Ok(32), 0),
];

fn made(heap: &Heap, depth: u32, growth: usize) -> Result<Tried<Made>, Fail> {
    let image = image_of(heap)?;
    refuse_from(heap, growth);
    let port = Port::new(heap, image, depth);
    let mut tried = match &port {
        Ok(port) => Tried::of(Ok(port.depth()), growths_of(heap), 0),
        Err(fault) => Tried::of(Err(*fault), growths_of(heap), 0),
    };
    grant_all(heap);
    if port.is_err() {
        tried.again = Some(Ok(port_of(heap, depth)?.depth()));
    }
    Ok(tried)
}

#[test]
fn a_port_is_made_or_leaves_nothing_behind(rt: HostRuntime) -> Result<(), Fail> {
    tries_each(&rt, rt.alloc(), &DEPTHS, made)
}

/// A call of a port that may want memory, on one that has flushed so often before.
#[derive(Clone, Copy, Debug)]
enum Call {
    Issue(Command, u8),
    /// What the command asks is handed over.
    IssueAsked(Command, u8),
    Submit(Command, u8),
    Identify(u8),
    Flush(u8),
}

/// What it answers.
#[derive(Clone, Copy, Debug, PartialEq)]
enum Said {
    Issued(u64),
    NotIssued(IssueFault),
    NotSubmitted(SubmitFault),
    /// Word 75 of the page: the depth less one.
    Word([u8; 2]),
    Flushed,
    NotSent(PlainFault),
}

use Call::{Flush, Identify, Issue, IssueAsked, Submit};
use Command::{LongWrite, Read, UrgentRead, Write};
use Said::{Flushed, Issued, NotIssued, NotSent, NotSubmitted, Word};

const NOT_ISSUED: Said = NotIssued(IssueFault::OutOfMemory);

const NOT_SUBMITTED: Said = NotSubmitted(SubmitFault::Issue(IssueFault::OutOfMemory));

const NOT_SENT: Said = NotSent(PlainFault::OutOfMemory);

// A write has a copy of its bytes, which is the first growth, where they are not handed over. Room is for 129 entries beyond
// those that are there: a new journal makes 129, one with an entry makes twice as many, and that is room enough for the next ones.
// The window of a command that is submitted ends 4,096 bytes past the end of its data.
static CALLS: [Row<Call, Said>; 20] = [
    Row(Issue(Read(0), 0), &[NOT_ISSUED], Issued(0), ROOM),
    Row(Issue(Read(5), 1), &[NOT_ISSUED], Issued(1), 2 * ROOM),
    Row(Issue(Read(31), 3), &[], Issued(3), 0),
    Row(
        Issue(Write(0, 0x11), 0),
        &[NOT_ISSUED, NOT_ISSUED],
        Issued(0),
        512 + ROOM,
    ),
    Row(Issue(Write(31, 0x11), 2), &[NOT_ISSUED], Issued(2), 512),
    Row(Issue(UrgentRead(2), 0), &[NOT_ISSUED], Issued(0), ROOM),
    Row(
        Issue(LongWrite(31, 7), 0),
        &[NOT_ISSUED, NOT_ISSUED],
        Issued(0),
        131_072 + ROOM,
    ),
    Row(IssueAsked(Read(0), 0), &[NOT_ISSUED], Issued(0), ROOM),
    Row(
        IssueAsked(Write(5, 0x11), 1),
        &[NOT_ISSUED],
        Issued(1),
        2 * ROOM,
    ),
    Row(IssueAsked(Write(31, 0x11), 2), &[], Issued(2), 0),
    Row(
        Submit(Read(0), 0),
        &[NOT_SUBMITTED; 2],
        Issued(0),
        4_608 + ROOM,
    ),
    Row(
        Submit(Write(5, 0x11), 1),
        &[NOT_SUBMITTED; 2],
        Issued(1),
        4_608 + 2 * ROOM,
    ),
    Row(
        Submit(Write(31, 0x11), 2),
        &[NOT_SUBMITTED],
        Issued(2),
        4_608,
    ),
    Row(
        Submit(LongWrite(31, 7), 3),
        &[NOT_SUBMITTED],
        Issued(3),
        135_168,
    ),
    Row(Identify(0), &[NOT_SENT], Word([31, 0]), ROOM),
    Row(Identify(1), &[NOT_SENT], Word([31, 0]), 2 * ROOM),
    Row(Identify(2), &[], Word([31, 0]), 0),
    Row(Flush(0), &[NOT_SENT], Flushed, ROOM),
    Row(Flush(1), &[NOT_SENT], Flushed, 2 * ROOM),
    Row(Flush(2), &[], Flushed, 0),
];

/// Sends a command that is not queued.
fn sends(port: &mut Port<&Heap>, is_flush: bool) -> Said {
    if is_flush {
        return match port.flush() {
            Ok(()) => Flushed,
            Err(fault) => NotSent(fault),
        };
    }
    match port.identify() {
        Ok(page) => Word([page[150], page[151]]),
        Err(fault) => NotSent(fault),
    }
}

/// Sends it while growths are refused, and then with memory. A refusal leaves the port as it was.
fn tries_to_send(
    rt: &impl Abort,
    heap: &Heap,
    port: &mut Port<&Heap>,
    is_flush: bool,
    growth: usize,
) -> Tried<Said> {
    let before = look_at(port);
    refuse_from(heap, growth);
    let said = sends(port, is_flush);
    let mut tried = Tried::of(said, growths_of(heap), heap.bytes());
    grant_all(heap);
    if matches!(said, NotSent(_)) {
        equal(rt, &is_flush, growth, &look_at(port), &before);
        tried.again = Some(sends(port, is_flush));
    }
    tried
}

/// Whether two windows have the same tag, header and bytes.
pub fn are_same(window: &Window<&Heap>, other: &Window<&Heap>) -> bool {
    window.tag() == other.tag()
        && window.header() == other.header()
        && window.bytes() == other.bytes()
}

/// What came of an issue, and what a second one answers with memory. A refusal leaves the port and as many blocks as before, and
/// gives the window back as it was.
fn tried_issue<'a>(
    rt: &impl Abort,
    heap: &Heap,
    port: &mut Port<&'a Heap>,
    answer: Result<u64, (Window<&'a Heap>, IssueFault)>,
    copy: &Window<&'a Heap>,
    before: &(Shown, u64),
) -> Tried<Said> {
    let (asked, bytes) = (growths_of(heap), heap.bytes());
    grant_all(heap);
    match answer {
        Ok(number) => Tried::of(Issued(number), asked, bytes),
        Err((window, fault)) => {
            let left = ((look_at(port), heap.out()), are_same(&window, copy));
            equal(rt, &copy.tag(), 0, &left, &(*before, true));
            let mut tried = Tried::of(NotIssued(fault), asked, bytes);
            tried.again = Some(match port.issue(window) {
                Ok(number) => Issued(number),
                Err((_, fault)) => NotIssued(fault),
            });
            tried
        }
    }
}

/// Issues a command while growths are refused, and then with memory.
fn tries_to_issue<'a>(
    rt: &impl Abort,
    heap: &'a Heap,
    port: &mut Port<&'a Heap>,
    command: Command,
    growth: usize,
) -> Result<Tried<Said>, Fail> {
    let window = window_of(heap, command)?;
    let copy = window_of(heap, command)?;
    let before = (look_at(port), heap.out());
    refuse_from(heap, growth);
    let answer = port.issue(window);
    Ok(tried_issue(rt, heap, port, answer, &copy, &before))
}

/// The same where what the command asks is handed over. It is not given back, so a refused write has a block less.
fn tries_to_issue_asked<'a>(
    rt: &impl Abort,
    heap: &'a Heap,
    port: &mut Port<&'a Heap>,
    command: Command,
    growth: usize,
) -> Result<Tried<Said>, Fail> {
    let tag = command.tag();
    if tag >= 32 {
        return Err(Fail::new("no tag"));
    }
    let asked = op_of(heap, command)?;
    let blocks = u64::from(matches!(asked, Op::Write { .. }));
    let window = Window::build(heap, tag, &asked, &default_pieces(1))?;
    let copy = window_of(heap, command)?;
    let before = (look_at(port), heap.out().saturating_sub(blocks));
    refuse_from(heap, growth);
    let answer = port.issue_asked(window, asked);
    Ok(tried_issue(rt, heap, port, answer, &copy, &before))
}

/// What is said of a command that is submitted.
fn said_of<'a>(answer: Result<u64, (Op<&'a Heap>, SubmitFault)>) -> Said {
    match answer {
        Ok(number) => Issued(number),
        Err((_asked, fault)) => NotSubmitted(fault),
    }
}

/// Submits a command while growths are refused, and then with memory the one that came back.
fn tries_to_submit<'a>(
    rt: &impl Abort,
    heap: &'a Heap,
    port: &mut Port<&'a Heap>,
    command: Command,
    growth: usize,
) -> Result<Tried<Said>, Fail> {
    let asked = op_of(heap, command)?;
    let before = (look_at(port), heap.out());
    refuse_from(heap, growth);
    let answer = port.submit(command.tag(), asked);
    let (met, bytes) = (growths_of(heap), heap.bytes());
    grant_all(heap);
    let (asked, fault) = match answer {
        Ok(number) => return Ok(Tried::of(Issued(number), met, bytes)),
        Err(refused) => refused,
    };
    let left = (look_at(port), heap.out());
    equal(rt, &command, growth, &left, &before);
    let mut tried = Tried::of(NotSubmitted(fault), met, bytes);
    let again = port.submit(command.tag(), asked);
    tried.again = Some(said_of(again));
    Ok(tried)
}

/// A port of 32 slots that has flushed so often.
fn flushed<'a>(heap: &'a Heap, often: u8) -> Result<Port<&'a Heap>, Fail> {
    let mut port = port_of(heap, 32)?;
    for _ in 0..often {
        port.flush()?;
    }
    Ok(port)
}

fn tries(rt: &impl Abort, heap: &Heap, call: Call, growth: usize) -> Result<Tried<Said>, Fail> {
    match call {
        Call::Issue(command, often)
        | Call::IssueAsked(command, often)
        | Call::Submit(command, often) => {
            let mut port = flushed(heap, often)?;
            let tried = match call {
                Call::Issue(..) => tries_to_issue(rt, heap, &mut port, command, growth)?,
                Call::Submit(..) => tries_to_submit(rt, heap, &mut port, command, growth)?,
                _ => tries_to_issue_asked(rt, heap, &mut port, command, growth)?,
            };
            let owned = (port.owner(command.tag()), port.journal().len());
            let number = u64::from(often);
            equal(rt, &call, growth, &owned, &(Some(number), number + 1));
            Ok(tried)
        }
        Call::Identify(often) => {
            let mut port = flushed(heap, often)?;
            Ok(tries_to_send(rt, heap, &mut port, false, growth))
        }
        Call::Flush(often) => {
            let mut port = flushed(heap, often)?;
            Ok(tries_to_send(rt, heap, &mut port, true, growth))
        }
    }
}

#[test]
fn a_port_refused_memory_is_as_it_was_and_goes_on_with_memory(rt: HostRuntime) -> Result<(), Fail> {
    tries_each(&rt, rt.alloc(), &CALLS, |heap, call, growth| {
        tries(&rt, heap, call, growth)
    })
}

/// A port of so many slots whose last tag has failed.
pub fn halted<'a>(rt: &impl Abort, heap: &'a Heap, depth: u32) -> Result<Port<&'a Heap>, Fail> {
    let mut port = port_of(heap, depth)?;
    let tag = depth.clamp(1, 32) as u8 - 1;
    let Ok(_) = port.issue(window_of(heap, Command::Read(tag))?) else {
        return Err(Fail::new("not issued"));
    };
    let failure = DeviceStep::Fail {
        tag,
        error: 0x40,
        at: 0,
    };
    let steps = (port.step(DeviceStep::Accept(tag)), port.step(failure));
    let wanted = (Ok(Stepped::Accepted(1)), Ok(Stepped::Failed(2)));
    equal(rt, &depth, 0, &steps, &wanted);
    Ok(port)
}

/// Recovers while growths are refused, and then with memory. A refusal leaves the port as it was, which is halted.
fn tries_to_recover(
    rt: &impl Abort,
    heap: &Heap,
    depth: u32,
    growth: usize,
) -> Result<Tried<Result<u8, RecoverFault>>, Fail> {
    let mut port = halted(rt, heap, depth)?;
    let before = look_at(&port);
    refuse_from(heap, growth);
    let said = port.recover();
    let mut tried = Tried::of(said, growths_of(heap), heap.bytes());
    grant_all(heap);
    if said.is_err() {
        let left = (look_at(&port), port.halted());
        equal(rt, &depth, growth, &left, &(before, true));
        tried.again = Some(port.recover());
    }
    equal(
        rt,
        &depth,
        growth,
        &(port.halted(), port.journal().len()),
        &(false, 4),
    );
    Ok(tried)
}

// There are three entries, so that room for 129 more makes twice the 129 of the issue.
#[test]
fn a_port_refused_memory_is_still_halted_at_each_depth(rt: HostRuntime) -> Result<(), Fail> {
    for depth in 1..=32u32 {
        let rows = [Row(
            depth,
            &[Err(RecoverFault::OutOfMemory)],
            Ok((depth - 1) as u8),
            2 * ROOM,
        )];
        tries_each(&rt, rt.alloc(), &rows, |heap, depth, growth| {
            tries_to_recover(&rt, heap, depth, growth)
        })?;
    }
    Ok(())
}
