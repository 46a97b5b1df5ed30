//! The driver's calls that may want memory, in a seat's hands and under the lock.
ghost use Rattle.std.specs.Prelude.{◌≡◌};

use crate::tests::commands::Command::{LongWrite, Read, UrgentRead, Write};
use crate::tests::commands::{Command, op_of, port_of, window_of};
use crate::tests::heap::{Heap, Row, Tried, equal, grant_all, growths_of, refuse_from, tries_each};
use crate::tests::journal::ROOM;
use crate::tests::ports::{are_same, halted};
use crate::tests::shown::look_at;
use ahci_driver::{
    BoardFault, Driver, Low, PumpFault, Pumped, SubmitFault, TagBoard, TagSeat, pump_locked,
    submit_locked,
};
use ahci_port::{IssueFault, Port};
use ahci_table::BuildFault;
use ncq_journal::Op;
use std::process::Abort;
use std::sync::Wait;
use std::test::Fail;

/// How many bytes the window of one sector has.
pub const WINDOW: u64 = 0x1200;

/// A board's tags, or why there is none.
fn made(heap: &Heap, depth: u32, growth: usize) -> Result<Tried<Result<u32, BoardFault>>, Fail> {
    if depth < 1 || depth > 32 {
        return Err(Fail::new("no depth"));
    }
    refuse_from(heap, growth);
    let said = match TagBoard::new(heap, depth) {
        Ok((board, seat)) => Ok(board.close(seat)),
        Err(fault) => Err(fault),
    };
    let mut tried = Tried::of(said, growths_of(heap), heap.bytes());
    grant_all(heap);
    if said.is_err() {
        let (board, seat) = TagBoard::new(heap, depth)?;
        tried.again = Some(Ok(board.close(seat)));
    }
    Ok(tried)
}

// The board's word of 8 bytes is one growth; the table's row of slots is another, of no bytes, since the board has none.
static BOARDS: [Row<u32, Result<u32, BoardFault>>; 3] = [
    Row(
        1,
        &[Err(BoardFault::OutOfMemory), Err(BoardFault::OutOfMemory)],
        Ok(1),
        8,
    ),
    Row(
        17,
        &[Err(BoardFault::OutOfMemory), Err(BoardFault::OutOfMemory)],
        Ok(0x1_FFFF),
        8,
    ),
    Row(
        32,
        &[Err(BoardFault::OutOfMemory), Err(BoardFault::OutOfMemory)],
        Ok(u32::MAX),
        8,
    ),
];

#[test]
fn a_board_is_made_or_leaves_nothing_behind(rt: HostRuntime) -> Result<(), Fail> {
    tries_each(&rt, rt.alloc(), &BOARDS, made)
}

/// A ticket's tag and number, or why there is none.
type Submitted = Result<(u8, u64), SubmitFault>;

const NO_WINDOW: Submitted = Err(SubmitFault::Build(BuildFault::OutOfMemory));

const NOT_ISSUED: Submitted = Err(SubmitFault::Issue(IssueFault::OutOfMemory));

// A read: the window and the buffer of its answer, and then the room of its entries. A write: the window and the copy of its bytes
// for the journal, which are made before the lock is taken, and then the room.
static COMMANDS: [Row<Command, Submitted>; 4] = [
    Row(
        Read(0),
        &[NO_WINDOW, NO_WINDOW, NOT_ISSUED],
        Ok((0, 0)),
        WINDOW + 512 + ROOM,
    ),
    Row(
        Write(0, 0x77),
        &[NO_WINDOW, NO_WINDOW, NOT_ISSUED],
        Ok((0, 0)),
        WINDOW + 512 + ROOM,
    ),
    Row(
        LongWrite(0, 0x77),
        &[NO_WINDOW, NO_WINDOW, NOT_ISSUED],
        Ok((0, 0)),
        0x1000 + 131_072 + 131_072 + ROOM,
    ),
    Row(
        UrgentRead(0),
        &[NO_WINDOW, NO_WINDOW, NOT_ISSUED],
        Ok((0, 0)),
        WINDOW + 512 + ROOM,
    ),
];

/// A driver of a port with four slots, with its one seat.
#[derive(Drop)]
struct Desk<'a> {
    driver: Driver<&'a Heap>,
    seat: TagSeat,
    ghost own: { seat.board ≡ driver },
}

fn desk_of<'a>(heap: &'a Heap, port: Port<&'a Heap>) -> Result<Desk<'a>, Fail> {
    port.shape();
    let depth = port.depth();
    let (board, seat) = TagBoard::new(heap, depth)?;
    Ok(Desk {
        driver: Driver::new(port, board),
        seat,
    })
}

impl<'a> Desk<'a> {
    /// Submits a command. The ticket is given up, and its buffer goes back.
    fn submits(&mut self, rt: &impl Wait, heap: &'a Heap, op: &Op<&'a Heap>) -> Submitted {
        match self.driver.submit(rt, heap, &mut self.seat, op) {
            Ok(ticket) => Ok((ticket.tag(), ticket.number())),
            Err(fault) => Err(fault),
        }
    }

    /// The tags that the seat holds, and those that are free.
    fn tags(&mut self) -> (u32, u32) {
        let free = self.driver.board().free_now(&mut self.seat);
        (self.seat.held(), free)
    }

    /// The tags that are free at the end, and how many entries the journal has.
    fn closes(self) -> (u32, u64) {
        let Desk { driver, seat } = self;
        let (port, board) = driver.into_parts();
        (board.close(seat), port.journal().len())
    }
}

/// Submits a command while growths are refused, and then with memory. A refusal leaves the seat's tags and the free ones as
/// they were, and nothing in the journal.
fn tries_to_submit<R: Wait + Abort>(
    rt: &R,
    heap: &Heap,
    command: Command,
    growth: usize,
) -> Result<Tried<Submitted>, Fail> {
    let op = op_of(heap, command)?;
    let mut desk = desk_of(heap, port_of(heap, 4)?)?;
    let before = (desk.tags(), heap.out());
    refuse_from(heap, growth);
    let said = desk.submits(rt, heap, &op);
    let mut tried = Tried::of(said, growths_of(heap), heap.bytes());
    grant_all(heap);
    if said.is_err() {
        let left = (desk.tags(), heap.out());
        equal(rt, &command, growth, &left, &before);
        tried.again = Some(desk.submits(rt, heap, &op));
    }
    equal(rt, &command, growth, &desk.tags(), &(1, 0xE));
    equal(rt, &command, growth, &desk.closes(), &(0xE, 1));
    Ok(tried)
}

#[test]
fn a_seat_refused_memory_holds_what_it_held(rt: HostRuntime) -> Result<(), Fail> {
    tries_each(&rt, rt.alloc(), &COMMANDS, |heap, call, growth| {
        tries_to_submit(&rt, heap, call, growth)
    })
}

const NOT_LOCKED: Result<(u8, u64), IssueFault> = Err(IssueFault::OutOfMemory);

// Under the lock the window and the buffer are there.
static LOCKED: [Row<Command, Result<(u8, u64), IssueFault>>; 2] = [
    Row(UrgentRead(3), &[NOT_LOCKED], Ok((3, 0)), ROOM),
    Row(
        Write(3, 0x77),
        &[NOT_LOCKED, NOT_LOCKED],
        Ok((3, 0)),
        512 + ROOM,
    ),
];

/// Submits a window and a buffer under the lock while growths are refused, and then with memory. A refusal leaves the port
/// as it was, and gives both back.
fn tries_to_submit_locked(
    rt: &impl Abort,
    heap: &Heap,
    command: Command,
    growth: usize,
) -> Result<Tried<Result<(u8, u64), IssueFault>>, Fail> {
    let mut port = port_of(heap, 4)?;
    let window = window_of(heap, command)?;
    let buffer = vec![in heap; 0xCC; 512]?;
    let copy = window_of(heap, command)?;
    let before = (look_at(&port), heap.out());
    refuse_from(heap, growth);
    let submitted = submit_locked(&mut port, window, buffer);
    let (asked, bytes) = (growths_of(heap), heap.bytes());
    grant_all(heap);
    Ok(match submitted {
        Ok(ticket) => Tried::of(Ok((ticket.tag(), ticket.number())), asked, bytes),
        Err((window, buffer, fault)) => {
            let left = ((look_at(&port), heap.out()), are_same(&window, &copy));
            equal(rt, &command, growth, &left, &(before, true));
            let is_kept = buffer.len() == 512 && buffer.iter().all(|b| *b == 0xCC);
            equal(rt, &command, growth, &is_kept, &true);
            let mut tried = Tried::of(Err(fault), asked, bytes);
            tried.again = Some(match submit_locked(&mut port, window, buffer) {
                Ok(ticket) => Ok((ticket.tag(), ticket.number())),
                Err((_window, _buffer, fault)) => Err(fault),
            });
            tried
        }
    })
}

#[test]
fn under_the_lock_window_and_buffer_come_back(rt: HostRuntime) -> Result<(), Fail> {
    tries_each(&rt, rt.alloc(), &LOCKED, |heap, call, growth| {
        tries_to_submit_locked(&rt, heap, call, growth)
    })
}

/// Pumps a halted port under the lock while growths are refused, and then with memory. A refusal leaves it halted, as it
/// was.
fn tries_to_pump_locked(
    rt: &impl Abort,
    heap: &Heap,
    depth: u32,
    growth: usize,
) -> Result<Tried<Result<Pumped, PumpFault>>, Fail> {
    let mut port = halted(rt, heap, depth)?;
    let before = look_at(&port);
    refuse_from(heap, growth);
    let said = pump_locked(&mut port, &mut Low);
    let mut tried = Tried::of(said, growths_of(heap), heap.bytes());
    grant_all(heap);
    if said.is_err() {
        equal(rt, &depth, growth, &look_at(&port), &before);
        tried.again = Some(pump_locked(&mut port, &mut Low));
    }
    Ok(tried)
}

/// The same by a driver, which is taken apart to look at the port.
fn tries_to_pump<R: Wait + Abort>(
    rt: &R,
    heap: &Heap,
    depth: u32,
    growth: usize,
) -> Result<Tried<Result<Pumped, PumpFault>>, Fail> {
    let port = halted(rt, heap, depth)?;
    let before = look_at(&port);
    let desk = desk_of(heap, port)?;
    refuse_from(heap, growth);
    let said = desk.driver.pump(rt, &mut Low);
    let mut tried = Tried::of(said, growths_of(heap), heap.bytes());
    grant_all(heap);
    if said.is_err() {
        let (port, _board) = desk.driver.into_parts();
        equal(rt, &depth, growth, &look_at(&port), &before);
        let desk = desk_of(heap, port)?;
        tried.again = Some(desk.driver.pump(rt, &mut Low));
    }
    Ok(tried)
}

// A recovery makes room: there are three entries, and room for 129 more makes twice the 129 of the issue.
#[test]
fn a_pump_refused_memory_leaves_the_port_halted(rt: HostRuntime) -> Result<(), Fail> {
    for depth in [1, 16, 32u32] {
        let rows = [Row(
            depth,
            &[Err(PumpFault::OutOfMemory)],
            Ok(Pumped::Recovered((depth - 1) as u8)),
            2 * ROOM,
        )];
        tries_each(&rt, rt.alloc(), &rows, |heap, depth, growth| {
            tries_to_pump_locked(&rt, heap, depth, growth)
        })?;
        tries_each(&rt, rt.alloc(), &rows, |heap, depth, growth| {
            tries_to_pump(&rt, heap, depth, growth)
        })?;
    }
    Ok(())
}
