//! The driver's calls, once a command is submitted.
ghost use Rattle.std.specs.Prelude.{◌≡◌};

use super::unasked;
use crate::tests::commands::{Command, op_of, port_of};
use crate::tests::heap::{Heap, grant_all, refuse_from};
use ahci_driver::{
    Driver, High, Low, Pumped, SubmitFault, TagBoard, TagSeat, Ticket, collect_locked, pump_locked,
    submit_locked,
};
use ahci_port::{CollectFault, Reply, Stepped};
use ncq_journal::Outcome;
use refusing_allocator::Refusing;
use std::process::Abort;
use std::sync::Wait;
use std::test::Fail;
use word_bits::is_set;

/// A driver with one seat, and the ticket that waits.
#[derive(Drop)]
struct Desk<'a> {
    driver: Driver<&'a Heap>,
    seat: TagSeat,
    ticket: Option<Ticket<&'a Heap>>,
    ghost own: { seat.board ≡ driver },
}

/// A call of the driver.
#[derive(Clone, Copy, Debug)]
enum Call {
    /// With memory.
    Submit(Command),
    /// With none, where no tag is free: nothing is made then.
    SubmitInVain(Command),
    Pump,
    Collect,
    FreeNow,
}

/// What it answers.
#[derive(Clone, Copy, Debug, PartialEq)]
enum Said {
    Submitted(Result<(u8, u64), SubmitFault>),
    Pumped(Option<Pumped>),
    /// The reply, and how many bytes came.
    Collected(Result<(Reply, usize), CollectFault>),
    Free(u32),
    Nothing,
}

static STORY: [(Call, Said); 13] = [
    (
        Call::Submit(Command::Write(0, 0x77)),
        Said::Submitted(Ok((0, 0))),
    ),
    (
        Call::SubmitInVain(Command::Read(0)),
        Said::Submitted(Err(SubmitFault::NoTag)),
    ),
    (Call::Collect, Said::Collected(Err(CollectFault::NotYet))),
    (
        Call::Pump,
        Said::Pumped(Some(Pumped::Stepped(Stepped::Accepted(1)))),
    ),
    (
        Call::Pump,
        Said::Pumped(Some(Pumped::Stepped(Stepped::Completed { first: 2, count: 1 }))),
    ),
    (Call::Pump, Said::Pumped(Some(Pumped::Idle))),
    (
        Call::Collect,
        Said::Collected(Ok((
            Reply {
                number: 0,
                entry: 2,
                outcome: Outcome::Wrote,
            },
            0,
        ))),
    ),
    (Call::FreeNow, Said::Free(1)),
    (Call::Submit(Command::Read(0)), Said::Submitted(Ok((0, 4)))),
    (
        Call::Pump,
        Said::Pumped(Some(Pumped::Stepped(Stepped::Accepted(5)))),
    ),
    (
        Call::Pump,
        Said::Pumped(Some(Pumped::Stepped(Stepped::Completed { first: 6, count: 1 }))),
    ),
    (
        Call::Collect,
        Said::Collected(Ok((
            Reply {
                number: 4,
                entry: 6,
                outcome: Outcome::Read,
            },
            512,
        ))),
    ),
    (Call::FreeNow, Said::Free(1)),
];

impl<'a> Desk<'a> {
    fn submits(
        &mut self,
        rt: &impl Wait,
        heap: &'a Heap,
        command: Command,
        is_in_vain: bool,
    ) -> Result<Said, Fail> {
        grant_all(heap);
        let op = op_of(heap, command)?;
        if is_in_vain {
            refuse_from(heap, 0);
        }
        let submitted = self.driver.submit(rt, heap, &mut self.seat, &op);
        Ok(Said::Submitted(match submitted {
            Ok(ticket) => {
                let shown = (ticket.tag(), ticket.number());
                self.ticket = Some(ticket);
                Ok(shown)
            }
            Err(fault) => Err(fault),
        }))
    }

    fn collects(&mut self, rt: &impl Wait) -> Said {
        let Some(ticket) = self.ticket.take() else {
            return Said::Nothing;
        };
        if !is_set(self.seat.held(), ticket.tag()) {
            return Said::Nothing;
        }
        match self.driver.collect(rt, &mut self.seat, ticket) {
            Ok((reply, bytes)) => Said::Collected(Ok((reply, bytes.len()))),
            Err((ticket, fault)) => {
                self.ticket = Some(ticket);
                Said::Collected(Err(fault))
            }
        }
    }

    fn goes(&mut self, rt: &impl Wait, heap: &'a Heap, call: Call) -> Result<Said, Fail> {
        Ok(match call {
            Call::Submit(command) => self.submits(rt, heap, command, false)?,
            Call::SubmitInVain(command) => self.submits(rt, heap, command, true)?,
            Call::Pump => Said::Pumped(self.driver.pump(rt, &mut Low).ok()),
            Call::Collect => self.collects(rt),
            Call::FreeNow => Said::Free(self.driver.board().free_now(&mut self.seat)),
        })
    }
}

fn desk_of<'a>(heap: &'a Heap) -> Result<Desk<'a>, Fail> {
    let port = port_of(heap, 1)?;
    let (board, seat) = TagBoard::new(heap, 1)?;
    refuse_from(heap, 0);
    port.shape();
    if port.depth() != 1 {
        return Err(Fail::new("no single slot"));
    }
    Ok(Desk {
        driver: Driver::new(port, board),
        seat,
        ticket: None,
    })
}

#[test]
fn pumps_and_collects_need_no_memory(rt: HostRuntime) -> Result<(), Fail> {
    let heap = Refusing::new(rt.alloc());
    let mut desk = desk_of(&heap)?;
    for (call, said) in STORY {
        refuse_from(&heap, 0);
        let found = desk.goes(&rt, &heap, call)?;
        if matches!(call, Call::Submit(_)) {
            refuse_from(&heap, 0);
        }
        unasked(&rt, &heap, &call, &found, &said);
    }
    let Desk {
        driver,
        seat,
        ticket: _,
    } = desk;
    let trimmed = driver.trim(&rt).map(|journal| journal.len());
    unasked(&rt, &heap, &"trim", &trimmed, &Ok(8));
    let (port, board) = driver.into_parts();
    let found = (board.close(seat), port.journal().len());
    unasked(&rt, &heap, &"into_parts", &found, &(1, 0));
    Ok(())
}

#[test]
fn under_the_lock_only_an_issue_needs_memory(rt: HostRuntime) -> Result<(), Fail> {
    let heap = Refusing::new(rt.alloc());
    let mut port = port_of(&heap, 4)?;
    let window = crate::tests::commands::window_of(&heap, Command::Read(3))?;
    let buffer = vec![in &heap; 0; 512]?;
    let Ok(ticket) = submit_locked(&mut port, window, buffer) else {
        return Err(Fail::new("not submitted"));
    };
    refuse_from(&heap, 0);
    let Err((ticket, fault)) = collect_locked(&mut port, ticket) else {
        return Err(Fail::new("collected too early"));
    };
    unasked(&rt, &heap, &"collect", &fault, &CollectFault::NotYet);
    for wanted in [
        Pumped::Stepped(Stepped::Accepted(1)),
        Pumped::Stepped(Stepped::Completed { first: 2, count: 1 }),
        Pumped::Idle,
    ] {
        let found = pump_locked(&mut port, &mut High).ok();
        unasked(&rt, &heap, &"pump", &found, &Some(wanted));
    }
    let Ok((reply, bytes)) = collect_locked(&mut port, ticket) else {
        return Err(Fail::new("not collected"));
    };
    let wanted = Reply {
        number: 0,
        entry: 2,
        outcome: Outcome::Read,
    };
    let is_filled = bytes.len() == 512 && bytes.iter().all(|b| *b == 0x5A);
    unasked(&rt, &heap, &"collect", &(reply, is_filled), &(wanted, true));
    Ok(())
}
