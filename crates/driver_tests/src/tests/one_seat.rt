//! One thread with one seat, as tables of calls: stories of commands that are done, that fail or are issued again, and each refusal.
ghost use Rattle.std.specs.Prelude.{◌≡◌};

use crate::tests::common::{PSS, PXIS, SDBS, Way, is_filled};
use Call::{Claim, Collect, FreeNow, Pump, PumpAll, Stubborn, Submit, Trim};
use Pumped::Stepped;
use Said::{Claimed, Collected, Did, Free, Refused, Trimmed, Waits};
use ahci_driver::{Driver, Pumped, SubmitFault, TagBoard, TagSeat, Ticket};
use ahci_port::Stepped::{Accepted, Completed, Failed};
use ahci_port::{CollectFault, IssueFault, Port, TrimFault};
use ncq_journal::Outcome;
use std::alloc::{AllocError, Global};
use std::process::Abort;
use std::sync::Wait;
use std::test::Fail;
use test_helpers::TableStep::Accept;
use test_helpers::{Job, TableStep};
use word_bits::is_set;

const FAILED: TableStep = TableStep::Fail(0, 0x40, 1);

/// A call of the driver.
#[derive(Clone, Copy, Debug)]
enum Call {
    Submit(Job),
    /// With a chooser that always answers `Accept(255)`.
    Stubborn,
    /// With `Low`.
    Pump,
    /// With `All`.
    PumpAll,
    /// With a chooser that always fails tag 0 at sector 1.
    Fail,
    Collect,
    /// Of a tag alone, as `submit` does before all else.
    Claim,
    Trim,
    FreeNow,
}

/// What it answers.
#[derive(Clone, Copy, Debug, PartialEq, Eq)]
enum Said {
    Ticket(u8, u64),
    Refused(SubmitFault),
    /// What a pump did.
    Did(Pumped),
    /// The reply's number, entry and outcome, how many bytes came, and the first of them.
    Collected(u64, u64, Outcome, usize, Option<u8>),
    Waits(CollectFault),
    Claimed(Option<u8>),
    /// How many entries were handed out.
    Trimmed(Result<u64, TrimFault>),
    Free(u32),
    Nothing,
}

/// A driver with one seat, and the last ticket, if it waits.
#[derive(Drop)]
struct Story {
    driver: Driver,
    seat: TagSeat,
    ticket: Option<Ticket>,
    ghost own: { seat.board ≡ driver },
}

impl Story {
    fn goes<R: Wait>(&mut self, rt: &R, alloc: Global, call: Call) -> Result<Said, AllocError> {
        Ok(match call {
            Call::Submit(job) => {
                let op = job.op(alloc)?;
                match self.driver.submit(rt, alloc, &mut self.seat, &op) {
                    Ok(ticket) => {
                        let said = Said::Ticket(ticket.tag(), ticket.number());
                        self.ticket = Some(ticket);
                        said
                    }
                    Err(fault) => Said::Refused(fault),
                }
            }
            Call::Stubborn => self.pumps(rt, Way::Always(Accept(255))),
            Call::Pump => self.pumps(rt, Way::Lowest),
            Call::PumpAll => self.pumps(rt, Way::All),
            Call::Fail => self.pumps(rt, Way::Always(FAILED)),
            Call::Collect => self.collects(rt),
            Call::Claim => Said::Claimed(self.driver.board().claim(&mut self.seat).ok()),
            Call::Trim => Said::Trimmed(self.driver.trim(rt).map(|journal| journal.len())),
            Call::FreeNow => Said::Free(self.driver.board().free_now(&mut self.seat)),
        })
    }

    fn pumps<R: Wait>(&mut self, rt: &R, mut chooser: Way) -> Said {
        self.driver
            .pump(rt, &mut chooser)
            .map_or(Said::Nothing, Said::Did)
    }

    fn collects<R: Wait>(&mut self, rt: &R) -> Said {
        let Some(ticket) = self.ticket.take() else {
            return Said::Nothing;
        };
        if !is_set(self.seat.held(), ticket.tag()) {
            return Said::Nothing;
        }
        match self.driver.collect(rt, &mut self.seat, ticket) {
            Ok((reply, bytes)) => {
                let first = bytes.first().copied();
                let whole = is_filled(&bytes, 512, first.unwrap_or(0)) || bytes.is_empty();
                let len = if whole { bytes.len() } else { 1 };
                Said::Collected(reply.number, reply.entry, reply.outcome, len, first)
            }
            Err((ticket, fault)) => {
                self.ticket = Some(ticket);
                Said::Waits(fault)
            }
        }
    }
}

static STORY: [(Call, Said); 13] = [
    (Submit(Job::Write(1, 0x77)), Said::Ticket(0, 0)),
    (Collect, Waits(CollectFault::NotYet)),
    (Stubborn, Did(Stepped(Accepted(1)))),
    (Stubborn, Did(Stepped(Completed { first: 2, count: 1 }))),
    (Stubborn, Did(Pumped::Idle)),
    (Collect, Collected(0, 2, Outcome::Wrote, 0, None)),
    (FreeNow, Free(3)),
    (Submit(Job::Read(1)), Said::Ticket(0, 4)),
    (Pump, Did(Stepped(Accepted(5)))),
    (Pump, Did(Stepped(Completed { first: 6, count: 1 }))),
    (Pump, Did(Pumped::Idle)),
    (Collect, Collected(4, 6, Outcome::Read, 512, Some(0x77))),
    (FreeNow, Free(3)),
];

fn equal(rt: &impl Abort, call: Call, found: Said, wanted: Said) {
    assert!(rt;
        found == wanted,
        "{call:?} answers {found:?}, not {wanted:?}"
    );
}

/// A port with two slots, whose journal's first entry has this number.
fn one_port(alloc: Global, first: u64) -> Result<Port, Fail> {
    let image = vec![in alloc; 0x5a; 4096]?;
    Ok(Port::resume(alloc, image, 2, first)?)
}

/// A driver of a port, all of whose tags are free.
fn over(alloc: Global, port: Port) -> Result<Story, Fail> {
    port.shape();
    let (board, seat) = TagBoard::new(alloc, port.depth())?;
    Ok(Story {
        driver: Driver::new(port, board),
        seat,
        ticket: None,
    })
}

/// Makes these calls, in this order.
fn goes_on<R: Wait + Abort>(
    rt: &R,
    alloc: Global,
    mut story: Story,
    calls: &[(Call, Said)],
) -> Result<Story, Fail> {
    for (call, wanted) in calls {
        equal(rt, *call, story.goes(rt, alloc, *call)?, *wanted);
    }
    Ok(story)
}

/// Makes these calls on a driver of a new port.
fn plays<R: Wait + Abort>(rt: &R, alloc: Global, calls: &[(Call, Said)]) -> Result<Story, Fail> {
    goes_on(rt, alloc, over(alloc, one_port(alloc, 0)?)?, calls)
}

/// Makes these calls on a driver of a new port, whose PxIS has this word then.
fn leaves<R: Wait + Abort>(
    rt: &R,
    alloc: Global,
    calls: &[(Call, Said)],
    interrupts: u32,
) -> Result<(), Fail> {
    let Story {
        driver,
        seat: _,
        ticket: _,
    } = plays(rt, alloc, calls)?;
    let (port, _board) = driver.into_parts();
    let found = port.register(PXIS);
    assert!(rt;
        found == Ok(interrupts),
        "PxIS is {found:?}, not {interrupts}"
    );
    Ok(())
}

#[test]
fn a_write_is_read_back_by_one_seat(rt: HostRuntime) -> Result<(), Fail> {
    let Story {
        driver,
        seat,
        ticket: _,
    } = plays(&rt, rt.alloc(), STORY.as_slice())?;
    let (port, board) = driver.into_parts();
    assert!(rt; board.close(seat) == 3);
    assert!(rt; port.journal().len() == 8);
    assert!(rt; port.register(PXIS) == Ok(SDBS));
    let mut sector = [0; 512];
    assert!(rt; port.sectors() == 8);
    port.starting(1, &mut sector);
    assert!(rt; is_filled(&sector, 512, 0x5a));
    port.copy(0, &mut sector);
    assert!(rt; is_filled(&sector, 512, 0x5a));
    Ok(())
}

static TOGETHER: [(Call, Said); 8] = [
    (Submit(Job::Write(1, 0x77)), Said::Ticket(0, 0)),
    (Submit(Job::Read(1)), Said::Ticket(1, 1)),
    (PumpAll, Did(Stepped(Accepted(2)))),
    (PumpAll, Did(Stepped(Accepted(3)))),
    (PumpAll, Did(Stepped(Completed { first: 4, count: 2 }))),
    (PumpAll, Did(Pumped::Idle)),
    (Collect, Collected(1, 5, Outcome::Read, 512, Some(0x77))),
    (FreeNow, Free(2)),
];

#[test]
fn all_completes_two_commands_by_one_pump(rt: HostRuntime) -> Result<(), Fail> {
    leaves(&rt, rt.alloc(), TOGETHER.as_slice(), SDBS)
}

static SUBMITTED_AFTER: [(Call, Said); 4] = [
    (Submit(Job::Write(1, 0x77)), Said::Ticket(0, 0)),
    (Pump, Did(Stepped(Accepted(1)))),
    (Pump, Did(Stepped(Completed { first: 2, count: 1 }))),
    (Submit(Job::Read(1)), Said::Ticket(1, 3)),
];

#[test]
fn a_command_is_submitted_without_acknowledging_the_last_one(rt: HostRuntime) -> Result<(), Fail> {
    leaves(&rt, rt.alloc(), SUBMITTED_AFTER.as_slice(), SDBS)
}

static HALTED: [(Call, Said); 8] = [
    (Submit(Job::Write(1, 0x77)), Said::Ticket(0, 0)),
    (Pump, Did(Stepped(Accepted(1)))),
    (Call::Fail, Did(Stepped(Failed(2)))),
    (
        Submit(Job::Read(1)),
        Refused(SubmitFault::Issue(IssueFault::Halted)),
    ),
    (FreeNow, Free(2)),
    (Pump, Did(Pumped::Recovered(0))),
    (
        Collect,
        Collected(
            0,
            2,
            Outcome::Failed {
                error: 0x40,
                lba: 1,
            },
            0,
            None,
        ),
    ),
    (FreeNow, Free(3)),
];

#[test]
fn a_halted_port_takes_no_command(rt: HostRuntime) -> Result<(), Fail> {
    leaves(&rt, rt.alloc(), HALTED.as_slice(), PSS)
}

static ISSUED_AGAIN: [(Call, Said); 10] = [
    (Submit(Job::Write(1, 0x77)), Said::Ticket(0, 0)),
    (Submit(Job::Read(1)), Said::Ticket(1, 1)),
    (Pump, Did(Stepped(Accepted(2)))),
    (Call::Fail, Did(Stepped(Failed(3)))),
    (Pump, Did(Pumped::Recovered(0))),
    (Pump, Did(Pumped::Reissued(1))),
    (Pump, Did(Stepped(Accepted(6)))),
    (Pump, Did(Stepped(Completed { first: 7, count: 1 }))),
    (Pump, Did(Pumped::Idle)),
    (Collect, Collected(1, 7, Outcome::Read, 512, Some(0x5a))),
];

#[test]
fn a_held_command_is_issued_again_by_a_pump_of_its_own(rt: HostRuntime) -> Result<(), Fail> {
    leaves(&rt, rt.alloc(), ISSUED_AGAIN.as_slice(), PSS | SDBS)
}

/// The last number that a journal may begin with.
const LAST: u64 = 1 << 63;

static SPENT: [(Call, Said); 7] = [
    (Trim, Trimmed(Ok(0))),
    (Submit(Job::Write(1, 0x77)), Said::Ticket(0, LAST)),
    (Trim, Trimmed(Err(TrimFault::Busy))),
    (Pump, Did(Stepped(Accepted(LAST + 1)))),
    (
        Pump,
        Did(Stepped(Completed {
            first: LAST + 2,
            count: 1,
        })),
    ),
    (Collect, Collected(LAST, LAST + 2, Outcome::Wrote, 0, None)),
    (Trim, Trimmed(Err(TrimFault::Spent))),
];

#[test]
fn a_busy_port_and_a_spent_one_are_not_trimmed(rt: HostRuntime) -> Result<(), Fail> {
    let alloc = rt.alloc();
    let story = over(alloc, one_port(alloc, LAST)?)?;
    let _story = goes_on(&rt, alloc, story, SPENT.as_slice())?;
    Ok(())
}

static TAKEN: [(Call, Said); 2] = [
    (
        Submit(Job::Read(1)),
        Refused(SubmitFault::Issue(IssueFault::SlotOwned)),
    ),
    (FreeNow, Free(3)),
];

#[test]
fn a_slot_that_was_owned_before_takes_no_command(rt: HostRuntime) -> Result<(), Fail> {
    let alloc = rt.alloc();
    let submitted = [(Submit(Job::Write(1, 0x77)), Said::Ticket(0, 0))];
    let Story {
        driver,
        seat: _,
        ticket: _,
    } = plays(&rt, alloc, submitted.as_slice())?;
    let (port, _board) = driver.into_parts();
    let _story = goes_on(&rt, alloc, over(alloc, port)?, TAKEN.as_slice())?;
    Ok(())
}

/// Stories of a driver, whose slot 0 has no request, and a read that is done.
static ANOTHERS: [&[(Call, Said)]; 2] = [
    &[(Claim, Claimed(Some(0)))],
    &[
        (Submit(Job::Read(1)), Said::Ticket(0, 0)),
        (Pump, Did(Stepped(Accepted(1)))),
        (Pump, Did(Stepped(Completed { first: 2, count: 1 }))),
    ],
];

#[test]
fn a_ticket_of_another_driver_is_a_stranger(rt: HostRuntime) -> Result<(), Fail> {
    let alloc = rt.alloc();
    let submitted = [(Submit(Job::Write(1, 0x77)), Said::Ticket(0, 0))];
    for calls in ANOTHERS {
        let Story {
            driver: _,
            seat: _,
            ticket,
        } = plays(&rt, alloc, submitted.as_slice())?;
        let mut story = plays(&rt, alloc, calls)?;
        story.ticket = ticket;
        let said = story.goes(&rt, alloc, Collect)?;
        equal(&rt, Collect, said, Waits(CollectFault::Stranger));
    }
    Ok(())
}
