//! Calls of a driver while another thread has the port's lock: each waits for it, and then does what it does.
ghost use Rattle.std.specs.Prelude.{◌≡◌};

use crate::tests::common::waits_for;
use ahci_driver::{Chooser, Driver, Low, Pumped, TagBoard, TagSeat, Ticket};
use ahci_port::{DeviceStep, Port, TrimFault};
use ncq_journal::Op;
use std::alloc::Global;
use std::process::Abort;
use std::sync::Wait;
use std::sync::atomic::AtomicBool;
use std::sync::atomic::Ordering::SeqCst;
use std::test::Fail;
use std::thread;
use std::thread::{Threads, join};
use word_bits::is_set;

const READ: Op = Op::Read { lba: 0, sectors: 1 };

/// Whether the device takes a step.
fn steps(rt: &impl Wait, driver: &Driver, chooser: &mut impl Chooser) -> bool {
    matches!(driver.pump(rt, chooser), Ok(Pumped::Stepped(_)))
}

/// How far two threads are.
#[derive(Drop)]
struct Flags {
    /// The first has the lock.
    held: AtomicBool,
    /// The second is about to call.
    calling: AtomicBool,
}

/// Serves as `Low`, but keeps the lock, under which it is asked, until the other thread calls, and for a while then.
#[derive(Drop)]
struct Slow<'a> {
    flags: &'a Flags,
}

impl<'a> Chooser for Slow<'a> {
    fn next(&mut self, issued: u32, accepted: u32) -> DeviceStep {
        self.flags.held.store(true, SeqCst);
        if waits_for(&self.flags.calling) {
            for _ in 0..2_000u32 {
                thread::yield_now();
            }
        }
        Low.next(issued, accepted)
    }
}

/// A call of the second thread.
#[derive(Clone, Copy, Debug)]
enum Call {
    /// Of the read that is done.
    Collect,
    Pump,
    Submit,
}

/// What the second thread has: a seat with the tags of two reads, of which the first is done, and the other waits for the device.
#[derive(Drop)]
struct Desk<'a> {
    driver: &'a Driver,
    seat: TagSeat,
    done: Ticket,
    ghost own: { seat.board ≡ driver.now },
}

impl<'a> Desk<'a> {
    /// Makes a call once the lock is held, and answers whether it did what it does.
    fn answers(self, rt: &impl Wait, alloc: Global, flags: &Flags, call: Call) -> bool {
        let Desk {
            driver,
            mut seat,
            done,
        } = self;
        waits_for(&flags.held);
        flags.calling.store(true, SeqCst);
        match call {
            Call::Collect => {
                is_set(seat.held(), done.tag()) && driver.collect(rt, &mut seat, done).is_ok()
            }
            Call::Pump => steps(rt, driver, &mut Low),
            Call::Submit => driver.submit(rt, alloc, &mut seat, &READ).is_ok(),
        }
    }
}

/// Submits two reads, of which the device completes the first.
fn desk_over<'a>(
    rt: &impl Wait,
    alloc: Global,
    driver: &'a Driver,
    mut seat: TagSeat,
) -> Result<Desk<'a>, Fail>
    requires { seat.board ≡ driver.now }
{
    let Ok(done) = driver.submit(rt, alloc, &mut seat, &READ) else {
        return Err(Fail::new("not submitted"));
    };
    if !steps(rt, driver, &mut Low) || !steps(rt, driver, &mut Low) {
        return Err(Fail::new("not completed"));
    }
    let Ok(_waiting) = driver.submit(rt, alloc, &mut seat, &READ) else {
        return Err(Fail::new("not submitted"));
    };
    Ok(Desk { driver, seat, done })
}

/// Has one thread pump with a slow chooser, and another make a call meanwhile. Either may have the lock first: their answers are
/// the same.
fn meets<R: Threads + Wait + Sync + Abort>(rt: &R, alloc: Global, call: Call) -> Result<(), Fail> {
    let flags = Flags {
        held: AtomicBool::new(false),
        calling: AtomicBool::new(false),
    };
    let port = Port::new(alloc, vec![in alloc; 0; 4096]?, 3)?;
    let (board, seat) = TagBoard::new(alloc, 3)?;
    let driver = Driver::new(port, board);
    let desk = desk_over(rt, alloc, &driver, seat)?;
    let (stepped, answered) = join(
        rt,
        || steps(rt, &driver, &mut Slow { flags: &flags }),
        || desk.answers(rt, alloc, &flags, call),
    );
    assert!(rt; stepped, "no step beside {call:?}");
    assert!(rt; answered, "{call:?} does not wait");
    Ok(())
}

#[test]
fn a_call_waits_for_the_lock_that_another_thread_has(rt: HostRuntime) -> Result<(), Fail> {
    for call in [Call::Collect, Call::Pump, Call::Submit] {
        meets(&rt, rt.alloc(), call)?;
    }
    Ok(())
}

/// Trims a port over and over.
fn trims(rt: &impl Wait, driver: &Driver) -> Result<(), TrimFault> {
    for _ in 0..64u32 {
        let _journal = driver.trim(rt)?;
    }
    Ok(())
}

// A trim copies the image under the lock, and this one is large, so that the threads meet there.
#[test]
fn a_free_port_is_not_busy_to_two_threads_that_trim_it(rt: HostRuntime) -> Result<(), Fail> {
    let alloc = rt.alloc();
    let port = Port::new(alloc, vec![in alloc; 0; 1 << 20]?, 1)?;
    let (board, _seat) = TagBoard::new(alloc, 1)?;
    let driver = Driver::new(port, board);
    let found = join(&rt, || trims(&rt, &driver), || trims(&rt, &driver));
    assert!(rt; found == (Ok(()), Ok(())), "{found:?}");
    Ok(())
}
