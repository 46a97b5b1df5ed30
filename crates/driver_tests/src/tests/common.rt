//! What the tests share: choosers, what receipts hold, bits of PxIS, and a wait for another thread.
ghost use Rattle.std.specs.Prelude.{◌≡◌, vec_len, IfOk};

use ahci_driver::{All, Chooser, High, Low, Receipt};
use ahci_port::DeviceStep;
use arrayvec::ArrayVec;
use std::alloc::{AllocError, Global};
use std::process::Abort;
use std::sync::atomic::AtomicBool;
use std::sync::atomic::Ordering::SeqCst;
use std::thread;
use test_helpers::{FAIL_0, TableStep};

/// A chooser for each worker, all of one way.
pub fn crowd(alloc: Global, one: Way, workers: u32) -> Result<Vec<Way>, AllocError>
    ensures { IfOk result (λ v. vec_len v ≡ workers) }
{
    let mut choosers = Vec::new(alloc);
    for worker in 0..workers {
        choosers.push(one.of_worker(worker))?;
    }
    Ok(choosers)
}

/// How a chooser goes about it.
#[derive(Clone, Copy, Debug, Drop)]
pub enum Way {
    Lowest,
    Highest,
    All,
    /// It knows one step.
    Always(TableStep),
    /// As the lowest, but that its second call fails tag 0 at sector 0; with the calls so far.
    FailsSecond(u8),
    /// Any step of any tag, by a generator with this state.
    Random(u64),
}

impl Way {
    /// What a worker gets: chance isn't the same for all.
    fn of_worker(self, worker: u32) -> Way {
        match self {
            Way::Random(state) => Way::Random(state.wrapping_add(u64::from(worker) << 32)),
            _ => self,
        }
    }
}

impl Chooser for Way {
    fn next(&mut self, issued: u32, accepted: u32) -> DeviceStep {
        match self {
            Way::Lowest => Low.next(issued, accepted),
            Way::Highest => High.next(issued, accepted),
            Way::All => All.next(issued, accepted),
            Way::Always(step) => step.of_device(),
            Way::FailsSecond(calls) => {
                *calls = calls.saturating_add(1);
                if *calls == 2 {
                    return FAIL_0.of_device();
                }
                Low.next(issued, accepted)
            }
            Way::Random(state) => {
                *state = state
                    .wrapping_mul(6_364_136_223_846_793_005)
                    .wrapping_add(1);
                random_step(*state >> 32)
            }
        }
    }
}

/// A step made of the low bits of a number.
fn random_step(bits: u64) -> DeviceStep {
    let tag = (bits % 33) as u8;
    match bits / 64 % 5 {
        0 | 1 => DeviceStep::Accept(tag),
        2 | 3 => DeviceStep::Serve(random_list(bits / 320)),
        _ => DeviceStep::Fail {
            tag,
            error: 0x40,
            at: bits / 512 % 9,
        },
    }
}

/// A list of up to 3 tags made of a number's digits.
fn random_list(digits: u64) -> ArrayVec<u8, 32> {
    let mut tags = ArrayVec::new();
    let mut rest = digits / 4;
    for _ in 0..digits % 4 {
        let _ = tags.try_push((rest % 33) as u8);
        rest /= 33;
    }
    tags
}

/// PxIS, of which a recovery alone clears bits: all of them, before it reads the log (AHCI 1.3.1, section 6.2.2).
pub const PXIS: u32 = 0x110;

/// Its bit of a Set Device Bits FIS, by which commands are completed (section 3.3.5).
pub const SDBS: u32 = 0x8;

/// Its bit of a PIO Setup FIS, by which READ LOG EXT is answered.
pub const PSS: u32 = 0x2;

/// Whether so many bytes are all the same one.
pub fn is_filled(bytes: &[u8], len: usize, byte: u8) -> bool {
    bytes.len() == len && bytes.iter().all(|b| *b == byte)
}

/// The byte that a receipt's one sector is filled with.
pub fn byte_of(receipt: &Receipt) -> Option<u8> {
    let bytes = receipt.bytes.as_slice();
    let first = *bytes.first()?;
    is_filled(bytes, 512, first).then_some(first)
}

/// Waits until another thread has raised a flag, and answers whether it has. It does not wait for ever: where threads can't be
/// made, nobody raises it.
pub fn waits_for(flag: &AtomicBool) -> bool {
    for _ in 0..1_000_000u32 {
        if flag.load(SeqCst) {
            return true;
        }
        thread::yield_now();
    }
    false
}
