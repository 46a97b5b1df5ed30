ghost use Rattle.test_helpers.specs.TableSteps.{IsAsTabled};
ghost use Rattle.std.specs.Prelude.{◌≡◌, take};

use ahci_port::DeviceStep;
use arrayvec::ArrayVec;

/// A step of the device that can be in a `static`: its tags are lent.
#[derive(Clone, Copy, Debug)]
pub enum TableStep {
    Accept(u8),
    /// Those from the 33rd on are left out.
    Serve(&'static [u8]),
    /// A tag fails with an error at an LBA.
    Fail(u8, u8, u64),
}

impl TableStep {
    /// The step, with its tags in a list of its own.
    pub fn of_device(self) -> DeviceStep
        ensures { IsAsTabled self result }
    {
        match self {
            TableStep::Accept(tag) => DeviceStep::Accept(tag),
            TableStep::Serve(tags) => DeviceStep::Serve(list_of(tags)),
            TableStep::Fail(tag, error, at) => DeviceStep::Fail { tag, error, at },
        }
    }
}

/// The first 32 of these tags.
fn list_of(tags: &[u8]) -> ArrayVec<u8, 32>
    ensures { result.items ≡ take 32 tags.now }
{
    let first = if tags.len() < 32 { tags } else { &tags[..32] };
    let mut list = ArrayVec::new();
    match list.try_extend_from_slice(first) {
        Ok(()) => list,
        Err(_) => unreachable!(),
    }
}

/// Every tag, rising.
pub const RISING: &[u8] = &[
    0, 1, 2, 3, 4, 5, 6, 7, 8, 9, 10, 11, 12, 13, 14, 15, 16, 17, 18, 19, 20, 21, 22, 23, 24, 25,
    26, 27, 28, 29, 30, 31,
];
