//! Who decides what the device does next: the trait, and three choosers.

ghost use Rattle.std.specs.Prelude.{◌≡◌, ℕ};
ghost use Rattle.word_bits.specs.Places.{bits};
ghost use Rattle.ahci_port.specs.declared.step.DeviceStep.{DeviceStep};
ghost use Rattle.ahci_driver.specs.Choosing.{IsStepOfAll, IsHighestStep, IsLowestStep, tags_in};

use ahci_port::DeviceStep;
use arrayvec::ArrayVec;
use word_bits::{highest, is_set, lowest};

/// Who decides what the device does next.
pub trait Chooser {
    /// What a chooser may answer to two words, and what it is then. One that says nothing of it may answer anything.
    ghost gives: { Self → ℕ → ℕ → DeviceStep → Self → Type 0 } = { λ old issued accepted step new. Unit {0} };

    /// The next step, where these tags wait for the device and those are outstanding in it, as the bits of two words;
    /// one of them is not 0. A step that the port refuses gives way to that of `Low`.
    fn next(&mut self, issued: u32, accepted: u32) -> DeviceStep
        ensures { gives self.old issued accepted result self.new };
}

/// Serves the lowest tag that the device has, else accepts the lowest that waits.
#[derive(Clone, Copy, Debug, Drop)]
pub struct Low;

/// Serves the highest tag that the device has, else accepts the highest that waits.
#[derive(Clone, Copy, Debug, Drop)]
pub struct High;

/// Accepts the lowest tag that waits, else serves all tags that the device has, by one Set Device Bits FIS.
#[derive(Clone, Copy, Debug, Drop)]
pub struct All;

/// The step of `Low`: the lowest tag is served that the device has, or, where it has none, the lowest is accepted that
/// waits; tag 0, where none does.
#[tactic(auto, using(crate::proofs::ChoosingLemmas::lowest_is_some))]
pub(crate) fn lowest_step(issued: u32, accepted: u32) -> DeviceStep
    ensures { IsLowestStep issued accepted result }
{
    match (lowest(accepted), lowest(issued)) {
        (Some(tag), _) => DeviceStep::serve_one(tag),
        (None, Some(tag)) => DeviceStep::Accept(tag),
        (None, None) => DeviceStep::Accept(0),
    }
}

/// The same of the highest tags.
#[tactic(auto, using(crate::proofs::ChoosingLemmas::highest_is_some))]
fn highest_step(issued: u32, accepted: u32) -> DeviceStep
    ensures { IsHighestStep issued accepted result }
{
    match (highest(accepted), highest(issued)) {
        (Some(tag), _) => DeviceStep::serve_one(tag),
        (None, Some(tag)) => DeviceStep::Accept(tag),
        (None, None) => DeviceStep::Accept(0),
    }
}

/// The tags of a word, rising.
fn tags_in(word: u32) -> ArrayVec<u8, 32>
    ensures { result.items ≡ tags_in (bits word) }
{
    let mut tags = ArrayVec::new();
    for tag in 0..32u8 {
        if is_set(word, tag) {
            tags.push(tag);
        }
    }
    tags
}

impl Chooser for Low {
    ghost gives = { λ old issued accepted step new. IsLowestStep issued accepted step };

    fn next(&mut self, issued: u32, accepted: u32) -> DeviceStep {
        lowest_step(issued, accepted)
    }
}

impl Chooser for High {
    ghost gives = { λ old issued accepted step new. IsHighestStep issued accepted step };

    fn next(&mut self, issued: u32, accepted: u32) -> DeviceStep {
        highest_step(issued, accepted)
    }
}

impl Chooser for All {
    ghost gives = { λ old issued accepted step new. IsStepOfAll issued accepted step };

    fn next(&mut self, issued: u32, accepted: u32) -> DeviceStep {
        match lowest(issued) {
            Some(tag) => DeviceStep::Accept(tag),
            None => DeviceStep::Serve(tags_in(accepted)),
        }
    }
}
