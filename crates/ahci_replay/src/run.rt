//! Commands on a port, each with its answer.

ghost use Rattle.std.specs.Prelude.{◌≡◌, IfErr, IfOk, None, OnErr, Some, false};
ghost use Rattle.std.specs.Option.{option_map};
ghost use Rattle.ahci_port.specs.{Faults.{step_refusal}, Refusals.{of_step}};
ghost use Rattle.ahci_script.specs.Lines.{HasSmallTag};
ghost use Rattle.ahci_script.specs.Said.{said};
ghost use Rattle.ahci_replay.specs.Commands.{HasStepped, MayLackOn, MayRunOn, RefusedOr, RunsOn, is_in_place, word_in};
ghost use Rattle.ahci_replay.specs.Refusals.{refusal_on};

use crate::answer::{collected, stepped};
use crate::issue::{issue_raw, read, write};
use crate::refused::refused;
use crate::unanswered::Unanswered;
use ahci_port::{DeviceStep, Port};
use ahci_script::{Refusal, ScriptAnswer, ScriptCommand};
use std::alloc::Allocator;

/// Runs a command on the port.
// What takes more than a few values has a frame of its own, which is cleared when it is entered: so it stays a call, and a line
// that needs none of it does not pay.
#[inline(always)]
pub(crate) fn run_on<A: Allocator + Copy>(
    port: &mut Port<A>,
    alloc: &A,
    command: ScriptCommand<'_>,
) -> Result<ScriptAnswer<A>, Unanswered>
    requires { HasSmallTag command }
    ensures ok { IfOk result (λ answer. RunsOn port.old command.entry port.new (said answer)) }
    ensures misplaced { IfErr result (λ e. e ≡ Unanswered.OutOfPlace → is_in_place (Some port.old) command.entry ≡ false) }
    ensures refused { is_in_place (Some port.old) command.entry ≡ false → result ≡ Err Unanswered.OutOfPlace }
    ensures kept { is_in_place (Some port.old) command.entry ≡ false → port.new ≡ port.old }
    ensures err { OnErr result (MayRunOn port.old command.entry port.new) }
    ensures lacking { IfErr result (λ e. e ≡ Unanswered.OutOfMemory → MayLackOn port.old command.entry) }
{
    match command {
        ScriptCommand::Disk { .. } => Err(Unanswered::OutOfPlace),
        ScriptCommand::Write {
            tag,
            lba,
            sectors,
            fill,
        } => write(port, alloc, tag, lba, sectors, fill),
        ScriptCommand::Read { tag, lba, sectors } => read(port, tag, lba, sectors),
        ScriptCommand::Raw { tag, window } => issue_raw(port, alloc, tag, &window),
        ScriptCommand::Accept { tag } => Ok(step(port, DeviceStep::Accept(tag))),
        ScriptCommand::Serve { tags } => Ok(step(port, DeviceStep::Serve(tags))),
        ScriptCommand::Fail { tag, error, lba } => {
            let at = lba;
            Ok(step(port, DeviceStep::Fail { tag, error, at }))
        }
        ScriptCommand::Collect { tag, number } => collect(port, alloc, tag, number),
        ScriptCommand::Recover => recover(port),
        ScriptCommand::Reissue { tag } => Ok(reissue(port, tag)),
        ScriptCommand::Identify { word } => identify(port, word),
        ScriptCommand::Flush => flush(port),
        ScriptCommand::Reg { off } => Ok(register(port, off)),
        ScriptCommand::Ack { mask } => Ok(acknowledge(port, mask)),
        ScriptCommand::Show { lba } => Ok(show(port, lba)),
        ScriptCommand::Journal => Ok(ScriptAnswer::Journal(port.journal().len())),
        ScriptCommand::Trim => Ok(trim(port)),
    }
}

/// Lets the device take a step.
#[tactic(auto, using(crate::proofs::SteppingLemmas::ends_at))]
fn step<A: Allocator + Copy>(port: &mut Port<A>, step: DeviceStep) -> ScriptAnswer<A>
    ensures { RefusedOr (option_map of_step (step_refusal port.old step)) port.old port.new (said result)
        (HasStepped step port.old port.new (said result)) }
{
    match port.step(step) {
        Ok(done) => stepped(done, port.journal().end()),
        Err(fault) => ScriptAnswer::Refused(fault.into()),
    }
}

/// Collects a request. Where memory is refused for the bytes of a read, it is collected all the same.
#[inline(never)]
fn collect<A: Allocator + Copy>(
    port: &mut Port<A>,
    alloc: &A,
    tag: u8,
    number: u64,
) -> Result<ScriptAnswer<A>, Unanswered>
    ensures ok { IfOk result (λ answer. RunsOn port.old (ScriptCommand.Collect tag number) port.new (said answer)) }
    ensures err { OnErr result (MayRunOn port.old (ScriptCommand.Collect tag number) port.new) }
    ensures why { IfErr result (λ e. e ≡ Unanswered.OutOfMemory) }
    ensures lacking { OnErr result (refusal_on port.old (ScriptCommand.Collect tag number) ≡ None) }
{
    match port.collect_with_pieces(tag, number) {
        Ok((reply, list, window)) => collected(*alloc, reply, &list, &window),
        Err(fault) => Ok(ScriptAnswer::Refused(fault.into())),
    }
}

/// Recovers from a failure.
#[tactic(auto, using(crate::proofs::SessionLemmas::nothing_stands_against))]
#[inline(never)]
fn recover<A: Allocator + Copy>(port: &mut Port<A>) -> Result<ScriptAnswer<A>, Unanswered>
    ensures ok { IfOk result (λ answer. RunsOn port.old ScriptCommand.Recover port.new (said answer)) }
    ensures err { OnErr result (port.new ≡ port.old) }
    ensures why { IfErr result (λ e. e ≡ Unanswered.OutOfMemory) }
    ensures lacking { OnErr result (refusal_on port.old ScriptCommand.Recover ≡ None) }
{
    match port.recover() {
        Ok(tag) => Ok(ScriptAnswer::Recovered(tag)),
        Err(fault) => refused(fault.into()),
    }
}

/// Issues a held command again.
#[inline(never)]
fn reissue<A: Allocator + Copy>(port: &mut Port<A>, tag: u8) -> ScriptAnswer<A>
    ensures { RunsOn port.old (ScriptCommand.Reissue tag) port.new (said result) }
{
    match port.reissue(tag) {
        Ok(()) => ScriptAnswer::Reissued(tag),
        Err(fault) => ScriptAnswer::Refused(fault.into()),
    }
}

/// Shows a word of the page that IDENTIFY DEVICE reads.
#[tactic(auto, using(crate::proofs::SessionLemmas::nothing_stands_against))]
#[inline(never)]
fn identify<A: Allocator + Copy>(
    port: &mut Port<A>,
    word: u8,
) -> Result<ScriptAnswer<A>, Unanswered>
    ensures ok { IfOk result (λ answer. RunsOn port.old (ScriptCommand.Identify word) port.new (said answer)) }
    ensures err { OnErr result (port.new ≡ port.old) }
    ensures why { IfErr result (λ e. e ≡ Unanswered.OutOfMemory) }
    ensures lacking { OnErr result (refusal_on port.old (ScriptCommand.Identify word) ≡ None) }
{
    match port.identify() {
        Ok(page) => {
            let value = word_in(&page, word);
            Ok(ScriptAnswer::Word { word, value })
        }
        Err(fault) => refused(fault.into()),
    }
}

/// A word of a page, whose low byte comes first.
fn word_in(page: &[u8; 512], word: u8) -> u16
    ensures { result ≡ word_in page.now word }
{
    let at = 2 * usize::from(word);
    u16::from_le_bytes([page[at], page[at + 1]])
}

/// Sends FLUSH CACHE EXT.
#[tactic(auto, using(crate::proofs::SessionLemmas::nothing_stands_against))]
#[inline(never)]
fn flush<A: Allocator + Copy>(port: &mut Port<A>) -> Result<ScriptAnswer<A>, Unanswered>
    ensures ok { IfOk result (λ answer. RunsOn port.old ScriptCommand.Flush port.new (said answer)) }
    ensures err { OnErr result (port.new ≡ port.old) }
    ensures why { IfErr result (λ e. e ≡ Unanswered.OutOfMemory) }
    ensures lacking { OnErr result (refusal_on port.old ScriptCommand.Flush ≡ None) }
{
    match port.flush() {
        Ok(()) => Ok(ScriptAnswer::Flushed),
        Err(fault) => refused(fault.into()),
    }
}

/// Hands the journal out, which ends here.
// Apart from the commands that come by the million: what it moves is large.
#[inline(never)]
fn trim<A: Allocator + Copy>(port: &mut Port<A>) -> ScriptAnswer<A>
    ensures { RunsOn port.old ScriptCommand.Trim port.new (said result) }
{
    // What is handed on is an image of as many sectors.
    port.shape();
    match port.trim() {
        Ok(journal) => ScriptAnswer::Trimmed(journal.len()),
        Err(fault) => ScriptAnswer::Refused(fault.into()),
    }
}

/// Shows a register's word.
fn register<A: Allocator + Copy>(port: &Port<A>, off: u32) -> ScriptAnswer<A>
    ensures { RunsOn port.now (ScriptCommand.Reg off) port.now (said result) }
{
    match port.register(off) {
        Ok(word) => ScriptAnswer::Register(word),
        Err(fault) => ScriptAnswer::Refused(fault.into()),
    }
}

/// Acknowledges interrupts.
fn acknowledge<A: Allocator + Copy>(port: &mut Port<A>, mask: u32) -> ScriptAnswer<A>
    ensures { RunsOn port.old (ScriptCommand.Ack mask) port.new (said result) }
{
    port.acknowledge(mask);
    ScriptAnswer::Acked
}

/// Shows a sector of the disk as it is.
fn show<A: Allocator + Copy>(port: &Port<A>, lba: u64) -> ScriptAnswer<A>
    ensures { RunsOn port.now (ScriptCommand.Show lba) port.now (said result) }
{
    if lba >= u64::from(port.sectors()) {
        return ScriptAnswer::Refused(Refusal::NoSuchSector);
    }
    let mut sector = [0; 512];
    port.copy(lba, &mut sector);
    let byte = sector[0];
    ScriptAnswer::Sector { lba, byte }
}
