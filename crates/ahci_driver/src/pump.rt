//! How the port gets on by one call, whatever its chooser answers.

ghost use Rattle.std.specs.Prelude.{◌≡◌, false, true, IfOk, OnErr};
ghost use Rattle.ncq_journal.specs.Halted.{halted, busy};
ghost use Rattle.word_bits.specs.Places.{bits, IsLowest};
ghost use Rattle.ahci_port.specs.{Looking.{issued_tags, accepted_tags, held_tags}, Faults.{step_refusal}, Steps.{LacksRoom}};
ghost use Rattle.ahci_driver.specs.Pumping.{HasAsked, HasStepped, IsPumped, IsRunning, LeadsTo};

use crate::chooser::{Chooser, lowest_step};
use crate::fault::PumpFault;
use crate::pumped::Pumped;
use ahci_port::{DeviceStep, Port, RecoverFault, Stepped, TagSets};
use std::alloc::Allocator;
use word_bits::lowest;

/// What a pump does once it has the lock, the first of these that applies: a halted port recovers; the lowest held tag
/// is issued again; nothing, where no tag waits for the device or is outstanding in it; else the chooser's step, or,
/// where the port refuses that, the step of `Low`. The chooser is asked once in the last case, and never in the others.
///
/// # Errors
/// `OutOfMemory` if the port is halted and room for its entries could not be allocated; nothing has changed.
#[tactic(auto, using(crate::proofs::PumpingLemmas::idle_words, crate::proofs::PumpingLemmas::busy_words))]
pub fn pump_locked<A: Allocator, C: Chooser>(
    port: &mut Port<A>,
    chooser: &mut C,
) -> Result<Pumped, PumpFault>
    ensures ok { IfOk result (λ p. IsPumped port.old port.new p) }
    ensures asked { IfOk result (λ p. HasAsked C.gives chooser.old chooser.new port.old port.new p) }
    ensures fault { OnErr result (halted port.old.past ≡ true) }
    ensures lacking { OnErr result (LacksRoom port.old) }
    ensures err { OnErr result (port.new ≡ port.old) }
    ensures unasked { OnErr result (chooser.new ≡ chooser.old) }
{
    if port.halted() {
        return recover(port);
    }
    let tags = port.tag_sets();
    if let Some(tag) = lowest(tags.held) {
        return Ok(reissue(port, tag));
    }
    if tags.issued == 0 && tags.accepted == 0 {
        return Ok(Pumped::Idle);
    }
    Ok(step(port, chooser, tags))
}

/// Recovers a halted port.
fn recover<A: Allocator>(port: &mut Port<A>) -> Result<Pumped, PumpFault>
    requires { halted port.old.past ≡ true }
    ensures ok { IfOk result (λ p. IsPumped port.old port.new p) }
    ensures lacking { OnErr result (LacksRoom port.old) }
    ensures err { OnErr result (port.new ≡ port.old) }
{
    match port.recover() {
        Ok(tag) => Ok(Pumped::Recovered(tag)),
        Err(RecoverFault::OutOfMemory) => Err(PumpFault::OutOfMemory),
        Err(RecoverFault::NotHalted) => unreachable!(),
    }
}

/// Issues the lowest held tag again.
#[tactic(auto, using(crate::proofs::PumpingLemmas::held_again))]
fn reissue<A: Allocator>(port: &mut Port<A>, tag: u8) -> Pumped
    requires running { halted port.old.past ≡ false }
    requires lowest { IsLowest (held_tags port.old.past) tag }
    ensures ok { IsPumped port.old port.new result }
    ensures told { result ≡ Pumped.Reissued tag }
{
    match port.reissue(tag) {
        Ok(()) => Pumped::Reissued(tag),
        Err(_) => unreachable!(),
    }
}

/// Asks the chooser, and lets the device take its step, or that of `Low` where the port refuses it.
fn step<A: Allocator, C: Chooser>(port: &mut Port<A>, chooser: &mut C, tags: TagSets) -> Pumped
    requires running { IsRunning port.old }
    requires busy { busy port.old.past ≡ true }
    requires issued { bits tags.issued ≡ issued_tags port.old.past }
    requires accepted { bits tags.accepted ≡ accepted_tags port.old.past }
    ensures ok { IsPumped port.old port.new result }
    ensures asked { HasAsked C.gives chooser.old chooser.new port.old port.new result }
{
    let chosen = chooser.next(tags.issued, tags.accepted);
    Pumped::Stepped(led(port, chosen, tags))
}

/// Lets the device take this step, or that of `Low` where the port refuses it.
#[tactic(auto, using(crate::proofs::PumpingLemmas::lowest_is_lawful, crate::proofs::PumpingLemmas::leads_itself, crate::proofs::PumpingLemmas::leads_to_low))]
fn led<A: Allocator>(port: &mut Port<A>, chosen: DeviceStep, tags: TagSets) -> Stepped
    requires running { IsRunning port.old }
    requires busy { busy port.old.past ≡ true }
    requires issued { bits tags.issued ≡ issued_tags port.old.past }
    requires accepted { bits tags.accepted ≡ accepted_tags port.old.past }
    ensures stepped { HasStepped port.old port.new result }
    ensures led { LeadsTo port.old port.new tags.issued tags.accepted chosen result (step_refusal port.old chosen) }
{
    if let Ok(done) = port.step(chosen) {
        return done;
    }
    match port.step(lowest_step(tags.issued, tags.accepted)) {
        Ok(done) => done,
        Err(_) => unreachable!(),
    }
}
