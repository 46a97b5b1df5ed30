//! What the device does with a tag's command: it accepts or refuses it, serves it with others, or fails it.

ghost use Rattle.std.specs.Prelude.{◌≡◌, IfOk, OnErr};
ghost use Rattle.ahci_port.specs.{Faults.{Answers, step_refusal}, Moves.{step_fault_of}, Steps.{IsStepped}};

use crate::fault::StepFault;
use crate::port::Port;
use crate::receive::{receive_bits, receive_register};
use crate::step::{DeviceStep, Stepped};
use ncq_core::laws::the_disks_answers_are_these_bytes;
use ncq_core::{ServeFault, Taken};
use ncq_journal::{Event, Phase};
use sector_store::SectorStore;
use std::alloc::Allocator;
use word_bits::place;

/// The port's fault where the disk has refused to end a command.
fn step_fault(fault: ServeFault) -> StepFault
    ensures { result ≡ step_fault_of fault }
{
    match fault {
        ServeFault::Stopped => StepFault::Halted,
        ServeFault::NotAccepted => StepFault::NotAccepted,
        ServeFault::OutsideCommand => StepFault::OutsideCommand,
    }
}

impl<A: Allocator, S: SectorStore> Port<A, S> {
    /// Lets the device take a step with a tag's command, or serve those of a list of tags, and answers the number of its
    /// entry. It takes no memory. A command that passes the last sector is refused when it is accepted, with error 10h and
    /// the first of its sectors that the disk lacks, which is answered as `Failed`. The commands of a list are served in its
    /// order, each after the Completes of those before it, and one Set Device Bits FIS names all their tags.
    ///
    /// # Errors
    /// `Halted` where a command has failed and the port has not recovered; `NotIssued` where an Accept's command does not
    /// wait for the device; `NotAccepted` where a Fail's command, or one of a Serve's, is not accepted; `OutsideCommand`
    /// where a Fail's sector is not one of the command's; `BadTags` where a Serve names no tag, or one twice.
    pub fn step(&mut self, step: DeviceStep) -> Result<Stepped, StepFault>
        ensures ok { IfOk result (λ done. IsStepped step self.old self.new done) }
        ensures fault { Answers result (step_refusal self.old step) }
        ensures err { OnErr result (self.new ≡ self.old) }
    {
        match step {
            DeviceStep::Accept(tag) => self.accept(tag),
            DeviceStep::Serve(tags) => self.serve(&tags),
            DeviceStep::Fail { tag, error, at } => self.fail(tag, error, at),
        }
    }

    /// The device takes a tag's command, or refuses it where it passes the last sector: the command goes from the window's
    /// CFIS to the disk, and the answer comes back as a D2H Register FIS (Serial ATA, "Register FIS - Device to Host").
    fn accept(&mut self, tag: u8) -> Result<Stepped, StepFault>
        ensures ok { IfOk result (λ done. IsStepped (DeviceStep.Accept tag) self.old self.new done) }
        ensures fault { Answers result (step_refusal self.old (DeviceStep.Accept tag)) }
        ensures err { OnErr result (self.new ≡ self.old) }
    {
        if let Some(fault) = self.accept_fault(tag) {
            return Err(fault);
        }
        the_disks_answers_are_these_bytes();
        let place = self.journal.len();
        let number = self.journal.end();
        let Some(slot) = &mut self.slots[tag as usize] else {
            unreachable!();
        };
        match self.disk.take(slot.cfis()) {
            Taken::Accepted(fis) => {
                receive_register(&mut self.registers, &mut self.area, &fis, tag);
                slot.accept();
                self.journal.push_reserved(Event::Accept(tag));
                Ok(Stepped::Accepted(number))
            }
            Taken::Refused(fis) => {
                let answer = receive_register(&mut self.registers, &mut self.area, &fis, tag);
                slot.fail(place, answer.error, answer.lba);
                self.journal.push_reserved(Event::Fail {
                    tag,
                    error: answer.error,
                    lba: answer.lba,
                });
                Ok(Stepped::Failed(number))
            }
            Taken::Plain(_) => unreachable!(),
        }
    }

    /// Why the device does not take a tag's command.
    fn accept_fault(&self, tag: u8) -> Option<StepFault>
        ensures { result ≡ step_refusal self.now (DeviceStep.Accept tag) }
    {
        if self.halted() {
            return Some(StepFault::Halted);
        }
        match self.phase(tag) {
            Phase::Issued => None,
            _ => Some(StepFault::NotIssued),
        }
    }

    /// The device fails a tag's command with an error at one of its sectors.
    fn fail(&mut self, tag: u8, error: u8, at: u64) -> Result<Stepped, StepFault>
        ensures ok { IfOk result (λ done. IsStepped (DeviceStep.Fail tag error at) self.old self.new done) }
        ensures fault { Answers result (step_refusal self.old (DeviceStep.Fail tag error at)) }
        ensures err { OnErr result (self.new ≡ self.old) }
    {
        let bits = match self.disk.fail(tag, error, at) {
            Ok(bits) => bits,
            Err(fault) => return Err(step_fault(fault)),
        };
        let place = self.journal.len();
        let number = self.journal.end();
        receive_bits(&mut self.registers, &mut self.area, &bits);
        match &mut self.slots[tag as usize] {
            Some(slot) => slot.fail(place, error, at),
            None => unreachable!(),
        }
        self.journal.push_reserved(Event::Fail {
            tag,
            error,
            lba: at,
        });
        Ok(Stepped::Failed(number))
    }
}
