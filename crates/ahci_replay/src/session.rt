//! A script's port, once its disk was accepted.

ghost use Rattle.std.specs.Prelude.{◌≡◌, IfErr, IfOk, OnErr, None, false};
ghost use Rattle.std.specs.Option.{option_copied};
ghost use Rattle.ahci_script.specs.Lines.{HasSmallTag};
ghost use Rattle.ahci_script.specs.Said.{said};
ghost use Rattle.ahci_replay.specs.Commands.{MakesDisk, MayLack, MayRun, Runs, is_in_place};
ghost use Rattle.ahci_replay.specs.Refusals.{disk_refusal};

use crate::issue::uniform_sectors;
use crate::run::run_on;
use crate::unanswered::Unanswered;
use ahci_port::{MOST_FIRST, Port, ResumeFault};
use ahci_script::{Refusal, ScriptAnswer, ScriptCommand};
use ncq_core::{MAX_DEPTH, MAX_SECTORS};
use std::alloc::{AllocError, Allocator};
use std::marker::Model;

/// A script's port, or none before its disk was accepted.
#[derive(Drop)]
pub struct Session<A: Allocator> {
    alloc: A,
    port: Option<Port<A>>,
}

impl<A: Allocator> Model for Session<A> {
    ghost use Rattle.std.specs.Prelude.{Option};
    ghost use Rattle.ahci_port.specs.PortView.{PortView};

    ghost Value = { Option PortView };

    ghost view = { λ s. s.port };
}

impl<A: Allocator + Copy> Session<A> {
    /// No disk yet.
    pub fn new(alloc: A) -> Self
        ensures { result ≡ None }
    {
        Session { alloc, port: None }
    }

    /// Runs a command, whose tag is below 32, and answers it.
    ///
    /// # Errors
    /// `OutOfPlace` if the command comes before the disk, or is a second disk: then nothing changes. `OutOfMemory` where
    /// a growth was refused: then the port is as it was, or a read was collected and its bytes are lost. A command that takes
    /// no memory never lacks any, and of a disk or a write a bad size, count or address is reported first.
    #[inline(always)]
    pub fn run(&mut self, command: ScriptCommand<'_>) -> Result<ScriptAnswer<A>, Unanswered>
        requires { HasSmallTag command }
        ensures ok { IfOk result (λ answer. Runs self.old command.entry self.new (said answer)) }
        ensures misplaced { IfErr result (λ e. e ≡ Unanswered.OutOfPlace → is_in_place self.old command.entry ≡ false) }
        ensures refused { is_in_place self.old command.entry ≡ false → result ≡ Err Unanswered.OutOfPlace }
        ensures kept { is_in_place self.old command.entry ≡ false → self.new ≡ self.old }
        ensures err { OnErr result (MayRun self.old command.entry self.new) }
        ensures lacking { IfErr result (λ e. e ≡ Unanswered.OutOfMemory → MayLack self.old command.entry) }
    {
        match &mut self.port {
            Some(port) => run_on(port, &self.alloc, command),
            None => match command {
                ScriptCommand::Disk {
                    sectors,
                    depth,
                    first,
                } => Ok(self.make_disk(sectors, depth, first)?),
                _ => Err(Unanswered::OutOfPlace),
            },
        }
    }

    /// The port, once its disk was accepted.
    pub fn port(&self) -> Option<&Port<A>>
        ensures { option_copied result ≡ self.now }
    {
        self.port.as_ref()
    }

    /// A disk of zeros. Its numbers are compared before an image is made.
    // Once in a script, and what it moves is large.
    #[cold]
    fn make_disk(
        &mut self,
        sectors: u64,
        depth: u64,
        first: Option<u64>,
    ) -> Result<ScriptAnswer<A>, AllocError>
        requires { self.old ≡ None }
        ensures ok { IfOk result (λ answer.
            MakesDisk (disk_refusal sectors depth first) sectors depth first self.new (said answer)) }
        ensures err { OnErr result (self.new ≡ self.old) }
        ensures lacking { OnErr result (disk_refusal sectors depth first ≡ None) }
    {
        if sectors == 0 || sectors > u64::from(MAX_SECTORS) {
            return Ok(ScriptAnswer::Refused(Refusal::BadSize));
        }
        if depth == 0 || depth > u64::from(MAX_DEPTH) {
            return Ok(ScriptAnswer::Refused(Refusal::BadDepth));
        }
        let number = first.unwrap_or(0);
        if number > MOST_FIRST {
            return Ok(ScriptAnswer::Refused(Refusal::BadFirst));
        }
        let image = uniform_sectors(self.alloc, sectors as u32, 0)?;
        self.port = match Port::resume(self.alloc, image, depth as u32, number) {
            Ok(port) => Some(port),
            Err(ResumeFault::OutOfMemory) => return Err(AllocError),
            Err(_) => unreachable!(), // the numbers were compared above
        };
        Ok(ScriptAnswer::Disk {
            sectors,
            depth,
            first,
        })
    }
}
