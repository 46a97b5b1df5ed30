//! What writes the answers of a script.

use ahci_port::Port;
use ahci_script::{Output, ScriptAnswer};
use std::alloc::{AllocError, Allocator};

/// What writes the answers of a script. Contracts see the text as a function of the number and the text of the line that has the
/// command, of what the answer says, of the port that the command has found and of the one that it has left.
pub trait AnswerWriter<A: Allocator> {
    ghost use Rattle.std.specs.Prelude.{◌≡◌, ◌++◌, OnErr, OnOk, Option};
    ghost use Rattle.std.specs.Option.{option_copied};
    ghost use Rattle.ahci_port.specs.PortView.{PortView};
    ghost use Rattle.ahci_script.specs.Said.{said};
    ghost use Rattle.ahci_replay.specs.Transcript.{Telling};

    /// What it keeps of the port that a command finds.
    type Before: Drop;

    // The text.
    ghost telling: { Telling };

    // This was kept of that port, or of none before the disk.
    ghost IsOf: { Self.Before → Option PortView → Type 0 };

    /// What is to be kept of the port, or of none before the disk, that a command finds.
    fn look(&self, port: Option<&Port<A>>) -> Self::Before
        ensures { IsOf result (option_copied port.entry) };

    /// Puts the text for the answer of a command, which is in the line of this number and has left this port, into the output.
    ///
    /// # Errors
    /// Where a growth was refused. The output is then as it was.
    fn tell(
        &self,
        number: u64,
        line: &[u8],
        before: Self::Before,
        answer: &ScriptAnswer<A>,
        port: Option<&Port<A>>,
        output: &mut Output<A>,
    ) -> Result<(), AllocError>
        ensures ok { OnOk result ((found : Option PortView) → IsOf before found
            → output.new ≡ output.old ++ telling number line.now (said answer.now) found (option_copied port.entry)) }
        ensures err { OnErr result (output.new ≡ output.old) };
}

/// Each answer is a line.
#[derive(Drop)]
pub struct AnswersAlone;

impl<A: Allocator> AnswerWriter<A> for AnswersAlone {
    ghost use Rattle.ahci_replay.specs.Transcript.{answers_alone};

    type Before = ();

    ghost telling = { answers_alone };

    ghost IsOf = { λ kept port. Unit {0} };

    fn look(&self, _port: Option<&Port<A>>) {}

    fn tell(
        &self,
        _number: u64,
        _line: &[u8],
        _before: (),
        answer: &ScriptAnswer<A>,
        _port: Option<&Port<A>>,
        output: &mut Output<A>,
    ) -> Result<(), AllocError> {
        output.put(answer)
    }
}
