use crate::input::Found;

/// Whoever takes the lines of an input, one after another, with an output beside it.
pub trait TakesLines<O> {
    ghost use Rattle.std.specs.Prelude.{◌≡◌, ℕ, IfErr, OnOk};
    ghost use Rattle.streams.specs.Unread.{Begins, shown, unfinished};

    /// Why it takes no more.
    type Fault;

    // What came was taken, where the next line has this number: from one state to the other.
    ghost Takes: { Self × O → ℕ → Begins → Self × O → Type 0 };

    // It was not, for this reason.
    ghost Refuses: { Self × O → ℕ → Begins → Self.Fault → Self × O → Type 0 };

    // Nothing waits that whoever writes the input may wait for.
    ghost IsSent: { Self × O → Type 0 } = { λ _. Unit {0} };

    /// Takes what comes, where the next line has this number: that line, without its line feed; `TooLong` in place of one that
    /// is too long, which is the last; `Unfinished` before more of the input is read.
    fn take(&mut self, number: u64, found: Found<'_>, output: &mut O) -> Result<(), Self::Fault>
        ensures ok { OnOk result (Takes (self.old, output.old) number (shown found.entry) (self.new, output.new)) }
        ensures err { IfErr result (λ fault. Refuses (self.old, output.old) number (shown found.entry) fault (self.new, output.new)) }
        ensures sent { shown found.entry ≡ unfinished → OnOk result (IsSent (self.new, output.new)) };
}
