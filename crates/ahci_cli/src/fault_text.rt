ghost use Rattle.std.specs.Prelude.{◌≡◌, ◌+◌, ◌≤◌, ◌++◌, length};
ghost use Rattle.std.specs.Fmt.{decimal};
ghost use Rattle.arrayvec.specs.ArrayString.{array_string_len};
ghost use Rattle.ahci_cli.specs.Program.{fault_text};

use crate::fault::CliFault;
use arrayvec::ArrayString;
use itoa::Buffer;

/// How many bytes the text of a fault has at most.
const LONGEST: usize = 64;

/// The text of a fault with its line feed, as standard error shows it. It takes no memory, so that even a lack of memory can be reported.
pub(crate) fn text_of(fault: CliFault) -> ArrayString<LONGEST>
    ensures { result.bytes ≡ fault_text fault }
{
    match fault {
        CliFault::Line(line) => numbered("ahci: line ", line, ": not understood\n"),
        CliFault::Job(job) => numbered("ahci: job ", job, ": bad count or address\n"),
        CliFault::Read | CliFault::CheckRead => plain("ahci: input failed\n"),
        CliFault::Write | CliFault::CheckWrite => plain("ahci: output failed\n"),
        CliFault::Unsettled | CliFault::Lost(_) => plain("ahci: run not settled\n"),
        CliFault::OutOfMemory => plain("ahci: out of memory\n"),
    }
}

/// A text with a number in it.
fn numbered(before: &str, number: u64, after: &str) -> ArrayString<LONGEST>
    requires { length before.now + length after.now ≤ 44 }
    ensures { result.bytes ≡ before.now ++ (decimal number ++ after.now) }
{
    let mut text = plain(before);
    text.push_str(Buffer::new().format(number));
    text.push_str(after);
    text
}

/// A text without a number.
fn plain(words: &str) -> ArrayString<LONGEST>
    requires { length words.now ≤ 44 }
    ensures bytes { result.bytes ≡ words.now }
    ensures len { array_string_len result ≡ length words.now }
{
    let mut text = ArrayString::new();
    text.push_str(words);
    text
}
