//! The rules for PRDTs.

ghost use Rattle.std.specs.Prelude.{◌≡◌};
ghost use Rattle.hba_rules.specs.Lists.{entry_breaks, has_reserved_entry, length_breaks};

use crate::rule::Rule;
use byteorder::{ByteOrder, LittleEndian};
use hba_command::Task;
use hba_memory::moved_by;

/// Whether an entry of a PRDT breaks a rule.
pub fn entry_breaks(rule: Rule, entry: &[u8; 16]) -> bool
    ensures { result ≡ entry_breaks rule entry.now }
{
    match rule {
        Rule::OddAddress => entry[0] % 2 == 1,
        Rule::EvenCount => entry[12] % 2 == 0,
        Rule::ReservedEntry => has_reserved_entry(entry),
        _ => false,
    }
}

/// Whether dword 2 of an entry, or a bit of 30:22 of its dword 3, is not 0.
fn has_reserved_entry(entry: &[u8; 16]) -> bool
    ensures { result ≡ has_reserved_entry entry.now }
{
    LittleEndian::read_u32(&entry[8..]) != 0 || entry[14] / 64 != 0 || entry[15] % 128 != 0
}

/// Whether a PRDT of so many bytes in all breaks a rule for a command.
pub fn length_breaks(rule: Rule, task: &Task, total: u64) -> bool
    ensures { result ≡ length_breaks rule task.now total }
{
    let moved = u64::from(moved_by(task));
    match rule {
        Rule::ListTooShort => total < moved,
        Rule::ListTooLong => moved != 0 && moved < total,
        _ => false,
    }
}
