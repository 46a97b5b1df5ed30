ghost use Rattle.std.specs.Prelude.{◌≡◌};
ghost use Rattle.hba_memory.specs.Runs.{total};

use hba_command::PrdEntry;

/// How many bytes the entries of a PRDT name.
pub fn total(list: &[PrdEntry]) -> u128
    ensures { result ≡ total list.now }
{
    list.iter().map(|entry| u128::from(entry.length)).sum()
}
