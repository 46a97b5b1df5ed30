//! What a controller can do, as C says it.

ghost use Rattle.std.specs.Prelude.{◌≡◌};
ghost use Rattle.hba_ffi.specs.Capable.{capabilities_of, with_flags};

use crate::flat::FlatCapabilities;
use hba_regs::Capabilities;

/// The capabilities that C says, or `None` if a number is out of its range.
pub fn capabilities_of(flat: &FlatCapabilities) -> Option<Capabilities>
    ensures { result ≡ capabilities_of flat.now }
{
    let numbered = Capabilities::new().with_ncs(flat.ncs)?.with_iss(flat.iss)?;
    Some(with_flags(numbered, flat))
}

/// The same with the flags that C says.
fn with_flags(numbered: Capabilities, flat: &FlatCapabilities) -> Capabilities
    ensures { result ≡ with_flags numbered flat.now }
{
    Capabilities {
        s64a: flat.s64a != 0,
        sncq: flat.sncq != 0,
        sss: flat.sss != 0,
        sclo: flat.sclo != 0,
        salp: flat.salp != 0,
        pmd: flat.pmd != 0,
        ..numbered
    }
}
