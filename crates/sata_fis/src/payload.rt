ghost use Rattle.std.specs.Prelude.{◌≡◌, ◌==◌, ◌↔◌, IsSome, IfSome};
ghost use Rattle.std.specs.Cmp.{partial_equiv_from_equiv};
ghost use Rattle.std.specs.Cmp.Lexicographic.{pointwise, nat_list_eq_equiv};
ghost use Rattle.sata_fis.specs.Payload.{IsPayload};

use std::marker::Model;

/// The payload of a Data FIS (Serial ATA, "Data FIS"): 4 to 8,192 bytes, a multiple of 4.
#[derive(Debug, Drop)]
pub struct Payload<'a> {
    pub bytes: &'a [u8],
}

impl<'a> Model for Payload<'a> {
    ghost use Rattle.std.specs.Prelude.{ℕ, List};
    ghost use Rattle.sata_fis.specs.Payload.{IsPayload};

    ghost Value = { List ℕ };

    ghost view = { λ p. p.bytes.now };

    ghost invariant = { λ p. IsPayload p.bytes.now };
}

impl<'a> Payload<'a> {
    /// The payload, or None where the bytes aren't 4 to 8,192 in number and a multiple of 4.
    pub fn new(bytes: &'a [u8]) -> Option<Payload<'a>>
        ensures valid { IsSome result ↔ IsPayload bytes.now }
        ensures value { IfSome result (λ p. p ≡ bytes.now) }
    {
        let len = bytes.len();
        if (4..=8192).contains(&len) && len % 4 == 0 {
            Some(Payload { bytes })
        } else {
            None
        }
    }
}

impl PartialEq for Payload<'_> {
    ghost eq = { pointwise ◌==◌ };

    ghost laws = { partial_equiv_from_equiv nat_list_eq_equiv };

    fn eq(&self, other: &Self) -> bool {
        self.bytes == other.bytes
    }
}

impl Eq for Payload<'_> {
    ghost laws = { nat_list_eq_equiv };
}
