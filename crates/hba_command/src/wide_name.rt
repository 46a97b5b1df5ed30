//! The disk's world wide name (ACS-3, "World wide name").

ghost use Rattle.std.specs.Prelude.{◌≡◌, ◌<◌, ◌^◌};
ghost use Rattle.hba_command.specs.WideName.{text_number, wide_name};

use crate::identity::Identity;

/// A text as a number in base 257 behind another number, of which 60 bits are kept.
#[tactic(auto, using(crate::proofs::WideNameLemmas::one_character_more))]
fn text_number(before: u64, text: &[u8]) -> u64
    requires { before < 2 ^ 60 }
    ensures value { result ≡ text_number before text.now }
    ensures fits { result < 2 ^ 60 }
{
    let mut number = before;
    for character in text {
        number = ((257 * u128::from(number) + u128::from(*character)) % (1 << 60)) as u64;
    }
    number
}

/// The world wide name: NAA 3h, which is assigned locally, and a number of 60 bits that the serial number and the model number make.
pub(crate) fn wide_name(identity: &Identity) -> u64
    ensures { result ≡ wide_name identity.now }
{
    let serial = text_number(0, &identity.serial);
    (3 << 60) + text_number(serial, &identity.model)
}
