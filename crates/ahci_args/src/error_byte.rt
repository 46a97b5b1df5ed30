//! The value of `--error`, which the parser takes as any text.
ghost use Rattle.std.specs.Prelude.{◌≡◌};
ghost use Rattle.ahci_args.specs.Usage.{hex_byte};

/// The byte that two hexadecimal digits of either case spell.
pub(crate) fn hex_byte(text: &str) -> Option<u8>
    ensures { result ≡ hex_byte text.now }
{
    let [high, low] = text.as_bytes() else {
        return None;
    };
    let high = char::from(*high).to_digit(16)?;
    let low = char::from(*low).to_digit(16)?;
    Some((16 * high + low) as u8)
}
