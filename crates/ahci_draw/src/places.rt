//! The 1,200 places of an overview.

ghost use Rattle.std.specs.Prelude.{◌≡◌, ◌+◌, ◌<◌, ◌≤◌, IfSome, length};
ghost use Rattle.ahci_draw.specs.Places.{count_of, edge, first_of, part_of};

/// The first index, of so many, at a place or after it.
pub(crate) fn edge(count: usize, place: usize) -> usize
    requires { place ≤ 1200 }
    ensures edge { result ≡ edge count place }
    ensures within { result ≤ count }
{
    (((place as u128) * (count as u128) + 1199) / 1200) as usize
}

/// The signs of the entries at a place.
pub(crate) fn part_of(signs: &[u8], place: usize) -> &[u8]
    requires { place < 1200 }
    ensures part { result.now ≡ part_of signs.now place }
    ensures within { edge (length signs.now) place + length result.now ≤ length signs.now }
{
    let start = edge(signs.len(), place);
    let end = edge(signs.len(), place + 1);
    &signs[start..end]
}

/// How many of these signs are this one.
pub(crate) fn count_of(signs: &[u8], sign: u8) -> usize
    ensures { result ≡ count_of sign signs.now }
{
    signs.iter().filter(|other| **other == sign).count()
}

/// The index of the first that is this one.
pub(crate) fn first_of(signs: &[u8], sign: u8) -> Option<usize>
    ensures first { result ≡ first_of sign signs.now }
    ensures within { IfSome result (λ first. first < length signs.now) }
{
    signs.iter().position(|other| *other == sign)
}
