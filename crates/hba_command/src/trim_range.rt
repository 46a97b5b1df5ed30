//! The sectors that DATA SET MANAGEMENT with TRIM names (ACS-3, "LBA Range Entry").

ghost use Rattle.std.specs.Prelude.{◌≡◌, ◌≢◌, ℕ, ◌<◌, ◌≤◌, ◌/◌, ◌^◌, length, IfSome, None, Some};
ghost use Rattle.hba_command.specs.TrimRange.{IsOnDisk, first_entry, first_passed, first_range, range_at, range_of};

use crate::store::entry_at;

/// Some sectors that an LBA Range Entry names, one after the other: 1 to 65,535 of them, from an LBA below 2^48 on.
#[derive(Clone, Copy, Debug, PartialEq, Eq)]
pub struct TrimRange {
    /// The first sector.
    pub lba: u64,
    /// How many sectors of 512 bytes.
    pub sectors: u32,
}

/// The sectors of an LBA Range Entry, if it names any.
fn range_of(entry: u64) -> Option<TrimRange>
    ensures value { result ≡ range_of entry }
    ensures some { IfSome result (λ range. (range.lba < 2 ^ 48) × (1 ≤ range.sectors) × (range.sectors ≤ 65535)) }
{
    let sectors = (entry >> 48) as u32;
    if sectors == 0 {
        return None;
    }
    let lba = entry % (1 << 48);
    Some(TrimRange { lba, sectors })
}

/// The sectors of an entry of the data by its number, of which there is one for eight bytes; nothing if it names none.
fn range_at(bytes: &[u8], index: usize) -> Option<TrimRange>
    requires { index < length bytes.now / 8 }
    ensures value { result ≡ range_at bytes.now index }
    ensures some { IfSome result (λ range. (range.lba < 2 ^ 48) × (1 ≤ range.sectors) × (range.sectors ≤ 65535)) }
    ensures on_disk { IsOnDisk bytes.now result }
{
    range_of(entry_at(bytes, index))
}

/// The number of the first entry that names sectors.
fn first_entry(bytes: &[u8]) -> Option<usize>
    ensures value { result ≡ first_entry bytes.now }
    ensures some { IfSome result (λ index. index < length bytes.now / 8) }
{
    (0..bytes.len() / 8).find(|index| range_at(bytes, *index).is_some())
}

/// The sectors of the first entry that names any.
pub fn first_range(bytes: &[u8]) -> Option<TrimRange>
    ensures value { result ≡ first_range bytes.now }
    ensures some { IfSome result (λ range. (range.lba < 2 ^ 48) × (1 ≤ range.sectors) × (range.sectors ≤ 65535)) }
    ensures on_disk { IsOnDisk bytes.now result }
{
    range_at(bytes, first_entry(bytes)?)
}

/// Sets the count of that entry to 0, so that it is passed over from then on.
pub fn pass_first(bytes: &mut [u8])
    ensures { bytes.new ≡ first_passed bytes.old }
{
    if let Some(index) = first_entry(bytes) {
        bytes[8 * index + 6] = 0;
        bytes[8 * index + 7] = 0;
    }
}

/// The ranges of a TRIM come one after the other, in the order of the data: no entry before the first one that names sectors names any, and once that one is passed
/// over each other entry names what it named. Where there is no first one, none is left. The function changes nothing: it is there for its clauses.
#[tactic(auto, using(crate::proofs::TrimLemmas::others_stay, crate::proofs::TrimLemmas::none_left))]
pub fn ranges_come_in_order(bytes: &[u8])
    ensures before { (first index : ℕ) → first_entry bytes.now ≡ Some first → index < first → range_at bytes.now index ≡ None }
    ensures others { (first index : ℕ) → first_entry bytes.now ≡ Some first → index ≢ first → range_at (first_passed bytes.now) index ≡ range_at bytes.now index }
    ensures none { (index : ℕ) → first_entry bytes.now ≡ None → index < length bytes.now / 8 → range_at bytes.now index ≡ None }
{}
