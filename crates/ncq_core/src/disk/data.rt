//! Data FISes between the disk and a host (Serial ATA, "Data FIS" and "DMA Activate FIS"). Each has 8,192 bytes of
//! payload, the last one the rest. A payload that the store or the host has at hand is taken from there; any other is copied into the
//! room of a Data FIS first.

ghost use Rattle.std.specs.Prelude.{◌≡◌, ◌+◌, ◌-◌, ◌*◌, ◌/◌, ◌%◌, ◌≤◌, ◌++◌, ◌∷◌, [], true, false, length, take, drop, slice_range};
ghost use Rattle.std.specs.List.{replace_range};
ghost use Rattle.sata_fis.specs.Encoding.{data_head_bytes};
ghost use Rattle.ncq_journal.specs.Image.{IsWrittenOver};
ghost use Rattle.sector_store.specs.Reserved.{AreReserved, StayReserved};
ghost use Rattle.ncq_core.specs.Serving.{HasMoved, IsRead, IsWritten, byte_count};
ghost use Rattle.ncq_core.specs.Traffic.{Activate, Data, moved_by};

use crate::disk::answers::activate;
use crate::host::Host;
use sata_fis::{Queued, data_head};
use sector_store::SectorStore;

/// The most bytes that one Data FIS carries.
const MOST_PAYLOAD: usize = 8192;

/// How many bytes the largest Data FIS has: its head, and the payload.
pub(super) const DATA_FIS: usize = 4 + MOST_PAYLOAD;

/// Puts a Data FIS together: its head, and sectors from an LBA on after it.
fn put_data<S: SectorStore>(fis: &mut [u8], store: &S, lba: u64)
    requires head { 4 ≤ length fis.old }
    requires whole { (length fis.old - 4) % 512 ≡ 0 }
    requires fits { 512 * lba + (length fis.old - 4) ≤ length (S.image store.now) }
    ensures { fis.new ≡ data_head_bytes ++ take (length fis.old - 4) (drop (512 * lba) (S.image store.now)) }
{
    let (head, payload) = fis.split_at_mut(4);
    head.copy_from_slice(&data_head());
    store.read(lba, payload);
}

/// Sends so many bytes of sectors from an LBA on in one Data FIS. It is put together in `room` where the store doesn't have them at hand.
fn deliver_one<H: Host, S: SectorStore>(
    host: &mut H,
    room: &mut [u8; DATA_FIS],
    store: &S,
    lba: u64,
    bytes: usize,
)
    requires some { 1 ≤ bytes }
    requires most { bytes ≤ 8192 }
    requires whole { bytes % 512 ≡ 0 }
    requires fits { 512 * lba + bytes ≤ length (S.image store.now) }
    requires text { H.offset host.old + bytes ≤ length (H.text host.old) }
    ensures text { H.text host.new ≡ replace_range (H.text host.old) (H.offset host.old) (H.offset host.old + bytes) (take bytes (drop (512 * lba) (S.image store.now))) }
    ensures offset { H.offset host.new ≡ H.offset host.old + bytes }
    ensures setup { H.last_setup host.new ≡ H.last_setup host.old }
    ensures saw { H.saw host.old (Data bytes ∷ []) host.new }
    ensures others { H.keeps host.old host.new }
{
    if let Some(payload) = store.at_hand(lba, bytes) {
        host.deliver_parts(&data_head(), payload);
        return;
    }
    let fis = &mut room[..4 + bytes];
    put_data(fis, store, lba);
    host.deliver(fis);
}

/// Writes so many bytes over sectors from an LBA on by one Data FIS, for which a DMA Activate asks. It comes into `room` where the host
/// doesn't have its payload at hand.
fn fetch_one<H: Host, S: SectorStore>(
    host: &mut H,
    room: &mut [u8; DATA_FIS],
    store: &mut S,
    lba: u64,
    bytes: usize,
)
    requires some { 1 ≤ bytes }
    requires most { bytes ≤ 8192 }
    requires whole { bytes % 512 ≡ 0 }
    requires fits { 512 * lba + bytes ≤ length (S.image store.old) }
    requires reserved { AreReserved (S.is_reserved store.old) lba (bytes / 512) }
    requires text { H.offset host.old + bytes ≤ length (H.text host.old) }
    ensures written { IsWrittenOver lba (slice_range (H.text host.old) (H.offset host.old) (H.offset host.old + bytes)) (S.image store.old) (S.image store.new) }
    ensures len { length (S.image store.new) ≡ length (S.image store.old) }
    ensures stay { StayReserved (S.is_reserved store.old) (S.is_reserved store.new) }
    ensures kind { S.grows store.new ≡ S.grows store.old }
    ensures starting { S.starting store.new ≡ S.starting store.old }
    ensures text { H.text host.new ≡ H.text host.old }
    ensures offset { H.offset host.new ≡ H.offset host.old + bytes }
    ensures setup { H.last_setup host.new ≡ H.last_setup host.old }
    ensures saw { H.saw host.old (Activate bytes ∷ []) host.new }
    ensures others { H.keeps host.old host.new }
{
    if let Some(payload) = host.at_hand(bytes) {
        store.write(lba, payload);
        host.activate_at_hand(&activate(), bytes);
        return;
    }
    let fis = &mut room[..4 + bytes];
    host.activate(&activate(), fis);
    store.write(lba, &fis[4..]);
}

/// How many bytes a command moves.
fn byte_count(command: &Queued) -> usize
    ensures { result ≡ byte_count command.now }
{
    command.sectors as usize * 512
}

/// Moves the data of a read: its sectors are at the beginning of the host's text afterwards.
fn read_data<H: Host, S: SectorStore>(
    host: &mut H,
    room: &mut [u8; DATA_FIS],
    command: &Queued,
    store: &S,
)
    requires sectors { 512 * (command.now.lba + command.now.sectors) ≤ length (S.image store.now) }
    requires start { H.offset host.old ≡ 0 }
    requires room { byte_count command.now ≤ length (H.text host.old) }
    ensures data { IsRead command.now (S.image store.now) (S.image store.now) (H.text host.old) (H.text host.new) }
    ensures offset { H.offset host.new ≡ byte_count command.now }
    ensures setup { H.last_setup host.new ≡ H.last_setup host.old }
    ensures saw { H.saw host.old (moved_by false (byte_count command.now)) host.new }
    ensures others { H.keeps host.old host.new }
{
    let bytes = byte_count(command);
    let mut sent = 0;
    while sent < bytes {
        let end = bytes.min(sent + MOST_PAYLOAD);
        deliver_one(
            host,
            room,
            store,
            command.lba + (sent / 512) as u64,
            end - sent,
        );
        sent = end;
    }
}

/// Moves the data of a write: its sectors are the first bytes of the host's text afterwards.
#[tactic(auto, using(crate::proofs::MovingLemmas::over_none, crate::proofs::MovingLemmas::part_reserved, crate::proofs::ReservedLemmas::all_reserved))]
fn write_data<H: Host, S: SectorStore>(
    host: &mut H,
    room: &mut [u8; DATA_FIS],
    command: &Queued,
    store: &mut S,
)
    requires sectors { 512 * (command.now.lba + command.now.sectors) ≤ length (S.image store.old) }
    requires reserved { AreReserved (S.is_reserved store.old) command.now.lba command.now.sectors }
    requires start { H.offset host.old ≡ 0 }
    requires room { byte_count command.now ≤ length (H.text host.old) }
    ensures data { IsWritten command.now (S.image store.old) (S.image store.new) (H.text host.old) (H.text host.new) }
    ensures stay { StayReserved (S.is_reserved store.old) (S.is_reserved store.new) }
    ensures kind { S.grows store.new ≡ S.grows store.old }
    ensures starting { S.starting store.new ≡ S.starting store.old }
    ensures offset { H.offset host.new ≡ byte_count command.now }
    ensures setup { H.last_setup host.new ≡ H.last_setup host.old }
    ensures saw { H.saw host.old (moved_by true (byte_count command.now)) host.new }
    ensures others { H.keeps host.old host.new }
{
    let bytes = byte_count(command);
    let mut filled = 0;
    while filled < bytes {
        let end = bytes.min(filled + MOST_PAYLOAD);
        fetch_one(
            host,
            room,
            store,
            command.lba + (filled / 512) as u64,
            end - filled,
        );
        filled = end;
    }
}

/// Moves the data of a command between a store and the host, whose last DMA Setup is the command's.
pub(super) fn move_data<H: Host, S: SectorStore>(
    host: &mut H,
    room: &mut [u8; DATA_FIS],
    command: &Queued,
    store: &mut S,
)
    requires sectors { 512 * (command.now.lba + command.now.sectors) ≤ length (S.image store.old) }
    requires reserved { command.now.write ≡ true → AreReserved (S.is_reserved store.old) command.now.lba command.now.sectors }
    requires start { H.offset host.old ≡ 0 }
    requires room { byte_count command.now ≤ length (H.text host.old) }
    ensures data { HasMoved command.now (S.image store.old) (S.image store.new) (H.text host.old) (H.text host.new) }
    ensures stay { StayReserved (S.is_reserved store.old) (S.is_reserved store.new) }
    ensures kind { S.grows store.new ≡ S.grows store.old }
    ensures starting { S.starting store.new ≡ S.starting store.old }
    ensures offset { H.offset host.new ≡ byte_count command.now }
    ensures setup { H.last_setup host.new ≡ H.last_setup host.old }
    ensures saw { H.saw host.old (moved_by command.now.write (byte_count command.now)) host.new }
    ensures others { H.keeps host.old host.new }
{
    if command.write {
        write_data(host, room, command, store);
    } else {
        read_data(host, room, command, &*store);
    }
}
