//! FISes as structs, read and written with no port.

ghost use Rattle.std.specs.Prelude.{◌≡◌, ◌++◌, ◌==◌, ◌^◌, nat_le, Ok, Err, if◌then◌else◌};
ghost use Rattle.sata_fis.specs.Encoding.{encoded};
ghost use Rattle.ahci_ffi.specs.Status.{of_fis};
ghost use Rattle.ahci_ffi.specs.Fises.{AnswersDecode, AnswersEncode, PutsAll, bare_fis, d2h_named, data_named, dma_setup_named, fis_named, flat_fis, h2d_named, is_flag, pio_setup_named, set_bits_named};

use crate::flat::FlatFis;
use crate::status::Status;
use port_refusal::Refusal;
use sata_fis::{
    D2h, DmaSetup, Fis, FisFault, H2d, Payload, PioSetup, SetBits, data_head, decode, is_lba,
    is_set_bits_status, is_tag,
};

/// Reads a FIS. The payload of a Data FIS begins after its first four bytes.
pub fn fis_decode(bytes: &[u8], fis: &mut FlatFis) -> Status
    ensures { AnswersDecode bytes.now result fis.old fis.new }
{
    match decode(bytes) {
        Ok(found) => {
            *fis = flat_fis(&found);
            Status::Done
        }
        Err(fault) => fis_status(fault),
    }
}

/// Writes a FIS to the beginning of `out`; `len` is how many bytes it has then. A Data FIS has this payload.
pub fn fis_encode(fis: &FlatFis, payload: &[u8], out: &mut [u8], len: &mut usize) -> Status
    ensures { AnswersEncode (fis_named fis.now payload.now) result out.old out.new len.old len.new }
{
    match fis_named(fis, payload) {
        Ok(named) => put_fis(&named, out, len),
        Err(reason) => reason,
    }
}

/// Writes the bytes of a FIS.
fn put_fis(fis: &Fis<'_>, out: &mut [u8], len: &mut usize) -> Status
    ensures { PutsAll (encoded fis.now) result out.old out.new len.old len.new }
{
    match fis {
        Fis::Data(payload) => put(&data_head(), payload.bytes, out, len),
        other => put(other.encode().as_slice(), &[], out, len),
    }
}

/// Writes some bytes, and more after them.
pub(crate) fn put(head: &[u8], rest: &[u8], out: &mut [u8], len: &mut usize) -> Status
    ensures { PutsAll (head.now ++ rest.now) result out.old out.new len.old len.new }
{
    let total = head.len() + rest.len();
    if out.len() < total {
        return Status::BufferTooSmall;
    }
    out[..head.len()].copy_from_slice(head);
    out[head.len()..total].copy_from_slice(rest);
    *len = total;
    Status::Done
}

/// A FIS of a type that has no field.
fn bare_fis(kind: u8) -> FlatFis
    ensures { result ≡ bare_fis kind }
{
    FlatFis {
        kind,
        ..FlatFis::default()
    }
}

/// A FIS as a struct.
fn flat_fis(fis: &Fis<'_>) -> FlatFis
    ensures { result ≡ flat_fis fis.now }
{
    match fis {
        Fis::H2d(f) => FlatFis {
            c: u8::from(f.c),
            command: f.command,
            features: f.features,
            lba: f.lba,
            device: f.device,
            count: f.count,
            control: f.control,
            ..bare_fis(0x27)
        },
        Fis::D2h(f) => FlatFis {
            i: u8::from(f.i),
            status: f.status,
            error: f.error,
            lba: f.lba,
            device: f.device,
            count: f.count,
            ..bare_fis(0x34)
        },
        Fis::DmaActivate => bare_fis(0x39),
        Fis::DmaSetup(f) => FlatFis {
            a: u8::from(f.a),
            i: u8::from(f.i),
            d: u8::from(f.d),
            tag: f.tag,
            offset: f.offset,
            transfer: f.count,
            ..bare_fis(0x41)
        },
        Fis::PioSetup(f) => FlatFis {
            i: u8::from(f.i),
            d: u8::from(f.d),
            status: f.status,
            error: f.error,
            lba: f.lba,
            device: f.device,
            count: f.count,
            e_status: f.e_status,
            bytes: f.bytes,
            ..bare_fis(0x5F)
        },
        Fis::SetBits(f) => FlatFis {
            i: u8::from(f.i),
            status: f.status,
            error: f.error,
            sactive: f.sactive,
            ..bare_fis(0xA1)
        },
        Fis::Data(payload) => FlatFis {
            payload: payload.bytes.len() as u16,
            ..bare_fis(0x46)
        },
    }
}

/// The FIS that a struct names, with this payload where it is Data.
fn fis_named<'a>(fis: &FlatFis, payload: &'a [u8]) -> Result<Fis<'a>, Status>
    ensures { result ≡ fis_named fis.now payload.now }
{
    Ok(match fis.kind {
        0x27 => Fis::H2d(h2d_named(fis)?),
        0x34 => Fis::D2h(d2h_named(fis)?),
        0x39 => Fis::DmaActivate,
        0x41 => Fis::DmaSetup(dma_setup_named(fis)?),
        0x5F => Fis::PioSetup(pio_setup_named(fis)?),
        0xA1 => Fis::SetBits(set_bits_named(fis)?),
        0x46 => Fis::Data(data_named(payload)?),
        _ => return Err(Status::UnknownType),
    })
}

/// A flag, where the byte is 0 or 1.
fn flag(byte: u8) -> Result<bool, Status>
    ensures { result ≡ (if is_flag byte then Ok (byte == 1) else Err Status.BadFlag) }
{
    match byte {
        0 => Ok(false),
        1 => Ok(true),
        _ => Err(Status::BadFlag),
    }
}

/// An LBA, where it fits 48 bits.
fn lba(lba: u64) -> Result<u64, Status>
    ensures { result ≡ (if nat_le (2 ^ 48) lba then Err (Status.Refused Refusal.BadLba) else Ok lba) }
{
    if is_lba(lba) {
        Ok(lba)
    } else {
        Err(Status::Refused(Refusal::BadLba))
    }
}

/// Register FIS - Host to Device.
fn h2d_named(fis: &FlatFis) -> Result<H2d, Status>
    ensures { result ≡ h2d_named fis.now }
{
    Ok(H2d {
        c: flag(fis.c)?,
        command: fis.command,
        features: fis.features,
        lba: lba(fis.lba)?,
        device: fis.device,
        count: fis.count,
        control: fis.control,
    })
}

/// Register FIS - Device to Host.
fn d2h_named(fis: &FlatFis) -> Result<D2h, Status>
    ensures { result ≡ d2h_named fis.now }
{
    Ok(D2h {
        i: flag(fis.i)?,
        status: fis.status,
        error: fis.error,
        lba: lba(fis.lba)?,
        device: fis.device,
        count: fis.count,
    })
}

/// DMA Setup FIS.
fn dma_setup_named(fis: &FlatFis) -> Result<DmaSetup, Status>
    ensures { result ≡ dma_setup_named fis.now }
{
    let (a, i, d) = (flag(fis.a)?, flag(fis.i)?, flag(fis.d)?);
    if !is_tag(fis.tag) {
        return Err(Status::BadTag);
    }
    Ok(DmaSetup {
        a,
        i,
        d,
        tag: fis.tag,
        offset: fis.offset,
        count: fis.transfer,
    })
}

/// PIO Setup FIS.
fn pio_setup_named(fis: &FlatFis) -> Result<PioSetup, Status>
    ensures { result ≡ pio_setup_named fis.now }
{
    Ok(PioSetup {
        i: flag(fis.i)?,
        d: flag(fis.d)?,
        status: fis.status,
        error: fis.error,
        lba: lba(fis.lba)?,
        device: fis.device,
        count: fis.count,
        e_status: fis.e_status,
        bytes: fis.bytes,
    })
}

/// Set Device Bits FIS.
fn set_bits_named(fis: &FlatFis) -> Result<SetBits, Status>
    ensures { result ≡ set_bits_named fis.now }
{
    let i = flag(fis.i)?;
    if !is_set_bits_status(fis.status) {
        return Err(Status::BadStatus);
    }
    Ok(SetBits {
        i,
        status: fis.status,
        error: fis.error,
        sactive: fis.sactive,
    })
}

/// The payload of a Data FIS.
fn data_named(bytes: &[u8]) -> Result<Payload<'_>, Status>
    ensures { result ≡ data_named bytes.now }
{
    match Payload::new(bytes) {
        Some(payload) => Ok(payload),
        None => Err(Status::BadPayload),
    }
}

/// Why bytes are no FIS.
fn fis_status(fault: FisFault) -> Status
    ensures { result ≡ of_fis fault }
{
    match fault {
        FisFault::Empty => Status::EmptyFis,
        FisFault::UnknownType(_) => Status::UnknownType,
        FisFault::WrongLength(_) => Status::WrongFisLength,
    }
}
