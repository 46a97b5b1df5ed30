//! A slow reading of each field, which shares nothing with the decoder: every bit by itself.

use sata_fis::{D2h, DmaSetup, Fis, H2d, PioSetup, SetBits};

/// Bit `k` of byte `i` is 1.
pub fn bit(bytes: &[u8], i: usize, k: u32) -> bool {
    let mut byte = bytes.get(i).copied().unwrap_or(0);
    for _ in 0..k {
        byte /= 2;
    }
    byte % 2 == 1
}

/// The bytes at the places, the first of them the lowest.
fn is_number(bytes: &[u8], places: &[usize], mut n: u64) -> bool {
    for i in places {
        let byte = bytes.get(*i).copied().unwrap_or(0);
        if n % 256 != u64::from(byte) {
            return false;
        }
        n /= 256;
    }
    n == 0
}

/// What both Register FISes and PIO Setup have at the same places.
fn is_at(bytes: &[u8], lba: u64, device: u8, count: u16) -> bool {
    is_number(bytes, &[4, 5, 6, 8, 9, 10], lba)
        && is_number(bytes, &[7], u64::from(device))
        && is_number(bytes, &[12, 13], u64::from(count))
}

fn is_h2d(bytes: &[u8], f: &H2d) -> bool {
    is_number(bytes, &[0], 0x27)
        && bytes.len() == 20
        && f.c == bit(bytes, 1, 7)
        && is_number(bytes, &[2], u64::from(f.command))
        && is_number(bytes, &[3, 11], u64::from(f.features))
        && is_at(bytes, f.lba, f.device, f.count)
        && is_number(bytes, &[15], u64::from(f.control))
}

fn is_d2h(bytes: &[u8], f: &D2h) -> bool {
    is_number(bytes, &[0], 0x34)
        && bytes.len() == 20
        && f.i == bit(bytes, 1, 6)
        && is_number(bytes, &[2], u64::from(f.status))
        && is_number(bytes, &[3], u64::from(f.error))
        && is_at(bytes, f.lba, f.device, f.count)
}

fn is_dma_setup(bytes: &[u8], f: &DmaSetup) -> bool {
    let tag = (0..5).all(|k| bit(bytes, 4, k) == bit(&[f.tag], 0, k));
    is_number(bytes, &[0], 0x41)
        && bytes.len() == 28
        && f.a == bit(bytes, 1, 7)
        && f.i == bit(bytes, 1, 6)
        && f.d == bit(bytes, 1, 5)
        && tag
        && f.tag < 32
        && is_number(bytes, &[16, 17, 18, 19], u64::from(f.offset))
        && is_number(bytes, &[20, 21, 22, 23], u64::from(f.count))
}

fn is_pio_setup(bytes: &[u8], f: &PioSetup) -> bool {
    is_number(bytes, &[0], 0x5F)
        && bytes.len() == 20
        && f.i == bit(bytes, 1, 6)
        && f.d == bit(bytes, 1, 5)
        && is_number(bytes, &[2], u64::from(f.status))
        && is_number(bytes, &[3], u64::from(f.error))
        && is_at(bytes, f.lba, f.device, f.count)
        && is_number(bytes, &[15], u64::from(f.e_status))
        && is_number(bytes, &[16, 17], u64::from(f.bytes))
}

fn is_set_bits(bytes: &[u8], f: &SetBits) -> bool {
    let status = (0..8).all(|k| {
        let kept = k != 3 && k != 7;
        bit(&[f.status], 0, k) == (kept && bit(bytes, 2, k))
    });
    is_number(bytes, &[0], 0xA1)
        && bytes.len() == 8
        && f.i == bit(bytes, 1, 6)
        && status
        && is_number(bytes, &[3], u64::from(f.error))
        && is_number(bytes, &[4, 5, 6, 7], u64::from(f.sactive))
}

/// Each field of the FIS is at its place in the bytes.
pub fn agrees(bytes: &[u8], fis: &Fis<'_>) -> bool {
    match fis {
        Fis::H2d(f) => is_h2d(bytes, f),
        Fis::D2h(f) => is_d2h(bytes, f),
        Fis::DmaActivate => is_number(bytes, &[0], 0x39) && bytes.len() == 4,
        Fis::DmaSetup(f) => is_dma_setup(bytes, f),
        Fis::PioSetup(f) => is_pio_setup(bytes, f),
        Fis::SetBits(f) => is_set_bits(bytes, f),
        Fis::Data(payload) => {
            let sized = matches!(payload.bytes.len(), 4..=8192) && payload.bytes.len() % 4 == 0;
            is_number(bytes, &[0], 0x46) && sized && bytes.get(4..) == Some(payload.bytes)
        }
    }
}
