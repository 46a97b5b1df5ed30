//! The calls that need no port. Their values are those of the standards.
use crate::tests::guest::{HEADER, window};
use ahci_ffi::{
    FlatCommand, FlatFis, Status, fis_decode, fis_encode, identify_page, log_page, status_text,
    window_check,
};
use std::test::Fail;

#[test]
fn a_disk_of_131072_sectors_tells_so_in_word_61(rt: HostRuntime) -> Result<(), Fail> {
    let mut page = [0; 512];
    assert_eq!(rt; identify_page(131_072, 32, &mut page), Status::Done);
    assert_eq!(rt; (page[122], page[123], page[150]), (2, 0, 31));
    Ok(())
}

#[test]
fn an_error_of_tag_3_stands_in_the_first_bytes_of_its_page(rt: HostRuntime) -> Result<(), Fail> {
    let mut page = [0; 512];
    assert_eq!(rt; log_page(3, 0x40, 7, &mut page), Status::Done);
    assert!(rt; &page[..5] == [3, 0, 0x41, 0x40, 7].as_slice() && page[511] == 0x75);
    Ok(())
}

#[test]
fn a_status_is_named_as_scripts_name_it(rt: HostRuntime) -> Result<(), Fail> {
    let mut text = [0xEE; 16];
    let mut len = 9;
    assert_eq!(rt; status_text(43, &mut text, &mut len), Status::Done);
    assert!(rt; len == 14 && &text[..15] == b"OutsideCommand\0".as_slice() && text[15] == 0xEE);
    assert_eq!(rt; status_text(14, &mut text, &mut len), Status::BadKind);
    Ok(())
}

#[test]
fn a_fit_window_asks_for_its_command(rt: HostRuntime) -> Result<(), Fail> {
    let mut command = FlatCommand {
        lba: 0,
        sectors: 0,
        kind: 9,
        tag: 0,
        pieces: 0,
    };
    let answer = window_check(rt.alloc(), 1, &HEADER, &window(), &mut command);
    let wanted = FlatCommand {
        lba: 3,
        sectors: 1,
        kind: 0,
        tag: 1,
        pieces: 1,
    };
    assert_eq!(rt; (answer, command), (Status::Done, wanted));
    Ok(())
}

#[test]
fn the_bytes_of_a_set_device_bits_fis_are_read_and_written(rt: HostRuntime) -> Result<(), Fail> {
    let bytes = [0xA1, 0x40, 0x41, 0x40, 0x08, 0, 0, 0x80];
    let wanted = FlatFis {
        kind: 0xA1,
        i: 1,
        status: 0x41,
        error: 0x40,
        sactive: 0x8000_0008,
        ..FlatFis::default()
    };
    // DMA Activate, a FIS without a field
    let mut fis = FlatFis {
        kind: 0x39,
        ..FlatFis::default()
    };
    assert_eq!(rt; (fis_decode(&bytes, &mut fis), fis), (Status::Done, wanted));
    let mut out = [0xEE; 8];
    let mut len = 0;
    assert_eq!(rt; fis_encode(&fis, &[], &mut out, &mut len), Status::Done);
    assert_eq!(rt; (len, out), (8, bytes));
    Ok(())
}
