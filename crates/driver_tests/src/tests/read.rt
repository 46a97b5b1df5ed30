//! A read of two sectors that differ.
use ahci_driver::{Driver, Low, TagBoard};
use ahci_port::Port;
use ncq_journal::{Op, Outcome};
use std::process::Abort;
use std::test::Fail;

#[test]
fn a_read_of_two_sectors_has_their_bytes_in_order(rt: HostRuntime) -> Result<(), Fail> {
    let alloc = rt.alloc();
    let mut image = Vec::with_capacity(alloc, 4096)?;
    for place in 0..4096u32 {
        image.push((place % 251) as u8)?;
    }
    let port = Port::new(alloc, image, 2)?;
    let (board, mut seat) = TagBoard::new(alloc, 2)?;
    let driver = Driver::new(port, board);
    let op = Op::Read { lba: 1, sectors: 2 };
    let Ok(ticket) = driver.submit(&rt, alloc, &mut seat, &op) else {
        return Err(Fail::new("not submitted"));
    };
    for _ in 0..2 {
        assert!(rt; driver.pump(&rt, &mut Low).is_ok());
    }
    let Ok((reply, bytes)) = driver.collect(&rt, &mut seat, ticket) else {
        return Err(Fail::new("not collected"));
    };
    assert!(rt; reply.outcome == Outcome::Read && bytes.len() == 1024);
    for (place, byte) in bytes.iter().enumerate() {
        assert!(rt; *byte == ((512 + place) % 251) as u8, "{place}: {byte}");
    }
    Ok(())
}
