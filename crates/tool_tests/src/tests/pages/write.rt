//! Pages that are written: in which form, to writers that take little or fail, and without memory.
use super::texts::TAG_3;
use ata_pages::{IdentifyText, PageFault, write_identify, write_log};
use ncq_core::{identify_page, log_page};
use refusing_allocator::{Refusals, Refusing};
use std::alloc::Global;
use std::io;
use std::io::Write;
use std::process::Abort;
use std::test::Fail;
use test_helpers::Full;

/// How a writer fails.
#[derive(Clone, Copy, Debug, PartialEq, Eq)]
enum Failure {
    Write,
    TakesNone,
    Flush,
}

/// A writer that takes at most seven bytes at once. Once it took so many in all it fails so often, and then goes on.
#[derive(Drop)]
struct Sink {
    written: Vec<u8>,
    room: usize,
    failure: Failure,
    times: u32,
}

/// More often than a writer is asked.
const ALWAYS: u32 = u32::MAX;

impl Sink {
    /// Whether a call fails that may fail.
    fn fails(&mut self) -> bool {
        let fails = self.written.len() == self.room && self.times > 0;
        if fails {
            self.times = self.times.saturating_sub(1);
        }
        fails
    }
}

impl Write for Sink {
    fn write(&mut self, buf: &[u8]) -> io::Result<usize> {
        if self.failure != Failure::Flush && self.fails() {
            return match self.failure {
                Failure::TakesNone => Ok(0),
                _ => Err(io::Error::from(io::ErrorKind::Interrupted)),
            };
        }
        let count = match self.room.saturating_sub(self.written.len()) {
            0 => 7,
            left => left.min(7),
        };
        let count = count.min(buf.len());
        self.written.extend_from_slice(&buf[..count])?;
        Ok(count)
    }

    fn flush(&mut self) -> io::Result<()> {
        if self.failure == Failure::Flush && self.fails() {
            return Err(io::Error::from(io::ErrorKind::Other));
        }
        Ok(())
    }
}

#[test]
fn a_page_is_written_as_text_or_as_its_bytes(rt: HostRuntime) -> Result<(), Fail> {
    let alloc = rt.alloc();
    let mut told = Vec::new(alloc);
    assert_eq!(rt; write_identify(alloc, 1000, 32, false, &mut told), Ok(()));
    let text = IdentifyText(identify_page(1000, 32)).to_string(alloc)?;
    assert!(rt; told.as_slice() == text.as_bytes());
    let mut raw = Vec::new(alloc);
    assert_eq!(rt; write_identify(alloc, 1000, 32, true, &mut raw), Ok(()));
    assert!(rt; raw.as_slice() == identify_page(1000, 32).as_slice());
    Ok(())
}

#[test]
fn a_log_is_written_as_text_or_as_its_bytes(rt: HostRuntime) -> Result<(), Fail> {
    let alloc = rt.alloc();
    let mut told = Vec::new(alloc);
    assert_eq!(rt; write_log(alloc, 3, 0x40, 7, false, &mut told), Ok(()));
    assert!(rt; told.as_slice() == TAG_3.as_bytes());
    let mut raw = Vec::new(alloc);
    assert_eq!(rt; write_log(alloc, 3, 0x40, 7, true, &mut raw), Ok(()));
    assert!(rt; raw.as_slice() == log_page(3, 0x40, 7).as_slice());
    Ok(())
}

/// Writes a log to a writer that fails so often once it took so many bytes. What it took then is all that is written.
fn fails_after(rt: &impl Abort, alloc: Global, failure: Failure, times: u32, room: usize) {
    let mut writer = Sink {
        written: Vec::new(alloc),
        room,
        failure,
        times,
    };
    let ended = write_log(alloc, 3, 0x40, 7, false, &mut writer);
    let wanted = if room == TAG_3.len() && failure != Failure::Flush {
        Ok(())
    } else {
        Err(PageFault::Write)
    };
    assert_eq!(rt; ended, wanted, "{failure:?} {times}, room {room}");
    assert!(rt;
        writer.written.as_slice() == &TAG_3.as_bytes()[..room.min(TAG_3.len())],
        "{failure:?} {times}, room {room}"
    );
}

#[test]
fn a_writer_may_take_any_number_of_bytes(rt: HostRuntime) {
    for room in 0..=TAG_3.len() {
        fails_after(&rt, rt.alloc(), Failure::TakesNone, ALWAYS, room);
    }
}

#[test]
fn nothing_is_written_after_a_write_that_failed_once(rt: HostRuntime) {
    for failure in [Failure::Write, Failure::TakesNone] {
        for room in 0..=TAG_3.len() {
            fails_after(&rt, rt.alloc(), failure, 1, room);
        }
    }
}

#[test]
fn what_is_not_flushed_is_not_written(rt: HostRuntime) {
    for times in [1, ALWAYS] {
        fails_after(&rt, rt.alloc(), Failure::Flush, times, TAG_3.len());
    }
}

#[test]
fn a_text_wants_memory_and_raw_bytes_want_none(rt: HostRuntime) {
    let heap = Refusing::new(rt.alloc());
    heap.refuse(Refusals::From(0));
    let mut told = Vec::new(rt.alloc());
    let ended = write_identify(&heap, 8, 4, false, &mut told);
    assert_eq!(rt; ended, Err(PageFault::OutOfMemory));
    assert!(rt; told.is_empty() && heap.refused() == 1);
    heap.refuse(Refusals::From(0));
    assert_eq!(rt; write_log(&heap, 0, 0x04, 0, true, &mut told), Ok(()));
    assert!(rt; told.len() == 512 && heap.requests() == 0);
    assert_eq!(rt; write_identify(&heap, 8, 4, true, &mut told), Ok(()));
    assert!(rt; told.len() == 1024 && heap.requests() == 0);
}

#[test]
fn a_page_is_written_or_output_has_failed(rt: HostRuntime) {
    let alloc = rt.alloc();
    for room in [0, 511, 512] {
        let wanted = if room == 512 {
            Ok(())
        } else {
            Err(PageFault::Write)
        };
        let identified = write_identify(alloc, 8, 4, true, &mut Full { room });
        assert_eq!(rt; identified, wanted, "with room for {room}");
        let logged = write_log(alloc, 3, 0x40, 7, true, &mut Full { room });
        assert_eq!(rt; logged, wanted, "with room for {room}");
    }
    let mut text = Vec::new(alloc);
    assert_eq!(rt; write_log(alloc, 3, 0x40, 7, false, &mut text), Ok(()));
    assert!(rt;
        text.as_slice()
            .starts_with(b"NQ 0, UNL 0, NCQ TAG 3\nLBA 7\nbyte 000  03  ")
    );
}
