use crate::tests::command_line::words;
use ahci_cli::{StreamLog, program};
use std::alloc::Global;
use std::io::{Read, Write};
use std::sync::Wait;
use std::test::Fail;
use std::thread::Threads;

/// The status with which the program ends for a command line.
pub fn status_of<H: Threads + Wait + Sync>(
    rt: &H,
    alloc: Global,
    line: &str,
    reader: &mut impl Read,
    writer: &mut impl Write,
    errors: &mut impl Write,
) -> Result<u8, Fail> {
    let line = words(alloc, line)?;
    Ok(program(
        rt,
        alloc,
        line.as_slice(),
        reader,
        writer,
        errors,
        &mut StreamLog::new(),
    ))
}
