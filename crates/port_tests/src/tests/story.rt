//! Calls of a port as the rows of a table.
ghost use Rattle.std.specs.Prelude.{◌≤◌, ◌<◌};

use crate::tests::table::equal;
use ahci_port::{
    CollectFault, IssueFault, PlainFault, Port, RecoverFault, ReissueFault, Reply, ResetFault,
    StepFault, Stepped, SubmitFault, ZeroFault,
};
use ahci_regs::RegFault;
use ahci_table::{Window, default_pieces};
use ncq_journal::{Op, Outcome};
use std::alloc::{AllocError, Global};
use std::fmt::Debug;
use std::process::Abort;
use std::test::Fail;
use test_helpers::{Job, TableStep, byte_of};

/// A call of a port with its answer, or something that the port shows.
#[derive(Clone, Copy)]
pub enum Row {
    /// A command of one sector: its tag and LBA, and a write's byte. The answer is its number.
    Issue(u8, u64, Option<u8>, Result<u64, IssueFault>),
    /// One that is refused changes nothing that the port shows.
    Step(TableStep, Result<Stepped, StepFault>),
    /// The device accepts these commands, one after the other, the first of them as this entry.
    Accepts(&'static [u8], u64),
    /// It serves them by one call: the first entry, and how many there are.
    Serves(&'static [u8], u64, u32),
    /// A request by its tag and number: its entry and outcome, and the byte that its window's text is filled with.
    Collect(u8, u64, Result<(u64, Outcome, u8), CollectFault>),
    /// The same of a command that has failed: its entry, error and LBA, and the byte.
    Failure(u8, u64, (u64, u8, u64), u8),
    Recover(Result<u8, RecoverFault>),
    Reissue(u8, Result<(), ReissueFault>),
    /// How many entries are handed out.
    Reset(Result<u64, ResetFault>),
    /// A word of the identify page, low byte first.
    Identify(usize, Result<[u8; 2], PlainFault>),
    Flush(Result<(), PlainFault>),
    /// So many sectors from an LBA on become zeros.
    Zero(u64, u32, Result<(), ZeroFault>),
    Acknowledge(u32),
    Register(u32, Result<u32, RegFault>),
    /// Eight bytes of the received FIS area.
    Received(usize, [u8; 8]),
    /// The byte that a sector is filled with.
    Sector(u64, u8),
    /// How many entries the journal has.
    Entries(u64),
}

/// A port over so many sectors of zeros.
pub fn port_of(alloc: Global, sectors: usize, depth: u32) -> Result<Port, Fail>
    requires { sectors ≤ 131072 }
{
    Ok(Port::new(alloc, image_of(alloc, sectors)?, depth)?)
}

/// So many sectors of zeros.
pub fn image_of(alloc: Global, sectors: usize) -> Result<Vec<u8>, AllocError>
    requires { sectors ≤ 131072 }
{
    vec![in alloc; 0u8; sectors * 512]
}

/// What a command of one sector asks: a write of sectors filled with a byte, or a read where there is none.
fn op_of(alloc: Global, lba: u64, byte: Option<u8>) -> Result<Op, AllocError> {
    let job = match byte {
        Some(byte) => Job::Write(lba, byte),
        None => Job::Read(lba),
    };
    job.op(alloc)
}

/// The window of a command of one sector, over the default pieces.
pub fn window_of(alloc: Global, tag: u8, lba: u64, byte: Option<u8>) -> Result<Window, Fail>
    requires { tag < 32 }
{
    let op = op_of(alloc, lba, byte)?;
    Ok(Window::build(alloc, tag, &op, &default_pieces(1))?)
}

/// Submits a command, and answers its number.
fn submit(
    alloc: Global,
    port: &mut Port,
    tag: u8,
    lba: u64,
    byte: Option<u8>,
) -> Result<Result<u64, IssueFault>, Fail> {
    match port.submit(tag, op_of(alloc, lba, byte)?) {
        Ok(number) => Ok(Ok(number)),
        Err((_, SubmitFault::Issue(fault))) => Ok(Err(fault)),
        Err((_, fault)) => Err(Fail::from(fault)),
    }
}

/// The reply of a request, and the byte that its window's text is filled with.
fn collect(port: &mut Port, tag: u8, number: u64) -> Result<(Reply, Option<u8>), CollectFault> {
    let (reply, window) = port.collect(tag, number)?;
    let text = window.bytes().get(0x1000..0x1200);
    Ok((reply, text.and_then(byte_of)))
}

/// What a row of a request wants.
fn collected(
    number: u64,
    answer: Result<(u64, Outcome, u8), CollectFault>,
) -> Result<(Reply, Option<u8>), CollectFault> {
    let (entry, outcome, byte) = answer?;
    let reply = Reply {
        number,
        entry,
        outcome,
    };
    Ok((reply, Some(byte)))
}

/// Collects a request by its tag and number, and compares what it answers.
fn collects<L: Debug + Copy>(
    rt: &impl Abort,
    port: &mut Port,
    row: L,
    (tag, number): (u8, u64),
    wanted: Result<(u64, Outcome, u8), CollectFault>,
) {
    let found = collect(port, tag, number);
    equal(rt, row, &found, &collected(number, wanted));
}

/// A word of the identify page.
fn identify(port: &mut Port, word: usize) -> Result<[u8; 2], PlainFault> {
    let page = port.identify()?;
    let low = page.get(word.saturating_mul(2)).copied().unwrap_or(0);
    let high = page.get(word.saturating_mul(2).saturating_add(1));
    Ok([low, high.copied().unwrap_or(0)])
}

/// The byte that a sector is filled with, where there is such a sector.
fn sector_byte(port: &Port, lba: u64) -> Option<u8> {
    let mut sector = [0; 512];
    if lba >= u64::from(port.sectors()) {
        return None;
    }
    port.copy(lba, &mut sector);
    byte_of(&sector)
}

/// What a step moves: PxIS, PxTFD, PxSACT and PxCI, the received FIS area, how many entries the journal has, and the image.
type Shown = ([Result<u32, RegFault>; 4], [u8; 256], u64, Vec<u8>);

fn look_at(alloc: Global, port: &Port) -> Result<Shown, AllocError> {
    let mut image = Vec::new(alloc);
    let mut sector = [0; 512];
    for lba in 0..u64::from(port.sectors()) {
        port.copy(lba, &mut sector);
        image.extend_from_slice(&sector)?;
    }
    let words = [
        port.register(0x110),
        port.register(0x120),
        port.register(0x134),
        port.register(0x138),
    ];
    Ok((words, *port.received(), port.journal().len(), image))
}

/// Lets the device take a step, and compares what it answers. One that is refused changes nothing that the port shows.
fn steps<L: Debug + Copy>(
    rt: &impl Abort,
    alloc: Global,
    port: &mut Port,
    row: L,
    step: TableStep,
    wanted: Result<Stepped, StepFault>,
) -> Result<(), AllocError> {
    let before = look_at(alloc, port)?;
    let answer = port.step(step.of_device());
    let after = look_at(alloc, port)?;
    let found = (answer, after == before);
    equal(rt, row, &found, &(wanted, wanted.is_err()));
    Ok(())
}

/// Makes the call of a row, and compares what it answers.
pub fn goes<L: Debug + Copy>(
    rt: &impl Abort,
    alloc: Global,
    port: &mut Port,
    row: L,
    call: Row,
) -> Result<(), Fail> {
    match call {
        Row::Issue(tag, lba, byte, answer) => {
            equal(rt, row, &submit(alloc, port, tag, lba, byte)?, &answer);
        }
        Row::Step(step, answer) => steps(rt, alloc, port, row, step, answer)?,
        Row::Accepts(tags, first) => {
            for (index, tag) in tags.iter().enumerate() {
                let answer = Ok(Stepped::Accepted(first.saturating_add(index as u64)));
                steps(rt, alloc, port, row, TableStep::Accept(*tag), answer)?;
            }
        }
        Row::Serves(tags, first, count) => {
            let answer = Ok(Stepped::Completed { first, count });
            steps(rt, alloc, port, row, TableStep::Serve(tags), answer)?;
        }
        Row::Collect(tag, number, answer) => collects(rt, port, row, (tag, number), answer),
        Row::Failure(tag, number, (entry, error, lba), byte) => {
            let answer = Ok((entry, Outcome::Failed { error, lba }, byte));
            collects(rt, port, row, (tag, number), answer);
        }
        Row::Recover(answer) => equal(rt, row, &port.recover(), &answer),
        Row::Reissue(tag, answer) => equal(rt, row, &port.reissue(tag), &answer),
        Row::Reset(answer) => {
            let found = port.reset().map(|journal| journal.len());
            equal(rt, row, &found, &answer);
        }
        Row::Identify(word, answer) => equal(rt, row, &identify(port, word), &answer),
        Row::Flush(answer) => equal(rt, row, &port.flush(), &answer),
        Row::Zero(lba, sectors, answer) => equal(rt, row, &port.zero(lba, sectors), &answer),
        Row::Acknowledge(mask) => port.acknowledge(mask),
        Row::Register(off, word) => equal(rt, row, &port.register(off), &word),
        Row::Received(at, bytes) => {
            let found = port.received().get(at..at.saturating_add(8));
            equal(rt, row, &(found == Some(bytes.as_slice())), &true);
        }
        Row::Sector(lba, byte) => equal(rt, row, &sector_byte(port, lba), &Some(byte)),
        Row::Entries(count) => equal(rt, row, &port.journal().len(), &count),
    }
    Ok(())
}

/// Makes the calls of a table, and compares what they answer.
pub fn goes_on(
    rt: &impl Abort,
    alloc: Global,
    port: &mut Port,
    table: &str,
    rows: &[Row],
) -> Result<(), Fail> {
    for (number, row) in rows.iter().enumerate() {
        goes(rt, alloc, port, (table, number), *row)?;
    }
    Ok(())
}
