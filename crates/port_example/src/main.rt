//! The port as a library: three commands in its queue, an error in the middle one, what the registers say, and the way out.
#![tactic(auto)]

ghost use Rattle.std.specs.Prelude.{◌<◌};
ghost use Rattle.ahci_port.specs.Headline.{Headline};

use ahci_port::{Bytes, DeviceStep, Op, Outcome, Port, Stepped};
use arrayvec::ArrayVec;
use std::alloc::Global;

/// The registers that a driver looks at after an interrupt (AHCI 1.3.1, section 3.3 "Port Registers").
const PX_IS: u32 = 0x110;

const PX_TFD: u32 = 0x120;

const PX_SACT: u32 = 0x134;

const PX_CI: u32 = 0x138;

/// The error byte for data that can't be read: UNC.
const UNCORRECTABLE: u8 = 0x40;

fn main(rt: HostRuntime) -> anyhow::Result<()> {
    let alloc = rt.alloc();
    let image = filled(alloc, 1000, 0)?;
    let mut port = Port::new(alloc, image, 32)?;
    let numbers = fail(&rt, &mut port)?;
    recover(&rt, &mut port, numbers[1])?;
    finish(&rt, &mut port, numbers)?;
    promised(&port);
    let mut sector = [0; 512];
    if u64::from(port.sectors()) > 9 {
        port.copy(9, &mut sector);
    }
    let entries = port.journal().len();
    println!(rt;
        "sector 9 begins with {:02x}; the journal has {entries} entries",
        sector[0]
    )?;
    Ok(())
}

/// Three commands are in the queue when the second fails. The answer is their requests' numbers.
fn fail(rt: &HostRuntime, port: &mut Port) -> anyhow::Result<[u64; 3]> {
    let alloc = rt.alloc();
    let first = submit(port, 0, Op::Read { lba: 0, sectors: 1 })?;
    let second = submit(port, 1, Op::Read { lba: 7, sectors: 1 })?;
    let bytes = Bytes::from_vec(filled(alloc, 1, 0x5A)?);
    let third = submit(port, 2, Op::Write { lba: 9, bytes })?;
    println!(rt; "requests {first}, {second} and {third} are issued")?;
    accept(port)?;
    port.step(DeviceStep::Fail {
        tag: 1,
        error: UNCORRECTABLE,
        at: 7,
    })?;
    println!(rt; "the second has failed")?;
    show(rt, port)?;
    Ok([first, second, third])
}

/// The port recovers, and the failed request is answered.
fn recover(rt: &HostRuntime, port: &mut Port, failed: u64) -> anyhow::Result<()> {
    let tag = port.recover()?;
    println!(rt; "recovered: tag {tag} had failed")?;
    show(rt, port)?;
    collect(rt, port, tag, failed)
}

/// The commands that the error ended are issued again, and end well: the device serves tag 2, then tag 0, and completes both
/// by one Set Device Bits FIS.
fn finish(rt: &HostRuntime, port: &mut Port, numbers: [u64; 3]) -> anyhow::Result<()> {
    port.reissue(0)?;
    port.reissue(2)?;
    println!(rt; "the others are issued again")?;
    accept(port)?;
    let mut tags = ArrayVec::new();
    tags.push(2);
    tags.push(0);
    if let Stepped::Completed { first, count } = port.step(DeviceStep::Serve(tags))? {
        println!(rt; "one FIS completes {count} commands, from entry {first} on")?;
    }
    show(rt, port)?;
    collect(rt, port, 0, numbers[0])?;
    collect(rt, port, 2, numbers[2])
}

/// What the proof of any caller may say of a port between two calls: the whole promise. The call does nothing.
fn promised(port: &Port)
    ensures { Headline port.now }
{
    port.keeps_its_promise();
}

/// So many sectors of one byte.
fn filled(alloc: Global, sectors: usize, byte: u8) -> anyhow::Result<Vec<u8>>
    requires { sectors < 1048576 }
{
    let mut image = Vec::new(alloc);
    image.resize(512 * sectors, byte)?;
    Ok(image)
}

/// Submits a command. The answer is the request's number.
fn submit(port: &mut Port, tag: u8, op: Op) -> anyhow::Result<u64> {
    Ok(port.submit(tag, op).map_err(|(_op, fault)| fault)?)
}

/// The device accepts every command that waits for it: tags with a bit in PxCI.
fn accept(port: &mut Port) -> anyhow::Result<()> {
    let waiting = port.register(PX_CI)?;
    for tag in 0..32u8 {
        if waiting >> tag & 1 == 1 {
            port.step(DeviceStep::Accept(tag))?;
        }
    }
    Ok(())
}

/// Prints what a driver sees.
fn show(rt: &HostRuntime, port: &Port) -> anyhow::Result<()> {
    let status = port.register(PX_TFD)?;
    let outstanding = port.register(PX_SACT)?;
    let waiting = port.register(PX_CI)?;
    let interrupts = port.register(PX_IS)?;
    println!(rt;
        "  PxTFD {status:08x}, PxSACT {outstanding:08x}, PxCI {waiting:08x}, PxIS {interrupts:08x}"
    )?;
    Ok(())
}

/// Takes a request's answer and prints it.
fn collect(rt: &HostRuntime, port: &mut Port, tag: u8, number: u64) -> anyhow::Result<()> {
    let (reply, window) = port.collect(tag, number)?;
    match reply.outcome {
        Outcome::Read => {
            let text = window.text(rt.alloc())?;
            println!(rt; "request {number} read {} bytes", text.len())?;
        }
        Outcome::Wrote => println!(rt; "request {number} wrote its sectors")?,
        Outcome::Failed { error, lba } => {
            println!(rt; "request {number} failed with error {error:02x} at sector {lba}")?;
        }
    }
    Ok(())
}
