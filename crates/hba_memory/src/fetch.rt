//! How a command is read from the driver's memory.

ghost use Rattle.std.specs.Prelude.{◌≡◌, ◌≢◌, ◌≤◌, ◌*◌, ◌++◌, [], true, IfErr, IfOk, OnErr, length};
ghost use Rattle.hba_command.specs.CommandFis.{command_fis};
ghost use Rattle.hba_command.specs.CommandHeader.{header_at};
ghost use Rattle.hba_memory.specs.Reading.{HasRoom, after_bytes, allocates, after_command, after_content, after_entries, after_header, after_list, after_task, is_over, is_sendable, is_short, is_write, moved_by, moves_data, next_run, read_by, reading_of, with_entries};
ghost use Rattle.hba_memory.specs.Runs.{first_run, later_runs};
ghost use Rattle.hba_memory.specs.Table.{next_entries};

use crate::gather::Gather;
use crate::lengths::total;
use crate::reading::Reading;
use crate::reserved_buffer::ReservedBuffer;
use crate::table::TableReader;
use hba_command::{CommandHeader, PrdEntry, Task, action_of, command_fis, task_of};
use std::alloc::{AllocError, Allocator, Global};
use std::marker::Model;
use std::mem;

/// A command that is read from the driver's memory, each byte once: its header, the command FIS, the PRDT if the command moves data, and
/// a write's data (AHCI 1.3.1, sections 4.2 and 5.3). Contracts see how far it is read.
#[derive(Drop)]
pub struct Fetch<A: Allocator = Global> {
    reading: Reading<A>,
}

impl<A: Allocator> Model for Fetch<A> {
    ghost use Rattle.hba_memory.specs.Reading.{HasRoom, ReadingView, reading_of};

    ghost Value = { ReadingView };

    ghost view = { λ f. reading_of f.reading };

    ghost invariant = { λ f. HasRoom (reading_of f.reading) };
}

/// Whether a header is one of a command that this controller sends.
fn is_sendable(header: &CommandHeader) -> bool
    ensures { result ≡ is_sendable header.now }
{
    header.fis_dwords == 5 && !header.atapi && !header.bist
}

/// How many bytes of data the command moves.
pub fn moved_by(task: &Task) -> u32
    ensures { result ≡ moved_by task.now }
{
    hba_command::moved_by(&action_of(task))
}

/// Whether its data go to the device.
pub fn is_write(task: &Task) -> bool
    ensures { result ≡ is_write task.now }
{
    hba_command::is_write(&action_of(task))
}

/// Whether the entries name fewer bytes than the command moves.
pub fn is_short(task: &Task, list: &[PrdEntry]) -> bool
    ensures { result ≡ is_short task.now list.now }
{
    total(list) < u128::from(moved_by(task))
}

/// How many bytes are read from the driver's memory.
fn read_by(task: &Task) -> u32
    ensures { result ≡ read_by task.now }
{
    if is_write(task) { moved_by(task) } else { 0 }
}

/// What is read after a header.
fn after_header<A: Allocator>(bytes: &[u8; 32]) -> Reading<A>
    ensures { reading_of result ≡ after_header (header_at bytes.now) }
{
    let header = CommandHeader::at(bytes);
    if is_sendable(&header) {
        Reading::Command(header)
    } else {
        Reading::Malformed
    }
}

/// What is read after the last entry.
fn after_list<A: Allocator + Copy>(
    task: Task,
    clears: bool,
    list: Vec<PrdEntry, A>,
    room: ReservedBuffer<A>,
) -> Reading<A>
    requires { room ≡ read_by task }
    ensures next { reading_of result ≡ after_list task clears list.items }
    ensures room { HasRoom (reading_of result) }
{
    if !is_write(&task) {
        return Reading::Whole(task, clears, list, room.into_bytes());
    }
    if is_short(&task, &list) {
        return Reading::Short(clears);
    }
    Reading::Content(task, clears, Gather::over(list, room))
}

/// What is read after a task is known. Memory for the list and for a write's data is allocated here.
fn after_task<A: Allocator + Copy>(
    alloc: A,
    header: &CommandHeader,
    task: Task,
) -> Result<Reading<A>, AllocError>
    ensures next { IfOk result (λ r. reading_of r ≡ after_task header.now task) }
    ensures room { IfOk result (λ r. HasRoom (reading_of r)) }
    ensures lacking { OnErr result (moved_by task ≢ 0) }
{
    if moved_by(&task) == 0 {
        return Ok(Reading::Whole(task, header.clears_busy, Vec::new(alloc), Vec::new(alloc)));
    }
    let room = ReservedBuffer::new(alloc, read_by(&task) as usize)?;
    if header.entries == 0 {
        return Ok(after_list(task, header.clears_busy, Vec::new(alloc), room));
    }
    let table = TableReader::new(alloc, header.table, header.entries, moved_by(&task))?;
    Ok(Reading::Entries(task, header.clears_busy, table, room))
}

/// What is read after the command FIS.
fn after_command<A: Allocator + Copy>(
    alloc: A,
    header: &CommandHeader,
    bytes: &[u8; 20],
) -> Result<Reading<A>, AllocError>
    ensures next { IfOk result (λ r. reading_of r ≡ after_command header.now (command_fis bytes.now)) }
    ensures room { IfOk result (λ r. HasRoom (reading_of r)) }
    ensures lacking { OnErr result (moves_data (command_fis bytes.now) ≡ true) }
{
    match command_fis(bytes) {
        Some(h2d) => after_task(alloc, header, task_of(&h2d)),
        None => Ok(Reading::Malformed),
    }
}

/// What is read after some entries.
fn with_entries<A: Allocator + Copy>(
    task: Task,
    clears: bool,
    table: TableReader<A>,
    room: ReservedBuffer<A>,
    bytes: &[u8],
) -> Reading<A>
    requires length { length bytes.now ≡ 16 * next_entries table }
    requires room { room ≡ read_by task }
    requires needed { table.needed ≡ moved_by task }
    ensures next { reading_of result ≡ after_entries task clears (with_entries table bytes.now) room }
    ensures room { HasRoom (reading_of result) }
{
    let mut table = table;
    table.supply(bytes);
    if table.is_done() || !table.is_short() {
        after_list(task, clears, table.into_list(), room)
    } else {
        Reading::Entries(task, clears, table, room)
    }
}

/// What is read after a run of a write's data.
fn with_content<A: Allocator>(
    task: Task,
    clears: bool,
    gather: Gather<A>,
    bytes: &[u8],
) -> Reading<A>
    requires { length bytes.now ≡ (first_run gather.runs).length }
    ensures { reading_of result ≡ after_content task clears (record { list = gather.list; runs = later_runs gather.runs; bytes = gather.bytes ++ bytes.now }) }
{
    let mut gather = gather;
    gather.supply(bytes);
    if gather.is_done() {
        let (list, bytes) = gather.into_parts();
        Reading::Whole(task, clears, list, bytes)
    } else {
        Reading::Content(task, clears, gather)
    }
}

/// What is read after the bytes that came next.
fn after_bytes<A: Allocator + Copy>(
    alloc: A,
    reading: Reading<A>,
    bytes: &[u8],
) -> Result<Reading<A>, (Reading<A>, AllocError)>
    requires length { length bytes.now ≡ (next_run (reading_of reading)).length }
    requires room { HasRoom (reading_of reading) }
    ensures ok { IfOk result (λ r. reading_of r ≡ after_bytes (reading_of reading) bytes.now) }
    ensures room { IfOk result (λ r. HasRoom (reading_of r)) }
    ensures err { IfErr result (λ e. e.0 ≡ reading) }
    ensures lacking { OnErr result (allocates (reading_of reading) bytes.now ≡ true) }
{
    match reading {
        Reading::Header(_) => {
            let mut header = [0; 32];
            header.copy_from_slice(bytes);
            Ok(after_header(&header))
        }
        Reading::Command(header) => {
            let mut fis = [0; 20];
            fis.copy_from_slice(bytes);
            match after_command(alloc, &header, &fis) {
                Ok(next) => Ok(next),
                Err(fault) => Err((Reading::Command(header), fault)),
            }
        }
        Reading::Entries(task, clears, table, room) => {
            Ok(with_entries(task, clears, table, room, bytes))
        }
        Reading::Content(task, clears, gather) => { Ok(with_content(task, clears, gather, bytes)) }
        over => Ok(over),
    }
}

impl<A: Allocator> Fetch<A> {
    ghost use Rattle.hba_memory.specs.Reading.{Header};

    /// The command whose header is at this address.
    pub fn new(place: u64) -> Self
        ensures { result ≡ Header place }
    {
        Fetch {
            reading: Reading::Header(place),
        }
    }

    /// Whether nothing comes next.
    pub fn is_over(&self) -> bool
        ensures { result ≡ is_over self.now }
    {
        matches!(
            &self.reading,
            Reading::Whole(_, _, _, _) | Reading::Malformed | Reading::Short(_)
        )
    }

    /// Where the bytes that come next are; 0 if nothing comes.
    pub fn address(&self) -> u64
        ensures { result ≡ (next_run self.now).address }
    {
        match &self.reading {
            Reading::Header(place) => *place,
            Reading::Command(header) => header.table,
            Reading::Entries(_, _, table, _) => table.address(),
            Reading::Content(_, _, gather) => gather.address(),
            _ => 0,
        }
    }

    /// How many bytes come next.
    pub fn length(&self) -> usize
        ensures { result ≡ (next_run self.now).length }
    {
        match &self.reading {
            Reading::Header(_) => 32,
            Reading::Command(_) => 20,
            Reading::Entries(_, _, table, _) => table.length(),
            Reading::Content(_, _, gather) => gather.length(),
            _ => 0,
        }
    }

    /// How far the command is read.
    pub fn into_reading(self) -> Reading<A>
        ensures { reading_of result ≡ self }
    {
        self.reading
    }
}

impl<A: Allocator + Copy> Fetch<A> {
    ghost use Rattle.std.specs.Prelude.{OnOk};

    /// Takes the bytes that come next.
    ///
    /// # Errors
    /// An allocation failed, with the command FIS of a command that moves data; nothing has changed, and the same bytes may be supplied again.
    pub fn supply(&mut self, alloc: A, bytes: &[u8]) -> Result<(), AllocError>
        requires { length bytes.now ≡ (next_run self.old).length }
        ensures ok { OnOk result (self.new ≡ after_bytes self.old bytes.now) }
        ensures err { OnErr result (self.new ≡ self.old) }
        ensures lacking { OnErr result (allocates self.old bytes.now ≡ true) }
    {
        let reading = mem::replace(&mut self.reading, Reading::Malformed);
        match after_bytes(alloc, reading, bytes) {
            Ok(next) => {
                self.reading = next;
                Ok(())
            }
            Err((same, fault)) => {
                self.reading = same;
                Err(fault)
            }
        }
    }
}
