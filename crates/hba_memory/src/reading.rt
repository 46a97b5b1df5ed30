use crate::gather::Gather;
use crate::reserved_buffer::ReservedBuffer;
use crate::table::TableReader;
use hba_command::{CommandHeader, PrdEntry, Task};
use std::alloc::{Allocator, Global};

/// How far a command is read, and what comes next.
#[derive(Drop)]
pub enum Reading<A: Allocator = Global> {
    /// Its header, at this address.
    Header(u64),
    /// The command FIS of the command table that the header names.
    Command(CommandHeader),
    /// Entries of the PRDT, and C of the header. There is room for a write's data.
    Entries(Task, bool, TableReader<A>, ReservedBuffer<A>),
    /// Bytes of a write's data, and C of the header.
    Content(Task, bool, Gather<A>),
    /// Nothing: all of it is read. A command that moves data has its list, which may be too short for a read; one that writes has
    /// its data too; and C of the header.
    Whole(Task, bool, Vec<PrdEntry, A>, Vec<u8, A>),
    /// Nothing: it can't be sent, since CFL is not 5, A or B of the header is 1, or CFIS has no Register FIS - Host to Device.
    Malformed,
    /// Nothing: the PRDT of a write names fewer bytes than the command moves; and C of the header.
    Short(bool),
}
