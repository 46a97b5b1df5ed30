use ahci_port::Reply;
use ncq_journal::Bytes;
use std::alloc::{Allocator, Global};

/// What a worker brings back of a job: the reply, and the bytes of a finished read, none otherwise.
#[derive(Drop)]
#[derive_where(Debug)]
pub struct Receipt<A: Allocator = Global> {
    pub reply: Reply,
    pub bytes: Bytes<A>,
}
