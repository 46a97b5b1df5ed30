//! A host in memory, which counts the FISes that come.
ghost use Rattle.std.specs.Prelude.{◌≡◌, refl, vec_len};

use ncq_core::{Disk, Host, ServeFault};
use sata_fis::data_head;
use std::alloc::{AllocError, Global};
use std::process::Abort;

/// What has come over the link so far.
#[derive(Clone, Copy, Debug, PartialEq)]
pub struct Link {
    /// The last DMA Setup, how many came, and how many bytes have moved since.
    pub setup: [u8; 28],
    pub setups: usize,
    pub offset: usize,
    /// The head of the last Data FIS that was delivered.
    pub head: [u8; 4],
    /// The last DMA Activate, and how many came.
    pub activate: [u8; 4],
    pub activates: usize,
    /// How many Data FISes moved, either way, and the length of the last.
    pub data: usize,
    pub last: usize,
}

/// Nothing has come.
pub const QUIET: Link = Link {
    setup: [0xFF; 28],
    setups: 0,
    offset: 0,
    head: [0; 4],
    activate: [0; 4],
    activates: 0,
    data: 0,
    last: 0,
};

/// A text, and what has come over the link.
#[derive(Drop)]
pub struct Memory {
    pub text: Vec<u8>,
    pub link: Link,
    /// Whether the disk may read the text where it lies.
    pub lends: bool,
}

impl Host for Memory {
    ghost text = { λ h. h.text.items };

    ghost last_setup = { λ h. h.link.setup };

    ghost offset = { λ h. h.link.offset };

    ghost keeps = { λ a b. vec_len b.text ≡ vec_len a.text };

    ghost saw = { λ a fises b. Unit {0} };

    ghost keeps_itself = { λ a. refl };

    ghost keeps_on = { λ a b c ab bc. Prim.cc };

    ghost saw_none = { λ a. Prim.tt };

    ghost saw_more = { λ a b c first then ab bc. Prim.tt };

    fn setup(&mut self, fis: &[u8; 28]) {
        self.link.setup = *fis;
        self.link.setups = self.link.setups.saturating_add(1);
        self.link.offset = 0;
    }

    fn deliver(&mut self, fis: &[u8]) {
        let end = self.link.offset + fis.len() - 4;
        self.text.as_mut_slice()[self.link.offset..end].copy_from_slice(&fis[4..]);
        self.link.offset = end;
        self.link.head.copy_from_slice(&fis[..4]);
        self.link.data = self.link.data.saturating_add(1);
        self.link.last = fis.len();
    }

    fn deliver_parts(&mut self, head: &[u8; 4], payload: &[u8]) {
        let end = self.link.offset + payload.len();
        self.text.as_mut_slice()[self.link.offset..end].copy_from_slice(payload);
        self.link.offset = end;
        self.link.head = *head;
        self.link.data = self.link.data.saturating_add(1);
        self.link.last = payload.len().saturating_add(4);
    }

    fn at_hand(&self, len: usize) -> Option<&[u8]> {
        if !self.lends {
            return None;
        }
        let offset = self.link.offset;
        Some(&self.text.as_slice()[offset..offset + len])
    }

    fn activate_at_hand(&mut self, fis: &[u8; 4], len: usize) {
        self.link.offset += len;
        self.link.data = self.link.data.saturating_add(1);
        self.link.last = len.saturating_add(4);
        self.link.activate = *fis;
        self.link.activates = self.link.activates.saturating_add(1);
    }

    fn activate(&mut self, fis: &[u8; 4], out: &mut [u8]) {
        let end = self.link.offset + out.len() - 4;
        out[..4].copy_from_slice(&data_head());
        out[4..].copy_from_slice(&self.text.as_slice()[self.link.offset..end]);
        self.link.offset = end;
        self.link.data = self.link.data.saturating_add(1);
        self.link.last = out.len();
        self.link.activate = *fis;
        self.link.activates = self.link.activates.saturating_add(1);
    }
}

impl Memory {
    /// A text of as many bytes as the disk has, all of them `byte`.
    pub fn new(alloc: Global, disk: &Disk, byte: u8) -> Result<Self, AllocError> {
        Ok(Memory {
            text: vec![in alloc; byte; disk.sectors() as usize * 512]?,
            link: QUIET,
            lends: false,
        })
    }
}

/// Serves a tag. The text is as long as the disk.
#[tactic(auto, using(ncq_core::proofs::DiskLemmas::room_for_any))]
pub fn serve(
    rt: &impl Abort,
    disk: &mut Disk,
    tag: u8,
    host: &mut Memory,
) -> Result<(), ServeFault> {
    assert!(rt; host.text.len() >= disk.sectors() as usize * 512);
    disk.serve(tag, host)
}
