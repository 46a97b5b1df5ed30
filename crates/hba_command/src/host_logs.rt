//! The logs that are the host's (ACS-3, "Host Specific logs").

ghost use Rattle.std.specs.Prelude.{◌≡◌, ℕ, ◌*◌, ◌+◌, ◌<◌, ◌≤◌, ◌++◌, ◌==◌, ◌&&◌, false, [], length, drop, replicate, take, IfOk, OnOk};
ghost use Rattle.std.specs.List.{find};
ghost use Rattle.hba_command.specs.HostLogs.{host_page, host_pages, is_one_of, is_page, others, page_of, pages_of, rewritten};
ghost use Rattle.hba_command.specs.Uncorrectable.{is_among};

use crate::host_page::HostPage;
use crate::host_pages::HostPages;
use std::alloc::{AllocError, Allocator, Global};
use std::marker::Model;

/// The pages that the host has written to its logs; each other page is zeros. A contract sees the list.
#[derive(Drop)]
pub struct HostLogs<A: Allocator = Global> {
    written: Vec<HostPage, A>,
}

impl<A: Allocator> Model for HostLogs<A> {
    ghost use Rattle.std.specs.Prelude.{List};
    ghost use Rattle.hba_command.specs.declared.host_page.HostPage.{HostPage};

    ghost Value = { List HostPage };

    ghost view = { λ l. l.written.items };
}

/// Whether this is the page of a number in a log.
fn is_page(log: u8, number: u32, page: &HostPage) -> bool
    ensures { result ≡ is_page log number page.now }
{
    page.log == log && page.number == number
}

/// Whether this is one of some pages.
fn is_one_of(pages: &HostPages, page: &HostPage) -> bool
    ensures { result ≡ is_one_of pages.now page.now }
{
    page.log == pages.log && pages.first <= page.number && page.number < pages.first + pages.count
}

/// The page of an index of some pages, with its bytes of the data.
fn page_of(pages: &HostPages, bytes: &[u8], index: u32) -> HostPage
    requires index { index < pages.now.count }
    requires whole { length bytes.now ≡ 512 * pages.now.count }
    ensures { result ≡ page_of pages.now bytes.now index }
{
    let start = 512 * index as usize;
    let mut page = [0; 512];
    page.copy_from_slice(&bytes[start..start + 512]);
    HostPage {
        log: pages.log,
        number: pages.first + index,
        bytes: page,
    }
}

/// Appends some pages with their bytes of the data.
fn append<A: Allocator>(
    written: &mut Vec<HostPage, A>,
    pages: &HostPages,
    bytes: &[u8],
) -> Result<(), AllocError>
    requires { length bytes.now ≡ 512 * pages.now.count }
    ensures { OnOk result (written.new.items ≡ written.old.items ++ pages_of pages.now bytes.now pages.now.count) }
{
    for index in 0..pages.count {
        written.push(page_of(pages, bytes, index))?;
    }
    Ok(())
}

impl<A: Allocator> HostLogs<A> {
    /// The logs of which no page is written, as they come from the maker.
    pub fn new(alloc: A) -> Self
        ensures { result ≡ [] }
    {
        HostLogs {
            written: Vec::new(alloc),
        }
    }

    /// A page of a log, if it was written.
    fn found(&self, log: u8, number: u32) -> Option<HostPage>
        ensures { result ≡ find (is_page log number) self.now }
    {
        self.written
            .iter()
            .copied()
            .find(|page| is_page(log, number, page))
    }

    /// A page of a log.
    pub fn page(&self, log: u8, number: u32) -> [u8; 512]
        ensures { result ≡ host_page self.now log number }
    {
        match self.found(log, number) {
            Some(page) => page.bytes,
            None => [0; 512],
        }
    }
}

impl<A: Allocator + Copy> HostLogs<A> {
    /// Some pages, one after the other.
    ///
    /// # Errors
    /// An allocation failed.
    #[tactic(auto, using(crate::proofs::HostLogLemmas::one_page_read))]
    pub fn read(&self, alloc: A, pages: &HostPages) -> Result<Vec<u8, A>, AllocError>
        ensures { IfOk result (λ v. v.items ≡ host_pages self.now pages.now) }
    {
        let mut bytes = Vec::new(alloc);
        for index in 0..pages.count {
            bytes.extend_from_slice(&self.page(pages.log, pages.first + index))?;
        }
        Ok(bytes)
    }

    /// The pages that are none of these.
    fn others(&self, alloc: A, pages: &HostPages) -> Result<Vec<HostPage, A>, AllocError>
        ensures { IfOk result (λ v. v.items ≡ others pages.now self.now) }
    {
        self.written
            .iter()
            .copied()
            .filter(|page| !is_one_of(pages, page))
            .collect(alloc)
    }

    /// The logs once some pages are written with data, which have 512 bytes for each. Those that there are stay as they are.
    ///
    /// # Errors
    /// An allocation failed.
    pub fn rewritten(&self, alloc: A, pages: &HostPages, bytes: &[u8]) -> Result<Self, AllocError>
        ensures { IfOk result (λ l. l ≡ rewritten pages.now bytes.now self.now) }
    {
        if bytes.len() != 512 * pages.count as usize {
            let written = Vec::from_slice(alloc, &self.written)?;
            return Ok(HostLogs { written }); // the data of a command have them
        }
        let mut written = self.others(alloc, pages)?;
        append(&mut written, pages, bytes)?;
        Ok(HostLogs { written })
    }
}

/// What follows for a reader once some pages are written with data, which have 512 bytes for each: a page that was written has its bytes of the data, each other
/// page is as before, and without any write all are zeros. The function changes nothing: it is there for its clauses.
#[tactic(auto, using(crate::proofs::HostLogLaws::reads_back, crate::proofs::HostLogLaws::stays))]
pub fn a_page_is_what_was_written_last<A: Allocator>(
    logs: &HostLogs<A>,
    pages: &HostPages,
    bytes: &[u8],
)
    requires { length bytes.now ≡ 512 * pages.now.count }
    ensures written { (index : ℕ) → index < pages.now.count → host_page (rewritten pages.now bytes.now logs.now) pages.now.log (pages.now.first + index) ≡ take 512 (drop (512 * index) bytes.now) }
    ensures others { (log number : ℕ) → (log == pages.now.log && is_among pages.now.first pages.now.count number) ≡ false → host_page (rewritten pages.now bytes.now logs.now) log number ≡ host_page logs.now log number }
    ensures new { (log number : ℕ) → host_page [] log number ≡ replicate 512 0 }
{}
