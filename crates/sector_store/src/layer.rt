//! What one layer of a slot has.

ghost use Rattle.std.specs.Prelude.{◌≡◌, ℕ, ◌<◌, true, false, None, Some, length, is_some, IfSome};
ghost use Rattle.std.specs.Option.{option_copied};
ghost use Rattle.sector_store.specs.Layers.{Cover, IsPageWritten, page_bytes, zero_page};

use crate::page::{PAGE, Page};
use std::alloc::Allocator;
use std::marker::Model;

/// A page of zeros.
static ZEROS: [u8; PAGE] = [0; PAGE];

/// The bytes of a page of zeros, which takes no memory.
#[tactic(auto, unfolding(crate::specs::Layers::zero_page))]
fn zero_bytes() -> &'static [u8]
    ensures { result.now ≡ zero_page }
{
    ZEROS.as_slice()
}

/// What a layer can have. In the upper one, all but nothing says that the number is in the list of touched pages.
#[derive(Drop)]
enum Content<A: Allocator> {
    Empty,
    Listed,
    Zeros,
    Page(Page<A>),
}

/// A page, or a mark that it is zeros, or none. Contracts see its bytes, whether they are in memory, and whether the number is in the list.
#[derive(Drop)]
pub struct Layer<A: Allocator> {
    content: Content<A>,
}

impl<A: Allocator> Model for Layer<A> {
    ghost use Rattle.std.specs.Prelude.{true, false, None, Some};
    ghost use Rattle.sector_store.specs.Layers.{Cover, zero_page};
    ghost use Rattle.sector_store.specs.declared.layer.Content.TheVariants as the;

    ghost Value = { Cover };

    ghost view = { λ l. elim l.content [ the.Empty ↦ record { page = None; held = false; listed = false } | the.Listed ↦ record { page = None; held = false; listed = true } | the.Zeros ↦ record { page = Some zero_page; held = false; listed = true } | the.Page p ↦ record { page = Some p; held = true; listed = true } ] };
}

impl<A: Allocator> Layer<A> {
    /// Nothing.
    pub fn empty() -> Self
        ensures { result ≡ record { page = None; held = false; listed = false } }
    {
        Layer {
            content: Content::Empty,
        }
    }

    /// A page of zeros, which takes no memory.
    pub fn zeros() -> Self
        ensures { result ≡ record { page = Some zero_page; held = false; listed = true } }
    {
        Layer {
            content: Content::Zeros,
        }
    }

    /// A page in memory.
    pub fn of(page: Page<A>) -> Self
        ensures { result ≡ record { page = Some page; held = true; listed = true } }
    {
        Layer {
            content: Content::Page(page),
        }
    }

    /// The bytes of the page, if there is one.
    #[tactic(auto, using(crate::proofs::ZeroLemmas::zeros_are_whole))]
    pub fn bytes(&self) -> Option<&[u8]>
        ensures bytes { option_copied result ≡ self.now.page }
        ensures len { IfSome (option_copied result) (λ page. length page ≡ 4096) }
    {
        match &self.content {
            Content::Empty | Content::Listed => None,
            Content::Zeros => Some(zero_bytes()),
            Content::Page(page) => Some(page.bytes()),
        }
    }

    /// Whether the page is in memory.
    pub fn is_held(&self) -> bool
        ensures { result ≡ self.now.held }
    {
        match &self.content {
            Content::Empty | Content::Listed | Content::Zeros => false,
            Content::Page(_) => true,
        }
    }

    /// Whether the number is in the list.
    pub fn is_listed(&self) -> bool
        ensures { result ≡ self.now.listed }
    {
        match &self.content {
            Content::Empty => false,
            Content::Listed | Content::Zeros | Content::Page(_) => true,
        }
    }

    /// Whether this is the mark of a page of zeros.
    pub fn is_zeros(&self) -> bool
        ensures { result ≡ true → self.now.page ≡ Some zero_page }
    {
        match &self.content {
            Content::Empty | Content::Listed | Content::Page(_) => false,
            Content::Zeros => true,
        }
    }

    /// Says that the number is in the list.
    pub fn list(&mut self)
        ensures { self.new ≡ record self.old { listed = true } }
    {
        if let Content::Empty = &self.content {
            self.content = Content::Listed;
        }
    }

    /// Writes a sector of the page, which is in memory.
    pub fn write(&mut self, place: usize, sector: &[u8])
        requires place { place < 8 }
        requires sector { length sector.now ≡ 512 }
        requires held { self.old.held ≡ true }
        ensures written { IsPageWritten place sector.now (page_bytes self.old.page) (page_bytes self.new.page) }
        ensures len { length (page_bytes self.new.page) ≡ length (page_bytes self.old.page) }
        ensures was { is_some self.old.page ≡ true }
        ensures some { is_some self.new.page ≡ true }
        ensures held { self.new.held ≡ true }
        ensures listed { self.new.listed ≡ self.old.listed }
    {
        if let Content::Page(page) = &mut self.content {
            page.write(place, sector);
        }
    }
}
