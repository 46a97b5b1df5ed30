//! Moves between the outside and a window's text. The pieces of the text are in the window's PRDT; who moves data more
//! than once reads them once, by `check`, and hands them in.

ghost use Rattle.std.specs.Prelude.{◌≡◌, ◌+◌, ◌≤◌, length, take, drop, IfOk, IfSome};
ghost use Rattle.std.specs.Option.{option_copied};
ghost use Rattle.ahci_table.specs.Fit.{IsFit};
ghost use Rattle.ahci_table.specs.Prdt.{pieces};
ghost use Rattle.ahci_table.specs.Scatter.{IsScattered};
ghost use Rattle.ahci_table.specs.Text.{text};

use crate::list::total;
use crate::piece::Piece;
use crate::runs;
use crate::window::Window;
use arrayvec::ArrayVec;
use ncq_journal::OutOfMemory;
use std::alloc::Allocator;

impl<A: Allocator> Window<A> {
    /// The pieces of a window that a port takes.
    fn listed(&self) -> ArrayVec<Piece, 32>
        requires { IsFit self.now }
        ensures { result.items ≡ pieces self.now }
    {
        self.pieces().unwrap()
    }

    /// Copies the bytes of the text from an offset on, as many as `out` has.
    pub fn gather(&self, offset: u32, out: &mut [u8])
        requires fit { IsFit self.now }
        requires within { offset + length out.old ≤ length (text self.now) }
        ensures { out.new ≡ take (length out.old) (drop offset (text self.now)) }
    {
        self.gather_in(&self.listed(), offset, out);
    }

    /// The same, where the window's pieces are at hand.
    pub fn gather_in(&self, list: &[Piece], offset: u32, out: &mut [u8])
        requires fit { IsFit self.now }
        requires list { list.now ≡ pieces self.now }
        requires within { offset + length out.old ≤ length (text self.now) }
        ensures { out.new ≡ take (length out.old) (drop offset (text self.now)) }
    {
        runs::gather(list, &self.bytes, offset as usize, out);
    }

    /// So many bytes of the text from an offset on as they lie in the window, whose pieces are at hand: nothing if these don't lie one after the
    /// other.
    pub fn part_in(&self, list: &[Piece], offset: u32, len: usize) -> Option<&[u8]>
        requires fit { IsFit self.now }
        requires list { list.now ≡ pieces self.now }
        requires within { offset + len ≤ length (text self.now) }
        ensures { IfSome (option_copied result) (λ bytes. bytes ≡ take len (drop offset (text self.now))) }
    {
        runs::part(list, &self.bytes, offset as usize, len)
    }

    /// Copies these bytes over those of the text from an offset on. No other byte of the text and no byte outside the
    /// pieces changes.
    pub fn scatter(&mut self, offset: u32, from: &[u8])
        requires fit { IsFit self.old }
        requires within { offset + length from.now ≤ length (text self.old) }
        ensures scattered { IsScattered self.old offset from.now self.new }
        ensures fit { IsFit self.new }
    {
        let list = self.listed();
        self.scatter_in(&list, offset, from);
    }

    /// The same, where the window's pieces are at hand. They stay its pieces.
    pub fn scatter_in(&mut self, list: &[Piece], offset: u32, from: &[u8])
        requires fit { IsFit self.old }
        requires list { list.now ≡ pieces self.old }
        requires within { offset + length from.now ≤ length (text self.old) }
        ensures scattered { IsScattered self.old offset from.now self.new }
        ensures fit { IsFit self.new }
    {
        runs::scatter(list, &mut self.bytes, offset as usize, from);
    }

    /// The bytes of the pieces, joined in the order of the list. It fails only where memory is refused.
    pub fn text<B: Allocator>(&self, alloc: B) -> Result<Vec<u8, B>, OutOfMemory>
        requires { IsFit self.now }
        ensures { IfOk result (λ v. v.items ≡ text self.now) }
    {
        self.text_in(&self.listed(), alloc)
    }

    /// The same, where the window's pieces are at hand.
    pub fn text_in<B: Allocator>(&self, list: &[Piece], alloc: B) -> Result<Vec<u8, B>, OutOfMemory>
        requires fit { IsFit self.now }
        requires list { list.now ≡ pieces self.now }
        ensures { IfOk result (λ v. v.items ≡ text self.now) }
    {
        runs::joined(alloc, list, &self.bytes, total(list) as usize)
    }
}
