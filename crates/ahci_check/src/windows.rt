//! Windows of any bytes.

ghost use Rattle.std.specs.Prelude.{◌≡◌, ◌<◌, IfOk};
ghost use Rattle.ahci_check.specs.Limits.{faulty_word, raw_excess, window_excess};
ghost use Rattle.ahci_check.specs.Windows.{table_fault};
ghost use Rattle.ahci_replay.specs.Commands.{window_of};

use crate::excess::{Excess, excess_at, tag_excess};
use crate::limit::Limit;
use ahci_replay::read_window;
use ahci_script::{RawWindow, after_first};
use ahci_table::{TableFault, Window};
use std::alloc::{AllocError, Allocator};

/// The first limit that a window passes: the words begin with its tag. Its bytes are read into memory of their own, where the port
/// has a slot for the tag.
pub(crate) fn raw_excess<A: Allocator>(
    alloc: A,
    depth: u64,
    words: &[u8],
    tag: u8,
    raw: &RawWindow<'_>,
) -> Result<Option<Excess>, AllocError>
    requires { tag < 32 }
    ensures { IfOk result (λ excess. excess ≡ raw_excess depth words.now (window_of tag raw.now)) }
{
    if let Some(excess) = tag_excess(depth, words, tag) {
        return Ok(Some(excess));
    }
    let window = read_window(alloc, tag, raw)?;
    Ok(window_excess(after_first(words), table_fault(&window)))
}

/// The first rule that a window breaks.
#[tactic(auto, using(crate::proofs::WindowLemmas::fit_has_none, crate::proofs::WindowLemmas::broken_has_it))]
fn table_fault<A: Allocator>(window: &Window<A>) -> Option<TableFault>
    ensures { result ≡ table_fault window.now }
{
    window.check().err()
}

/// The limit of a rule that a window breaks: the words begin with its header.
fn window_excess(words: &[u8], fault: Option<TableFault>) -> Option<Excess>
    ensures { result ≡ window_excess words.now fault }
{
    let fault = fault?;
    excess_at(faulty_word(words, fault), Limit::Window(fault))
}

/// The word that a rule of windows speaks of: the words begin with the header.
fn faulty_word(words: &[u8], fault: TableFault) -> &[u8]
    ensures { result.now ≡ faulty_word words.now fault }
{
    match fault {
        TableFault::BadHeader => words,
        _ => after_first(words),
    }
}
