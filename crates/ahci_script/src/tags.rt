ghost use Rattle.std.specs.Prelude.{◌≡◌, Err, IfErr, IfOk, Ok};
ghost use Rattle.ahci_script.specs.Lines.{AreTags, tags_of};

use crate::breach::Breach;
use crate::fault::Fault;
use crate::words::Words;
use arrayvec::ArrayVec;

/// The tags that the words spell, each from 0 to 31, in their order: 1 to 32 of them, and nothing else.
pub(crate) fn tags(words: Words<'_>) -> Result<ArrayVec<u8, 32>, Breach>
    ensures ok { IfOk result (λ tags. tags_of words.entry ≡ Ok tags.items) }
    ensures err { IfErr result (λ breach. tags_of words.entry ≡ Err breach) }
    ensures tags { IfOk result (λ tags. AreTags tags.items) }
{
    let (tag, mut left) = words.tag()?;
    let mut tags = ArrayVec::new();
    tags.push(tag);
    while let Some(text) = left.text() {
        if tags.is_full() {
            return Err(Breach::at(text, Fault::ManyTags));
        }
        let (tag, others) = left.tag()?;
        tags.push(tag);
        left = others;
    }
    Ok(tags)
}
