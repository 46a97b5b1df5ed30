use crate::outcome::Outcome;
use std::marker::Model;

/// What somebody says a request was answered: the place of the entry that answered it, counted from 0, its outcome and, for a read,
/// the bytes of its sectors.
#[derive(Debug, Drop)]
pub struct Claim<'c> {
    pub entry: u64,
    pub outcome: Outcome,
    pub bytes: &'c [u8],
}

impl<'c> Model for Claim<'c> {
    ghost use Rattle.ncq_journal.specs.Answer.{Answer};

    ghost Value = { Answer };

    ghost view = { λ c. record { entry = c.entry; outcome = c.outcome; bytes = c.bytes.now } };
}
