use crate::rule::Rule;
use std::fmt;

/// What is wrong with a line.
#[derive(Clone, Copy, Debug, PartialEq, Eq)]
pub struct Complaint {
    /// The number of the line, counted from 1.
    pub line: u64,
    /// Where the word begins that breaks the rule: its first byte, counted from 1; a byte over 127 itself; after the line,
    /// where a word is missing; 4,097 in a line that is too long. `None` where it is the whole line, which isn't allowed there.
    pub column: Option<u64>,
    /// The rule.
    pub rule: Rule,
}

impl fmt::Display for Complaint {
    ghost use Rattle.std.specs.Prelude.{Some};
    ghost use Rattle.ahci_check.specs.Texts.{complaint_text};

    ghost output = { λ complaint. Some (complaint_text complaint) };

    fn fmt<W: fmt::Write>(&self, f: &mut fmt::Formatter<W>) -> fmt::Result {
        let line = self.line;
        let rule = self.rule;
        match self.column {
            Some(column) => write!(f, "line {line}, column {column}: {rule}"),
            None => write!(f, "line {line}: {rule}"),
        }
    }
}
