use crate::limit::Limit;
use ahci_script::Fault;
use std::fmt;

/// The rule that a line breaks.
#[derive(Clone, Copy, Debug, PartialEq, Eq)]
pub enum Rule {
    /// A rule of the language, or of the order of lines: `replay` ends at the line.
    Language(Fault),
    /// A limit of the port: the port refuses the line whatever its state, and `replay` goes on.
    Port(Limit),
}

impl fmt::Display for Rule {
    ghost use Rattle.std.specs.Prelude.{Some};
    ghost use Rattle.ahci_check.specs.Texts.{rule_text};

    ghost output = { λ rule. Some (rule_text rule) };

    fn fmt<W: fmt::Write>(&self, f: &mut fmt::Formatter<W>) -> fmt::Result {
        match self {
            Rule::Language(fault) => write!(f, "{fault}"),
            Rule::Port(limit) => write!(f, "{limit}"),
        }
    }
}
