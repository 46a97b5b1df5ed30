//! What there is to say of one line.

ghost use Rattle.std.specs.Prelude.{◌≡◌, IfOk, IfSome, not};
ghost use Rattle.ahci_script.specs.Lines.{HasSmallTag, HasSmallTags};
ghost use Rattle.ahci_check.specs.Complaints.{IsColumn, complaint_at, complaint_in, ends_replay, of_command, of_excess, of_reading, stands};

use crate::complaint::Complaint;
use crate::excess::{Excess, excess_of};
use crate::place::Place;
use crate::rule::Rule;
use ahci_script::{Breach, Line, ScriptCommand, read_line};
use std::alloc::{AllocError, Allocator};

/// What there is to say of a line of the given number, without its line feed: the rule of the language that it breaks first,
/// from the left; else that its command isn't allowed here; else the first limit of the port that it passes. `None` only where
/// `replay` takes the line, whatever the port then answers.
///
/// # Errors
/// Where memory for the bytes of a `raw` was refused.
pub fn complaint_of<A: Allocator>(
    alloc: A,
    place: Place,
    number: u64,
    line: &[u8],
) -> Result<Option<Complaint>, AllocError>
    ensures complaint { IfOk result (λ said. said ≡ complaint_in place number line.now) }
    ensures language { IfOk result (λ said. ends_replay said ≡ not (stands place line.now)) }
    ensures column { IfOk result (λ said. IfSome said (λ c. IfSome c.column (IsColumn line.now))) }
{
    judged(alloc, place, number, line, &read_line(line))
}

/// What there is to say of a line of the given number that was read.
pub(crate) fn judged<A: Allocator>(
    alloc: A,
    place: Place,
    number: u64,
    line: &[u8],
    read: &Result<Line<'_>, Breach>,
) -> Result<Option<Complaint>, AllocError>
    requires { IfOk read.now (λ line. HasSmallTags line) }
    ensures { IfOk result (λ said. said ≡ of_reading place number line.now read.now) }
{
    match read {
        Err(breach) => {
            let rule = Rule::Language(breach.fault);
            Ok(Some(complaint_at(number, line, breach.left, rule)))
        }
        Ok(Line::Skip) => Ok(None),
        Ok(Line::Run(command)) => of_command(alloc, place, number, line, command),
    }
}

/// A complaint where so many bytes of a line are left.
pub(crate) fn complaint_at(number: u64, line: &[u8], left: usize, rule: Rule) -> Complaint
    ensures { result ≡ complaint_at number line.now left rule }
{
    let column = line.len().saturating_sub(left) + 1;
    Complaint {
        line: number,
        column: Some(column as u64),
        rule,
    }
}

/// What there is to say of a command: it is out of place, or passes a limit.
fn of_command<A: Allocator>(
    alloc: A,
    place: Place,
    number: u64,
    line: &[u8],
    command: &ScriptCommand<'_>,
) -> Result<Option<Complaint>, AllocError>
    requires { HasSmallTag command.now }
    ensures { IfOk result (λ said. said ≡ of_command place number line.now command.now) }
{
    if !place.takes(command) {
        return Ok(Some(Complaint {
            line: number,
            column: None,
            rule: Rule::Language(place.rule()),
        }));
    }
    let excess = excess_of(alloc, place, line, command)?;
    Ok(of_excess(number, line, excess))
}

/// A complaint where a limit is passed.
pub(crate) fn of_excess(number: u64, line: &[u8], excess: Option<Excess>) -> Option<Complaint>
    ensures { result ≡ of_excess number line.now excess }
{
    let excess = excess?;
    Some(complaint_at(number, line, excess.left, Rule::Port(excess.limit)))
}
