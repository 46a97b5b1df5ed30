//! The complaints so far, and how they are written.

ghost use Rattle.std.specs.Prelude.{◌≡◌};
ghost use Rattle.ahci_check.specs.Reports.{long_line};

use crate::as_json::json_text;
use crate::check_fault::CheckFault;
use crate::complaint::Complaint;
use crate::form::Form;
use crate::judge::Judge;
use crate::rule::Rule;
use ahci_script::{Fault, Output};
use std::alloc::{AllocError, Allocator};
use std::io::Write;
use std::marker::Model;
use streams::{Found, LINE_LIMIT, TakesLines, Writes};

/// The complaints about the lines so far: those that wait for the output, how the writes went, and how the next line is judged.
#[derive(Drop)]
pub(crate) struct Report<A: Allocator> {
    alloc: A,
    form: Form,
    judge: Judge,
    found: bool,
    text: Output<A>,
    writes: Writes,
}

impl<A: Allocator> Model for Report<A> {
    ghost use Rattle.ahci_check.specs.Reports.{Desk};

    ghost Value = { Desk };

    ghost view = { λ s. record { form = s.form; judge = s.judge; found = s.found; waiting = s.text; writes = s.writes } };
}

impl<A: Allocator + Clone> Report<A> {
    ghost use Rattle.std.specs.Prelude.{◌≡◌, ◌<◌, ◌≤◌, ◌↔◌, ◌++◌, false, true, [], length, IfErr, IfOk, IsTrue, OnErr, OnOk, Some};
    ghost use Rattle.std.specs.Io.KnownBytes.{Appends};
    ghost use Rattle.streams.specs.Ends.{with_failed_write, with_flush};
    ghost use Rattle.ahci_replay.specs.Transcript.{WritesPart};
    ghost use Rattle.streams.specs.Unread.{shown};
    ghost use Rattle.ahci_check.specs.Reports.{FailsTelling, Tells, next_judge, said_of, stand, told, with_put};

    /// No line was judged; how the writes went that were before.
    pub(crate) fn new(alloc: A, text: Output<A>, form: Form, judge: Judge, writes: Writes) -> Self
        ensures { result ≡ record { form = form; judge = judge; found = false; waiting = text; writes = writes } }
    {
        Report {
            alloc,
            form,
            judge,
            found: false,
            text,
            writes,
        }
    }

    /// How the writes went.
    pub(crate) fn into_writes(self) -> Writes
        ensures { result ≡ self.writes }
    {
        self.writes
    }

    /// Whether there was a complaint.
    pub(crate) fn found(&self) -> bool
        ensures { result ≡ self.now.found }
    {
        self.found
    }

    /// What there is to say of what comes as the line of the given number, and how the next one is judged.
    fn said(&self, number: u64, found: Found<'_>) -> Result<(Option<Complaint>, Judge), AllocError>
        ensures complaint { IfOk result (λ r. r.0 ≡ said_of self.now.judge number (shown found.entry)) }
        ensures next { IfOk result (λ r. r.1 ≡ next_judge self.now.judge (shown found.entry)) }
    {
        match found {
            Found::Line(line) => self.judge.judge(self.alloc.clone()?, number, line),
            Found::TooLong => Ok((Some(long_line(number)), self.judge)),
            Found::Unfinished => Ok((None, self.judge)),
        }
    }

    /// Puts down what there is to say, and how the next line is judged; writes what waits once it is enough, or has to be sent.
    fn tell<W: Write>(
        &mut self,
        complaint: Option<Complaint>,
        next: Judge,
        has_to_be_sent: bool,
        writer: &mut W,
    ) -> Result<(), CheckFault>
        ensures ok { OnOk result (Tells (stand (W.contents writer.old) self.old) complaint next (stand (W.contents writer.new) self.new)) }
        ensures err { IfErr result (λ fault. FailsTelling (stand (W.contents writer.old) self.old) complaint fault (stand (W.contents writer.new) self.new)) }
        ensures sent { has_to_be_sent ≡ true → OnOk result (self.new.waiting ≡ []) }
        ensures bounded { OnOk result (length self.new.waiting < 16384) }
    {
        self.put(complaint, next)?;
        if !has_to_be_sent && !self.is_full() {
            return Ok(());
        }
        self.send(writer)?;
        Ok(())
    }

    /// Whether enough text waits to be written.
    fn is_full(&self) -> bool
        ensures { IsTrue result ↔ (16384 ≤ length self.now.waiting) }
    {
        self.text.is_full()
    }

    /// Writes what waits, and flushes. After a failure some first part of it was written.
    pub(crate) fn send<W: Write>(&mut self, writer: &mut W) -> Result<(), CheckFault>
        ensures written { OnOk result (Appends (W.contents writer.old) (W.contents writer.new) self.old.waiting) }
        ensures part { OnErr result (WritesPart (W.contents writer.old) (W.contents writer.new) self.old.waiting) }
        ensures sent { OnOk result (self.new.waiting ≡ []) }
        ensures flushed { OnOk result (self.new.writes ≡ with_flush self.old.writes) }
        ensures fault { IfErr result (λ fault. fault ≡ CheckFault.Write) }
        ensures failed { OnErr result (self.new.writes ≡ with_failed_write self.old.writes) }
        ensures form { self.new.form ≡ self.old.form }
        ensures judge { self.new.judge ≡ self.old.judge }
        ensures found { self.new.found ≡ self.old.found }
    {
        match self.text.send(writer, &mut self.writes) {
            Ok(()) => Ok(()),
            Err(_) => Err(CheckFault::Write),
        }
    }

    /// Puts a complaint down, where there is one, and how the next line is judged.
    fn put(&mut self, complaint: Option<Complaint>, next: Judge) -> Result<(), AllocError>
        ensures ok { OnOk result (self.new ≡ with_put self.old complaint next) }
        ensures err { OnErr result (self.new ≡ self.old) }
    {
        if let Some(complaint) = complaint {
            self.put_text(&complaint)?;
            self.found = true;
        }
        self.judge = next;
        Ok(())
    }

    /// Puts the text of a complaint down, in its form.
    fn put_text(&mut self, complaint: &Complaint) -> Result<(), AllocError>
        ensures ok { OnOk result (self.new ≡ record self.old { waiting = self.old.waiting ++ told self.old.form (Some complaint.now) }) }
        ensures err { OnErr result (self.new ≡ self.old) }
    {
        match self.form {
            Form::Text => {
                let text = format!(in self.alloc.clone()?; "{complaint}")?;
                self.text.put_text(text.as_bytes())
            }
            Form::Json => {
                let text = json_text(&self.alloc, complaint)?;
                self.text.put_text(&text)
            }
        }
    }
}

/// The complaint about the line of the given number, which is too long.
fn long_line(number: u64) -> Complaint
    ensures { result ≡ long_line number }
{
    Complaint {
        line: number,
        column: Some(LINE_LIMIT as u64 + 1),
        rule: Rule::Language(Fault::LongLine),
    }
}

impl<A: Allocator + Clone, W: Write> TakesLines<W> for Report<A> {
    ghost use Rattle.std.specs.Prelude.{◌≡◌, []};
    ghost use Rattle.ahci_check.specs.Reports.{FailsJudging, Judges, stand};

    type Fault = CheckFault;

    ghost Takes = { λ old number found new. Judges (stand (W.contents old.1) old.0) number found (stand (W.contents new.1) new.0) };

    ghost IsSent = { λ s. s.0.waiting ≡ [] };

    ghost Refuses = { λ old number found fault new. FailsJudging (stand (W.contents old.1) old.0) number found fault (stand (W.contents new.1) new.0) };

    fn take(&mut self, number: u64, found: Found<'_>, writer: &mut W) -> Result<(), CheckFault> {
        // Before a read, which may wait for whoever writes the input.
        let is_before_read = matches!(found, Found::Unfinished);
        let (complaint, next) = self.said(number, found)?;
        self.tell(complaint, next, is_before_read, writer)
    }
}
