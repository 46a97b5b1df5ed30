//! How a journal answers a request.

mod claims;

ghost use Rattle.std.specs.Prelude.{◌≡◌, ◌^◌, ◌<◌, IfOk, Some};
ghost use Rattle.std.specs.Option.{option_or};
ghost use Rattle.ncq_journal.specs.Answer.{answer, given, completes, sectors_at};
ghost use Rattle.ncq_journal.specs.Entry.{entry_of, Issue};
ghost use Rattle.ncq_journal.specs.History.{history_of, entry_at};
ghost use Rattle.ncq_journal.specs.Lawful.{AllProper, IsProper, IsProperEntry};
ghost use Rattle.ncq_journal.specs.Work.{work_of};

pub use crate::answer::claims::claims_hold;
use crate::event::Event;
use crate::journal::entry_in;
use crate::op::Op;
use crate::outcome::Outcome;
use crate::sector::sector_of;
use std::alloc::{AllocError, Allocator, Global};
use std::marker::Model;

/// What a request was answered: the place of the entry that answered it, counted from 0, its outcome and, for a read, the
/// bytes of its sectors as they were at that entry.
#[derive(Drop)]
#[derive_where(Debug)]
pub struct Answer<A: Allocator = Global> {
    entry: u64,
    outcome: Outcome,
    bytes: Vec<u8, A>,
}

impl<A: Allocator> Model for Answer<A> {
    ghost use Rattle.ncq_journal.specs.Answer.{Answer as Answered};

    ghost Value = { Answered };

    ghost view = { λ a. record { entry = a.entry; outcome = a.outcome; bytes = a.bytes.items } };
}

impl<A: Allocator> Answer<A> {
    /// The entry by which the request ended: its place, or its number where a port answers.
    pub fn entry(&self) -> u64
        ensures { result ≡ self.now.entry }
    {
        self.entry
    }

    /// How it ended: written, read, or failed with an error at a sector.
    pub fn outcome(&self) -> Outcome
        ensures { result ≡ self.now.outcome }
    {
        self.outcome
    }

    /// The bytes of a finished read, and none otherwise.
    pub fn bytes(&self) -> &[u8]
        ensures { result.now ≡ self.now.bytes }
    {
        self.bytes.as_slice()
    }
}

/// The sectors from an LBA on, joined, after these events.
#[tactic(auto, using(crate::proofs::AnswerLemmas::sectors_none, crate::proofs::AnswerLemmas::sectors_more))]
fn sectors_at<A: Allocator, B: Allocator>(
    alloc: B,
    image: &[u8],
    events: &[Event<A>],
    lba: u64,
    sectors: u32,
) -> Result<Vec<u8, B>, AllocError>
    requires { lba < 2 ^ 48 }
    ensures { IfOk result (λ v. v.items ≡ sectors_at image.now (history_of events.now) lba sectors) }
{
    let mut bytes = Vec::new(alloc);
    for i in 0..sectors {
        bytes.extend_from_slice(sector_of(image, events, lba + u64::from(i)))?;
    }
    Ok(bytes)
}

/// The answer of a command that is completed after these events.
fn completes<A: Allocator, B: Allocator>(
    alloc: B,
    image: &[u8],
    past: &[Event<A>],
    op: &Op<A>,
) -> Result<Answer<B>, AllocError>
    requires { IsProper (work_of op.now) }
    ensures { IfOk result (λ a. a ≡ completes image.now (history_of past.now) (work_of op.now)) }
{
    let entry = past.len() as u64;
    match op {
        Op::Read { lba, sectors } => Ok(Answer {
            entry,
            outcome: Outcome::Read,
            bytes: sectors_at(alloc, image, past, *lba, *sectors)?,
        }),
        Op::Write { .. } => Ok(Answer {
            entry,
            outcome: Outcome::Wrote,
            bytes: Vec::new(alloc),
        }),
    }
}

/// The answer that an event gives, after these events, to a request of this tag for this command, if it gives one.
fn given_to<A: Allocator, B: Allocator>(
    alloc: B,
    image: &[u8],
    past: &[Event<A>],
    event: &Event<A>,
    tag: u8,
    op: &Op<A>,
) -> Result<Option<Answer<B>>, AllocError>
    requires { IsProper (work_of op.now) }
    ensures { IfOk result (λ a. a ≡ given image.now (history_of past.now) (entry_of event.now) (Some (Issue tag (work_of op.now)))) }
{
    match event {
        Event::Complete(t) if *t == tag => Ok(Some(completes(alloc, image, past, op)?)),
        Event::Fail { tag: t, error, lba } if *t == tag => Ok(Some(Answer {
            entry: past.len() as u64,
            outcome: Outcome::Failed {
                error: *error,
                lba: *lba,
            },
            bytes: Vec::new(alloc),
        })),
        _ => Ok(None),
    }
}

/// The answer that an event gives, after these events, to the request whose Issue is `issue`, if it gives one.
fn given<A: Allocator, B: Allocator>(
    alloc: B,
    image: &[u8],
    past: &[Event<A>],
    event: &Event<A>,
    issue: &Event<A>,
) -> Result<Option<Answer<B>>, AllocError>
    requires { IsProperEntry (entry_of issue.now) }
    ensures { IfOk result (λ a. a ≡ given image.now (history_of past.now) (entry_of event.now) (Some (entry_of issue.now))) }
{
    match issue {
        Event::Issue(tag, op) => given_to(alloc, image, past, event, *tag, op),
        _ => Ok(None),
    }
}

/// The answer of request `number` after one more event: the first one holds.
#[tactic(auto, using(crate::proofs::AnswerLemmas::proper_entry))]
fn answer_after<A: Allocator, B: Allocator>(
    alloc: B,
    image: &[u8],
    past: &[Event<A>],
    event: &Event<A>,
    number: u64,
    before: Option<Answer<B>>,
) -> Result<Option<Answer<B>>, AllocError>
    requires { AllProper (history_of past.now) }
    ensures { IfOk result (λ a. a ≡ option_or before (given image.now (history_of past.now) (entry_of event.now) (entry_at (history_of past.now) number))) }
{
    if before.is_some() {
        return Ok(before);
    }
    match entry_in(past, number) {
        Some(issue) => given(alloc, image, past, event, issue),
        None => Ok(None),
    }
}

/// What the request whose Issue is at place `number` was answered after these events, the oldest first, over a starting
/// image: the first Complete or Fail of its tag after its Issue answers it. The bytes of an answered read take memory.
#[tactic(auto, using(crate::proofs::HistoryLemmas::history_more, crate::proofs::HistoryLemmas::history_all))]
pub fn answer_of<A: Allocator, B: Allocator + Clone>(
    alloc: B,
    image: &[u8],
    events: &[Event<A>],
    number: u64,
) -> Result<Option<Answer<B>>, AllocError>
    requires { AllProper (history_of events.now) }
    ensures { IfOk result (λ a. a ≡ answer image.now (history_of events.now) number) }
{
    let mut answer = None;
    for (entry, event) in events.iter().enumerate() {
        answer = answer_after(
            alloc.clone()?,
            image,
            &events[..entry],
            event,
            number,
            answer,
        )?;
    }
    Ok(answer)
}
