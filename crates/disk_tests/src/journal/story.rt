//! Stories as tables: events that come or may not come, and what the journal says in between.
ghost use Rattle.std.specs.Prelude.{◌≤◌};

use crate::table::equal;
use ncq_journal::{
    Bytes, Event, Op, Outcome, Phase, Plain, answer_of, ci_of, device_tags_of, is_allowed,
    is_lawful, owed_by, phase_of, sact_of, sector_of,
};
use std::alloc::{AllocError, Global};
use std::process::Abort;
use std::test::Fail;

/// An event. A write has one sector of one byte; a read has so many sectors.
#[derive(Clone, Copy)]
pub enum Note {
    Write(u8, u64, u8),
    Read(u8, u64, u32),
    Accept(u8),
    Complete(u8),
    Fail(u8, u8, u64),
    Recover(u8),
    Reissue(u8),
    Collect(u8),
    Plain(Plain),
    Zero(u64, u32),
}

/// What a journal says.
#[derive(Clone, Copy)]
pub enum Look {
    /// How many entries there are.
    Entries(usize),
    /// PxSACT, PxCI and the device's tags.
    Tags(u32, u32, u32),
    /// The state of a tag's command.
    Stands(u8, Phase),
    /// How many entries requests can still need.
    Owed(u32),
    /// The first byte of a sector, none where the disk has no such sector.
    Byte(u64, Option<u8>),
}

/// A row of a story.
#[derive(Clone, Copy)]
pub enum Step {
    /// These events may come next, one after the other, and do.
    Next(&'static [Note]),
    /// None of these events may come next.
    Never(&'static [Note]),
    /// Each of 32 tags but one has these events, in rising order.
    Rising(u8, &'static [Note]),
    /// Each of 32 tags but one has these events, in falling order.
    Falling(u8, &'static [Note]),
    Shows(Look),
    /// The answer of a request by its number: entry, outcome and the first of a read's bytes.
    Answer(u64, u64, Outcome, Option<u8>),
    /// The answer of a request that failed, by its number: entry, error and LBA.
    Failure(u64, u64, u8, u64),
}

impl Note {
    /// The same event of another tag. A write has the sector of the tag's number.
    fn of(self, tag: u8) -> Self {
        match self {
            Note::Write(_, _, byte) => Note::Write(tag, u64::from(tag), byte),
            Note::Read(_, _, sectors) => Note::Read(tag, u64::from(tag), sectors),
            Note::Accept(_) => Note::Accept(tag),
            Note::Complete(_) => Note::Complete(tag),
            Note::Fail(_, error, lba) => Note::Fail(tag, error, lba),
            Note::Recover(_) => Note::Recover(tag),
            Note::Reissue(_) => Note::Reissue(tag),
            Note::Collect(_) => Note::Collect(tag),
            Note::Plain(command) => Note::Plain(command),
            Note::Zero(lba, sectors) => Note::Zero(lba, sectors),
        }
    }
}

fn event_of(alloc: Global, note: Note) -> Result<Event, AllocError> {
    Ok(match note {
        Note::Write(tag, lba, byte) => {
            let bytes = Bytes::from_vec(vec![in alloc; byte; 512]?);
            Event::Issue(tag, Op::Write { lba, bytes })
        }
        Note::Read(tag, lba, sectors) => Event::Issue(tag, Op::Read { lba, sectors }),
        Note::Accept(tag) => Event::Accept(tag),
        Note::Complete(tag) => Event::Complete(tag),
        Note::Fail(tag, error, lba) => Event::Fail { tag, error, lba },
        Note::Recover(tag) => Event::Recover(tag),
        Note::Reissue(tag) => Event::Reissue(tag),
        Note::Collect(tag) => Event::Collect(tag),
        Note::Plain(command) => Event::Plain(command),
        Note::Zero(lba, sectors) => Event::Zero { lba, sectors },
    })
}

/// A disk and what its journal has come to.
#[derive(Drop)]
struct Story {
    alloc: Global,
    sectors: u32,
    depth: u32,
    image: Vec<u8>,
    events: Vec<Event>,
    ghost few: { depth ≤ 32 },
}

impl Story {
    fn new(alloc: Global, sectors: u32, depth: u32) -> Result<Self, AllocError>
        requires { depth ≤ 32 }
    {
        Ok(Story {
            alloc,
            sectors,
            depth,
            image: vec![in alloc; 0u8; sectors as usize * 512]?,
            events: Vec::new(alloc),
        })
    }

    fn may_come(&self, event: &Event) -> bool {
        is_allowed(self.sectors, self.depth, self.events.as_slice(), event)
    }

    fn next(&mut self, rt: &impl Abort, row: usize, note: Note) -> Result<(), AllocError> {
        let event = event_of(self.alloc, note)?;
        equal(rt, row, &self.may_come(&event), &true);
        self.events.push(event)?;
        Ok(())
    }

    fn never(&self, rt: &impl Abort, row: usize, note: Note) -> Result<(), AllocError> {
        let event = event_of(self.alloc, note)?;
        equal(rt, row, &self.may_come(&event), &false);
        Ok(())
    }

    /// These events of one tag, unless it is the one that is left out.
    fn turn(
        &mut self,
        rt: &impl Abort,
        row: usize,
        tag: u8,
        left_out: u8,
        notes: &[Note],
    ) -> Result<(), AllocError> {
        if tag != left_out {
            for note in notes {
                self.next(rt, row, note.of(tag))?;
            }
        }
        Ok(())
    }

    fn shows(&self, rt: &impl Abort, row: usize, look: Look) {
        let past = self.events.as_slice();
        match look {
            Look::Entries(count) => equal(rt, row, &past.len(), &count),
            Look::Tags(sact, ci, device) => {
                let tags = (sact_of(past), ci_of(past), device_tags_of(past));
                equal(rt, row, &tags, &(sact, ci, device));
            }
            Look::Stands(tag, phase) => equal(rt, row, &phase_of(past, tag), &phase),
            Look::Owed(count) => equal(rt, row, &owed_by(past), &count),
            Look::Byte(lba, byte) => {
                let sector = sector_of(self.image.as_slice(), past, lba);
                equal(rt, row, &sector.first().copied(), &byte);
            }
        }
    }

    /// The answer of a request: entry, outcome and the first of a read's bytes. There is none where the journal is not
    /// lawful.
    fn answer(&self, number: u64) -> Result<Option<(u64, Outcome, Option<u8>)>, AllocError> {
        let events = self.events.as_slice();
        if !is_lawful(self.sectors, self.depth, events) {
            return Ok(None);
        }
        let Some(answer) = answer_of(self.alloc, self.image.as_slice(), events, number)? else {
            return Ok(None);
        };
        let first = answer.bytes().first().copied();
        Ok(Some((answer.entry(), answer.outcome(), first)))
    }

    fn goes(&mut self, rt: &impl Abort, row: usize, step: Step) -> Result<(), AllocError> {
        match step {
            Step::Next(notes) => {
                for note in notes {
                    self.next(rt, row, *note)?;
                }
            }
            Step::Never(notes) => {
                for note in notes {
                    self.never(rt, row, *note)?;
                }
            }
            Step::Rising(left_out, notes) => {
                for tag in 0..32u8 {
                    self.turn(rt, row, tag, left_out, notes)?;
                }
            }
            Step::Falling(left_out, notes) => {
                for tag in 0..32u8 {
                    self.turn(rt, row, 31 - tag, left_out, notes)?;
                }
            }
            Step::Shows(look) => self.shows(rt, row, look),
            Step::Answer(number, entry, outcome, first) => {
                let answer = self.answer(number)?;
                equal(rt, row, &answer, &Some((entry, outcome, first)));
            }
            Step::Failure(number, entry, error, lba) => {
                let answer = self.answer(number)?;
                let outcome = Outcome::Failed { error, lba };
                equal(rt, row, &answer, &Some((entry, outcome, None)));
            }
        }
        Ok(())
    }
}

/// Tells a story row by row, on a disk of so many sectors of zeros and so many tags.
pub fn tells(
    rt: &impl Abort,
    alloc: Global,
    sectors: u32,
    depth: u32,
    steps: &[Step],
) -> Result<(), Fail>
    requires { depth ≤ 32 }
{
    let mut story = Story::new(alloc, sectors, depth)?;
    for (row, step) in steps.iter().enumerate() {
        story.goes(rt, row, *step)?;
    }
    Ok(())
}
