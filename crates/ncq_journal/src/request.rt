//! What a tag was last issued for.

ghost use Rattle.std.specs.Prelude.{◌≡◌};
ghost use Rattle.ncq_journal.specs.History.{history_of};
ghost use Rattle.ncq_journal.specs.Request.{request};

use crate::event::Event;
use crate::op::Op;
use std::alloc::{Allocator, Global};
use std::marker::Model;

/// What a tag was issued for: the place of the Issue entry among the events, counted from 0, and the command.
#[derive(Drop)]
pub struct Request<'a, A: Allocator = Global> {
    number: u64,
    op: &'a Op<A>,
}

impl<'a, A: Allocator> Model for Request<'a, A> {
    ghost use Rattle.ncq_journal.specs.Request.{Request as Asked};
    ghost use Rattle.ncq_journal.specs.Work.{work_of};

    ghost Value = { Asked };

    ghost view = { λ r. record { number = r.number; work = work_of r.op.now } };
}

impl<'a, A: Allocator> Request<'a, A> {
    ghost use Rattle.ncq_journal.specs.Work.{work_of};

    /// The place of its Issue entry.
    pub fn number(&self) -> u64
        ensures { result ≡ self.now.number }
    {
        self.number
    }

    /// The command that the entry issues.
    pub fn op(&self) -> &'a Op<A>
        ensures { work_of result.now ≡ self.now.work }
    {
        self.op
    }
}

/// The request that a tag was last issued for, after these events, the oldest first.
#[tactic(auto, using(crate::proofs::HistoryLemmas::history_more, crate::proofs::HistoryLemmas::history_all, crate::proofs::HistoryLemmas::length_history))]
pub fn request_of<'a, A: Allocator>(events: &'a [Event<A>], tag: u8) -> Option<Request<'a, A>>
    ensures { result ≡ request (history_of events.now) tag }
{
    let mut request = None;
    for (number, event) in events.iter().enumerate() {
        if let Event::Issue(t, op) = event {
            if *t == tag {
                request = Some(Request {
                    number: number as u64,
                    op,
                });
            }
        }
    }
    request
}
