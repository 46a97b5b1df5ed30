//! An allocator that refuses, what a call asked of it, and rows of calls whose growths are refused in turn.
use refusing_allocator::{Refusals, Refusing};
use std::alloc::Global;
use std::fmt::Debug;
use std::process::Abort;
use std::test::Fail;

/// What the calls that are tried take their memory from.
pub type Heap = Refusing<Global>;

/// What a call asked for.
#[derive(Clone, Copy, Debug, PartialEq, Eq)]
pub enum Asked {
    /// So many requests were granted, and the next was refused: the call asked no more.
    Refused(u64),
    /// It went on to ask, and more than one was refused.
    RefusedOften,
    /// So many were made, and all were granted.
    Granted(u64),
}

pub fn growths_of(heap: &Heap) -> Asked {
    match heap.refused() {
        0 => Asked::Granted(heap.requests()),
        1 => Asked::Refused(heap.requests().saturating_sub(1)),
        _ => Asked::RefusedOften,
    }
}

/// What a call answered, what it had asked for and how many bytes that was; and, where it was refused some, what the same
/// call answered then with memory.
#[derive(Clone, Copy, Debug, PartialEq)]
pub struct Tried<S> {
    pub said: S,
    pub asked: Asked,
    pub bytes: Option<u64>,
    pub again: Option<S>,
}

impl<S> Tried<S> {
    /// A call that was granted all, or one that has to be made again.
    pub fn of(said: S, asked: Asked, bytes: u64) -> Self {
        let bytes = match asked {
            Asked::Granted(_) => Some(bytes),
            _ => None,
        };
        Tried {
            said,
            asked,
            bytes,
            again: None,
        }
    }
}

/// A call, what it answers where its first, second, .. growth is refused, what it answers with memory, and how many bytes it
/// asks for then. It meets as many growths as there are refusals.
#[derive(Drop)]
pub struct Row<C, S: 'static>(pub C, pub &'static [S], pub S, pub u64);

impl<C, S: Copy + 'static> Row<C, S> {
    /// What is wanted where this growth and all that follow are refused.
    fn wanted(&self, growth: usize) -> Tried<S> {
        match self.1.get(growth) {
            Some(said) => Tried {
                said: *said,
                asked: Asked::Refused(growth as u64),
                bytes: None,
                again: Some(self.2),
            },
            None => Tried {
                said: self.2,
                asked: Asked::Granted(growth as u64),
                bytes: Some(self.3),
                again: None,
            },
        }
    }
}

/// Tries the call of each row with each of its growths refused, and with none. All that a try took comes back.
pub fn tries_each<C, S, F>(
    rt: &impl Abort,
    alloc: Global,
    rows: &[Row<C, S>],
    tries: F,
) -> Result<(), Fail>
where
    C: Copy + Debug,
    S: Copy + PartialEq + Debug + 'static,
    F: Fn(&Heap, C, usize) -> Result<Tried<S>, Fail>,
    requires { F.IsAlwaysCallable tries }
{
    for row in rows {
        for growth in 0..=row.1.len() {
            let heap = Refusing::new(alloc);
            let found = tries(&heap, row.0, growth)?;
            equal(rt, &row.0, growth, &found, &row.wanted(growth));
            assert!(rt; heap.out() == 0);
        }
    }
    Ok(())
}

/// Compares what was found where a growth of a call was refused.
pub fn equal<C: Debug, T: PartialEq + Debug>(
    rt: &impl Abort,
    call: &C,
    growth: usize,
    found: &T,
    wanted: &T,
) {
    assert_eq!(rt; *found, *wanted, "{call:?}, growth {growth}");
}

/// All requests from this one on are refused.
pub fn refuse_from(heap: &Heap, growth: usize) {
    heap.refuse(Refusals::From(growth as u64));
}

/// No request is refused.
pub fn grant_all(heap: &Heap) {
    heap.refuse(Refusals::None);
}
