//! The last answers of a node, in a ring with an index.

ghost use Rattle.std.specs.List.{position};
ghost use Rattle.std.specs.Option.{option_copied, option_map};
ghost use Rattle.std.specs.Prelude.{◌≡◌, ◌==◌, ◌-◌, ◌<◌, ◌≤◌, ◌∷◌, ◌++◌, [], length, drop, map, IfOk, IfSome};
ghost use Rattle.answer_ring.specs.AnswerIndex.{IsEnd, IsIndex, IsIndexOfRest};
ghost use Rattle.answer_ring.specs.Answers.{kept_answer, kept_with};

use crate::kept::{Count, Kept};
use arrayvec::ArrayVec;
use circular_buffer::HeapCircularBuffer;
use std::alloc::{AllocError, Global};
use std::cmp::Ordering;
use std::marker::Model;

/// The maximum number of kept answers.
const MAX_ANSWERS: usize = 1024;

/// The last 1,024 answers, the oldest first.
#[derive(Drop)]
pub struct Answers {
    ring: HeapCircularBuffer<Kept>,
    /// The places of the ring, in order of client and line, the older first of equal ones.
    index: ArrayVec<u16, MAX_ANSWERS>,
}

impl Model for Answers {
    ghost use Rattle.std.specs.Prelude.{◌≡◌, List};
    ghost use Rattle.answer_ring.specs.AnswerIndex.{IsIndex};
    ghost use Rattle.answer_ring.specs.Answers.{KeptAnswer};

    ghost Value = { List KeptAnswer };

    ghost view = { λ a. a.ring.items };

    ghost invariant = { λ a. (a.ring.capacity ≡ 1024) × IsIndex a.ring.items a.index.items };
}

impl Answers {
    /// Allocates the whole ring. Fails only if the allocator refuses the memory.
    pub fn new(alloc: Global) -> Result<Self, AllocError>
        ensures { IfOk result (λ answers. answers ≡ []) }
    {
        let ring = HeapCircularBuffer::with_capacity(alloc, MAX_ANSWERS)?;
        Ok(Answers {
            ring,
            index: ArrayVec::new(),
        })
    }

    /// Returns the newest answer to the client and line of `sought`, or None. Makes at most 11 comparisons.
    pub fn find(&self, sought: &Kept, count: &mut Count) -> Option<&[u8]>
        requires { count.old ≡ 0 }
        ensures value { option_copied result ≡ kept_answer self.now sought.now.client sought.now.line }
        ensures len { IfSome result (λ answer. length answer.now ≤ 64) }
        ensures few { count.new ≤ 11 }
    {
        match search(&self.ring, self.index.as_slice(), sought, count).newest {
            Some(kept) => Some(kept.answer()),
            None => None,
        }
    }

    /// Adds `kept`. Drops the oldest answer first if the ring is full. Makes at most 11 comparisons.
    pub fn put(&mut self, kept: Kept, count: &mut Count)
        requires { count.old ≡ 0 }
        ensures kept { self.new ≡ kept_with self.old kept }
        ensures few { count.new ≤ 11 }
    {
        if self.ring.len() == MAX_ANSWERS {
            self.forget_oldest();
        }
        self.add(kept, count);
    }

    /// Removes all answers.
    pub fn clear(&mut self)
        ensures { self.new ≡ [] }
    {
        self.ring.clear();
        self.index.clear();
    }

    /// Removes the oldest answer.
    fn forget_oldest(&mut self)
        requires { 0 < length self.old }
        ensures { self.new ≡ drop 1 self.old }
    {
        self.ring.pop_front();
        forget_first_place(&mut self.index);
    }

    /// Adds `kept` to a ring that is not full. Makes at most 11 comparisons.
    fn add(&mut self, kept: Kept, count: &mut Count)
        requires room { length self.old < 1024 }
        requires start { count.old ≡ 0 }
        ensures kept { self.new ≡ self.old ++ kept ∷ [] }
        ensures few { count.new ≤ 11 }
    {
        let end = search(&self.ring, self.index.as_slice(), &kept, count).end;
        self.index.insert(end, self.index.len() as u16);
        self.ring.push_back(kept);
    }
}

/// The result of a search.
#[derive(Drop)]
struct Found<'a> {
    /// The number of answers of the index that are at most the sought one.
    end: usize,
    newest: Option<&'a Kept>,
}

/// Searches the newest answer to the client and line of `sought`, by bisection of the index.
fn search<'a>(
    ring: &'a HeapCircularBuffer<Kept>,
    index: &[u16],
    sought: &Kept,
    count: &mut Count,
) -> Found<'a>
    requires index { IsIndex ring.now.items index.now }
    requires few { length index.now ≤ 1024 }
    requires start { count.old ≡ 0 }
    ensures end { IsEnd ring.now.items index.now sought.now result.end }
    ensures newest { option_map (λ k. k.text) (option_copied result.newest)
        ≡ kept_answer ring.now.items sought.now.client sought.now.line }
    ensures count { count.new ≤ 11 }
{
    let mut low = 0;
    let mut high = index.len();
    let mut newest = None;
    while low < high {
        let middle = low + (high - low) / 2;
        let kept = ring.get(usize::from(index[middle])).unwrap();
        match kept.compare(sought, count) {
            Ordering::Greater => high = middle,
            Ordering::Less => {
                newest = None;
                low = middle + 1;
            }
            Ordering::Equal => {
                newest = Some(kept);
                low = middle + 1;
            }
        }
    }
    Found { end: low, newest }
}

/// Turns the index into the index of all answers except the oldest.
fn forget_first_place(index: &mut ArrayVec<u16, MAX_ANSWERS>)
    ensures { IsIndexOfRest index.old.items index.new.items }
{
    if let Some(oldest) = first_place(index.as_slice()) {
        index.remove(oldest);
    }
    lower_places(index.as_mut_slice());
}

/// Returns the place of the oldest answer in the index, or None.
fn first_place(places: &[u16]) -> Option<usize>
    ensures { result ≡ position (λ place. place == 0) places.now }
{
    places.iter().position(|place| *place == 0)
}

/// Lowers each place by one, as after the removal of the oldest answer.
fn lower_places(places: &mut [u16])
    ensures { places.new ≡ map (λ place. place - 1) places.old }
{
    for place in places.iter_mut() {
        *place = place.saturating_sub(1);
    }
}
