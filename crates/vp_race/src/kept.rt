ghost use Rattle.std.specs.Prelude.{◌≡◌, ◌<◌, ◌≤◌, ◌+◌, ◌-◌, ◌==◌, ◌^◌, ◌∷◌, ◌++◌, [], count_by, length, nat_lt, option_copied, suc, IfOk};
ghost use Rattle.std.specs.List.{find};
ghost use Rattle.circular_buffer.specs.Buffer.{buffer, keep_last};
ghost use Rattle.vp_race.specs.Recording.{AreNumbered, choices_limit, choices_of, last_kept, last_within};
ghost use Rattle.vp_race.specs.Segments.{Run};

use crate::segment::Segment;
use circular_buffer::HeapCircularBuffer;
use std::alloc::{AllocError, Global};
use std::marker::Model;

/// So many closed segments are kept.
const KEPT_LIMIT: usize = 256;

/// Of so many choices together.
const CHOICES_LIMIT: usize = 16_777_216;

/// The last closed segments. A contract sees them, and how many closed.
#[derive(Drop)]
pub struct KeptSegments {
    ring: HeapCircularBuffer<Segment>,
    /// So many choices they have together.
    choices: u64,
    count: u64,
}

impl Model for KeptSegments {
    ghost use Rattle.std.specs.Prelude.{◌≡◌, ◌≤◌, ◌-◌, length, suc};
    ghost use Rattle.vp_race.specs.Recording.{AreNumbered, Ring, choices_limit, choices_of};

    ghost Value = { Ring };

    ghost view = { λ k. record { kept = k.ring.items; count = k.count } };

    ghost invariant = { λ k. record {
      capacity : k.ring.capacity ≡ 256;
      few : length k.ring.items ≤ k.count;
      numbered : AreNumbered (suc (k.count - length k.ring.items)) k.ring.items;
      choices : k.choices ≡ choices_of k.ring.items;
      limit : k.choices ≤ choices_limit;
    } };
}

/// Drops the oldest segments until the others have no more choices than may be kept, and reports how many these have.
fn drop_oldest(ring: &mut HeapCircularBuffer<Segment>, choices: u64) -> u64
    requires { choices ≡ choices_of ring.old.items }
    ensures kept { ring.new ≡ buffer (last_within choices_limit ring.old.items) ring.old.capacity }
    ensures choices { result ≡ choices_of ring.new.items }
    ensures few { result ≤ choices_limit }
{
    let mut choices = choices;
    while choices > CHOICES_LIMIT as u64 {
        let Some(oldest) = ring.pop_front() else {
            unreachable!()
        };
        choices -= oldest.choices();
    }
    choices
}

/// Adds a segment and drops the oldest where there is no place for it; reports how many choices they have then.
fn add(ring: &mut HeapCircularBuffer<Segment>, choices: u64, segment: Segment) -> u64
    requires choices { choices ≡ choices_of ring.old.items }
    requires capacity { ring.old.capacity ≡ 256 }
    requires limit { choices ≤ choices_limit }
    requires few { length segment.order ≤ choices_limit }
    ensures kept { ring.new ≡ buffer (keep_last 256 (ring.old.items ++ segment ∷ [])) 256 }
    ensures choices { result ≡ choices_of ring.new.items }
{
    let choices = choices + segment.choices();
    // Read, so that the check knows that they are no more than the ring's capacity.
    let _len = ring.len();
    match ring.push_back(segment) {
        Some(oldest) => choices - oldest.choices(),
        None => choices,
    }
}

impl KeptSegments {
    /// No segment. Takes memory for all that are kept.
    pub fn new(alloc: Global) -> Result<KeptSegments, AllocError>
        ensures { IfOk result (λ k. k ≡ record { kept = []; count = 0 }) }
    {
        let ring = HeapCircularBuffer::with_capacity(alloc, KEPT_LIMIT)?;
        Ok(KeptSegments {
            ring,
            choices: 0,
            count: 0,
        })
    }

    /// How many segments closed.
    pub fn count(&self) -> u64
        ensures { result ≡ self.now.count }
    {
        self.count
    }

    /// One more segment closes, with the next number. Where as many are kept as may be, or they have too many choices together, the oldest
    /// are no longer kept.
    pub fn push(&mut self, segment: Segment)
        requires number { segment.number ≡ self.old.count + 1 }
        requires limit { self.old.count + 1 < 2 ^ 64 }
        ensures { self.new ≡ record {
          kept = last_kept (self.old.kept ++ segment ∷ []);
          count = self.old.count + 1;
        } }
    {
        // Read, so that the check knows that they are no more than may be kept.
        let _len = self.ring.len();
        self.count += 1;
        if segment.has_steps(CHOICES_LIMIT + 1) {
            self.ring.clear();
            self.choices = 0;
            return;
        }
        let choices = add(&mut self.ring, self.choices, segment);
        self.choices = drop_oldest(&mut self.ring, choices);
    }

    /// The number before the oldest of those that are kept.
    fn before(&self) -> u64
        ensures number { result ≡ self.now.count - length self.now.kept }
        ensures numbered { AreNumbered (suc result) self.now.kept }
    {
        self.count - self.ring.len() as u64
    }

    /// The kept segment of a number; none where it is not kept.
    pub fn find(&self, number: u64) -> Option<&Segment>
        ensures { option_copied result
            ≡ find (λ (run : Run). run.number == number) self.now.kept }
    {
        let before = self.before();
        if number <= before {
            return None;
        }
        self.ring.get((number - before - 1) as usize)
    }

    /// The first kept segment after that of a number.
    pub fn next(&self, number: u64) -> Option<&Segment>
        ensures { option_copied result
            ≡ find (λ (run : Run). nat_lt number run.number) self.now.kept }
    {
        let place = number.saturating_sub(self.before());
        self.ring.get(place as usize)
    }

    /// How many segments are kept after that of a number.
    pub fn count_after(&self, number: u64) -> usize
        ensures { result ≡ count_by (λ (run : Run). nat_lt number run.number) self.now.kept }
    {
        self.ring
            .iter()
            .filter(|segment| segment.number() > number)
            .count()
    }
}
