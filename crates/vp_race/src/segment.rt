ghost use Rattle.std.specs.Prelude.{◌≡◌, ◌<◌, ◌^◌, ℕ, [], false, length, nat_le, replicate, IfNone, IfOk, IfSome};
ghost use Rattle.vp_race.specs.Orders.{HasEnd, has_choice};
ghost use Rattle.vp_race.specs.Recording.{IsClosed, IsFirstOf, order_from};
ghost use Rattle.vp_race.specs.Same.{same_run};
ghost use Rattle.vp_race.specs.Search.{found};

use crate::first_choice::FirstChoice;
use crate::start::Start;
use std::alloc::{AllocError, Global};
use std::marker::Model;

/// A segment of a run: what it did in a time slot, from the slot's beginning or from a put on, to the step after which nothing was left to do. A
/// contract sees its number, the state with which it began, and the order that the run took; the order is one from that state. Until the run
/// has a choice there is nothing to keep of it but how many steps it took.
#[derive(Drop)]
pub struct Segment {
    number: u64,
    start: Start,
    /// How many steps the run took, if it never had a choice.
    forced: u64,
    choice: Option<FirstChoice>,
}

impl Model for Segment {
    ghost use Rattle.vp_race.specs.Recording.{IsClosed, order_from};
    ghost use Rattle.vp_race.specs.Segments.{Run};

    ghost Value = { Run };

    ghost view = { λ s. record {
      number = s.number;
      start = s.start;
      order = order_from s.forced s.choice;
    } };

    ghost invariant = { λ s. IsClosed s.start s.forced s.choice };
}

impl Segment {
    /// The segment of a number, which began in this state: the run had this first choice, or none in so many steps.
    pub(crate) fn new(
        number: u64,
        start: Start,
        forced: u64,
        choice: Option<FirstChoice>,
    ) -> Segment
        requires { IsClosed start forced choice }
        ensures { result ≡ record {
          number = number;
          start = start;
          order = order_from forced choice;
        } }
    {
        Segment {
            number,
            start,
            forced,
            choice,
        }
    }

    /// The same segment again, which shares its states. Takes memory for its choices.
    pub fn try_clone(&self, alloc: Global) -> Result<Segment, AllocError>
        ensures { IfOk result (λ s. s ≡ self.now) }
    {
        let choice = match &self.choice {
            Some(choice) => Some(choice.try_clone(alloc)?),
            None => None,
        };
        Ok(Segment {
            number: self.number,
            start: self.start.try_clone(alloc)?,
            forced: self.forced,
            choice,
        })
    }

    /// Its number.
    pub fn number(&self) -> u64
        ensures number { result ≡ self.now.number }
        ensures end { HasEnd self.now.start self.now.order }
    {
        self.number
    }

    /// The time of its slot, in time units.
    pub fn time(&self) -> u64
        ensures { result ≡ self.now.start.time }
    {
        self.start.time()
    }

    /// The order that the run took. Takes memory for it.
    pub fn order(&self, alloc: Global) -> Result<Vec<u32>, AllocError>
        ensures { IfOk result (λ choices. choices.items ≡ self.now.order) }
    {
        match &self.choice {
            Some(choice) => choice.whole_order(alloc),
            None => vec![in alloc; 0u32; self.forced as usize],
        }
    }

    /// The run took at least so many steps.
    pub(crate) fn has_steps(&self, count: usize) -> bool
        ensures { result ≡ nat_le count (length self.now.order) }
    {
        match &self.choice {
            Some(choice) => choice.has_steps(count),
            None => self.forced >= count as u64,
        }
    }

    /// How many choices the order has.
    pub(crate) fn choices(&self) -> u64
        requires { length self.now.order < 2 ^ 64 }
        ensures { result ≡ length self.now.order }
    {
        match &self.choice {
            Some(choice) => choice.step_count(),
            None => self.forced,
        }
    }

    /// How many steps the run took, if it never had a choice.
    pub(crate) fn forced(&self) -> u64
        ensures { has_choice self.now.start self.now.order ≡ false
            → self.now.order ≡ replicate result 0 }
    {
        self.forced
    }

    /// Where the run first could have taken another event, if ever.
    pub(crate) fn first_choice(&self) -> Option<&FirstChoice>
        ensures first { IfSome result (λ c. IsFirstOf self.now c.now) }
        ensures none { IfNone result (has_choice self.now.start self.now.order ≡ false) }
        ensures alone { IfNone result ((limit seeds : ℕ) → found self.now limit seeds ≡ []) }
    {
        self.choice.as_ref()
    }

    /// Two segments of one design are the same. It takes time for each object and each event of their first choices, and for each choice.
    pub fn is_same(&self, other: &Segment) -> bool
        requires { self.now.start.design ≡ other.now.start.design }
        ensures { result ≡ same_run self.now other.now }
    {
        if self.number != other.number {
            return false;
        }
        match (&self.choice, &other.choice) {
            (Some(choice), Some(beside)) => choice.is_same(beside),
            (None, None) => self.forced == other.forced,
            (Some(_), None) => false,
            (None, Some(_)) => false,
        }
    }

    /// At one of its steps another event could have been taken. Where there was none at any, no search finds a race in it.
    pub fn has_choice(&self) -> bool
        ensures choice { result ≡ has_choice self.now.start self.now.order }
        ensures alone { result ≡ false → (limit seeds : ℕ) → found self.now limit seeds ≡ [] }
    {
        self.choice.is_some()
    }
}
