ghost use Rattle.std.specs.List.{list_any};
ghost use Rattle.std.specs.Prelude.{◌≡◌, ◌+◌, ◌∷◌, ◌++◌, [], false, true, nat_lt, None, Some, IfErr, IfNone, IfOk, IfSome, OnErr, OnOk, option_copied};
ghost use Rattle.vp_race.specs.declared.error.RaceError.TheVariants.{NoMemory};
ghost use Rattle.vp_text.specs.Refusals.{Explains};
ghost use Rattle.vp_race.specs.Booking.{is_booked, is_name, refusal_of_finding, steps_in, steps_of, with_race};

use crate::book_limits::BookLimits;
use crate::booked_finding::BookedFinding;
use crate::error::RaceError;
use crate::finding::Finding;
use crate::segment::Segment;
use indexmap::IndexSet;
use std::alloc::{AllocError, Global};
use std::marker::Model;
use vp_text::Shared;

/// The races that were found, in the order in which they were booked. A contract sees them as findings, and how many there may be.
#[derive(Drop)]
pub struct Book {
    alloc: Global,
    races: Vec<Shared<BookedFinding>>,
    /// Of each race the number of its segment and that of its object.
    names: IndexSet<(u64, u32)>,
    /// How many steps the orders of the races have.
    steps: usize,
    limits: BookLimits,
}

impl Model for Book {
    ghost use Rattle.std.specs.Prelude.{◌≡◌, map};
    ghost use Rattle.vp_race.specs.Booking.{BookState, name_of, steps_in};

    ghost Value = { BookState };

    ghost view = { λ b. record { races = b.races.items; limits = b.limits } };

    ghost invariant = { λ b. (b.names.keys ≡ map name_of b.races.items)
        × (b.steps ≡ steps_in b.races.items) };
}

/// Adds the name of a race that has none yet; or an error where there is no memory.
fn add_name(names: &mut IndexSet<(u64, u32)>, number: u64, object: u32) -> Result<(), AllocError>
    requires { list_any (is_name number object) names.old.keys ≡ false }
    ensures added { OnOk result (names.new.keys ≡ names.old.keys ++ (number, object) ∷ []) }
    ensures same { OnErr result (names.new.keys ≡ names.old.keys) }
{
    if names.insert((number, object)).is_err() {
        return Err(AllocError);
    }
    Ok(())
}

impl Book {
    /// A book without races, which may have so many.
    pub fn new(alloc: Global, limits: BookLimits) -> Book
        ensures { result ≡ record { races = []; limits = limits } }
    {
        Book {
            alloc,
            races: Vec::new(alloc),
            names: IndexSet::new(alloc),
            steps: 0,
            limits,
        }
    }

    /// The races, in the order in which they were booked.
    pub fn races(&self) -> &[Shared<BookedFinding>]
        ensures { result.now ≡ self.now.races }
    {
        self.races.as_slice()
    }

    /// A race of the same object and segment is in the book.
    fn is_booked(&self, finding: &Finding) -> bool
        ensures { result ≡ is_booked self.now.races finding.now }
    {
        self.names
            .contains(&(finding.segment().number(), finding.object().0))
    }

    /// How many steps the orders of the races have with those of a finding; none where they are more than may be.
    fn steps_with(&self, finding: &Finding) -> Option<usize>
        ensures some { IfSome result
            (λ steps. steps ≡ steps_in self.now.races + steps_of finding.now) }
        ensures fits { IfSome result (λ steps. nat_lt self.now.limits.steps steps ≡ false) }
        ensures none { IfNone result (nat_lt self.now.limits.steps
            (steps_in self.now.races + steps_of finding.now) ≡ true) }
    {
        let orders = finding.orders();
        let room = self.limits.steps.checked_sub(self.steps)?;
        let room = room.checked_sub(orders.first_sources().len())?;
        let room = room.checked_sub(orders.second_sources().len())?;
        Some(self.limits.steps - room)
    }

    /// A finding may be booked, beside the kept segment of its number, if that is kept: the orders of the races have so many steps with it.
    /// Else its refusal (1204, 1205, 1206).
    fn admit(&self, kept: Option<&Segment>, finding: &Finding) -> Result<usize, RaceError>
        requires { IfSome kept (λ s. s.now.start.design ≡ finding.now.segment.start.design) }
        ensures accepted { OnOk result
            (refusal_of_finding self.now (option_copied kept.entry) finding.now ≡ None) }
        ensures refused { IfErr result
            (λ e. refusal_of_finding self.now (option_copied kept.entry) finding.now ≡ Some e) }
        ensures new { OnOk result (is_booked self.now.races finding.now ≡ false) }
        ensures steps { IfOk result
            (λ steps. steps ≡ steps_in self.now.races + steps_of finding.now) }
    {
        let Some(segment) = kept else {
            return Err(RaceError::SegmentGone);
        };
        if !segment.is_same(finding.segment()) {
            return Err(RaceError::SegmentGone);
        }
        if self.is_booked(finding) {
            return Err(RaceError::Booked);
        }
        if self.races.len() >= self.limits.races {
            return Err(RaceError::BookFull);
        }
        self.steps_with(finding).ok_or(RaceError::BookFull)
    }

    /// A finding may be booked, beside the kept segment of its number, if that is kept; else its refusal (1204, 1205, 1206).
    pub fn check(&self, kept: Option<&Segment>, finding: &Finding) -> Result<(), RaceError>
        requires { IfSome kept (λ s. s.now.start.design ≡ finding.now.segment.start.design) }
        ensures accepted { OnOk result
            (refusal_of_finding self.now (option_copied kept.entry) finding.now ≡ None) }
        ensures refused { IfErr result
            (λ e. refusal_of_finding self.now (option_copied kept.entry) finding.now ≡ Some e) }
    {
        self.admit(kept, finding)?;
        Ok(())
    }

    /// Books a finding, beside the kept segment of its number, if that is kept, and gives what the book keeps of it. Refused where its
    /// segment is another one or is not kept (1204), where the object is booked for this segment (1205), where the book has as many races
    /// or would have more steps than it may (1206), or out of memory (1207). A refusal leaves the book as it was.
    pub fn add(
        &mut self,
        kept: Option<&Segment>,
        finding: &Finding,
    ) -> Result<Shared<BookedFinding>, RaceError>
        requires { IfSome kept (λ s. s.now.start.design ≡ finding.now.segment.start.design) }
        ensures accepted { OnOk result
            (refusal_of_finding self.old (option_copied kept.entry) finding.now ≡ None) }
        ensures booked { IfOk result (λ race. race ≡ finding.now) }
        ensures added { OnOk result (self.new ≡ with_race self.old finding.now) }
        ensures refused { IfErr result (Explains NoMemory
            (refusal_of_finding self.old (option_copied kept.entry) finding.now)) }
        ensures unchanged { OnErr result (self.new ≡ self.old) }
    {
        let steps = self.admit(kept, finding)?;
        self.races.reserve(1)?;
        let race = Shared::new(self.alloc, BookedFinding::new(finding)?)?;
        let added = race.try_clone()?;
        let number = finding.segment().number();
        add_name(&mut self.names, number, finding.object().0)?;
        self.races.push_reserved(added);
        self.steps = steps;
        Ok(race)
    }
}
