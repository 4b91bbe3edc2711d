//! Races: orders that are checked, that are searched for, and that are booked.
ghost use Rattle.std.specs.Prelude.{◌≡◌, IfOk, IfSome};
ghost use Rattle.std.specs.Arc.{arc_value};

use crate::tests::recordings::{race, recording, segment_of, steps};
use std::alloc::Global;
use std::sync::Arc;
use vp_bits::Bits;
use vp_elab::ObjectId;
use vp_race::{Book, BookLimits, Finding, OpenGate, RaceError, Recording, Segment, check, search};

/// The finding of an object by an order, or the refusal.
fn finding_at(
    alloc: Global,
    segment: &Arc<Segment>,
    order: &[u32],
    object: u32,
) -> Result<Finding, RaceError>
    ensures { IfOk result (λ f. f.segment ≡ arc_value segment.now) }
{
    let Ok(choices) = Vec::from_slice(alloc, order) else {
        return Err(RaceError::NoMemory);
    };
    check(alloc, segment, choices, ObjectId(object))
}

/// The number of the refusal of an order at `top.a`; 0 where it is a race.
fn refusal(alloc: Global, segment: &Arc<Segment>, order: &[u32]) -> u32 {
    match finding_at(alloc, segment, order, 1).err() {
        None => 0,
        Some(error) => error.code(),
    }
}

/// The values of `top.a` after the run and after an order that is a race.
fn values_in(alloc: Global, segment: &Arc<Segment>) -> Option<(Bits, Bits)> {
    let finding = finding_at(alloc, segment, &[0, 1, 0, 0, 0], 1).ok()?;
    let values = finding.values();
    drop(finding);
    Some(values)
}

/// The same in the segment of the race.
fn values(alloc: Global) -> Option<(Bits, Bits)> {
    let segment = race(alloc)?;
    let values = values_in(alloc, &segment);
    drop(segment);
    values
}

#[test]
fn order_with_other_values(rt: HostRuntime) {
    let wanted = (Bits::of_number(1, 1), Bits::of_number(1, 0));
    assert_eq!(rt; values(rt.alloc()), Some(wanted));
}

/// The refusals of choices after which something is left to do, that are no step's, and that are the run's.
fn refusals(alloc: Global) -> Option<[u32; 3]> {
    let segment = race(alloc)?;
    let refusals = [
        refusal(alloc, &segment, &[0, 1]),
        refusal(alloc, &segment, &[5]),
        refusal(alloc, &segment, &[0, 0, 0, 0, 0]),
    ];
    drop(segment);
    Some(refusals)
}

#[test]
fn orders_that_are_no_race(rt: HostRuntime) {
    assert_eq!(rt; refusals(rt.alloc()), Some([1202, 1201, 1203]));
}

/// The finding of an index is of this object: 1 after the run and 0 after the first order that is tried, which takes the last event each time.
fn is_found(findings: &[Finding], index: usize, object: u32) -> bool {
    let Some(finding) = findings.get(index) else {
        return false;
    };
    let values = finding.values();
    finding.object() == ObjectId(object)
        && values.0 == Bits::of_number(1, 1)
        && values.1 == Bits::of_number(1, 0)
        && finding.orders().second() == [0, 1, 1, 0, 0].as_slice()
}

/// Two findings: of `top.a` and of `top.b`.
fn are_both(findings: &[Finding]) -> [bool; 3] {
    [
        findings.len() == 2,
        is_found(findings, 0, 1),
        is_found(findings, 1, 2),
    ]
}

/// What 16 seeds find in a segment.
fn findings_in(alloc: Global, segment: &Arc<Segment>) -> Option<Vec<Finding>> {
    search(alloc, segment, 16, 10_000, &OpenGate).ok()
}

/// A search finds both in a segment.
fn both_found_in(alloc: Global, segment: &Arc<Segment>) -> Option<[bool; 3]> {
    let findings = findings_in(alloc, segment)?;
    let are_both = are_both(&findings);
    drop(findings);
    Some(are_both)
}

/// The same of the segment of the race.
fn both_found(alloc: Global) -> Option<[bool; 3]> {
    let segment = race(alloc)?;
    let are_both = both_found_in(alloc, &segment);
    drop(segment);
    are_both
}

#[test]
fn races_that_are_found(rt: HostRuntime) {
    assert_eq!(rt; both_found(rt.alloc()), Some([true, true, true]));
}

/// A process with two nonblocking assignments to one reg, which happen in their order.
const DEFERRED: &str = "module top; reg a; initial begin a <= 0; a <= 1; end endmodule";

/// The first segment of a run that takes four steps.
fn first_segment(alloc: Global, run: &mut Recording) -> Option<Arc<Segment>> {
    steps(run, 4)?;
    segment_of(alloc, run, 1)
}

/// The same of a run in which there never was a choice.
fn segment_without_choice(alloc: Global) -> Option<Arc<Segment>> {
    let mut run = recording(alloc, DEFERRED)?;
    let segment = first_segment(alloc, &mut run);
    drop(run);
    segment
}

/// How many races are found in a segment.
fn count_found_in(alloc: Global, segment: &Arc<Segment>) -> Option<usize> {
    let findings = findings_in(alloc, segment)?;
    let count = findings.len();
    drop(findings);
    Some(count)
}

/// How many races are found where there never was a choice.
fn count_without_choice(alloc: Global) -> Option<usize> {
    let segment = segment_without_choice(alloc)?;
    let count = count_found_in(alloc, &segment);
    drop(segment);
    count
}

#[test]
fn no_race_without_choice(rt: HostRuntime) {
    assert_eq!(rt; count_without_choice(rt.alloc()), Some(0));
}

/// A race of `SWAPPED` at an object, to be booked.
fn race_at(alloc: Global, segment: &Arc<Segment>, object: u32) -> Option<Finding>
    ensures { IfSome result (λ f. f.segment ≡ arc_value segment.now) }
{
    finding_at(alloc, segment, &[0, 1, 0, 0, 0], object).ok()
}

/// The refusal where a race at an object is booked beside its segment, which is kept; 0 where it is booked.
fn booking(alloc: Global, book: &mut Book, segment: &Arc<Segment>, object: u32) -> Option<u32> {
    let finding = race_at(alloc, segment, object)?;
    Some(match book.add(Some(segment), &finding) {
        Ok(_) => 0,
        Err(error) => error.code(),
    })
}

/// The refusal where the segment of a race is no longer kept.
fn late_booking(alloc: Global, book: &mut Book, segment: &Arc<Segment>) -> Option<u32> {
    let finding = race_at(alloc, segment, 1)?;
    book.add(None, &finding).err().map(|error| error.code())
}

/// What a book of one race says of a race whose segment is gone, of one, of the same again, and of another.
fn bookings_in(alloc: Global, book: &mut Book, segment: &Arc<Segment>) -> Option<[u32; 4]> {
    Some([
        late_booking(alloc, book, segment)?,
        booking(alloc, book, segment, 1)?,
        booking(alloc, book, segment, 1)?,
        booking(alloc, book, segment, 2)?,
    ])
}

/// The same of a new book, which may have so many races of so many steps.
fn bookings(alloc: Global, races: usize, steps: usize) -> Option<[u32; 4]> {
    let segment = race(alloc)?;
    let mut book = Book::new(alloc, BookLimits { races, steps });
    let bookings = bookings_in(alloc, &mut book, &segment);
    drop((book, segment));
    bookings
}

#[test]
fn races_that_are_booked(rt: HostRuntime) {
    assert_eq!(rt; bookings(rt.alloc(), 1, 100), Some([1204, 0, 1205, 1206]));
    // Each of the two races has two orders of five steps.
    assert_eq!(rt; bookings(rt.alloc(), 2, 20), Some([1204, 0, 1205, 0]));
    assert_eq!(rt; bookings(rt.alloc(), 2, 19), Some([1204, 0, 1205, 1206]));
}
