ghost use Rattle.std.specs.Prelude.{◌≡◌, IfOk};
ghost use Rattle.vp_race.specs.Segments.{IsRaceOf, orders_of, value_after};

use crate::finding::Finding;
use crate::pair::OrderPair;
use std::alloc::AllocError;
use std::marker::Model;
use std::snapshot::Snapshot;
use vp_bits::Bits;
use vp_elab::ObjectId;

/// A finding in the book: what its users are shown of the race. Its segment is known to contracts alone, so that the book holds no copy of a
/// simulation. A contract sees the finding.
#[derive(Drop)]
pub struct BookedFinding {
    finding: Snapshot<Finding>,
    number: u64,
    /// In time units.
    time: u64,
    object: ObjectId,
    values: (Bits, Bits),
    orders: OrderPair,
}

impl Model for BookedFinding {
    ghost use Rattle.std.specs.Prelude.{◌≡◌};
    ghost use Rattle.vp_race.specs.Booking.{details_of};
    ghost use Rattle.vp_race.specs.Segments.{IsRaceOf, FindingState};

    ghost Value = { FindingState };

    ghost view = { λ r. r.finding.value };

    ghost invariant = { λ r. IsRaceOf r.finding.value × (details_of r.finding.value ≡ record {
      number = r.number;
      time = r.time;
      object = r.object;
      values = r.values;
      orders = r.orders;
    }) };
}

impl BookedFinding {
    /// What the book keeps of a finding; or an error where the holders of its orders can't be counted.
    pub(crate) fn new(finding: &Finding) -> Result<BookedFinding, AllocError>
        ensures { IfOk result (λ booked. booked ≡ finding.now) }
    {
        let segment = finding.segment();
        Ok(BookedFinding {
            finding: Snapshot::of(finding),
            number: segment.number(),
            time: segment.time(),
            object: finding.object(),
            values: finding.values(),
            orders: finding.orders().try_clone()?,
        })
    }

    /// The number of its segment.
    pub fn number(&self) -> u64
        ensures number { result ≡ self.now.segment.number }
        ensures race { IsRaceOf self.now }
    {
        self.number
    }

    /// The time of its segment, in time units.
    pub fn time(&self) -> u64
        ensures { result ≡ self.now.segment.start.time }
    {
        self.time
    }

    /// The net or reg.
    pub fn object(&self) -> ObjectId
        ensures { result ≡ self.now.object }
    {
        self.object
    }

    /// Its values after the run's order and after the other.
    pub fn values(&self) -> (Bits, Bits)
        ensures first { result.0 ≡ value_after self.now.segment.start self.now.segment.order
            self.now.object.0 }
        ensures second { result.1 ≡ value_after self.now.segment.start self.now.second
            self.now.object.0 }
    {
        self.values
    }

    /// The run's order and the one beside it.
    pub fn orders(&self) -> &OrderPair
        ensures { result.now ≡ orders_of self.now.segment self.now.second }
    {
        &self.orders
    }
}
