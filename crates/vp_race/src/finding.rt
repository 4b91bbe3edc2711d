ghost use Rattle.std.specs.Prelude.{◌≡◌};
ghost use Rattle.vp_race.specs.Segments.{IsRaceOf, orders_of, value_after};

use crate::pair::{OrderPair, SegmentOrders};
use crate::segment::Segment;
use std::marker::Model;
use vp_bits::Bits;
use vp_elab::ObjectId;

/// A race that was found: a segment, an order beside the run's, and a net or reg that has different values after the two. A contract sees these three,
/// which are a race.
#[derive(Drop)]
pub struct Finding {
    pub(crate) beside: SegmentOrders,
    pub(crate) object: ObjectId,
    /// The object's values after the run's order and after the other.
    pub(crate) values: (Bits, Bits),
}

impl Model for Finding {
    ghost use Rattle.vp_race.specs.Segments.{AreApart, FindingState};

    ghost Value = { FindingState };

    ghost view = { λ f. record {
      segment = f.beside.segment;
      object = f.object;
      second = f.beside.second;
    } };

    ghost invariant = { λ f. AreApart f.beside f.object f.values };
}

impl Finding {
    /// The segment.
    pub fn segment(&self) -> &Segment
        ensures segment { result.now ≡ self.now.segment }
        ensures race { IsRaceOf self.now }
    {
        self.beside.segment()
    }

    /// The net or reg.
    pub fn object(&self) -> ObjectId
        ensures { result ≡ self.now.object }
    {
        self.object
    }

    /// Its values after the run's order and after the other.
    pub fn values(&self) -> (Bits, Bits)
        ensures first { result.0 ≡ value_after self.now.segment.start self.now.segment.order
            self.now.object.0 }
        ensures second { result.1 ≡ value_after self.now.segment.start self.now.second
            self.now.object.0 }
    {
        self.values
    }

    /// The run's order and the one beside it.
    pub fn orders(&self) -> &OrderPair
        ensures { result.now ≡ orders_of self.now.segment self.now.second }
    {
        self.beside.orders()
    }
}
