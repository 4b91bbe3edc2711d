ghost use Rattle.std.specs.Prelude.{◌≡◌, IfOk};
ghost use Rattle.vp_race.specs.Orders.{HasEnd};
ghost use Rattle.vp_race.specs.Segments.{orders_of};

use crate::follow::Order;
use crate::segment::Segment;
use std::alloc::AllocError;
use std::marker::Model;
use std::sync::Arc;
use vp_elab::ObjectId;

/// Two orders of a time slot: the run's and the one beside it. A contract sees what is shown of them.
#[derive(Drop)]
pub struct OrderPair {
    /// Shared by the findings of a search.
    pub(crate) first: Arc<Order>,
    /// Shared by the findings after it.
    pub(crate) second: Arc<Order>,
}

impl Model for OrderPair {
    ghost use Rattle.std.specs.Arc.{arc_value};
    ghost use Rattle.vp_race.specs.Segments.{ShownOrders};

    ghost Value = { ShownOrders };

    ghost view = { λ p. record {
      second = (arc_value p.second).choices.items;
      first_sources = (arc_value p.first).sources.items;
      second_sources = (arc_value p.second).sources.items;
    } };
}

impl OrderPair {
    /// The same pair for one holder more; or an error where they can't be counted.
    pub fn try_clone(&self) -> Result<OrderPair, AllocError>
        ensures { IfOk result (λ p. p ≡ self.now) }
    {
        Ok(OrderPair {
            first: Arc::try_clone(&self.first)?,
            second: Arc::try_clone(&self.second)?,
        })
    }

    /// The choices of the order beside the run's.
    pub fn second(&self) -> &[u32]
        ensures { result.now ≡ self.now.second }
    {
        self.second.choices.as_slice()
    }

    /// The objects of the processes whose events the run took, in order; of a connection its port.
    pub fn first_sources(&self) -> &[ObjectId]
        ensures { result.now ≡ self.now.first_sources }
    {
        self.first.sources.as_slice()
    }

    /// The same of the order beside the run's.
    pub fn second_sources(&self) -> &[ObjectId]
        ensures { result.now ≡ self.now.second_sources }
    {
        self.second.sources.as_slice()
    }
}

/// A segment, and an order of its time slot beside the one that the run took. A contract sees both.
#[derive(Drop)]
pub struct SegmentOrders {
    pub segment: Arc<Segment>,
    pub orders: OrderPair,
}

impl Model for SegmentOrders {
    ghost use Rattle.std.specs.Arc.{arc_value};
    ghost use Rattle.vp_race.specs.Segments.{AreOrders, Beside};

    ghost Value = { Beside };

    ghost view = { λ s. record {
      segment = arc_value s.segment;
      second = s.orders.second;
    } };

    ghost invariant = { λ s. AreOrders
        (record { segment = arc_value s.segment; second = s.orders.second }) s.orders };
}

impl SegmentOrders {
    /// The same for one holder more; or an error where they can't be counted.
    pub fn try_clone(&self) -> Result<SegmentOrders, AllocError>
        ensures { IfOk result (λ s. s ≡ self.now) }
    {
        Ok(SegmentOrders {
            segment: Arc::try_clone(&self.segment)?,
            orders: self.orders.try_clone()?,
        })
    }

    /// The segment.
    pub fn segment(&self) -> &Segment
        ensures segment { result.now ≡ self.now.segment }
        ensures end { HasEnd self.now.segment.start self.now.segment.order }
    {
        &self.segment
    }

    /// Both orders.
    pub fn orders(&self) -> &OrderPair
        ensures orders { result.now ≡ orders_of self.now.segment self.now.second }
        ensures end { HasEnd self.now.segment.start self.now.second }
    {
        &self.orders
    }
}
