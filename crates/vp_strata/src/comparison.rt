use crate::event::{Delayed, Timed};
use vp_text::Same;

impl Same for Delayed {
    fn is_same(&self, other: &Delayed) -> bool {
        match (self, other) {
            (Delayed::Evaluation { process: first }, Delayed::Evaluation { process: second }) => {
                first == second
            }
            (Delayed::Nonblocking { update: first }, Delayed::Nonblocking { update: second }) => {
                first.is_same(second)
            }
            _ => false,
        }
    }
}

impl Same for Timed {
    fn is_same(&self, other: &Timed) -> bool {
        self.time == other.time && self.event.is_same(&other.event)
    }
}
