use crate::event::{Event, NonblockingUpdate};
use vp_text::Same;

impl Same for NonblockingUpdate {
    fn is_same(&self, other: &NonblockingUpdate) -> bool {
        self.process == other.process
            && self.object == other.object
            && self.place == other.place
            && self.value == other.value
    }
}

impl Same for Event {
    fn is_same(&self, other: &Event) -> bool {
        match (self, other) {
            (Event::Evaluation { process: first }, Event::Evaluation { process: second }) => {
                first == second
            }
            (
                Event::NetUpdate {
                    process: first,
                    value,
                },
                Event::NetUpdate {
                    process: second,
                    value: other,
                },
            ) => first == second && *value == *other,
            (Event::Nonblocking { update: first }, Event::Nonblocking { update: second }) => {
                first.is_same(second)
            }
            _ => false,
        }
    }
}
