//! Lists in chunks that their copies share: a copy costs a count, and a chunk is copied when it is first written.
#![tactic(auto)]

mod blocks;
mod chunks;
mod shared_list;
mod tracked;

pub use chunks::Chunk;
pub use shared_list::SharedList;
pub use tracked::TrackedList;
