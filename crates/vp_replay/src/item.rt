// What of a log goes to a user.
use vp_answer::{Query, SessionId};
use vp_bits::Bits;
use vp_expr::Change;
use vp_policy::{Access, View};
use vp_text::{Sequence, Shared};
use vp_vpi::ShownRace;

/// An event of a user's own.
#[derive(Drop)]
pub enum OwnEvent {
    /// He opened this session.
    Opens(SessionId),
    /// A session of his asked.
    Asks(SessionId, Query),
    /// A session of his was closed.
    Closes(SessionId),
}

/// A change of a user's own grants.
#[derive(Drop)]
pub struct GrantItem {
    /// The number of the envelope; 0 for the open text.
    pub envelope: u32,
    /// What he is granted there from then on.
    pub access: Access,
    /// What he sees then of all objects that he knows.
    pub view: View,
    /// Of each object that he knew before, by its number, the number there.
    pub moved: Sequence<u32>,
    /// By their numbers there, the present values of the objects that he may newly read; none of the others.
    pub values: Sequence<Option<Bits>>,
    /// The races that he is shown then.
    pub races: Sequence<Shared<ShownRace>>,
}

/// What an operator ordered of a user.
#[derive(Drop)]
pub enum OrderItem {
    /// His grants changed.
    Grant(Shared<GrantItem>),
    /// His open sessions ended.
    End,
}

/// What of an entry of the log goes to a user.
#[derive(Drop)]
pub struct Item {
    /// His own event.
    pub own_event: Option<OwnEvent>,
    /// What an operator ordered of him.
    pub order: Option<OrderItem>,
    /// The change of an object that he knows and may read or watch.
    pub change: Option<Change>,
    /// The time, in time units, if it is another than before.
    pub time: Option<u64>,
    /// Whether `$finish` was executed, if that is other than before.
    pub finished: Option<bool>,
    /// A race that he is shown.
    pub race: Option<Shared<ShownRace>>,
}

/// What of a log goes to a user: an entry of which nothing goes to him leaves no trace, and no reply is in it.
#[derive(Drop)]
pub struct Projection {
    /// By the numbers of the objects in his view, the values that he may read at the opening.
    pub values: Sequence<Option<Bits>>,
    /// What of the entries goes to him, in their order.
    pub items: Sequence<Item>,
}
