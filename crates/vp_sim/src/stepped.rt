use vp_elab::ObjectId;

/// What a step did.
#[derive(Clone, Copy)]
pub struct Stepped {
    /// The net or reg that has another value after it, if there is one: a step changes one at most. `Sim::change_in` has the value.
    pub changed: Option<ObjectId>,
    /// The object of the process whose event it took; of a connection its port.
    pub source: ObjectId,
}
