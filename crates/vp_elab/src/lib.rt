//! The design of a source: its objects, in preorder, with their names and envelopes.
#![tactic(auto)]

mod children;
mod design;
mod elaboration;
mod first_instances;
mod object;
mod objects;
mod scope;
mod sizes;
mod step_rights;

pub use design::Design;
pub use elaboration::elaborate;
pub use object::{Kind, OBJECT_LIMIT, Object, ObjectId, range_width};
pub use step_rights::StepRights;
pub use vp_modules::ElabError;
