//! The names of a text, and whether its modules stand right: what each module declares and what a name stands for, whether each use of
//! one is right, instances, connections and drivers, and which modules are top modules (IEEE Std 1364-2005, clause 12).
#![tactic(auto)]

mod checks;
mod connections;
mod definitions;
mod drivers;
mod error;
mod instances;
mod items;
mod lookup;
mod names;
mod operands;
mod reachable;
mod recursion;
mod resolved;
mod tables;

pub use connections::{Scope, bad_connection, definition_of, port_of};
pub use definitions::{definitions_of, tops_of};
pub use error::ElabError;
pub use items::{
    connections_of, expressions_of, is_input, items_of, name_of, place_of, ports_of, statements_of,
    terms_of,
};
pub use lookup::module_named;
pub use names::Names;
pub use operands::{bad_target, undeclared};
pub use resolved::{Resolved, check_modules};
pub use tables::{Tables, tables_of};
