//! A history that its owner alone lengthens, and fronts of it. They have no bytes, and their functions do nothing at run time.
mod history;

pub use history::{Front, History, Names, Shows};
