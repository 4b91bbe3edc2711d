ghost use Rattle.std.specs.Prelude.{◌≡◌, not, [], ◌∷◌, ◌++◌, option_map, position, slice_get, slice_index_or, string_bytes, IfOk, if◌then◌else◌};
ghost use Rattle.std.specs.Str.{bytes_eq};
ghost use Rattle.vp_modules.specs.Items.{is_among};

use indexmap::IndexSet;
use std::alloc::{AllocFailed, Global};
use std::marker::Model;

/// Names, each once, in the order in which they were added. A contract sees their list.
#[derive(Drop)]
pub struct Names {
    names: IndexSet<String>,
}

impl Model for Names {
    ghost use Rattle.std.specs.Prelude.{ℕ, List, map, string_bytes};

    ghost Value = { List (List ℕ) };

    ghost view = { λ n. map string_bytes n.names.keys };
}

impl Names {
    /// No names.
    pub fn new(alloc: Global) -> Names
        ensures { result ≡ [] }
    {
        Names {
            names: IndexSet::new(alloc),
        }
    }

    /// Adds a name after the others; false, and nothing is changed, where it is there already. Takes memory.
    pub fn add(&mut self, name: String) -> Result<bool, AllocFailed<String>>
        ensures added { IfOk result (λ added. added ≡ not (is_among self.old (string_bytes name))) }
        ensures names { IfOk result (λ added. self.new
            ≡ (if added then self.old ++ string_bytes name ∷ [] else self.old)) }
    {
        self.names.insert(name)
    }

    /// The index of a name.
    pub fn find(&self, name: &str) -> Option<usize>
        ensures { result ≡ position (bytes_eq name.now) self.now }
    {
        self.names.get_index_of(name)
    }

    /// The name of an index; empty past the end.
    pub fn at(&self, index: usize) -> &str
        ensures { result.now ≡ slice_index_or self.now index [] }
    {
        match self.names.get_index(index) {
            Some(name) => name.as_str(),
            None => "",
        }
    }

    /// The name of an index, if there is one.
    pub fn get(&self, index: usize) -> Option<&str>
        ensures { option_map (λ n. n.now) result ≡ slice_get self.now index }
    {
        match self.names.get_index(index) {
            Some(name) => Some(name.as_str()),
            None => None,
        }
    }

    /// A name is among these.
    pub fn has(&self, name: &str) -> bool
        ensures { result ≡ is_among self.now name.now }
    {
        self.names.contains(name)
    }
}
