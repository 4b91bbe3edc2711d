ghost use Rattle.std.specs.Prelude.{◌≡◌, ◌<◌, ℕ, [], false, length, Some, None, slice_index, slice_index_or, IfOk, OnOk};
ghost use Rattle.std.specs.List.{count_by};
ghost use Rattle.vp_modules.specs.Definitions.{is_member, with_number, with_numbers};

use std::alloc::{AllocError, Global};

/// Modules by their numbers, each once, in the order in which they were reached.
#[derive(Drop)]
pub struct Reached {
    pub order: Vec<usize>,
    pub seen: Vec<bool>,
    ghost marked: { (k : ℕ) → slice_index_or seen.items k false ≡ is_member k order.items },
    ghost counted: { length order.items ≡ count_by (λ b. b) seen.items },
}

impl Reached {
    /// None, of so many modules. Takes memory.
    pub fn new(alloc: Global, count: usize) -> Result<Reached, AllocError>
        ensures order { IfOk result (λ reached. reached.order.items ≡ []) }
        ensures count { IfOk result (λ reached. length reached.seen.items ≡ count) }
    {
        let seen = vec![in alloc; false; count]?;
        Ok(Reached {
            order: Vec::new(alloc),
            seen,
        })
    }

    /// The module at a place.
    pub fn at(&self, place: usize) -> usize
        requires { place < length self.now.order.items }
        ensures number { result ≡ slice_index self.now.order.items place }
        ensures known { result < length self.now.seen.items }
    {
        self.order[place]
    }

    /// Adds a module, where it is new. Takes memory.
    pub fn add(&mut self, number: usize) -> Result<(), AllocError>
        requires { number < length self.old.seen.items }
        ensures order { OnOk result (self.new.order.items
            ≡ with_number self.old.order.items (Some number)) }
        ensures count { length self.new.seen.items ≡ length self.old.seen.items }
    {
        if !self.seen[number] {
            self.order.push(number)?;
            self.seen[number] = true;
        }
        Ok(())
    }

    /// Adds the modules that items instantiate, where they are new. Takes memory.
    pub fn add_all(&mut self, definitions: &[Option<usize>]) -> Result<(), AllocError>
        requires { (i k : ℕ) → slice_index_or definitions.now i None ≡ Some k → k
            < length self.old.seen.items }
        ensures order { OnOk result (self.new.order.items
            ≡ with_numbers self.old.order.items definitions.now) }
        ensures count { length self.new.seen.items ≡ length self.old.seen.items }
    {
        for definition in definitions {
            if let Some(number) = *definition {
                self.add(number)?;
            }
        }
        Ok(())
    }
}
