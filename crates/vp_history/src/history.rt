ghost use Rattle.std.specs.Prelude.{◌≡◌, ℕ, List, [], ◌∷◌, ◌++◌};
ghost use mathlib.Core.List.{IsPrefix};
ghost use base.Stored.{coded_list};
ghost use denote.Sharing.{said};
ghost use Rattle.vp_history.specs.Kept.{lengthens, reached};

use std::marker::{Model, PhantomData};

/// Says which entry a value stands for.
pub trait Names<X, E> {
    ghost entry: { X → E };
}

/// Says which list of entries a value shows.
pub trait Shows<X, E> {
    ghost entries: { X → List E };
}

/// The right to lengthen a history. A contract sees the history's name and its entries.
pub struct History<E> {
    marker: PhantomData<E>,
    pub ghost name: { ℕ },
    pub ghost entries: { List E } by { coded_list E.code },
}

impl<E> Model for History<E> {
    ghost also_owns = { λ h. lengthens E.row.coded.code h.name h.entries };
}

/// The first entries of a history, as they were once and stay for good.
pub struct Front<E> {
    marker: PhantomData<E>,
    pub ghost name: { ℕ },
    pub ghost entries: { List E } by { coded_list E.code },
}

impl<E> Model for Front<E> {
    ghost also_owns = { λ f. reached E.row.coded.code f.name f.entries };

    ghost also_shares = { λ f _ κ. said (reached E.row.coded.code f.name f.entries) κ };
}

impl<E> History<E> {
    /// A history without an entry.
    pub fn new() -> History<E>
        ensures { result.entries ≡ [] }
    {
        History {
            marker: PhantomData,
        }
    }

    /// Adds the entry that a value stands for.
    pub fn push<X, M: Names<X, E>>(&mut self, _about: &X)
        ensures { (self.new.name ≡ self.old.name)
            × (self.new.entries ≡ self.old.entries ++ M.entry _about.now ∷ []) }
    {}

    /// Goes on to the entries that a value shows, of which those of the history are the first.
    pub fn advance<X, M: Shows<X, E>>(&mut self, _about: &X)
        requires { IsPrefix self.old.entries (M.entries _about.now) }
        ensures { (self.new.name ≡ self.old.name) × (self.new.entries ≡ M.entries _about.now) }
    {}

    /// The history as it is now.
    pub fn front(&mut self) -> Front<E>
        ensures { (self.new ≡ self.old) × (result.name ≡ self.old.name)
            × (result.entries ≡ self.old.entries) }
    {
        Front {
            marker: PhantomData,
        }
    }

    /// Shows that a front of this history begins it.
    pub fn compare(&mut self, _front: &Front<E>)
        requires { _front.now.name ≡ self.old.name }
        ensures { (self.new ≡ self.old) × IsPrefix _front.now.entries self.old.entries }
    {}
}

impl<E> Drop for History<E> {
    fn drop(self) {
        let Self { marker: _ } = self;
    }
}

impl<E> Drop for Front<E> {
    fn drop(self) {
        let Self { marker: _ } = self;
    }
}

unsafe impl<E> Send for History<E> {}

unsafe impl<E> Send for Front<E> {}
