ghost use Rattle.std.specs.Prelude.{◌≡◌};
ghost use Rattle.vp_pragma.specs.Rights.{set_of};
ghost use Rattle.vp_policy.specs.File.{opened_by};

use crate::reading::opened_by;
use std::marker::Model;
use vp_pragma::{Right, Rights};
use vp_text::Same;

/// What a grant gives. A contract sees the set of its rights.
#[derive(Drop)]
pub struct Access {
    rights: Rights,
}

impl Model for Access {
    ghost use Rattle.vp_pragma.specs.Rights.{RightSet, set_of};

    ghost Value = { RightSet };

    ghost view = { λ a. set_of a.rights };
}

impl Access {
    /// What a text opens: nothing if it is empty, else the rights of an access string; none where it is neither.
    pub fn of_text(names: &str) -> Option<Access>
        ensures { result ≡ opened_by names.now }
    {
        let rights = opened_by(names)?;
        Some(Access { rights })
    }

    /// The same once more.
    pub fn copy(&self) -> Access
        ensures { result ≡ self.now }
    {
        Access {
            rights: self.rights,
        }
    }

    /// Its rights.
    pub fn rights(&self) -> Rights
        ensures { set_of result ≡ self.now }
    {
        self.rights
    }
}

impl Same for Access {
    fn is_same(&self, other: &Access) -> bool {
        let (first, second) = (self.rights, other.rights);
        first.has(Right::List) == second.has(Right::List)
            && first.has(Right::Read) == second.has(Right::Read)
            && first.has(Right::Watch) == second.has(Right::Watch)
            && first.has(Right::Put) == second.has(Right::Put)
            && first.has(Right::Race) == second.has(Right::Race)
    }
}
