ghost use Rattle.std.specs.Prelude.{⊤, ◌≡◌, [], ◌∷◌, codes, option_map};
ghost use Rattle.vp_pragma.specs.Access.{access_of, right_of};
ghost use Rattle.vp_pragma.specs.Rights.{set_of};

use bitflags::{Flag, Flags, bitflag_items};
use vp_text::first_part;

/// What a user may do with an object (docs/FORMATS.md, "Access strings").
#[derive(Clone, Copy, Debug, PartialEq, Eq)]
pub enum Right {
    /// To find it, and to read its name and kind.
    List,
    /// To read its value.
    Read,
    /// To be notified of its changes.
    Watch,
    /// To set its value.
    Put,
    /// To be shown its races.
    Race,
}

impl Right {
    ghost use Rattle.vp_pragma.specs.Rights.{name_of};

    /// The right's name in access strings and lines.
    pub fn name(self) -> &'static str
        ensures { result.now ≡ name_of self }
    {
        match self {
            Right::List => "list",
            Right::Read => "read",
            Right::Watch => "watch",
            Right::Put => "put",
            Right::Race => "race",
        }
    }
}

/// A set of rights.
#[derive(Clone, Copy, Debug, PartialEq, Eq)]
pub struct Rights(u8);

bitflag_items! {
    impl Rights: u8 {
        const LIST = 1;
        const READ = 2;
        const WATCH = 4;
        const PUT = 8;
        const RACE = 16;
    }
}

impl Flags for Rights {
    type Bits = u8;

    ghost exact = { ⊤ };

    ghost table = { (codes "LIST", 1) ∷ (codes "READ", 2) ∷ (codes "WATCH", 4)
        ∷ (codes "PUT", 8) ∷ (codes "RACE", 16) ∷ [] };

    ghost set_of = { λ rights. rights.0 };

    fn flags<'a>() -> &'a [Flag<Rights>] {
        Rights::FLAGS
    }

    fn bits(&self) -> u8 {
        self.0
    }

    fn from_bits_retain(bits: u8) -> Rights {
        Rights(bits)
    }
}

impl From<Right> for Rights {
    ghost use Rattle.vp_pragma.specs.Rights.{only};

    ghost from_gives = { λ right rights. set_of rights ≡ only right };

    fn from(right: Right) -> Rights {
        match right {
            Right::List => Rights::LIST,
            Right::Read => Rights::READ,
            Right::Watch => Rights::WATCH,
            Right::Put => Rights::PUT,
            Right::Race => Rights::RACE,
        }
    }
}

impl Rights {
    ghost use Rattle.vp_pragma.specs.Rights.{both, either, everything, has, nothing};

    /// No right.
    pub fn none() -> Rights
        ensures { set_of result ≡ nothing }
    {
        Rights::empty()
    }

    /// All five rights.
    pub fn every() -> Rights
        ensures { set_of result ≡ everything }
    {
        Rights(0b1_1111)
    }

    /// The right is among these.
    pub fn has(self, right: Right) -> bool
        ensures { result ≡ has right (set_of self) }
    {
        match right {
            Right::List => self.contains(Rights::LIST),
            Right::Read => self.contains(Rights::READ),
            Right::Watch => self.contains(Rights::WATCH),
            Right::Put => self.contains(Rights::PUT),
            Right::Race => self.contains(Rights::RACE),
        }
    }

    /// What is among these rights and among the others.
    pub fn both(self, other: Rights) -> Rights
        ensures { set_of result ≡ both (set_of self) (set_of other) }
    {
        Rights(self.0 & other.0)
    }

    /// What is among these rights or among the others.
    pub fn either(self, other: Rights) -> Rights
        ensures { set_of result ≡ either (set_of self) (set_of other) }
    {
        Rights(self.0 | other.0)
    }
}

/// The rights that an access string names: names of rights joined by `+`. Every set that is named contains list.
pub fn access(text: &str) -> Option<Rights>
    ensures { option_map set_of result ≡ access_of text.now }
{
    let mut rights = Rights::none();
    let mut rest = text;
    loop {
        let (name, remainder) = first_part(rest, '+');
        rights = rights.either(Rights::from(right_named(name)?));
        match remainder {
            Some(further) => rest = further,
            None => return Some(rights.either(Rights::LIST)),
        }
    }
}

/// The right of a name.
fn right_named(name: &str) -> Option<Right>
    ensures { result ≡ right_of name.now }
{
    match name {
        "list" => Some(Right::List),
        "read" => Some(Right::Read),
        "watch" => Some(Right::Watch),
        "put" => Some(Right::Put),
        "race" => Some(Right::Race),
        _ => None,
    }
}
