ghost use Rattle.std.specs.Prelude.{◌≡◌, IfOk};

use std::alloc::{AllocError, Global};
use vp_text::{Sequence, Text};

/// A number that is asked of an object (clause 26.6).
#[derive(Clone, Copy, Debug, PartialEq, Eq)]
pub enum NumberProperty {
    /// How many bits its value has.
    Size,
    /// The line of its declaration, from 1.
    Line,
}

/// A text that is asked of an object (clause 26.6).
#[derive(Clone, Copy, Debug, PartialEq, Eq)]
pub enum TextProperty {
    /// The name of its type, such as `vpiReg`.
    Type,
    /// Its name.
    Name,
    /// The names of its path, joined by `.`.
    FullName,
    /// Of a module, the name of its definition.
    DefinitionName,
}

/// A word of 32 bits of a vector's value, as in `s_vpi_vecval` (clause 27).
#[derive(Clone, Copy, Debug, PartialEq, Eq)]
pub struct VectorWord {
    pub aval: u32,
    pub bval: u32,
}

/// The value of a put.
#[derive(Drop)]
pub enum PutValue {
    /// By its digits, greatest bit first.
    Digits(Text),
    /// By its words, least significant first.
    Words(Sequence<VectorWord>),
}

impl PutValue {
    /// The same value once more. Takes memory.
    pub fn try_clone(&self, alloc: Global) -> Result<PutValue, AllocError>
        ensures { IfOk result (λ value. value ≡ self.now) }
    {
        match self {
            PutValue::Digits(digits) => Ok(PutValue::Digits(Text::copy(alloc, digits.as_str())?)),
            PutValue::Words(words) => {
                let copied = Vec::from_slice(alloc, words.as_slice())?;
                Ok(PutValue::Words(Sequence::from_vec(copied)))
            }
        }
    }
}
