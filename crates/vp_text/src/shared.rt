ghost use Rattle.std.specs.Prelude.{◌≡◌, [], IfOk};

use crate::text::Text;
use std::alloc::{AllocError, Global};
use std::marker::Model;
use std::sync::Arc;

/// A text that several hold at once: one holder more costs a count and no copy. The empty text takes no memory. A contract
/// sees its bytes, in UTF-8.
#[derive(Drop)]
pub struct SharedText {
    /// None for the empty text.
    text: Option<Arc<Text>>,
}

impl Model for SharedText {
    ghost use Rattle.std.specs.Prelude.{ℕ, List, []};
    ghost use Rattle.std.specs.Option.{option_map_or};
    ghost use Rattle.std.specs.Arc.{arc_value};

    ghost Value = { List ℕ };

    ghost view = { λ t. option_map_or (λ held. arc_value held) t.text [] };
}

impl SharedText {
    /// The empty text.
    pub fn empty() -> SharedText
        ensures { result ≡ [] }
    {
        SharedText { text: None }
    }

    /// A text, which is moved in. Takes memory.
    pub fn new(alloc: Global, text: Text) -> Result<SharedText, AllocError>
        ensures { IfOk result (λ t. t ≡ text) }
    {
        match Arc::new(alloc, text) {
            Ok(held) => Ok(SharedText { text: Some(held) }),
            Err(_) => Err(AllocError),
        }
    }

    /// The same text for one holder more; or an error where they can't be counted.
    pub fn try_clone(&self) -> Result<SharedText, AllocError>
        ensures { IfOk result (λ t. t ≡ self.now) }
    {
        match &self.text {
            Some(held) => Ok(SharedText {
                text: Some(Arc::try_clone(held)?),
            }),
            None => Ok(SharedText::empty()),
        }
    }

    /// The text, borrowed.
    pub fn as_str(&self) -> &str
        ensures { result.now ≡ self.now }
    {
        match &self.text {
            Some(held) => held.as_str(),
            None => "",
        }
    }
}
