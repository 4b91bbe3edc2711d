// The bytes that what is asked and answered takes beside its place in a log.
ghost use Rattle.std.specs.Prelude.{◌≡◌, ◌+◌, ℕ, length};
ghost use Rattle.vp_answer.specs.Sizes.{item_bytes, line_bytes, list_bytes, name_bytes, no_texts, saturated};

use vp_notify::PolledNotice;
use vp_text::Text;
use vp_vpi::{ListedObject, RaceLine, VectorWord};

/// An item takes at most so many bytes, beside its texts.
pub(crate) const ITEM_BYTES: u64 = 96;

/// An item of a list.
pub(crate) trait Item {
    /// The bytes of its texts.
    ghost texts: { Self → ℕ };

    /// The bytes of its texts.
    fn text_bytes(&self) -> u64
        ensures { result ≡ texts self.now };
}

impl Item for VectorWord {
    ghost texts = { no_texts };

    fn text_bytes(&self) -> u64 {
        0
    }
}

impl Item for PolledNotice {
    ghost texts = { no_texts };

    fn text_bytes(&self) -> u64 {
        0
    }
}

impl Item for ListedObject {
    ghost texts = { name_bytes };

    fn text_bytes(&self) -> u64 {
        self.name.as_str().len() as u64
    }
}

impl Item for RaceLine {
    ghost texts = { line_bytes };

    fn text_bytes(&self) -> u64 {
        self.name.as_str().len() as u64
    }
}

impl Item for Text {
    ghost texts = { λ text. length text };

    fn text_bytes(&self) -> u64 {
        self.as_str().len() as u64
    }
}

/// So many bytes, and those of an item with so many bytes of texts.
fn with_item(bytes: u64, texts: u64) -> u64
    ensures { (n : ℕ) → bytes ≡ saturated n → result ≡ saturated (n + (item_bytes + texts)) }
{
    bytes.saturating_add(ITEM_BYTES).saturating_add(texts)
}

/// The bytes that the items of a list take.
pub(crate) fn list_bytes<T: Item>(items: &[T]) -> u64
    ensures { result ≡ saturated (list_bytes T.texts items.now) }
{
    let mut bytes = 0;
    for item in items {
        bytes = with_item(bytes, item.text_bytes());
    }
    bytes
}
