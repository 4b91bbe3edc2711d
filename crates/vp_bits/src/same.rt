use crate::bits::Bits;
use vp_text::Same;

impl Same for Bits {
    fn is_same(&self, other: &Bits) -> bool {
        *self == *other
    }
}
