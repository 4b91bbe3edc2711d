ghost use Rattle.std.specs.Prelude.{◌≡◌, ◌<◌, ◌≤◌, ◌+◌, ◌*◌, ◌%◌, drop, length, take};
ghost use Rattle.std.specs.Arc.{arc_value};

use crate::chunks::{Chunk, Part, Parts};
use std::alloc::{AllocError, Global};
use std::marker::Model;
use std::sync::Arc;

/// At most 16 chunks of 64 items. A contract sees the list.
// With a name of its own, as blocks have, so that proofs of what holds one need to know of the items' type alone.
#[derive(Drop)]
pub(crate) struct Block<T: Copy + Drop> {
    chunks: Parts<T, Chunk<T>, 64>,
}

impl<T: Copy + Drop> Model for Block<T> {
    ghost use Rattle.std.specs.Prelude.{List};

    ghost Value = { List T };

    ghost view = { λ b. b.chunks };
}

impl<T: Copy + Drop> Clone for Block<T> {
    ghost is_clone = { λ c d. d ≡ c };

    fn clone(&self) -> Result<Block<T>, AllocError> {
        Ok(Block {
            chunks: self.chunks.clone()?,
        })
    }
}

impl<T: Copy + Drop> Part<T> for Block<T> {
    ghost items = { λ b. b };

    ghost can_make = { Unit {0} };

    ghost in_chunk = { λ place count. place % 64 + count ≤ 64 };

    ghost copied = { λ a b h. h };

    fn of_items(alloc: Global, list: &[T]) -> Result<Block<T>, AllocError> {
        Ok(Block {
            chunks: Parts::cut(alloc, list)?,
        })
    }

    fn set_items(&mut self, place: usize, list: &[T]) -> Result<(), AllocError> {
        self.chunks.set_items(place, list)
    }
}

impl<T: Copy + Drop> Block<T> {
    /// A chunk by its number.
    pub(crate) fn chunk(&self, number: usize) -> &Arc<Chunk<T>>
        requires { 64 * number < length self.now }
        ensures { arc_value result.now ≡ take 64 (drop (64 * number) self.now) }
    {
        self.chunks.part(number)
    }
}

/// At most 16 blocks of 1,024 items. A contract sees the list.
#[derive(Drop)]
pub(crate) struct Blocks<T: Copy + Drop> {
    blocks: Parts<T, Block<T>, 1024>,
}

impl<T: Copy + Drop> Model for Blocks<T> {
    ghost use Rattle.std.specs.Prelude.{List};

    ghost Value = { List T };

    ghost view = { λ b. b.blocks };
}

impl<T: Copy + Drop> Clone for Blocks<T> {
    ghost is_clone = { λ c d. d ≡ c };

    fn clone(&self) -> Result<Blocks<T>, AllocError> {
        Ok(Blocks {
            blocks: self.blocks.clone()?,
        })
    }
}

impl<T: Copy + Drop> Part<T> for Blocks<T> {
    ghost items = { λ b. b };

    ghost can_make = { Unit {0} };

    ghost in_chunk = { λ place count. (place % 1024 + count ≤ 1024)
        × (place % 1024 % 64 + count ≤ 64) };

    ghost copied = { λ a b h. h };

    fn of_items(alloc: Global, list: &[T]) -> Result<Blocks<T>, AllocError> {
        Ok(Blocks {
            blocks: Parts::cut(alloc, list)?,
        })
    }

    fn set_items(&mut self, place: usize, list: &[T]) -> Result<(), AllocError> {
        self.blocks.set_items(place, list)
    }
}

impl<T: Copy + Drop> Blocks<T> {
    /// A block by its number.
    pub(crate) fn block(&self, number: usize) -> &Block<T>
        requires { 1024 * number < length self.now }
        ensures { result.now ≡ take 1024 (drop (1024 * number) self.now) }
    {
        self.blocks.part(number)
    }
}
