ghost use Rattle.std.specs.Prelude.{◌≡◌, ℕ, ◌+◌, ◌≤◌, ◌^◌, ◌-◌, ◌++◌, [], length, max, replicate, slice_index_or, slice_set, take, OnOk};
ghost use Rattle.std.specs.List.{sum};

use crate::counts::{count_at, set_count};
use std::alloc::{AllocError, Global};
use std::marker::Model;

/// So many items are a block.
pub const BLOCK: usize = 16;

/// There are at most so many blocks.
pub const MOST_BLOCKS: usize = 1 << 40;

/// A count for each block of items, and the sum for each block of counts. A contract sees the counts.
#[derive(Drop)]
pub struct BlockCounts {
    counts: Vec<usize>,
    sums: Vec<usize>,
}

impl Model for BlockCounts {
    ghost use Rattle.std.specs.Prelude.{List, ℕ};
    ghost use Rattle.vp_active_events.specs.Blocks.{AreCountsSummed};

    ghost Value = { List ℕ };

    ghost view = { λ b. b.counts.items };

    ghost invariant = { λ b. AreCountsSummed b.counts.items b.sums.items };
}

/// The place from one on at which the counts so far and so many more come to the number, and how many more.
fn passed(counts: &[usize], start: usize, number: usize) -> (usize, usize)
    ensures sum { sum (take result.0 counts.now) + result.1 ≡ sum (take start counts.now) + number }
    ensures within { result.0 ≤ length counts.now }
{
    let mut left = number;
    for place in start..counts.len() {
        let count = counts[place];
        if left < count {
            return (place, left);
        }
        left -= count;
    }
    (counts.len(), left)
}

/// More counts of 0, where there are fewer than so many.
fn fill(counts: &mut Vec<usize>, len: usize) -> Result<(), AllocError>
    ensures items { counts.new.items ≡ counts.old.items
        ++ replicate (length counts.new.items - length counts.old.items) 0 }
    ensures len { OnOk result (len ≤ length counts.new.items) }
    ensures no_less { length counts.old.items ≤ length counts.new.items }
    ensures no_more { length counts.new.items ≤ max len (length counts.old.items) }
{
    if len <= counts.len() {
        return Ok(());
    }
    counts.resize(len, 0)
}

impl BlockCounts {
    /// No block.
    pub fn new(alloc: Global) -> BlockCounts
        ensures { result ≡ [] }
    {
        BlockCounts {
            counts: Vec::new(alloc),
            sums: Vec::new(alloc),
        }
    }

    /// The count of a block; 0 where there is none.
    #[inline(always)]
    pub fn at(&self, block: usize) -> usize
        ensures { result ≡ slice_index_or self.now block 0 }
    {
        count_at(&self.counts, block)
    }

    /// The count of a block becomes another, if there is one.
    #[inline(always)]
    pub fn set(&mut self, block: usize, count: usize)
        requires { count ≤ 32 }
        ensures { self.new ≡ slice_set self.old block count }
    {
        if block >= self.counts.len() {
            return;
        }
        let sum = count_at(&self.sums, block / BLOCK) - count_at(&self.counts, block);
        set_count(&mut self.sums, block / BLOCK, sum + count);
        set_count(&mut self.counts, block, count);
    }

    /// Makes so many blocks, of which the new ones count 0. There are no fewer than before.
    pub fn grow(&mut self, blocks: usize) -> Result<(), AllocError>
        requires { blocks ≤ 2 ^ 40 }
        ensures len { OnOk result (blocks ≤ length self.new) }
        ensures no_less { length self.old ≤ length self.new }
        ensures few { length self.old ≤ 2 ^ 40 → length self.new ≤ 2 ^ 40 }
        ensures counts { (n : ℕ) → slice_index_or self.new n 0 ≡ slice_index_or self.old n 0 }
    {
        fill(&mut self.sums, blocks.div_ceil(BLOCK))?;
        fill(&mut self.counts, blocks)
    }

    /// The block in which the item of a number is counted, and its number in the items from there on.
    #[inline(always)]
    pub fn find(&self, number: usize) -> (usize, usize)
        ensures sum { sum (take result.0 self.now) + result.1 ≡ number }
        ensures within { result.0 ≤ length self.now }
    {
        let (group, left) = passed(&self.sums, 0, number);
        passed(&self.counts, group * BLOCK, left)
    }
}
