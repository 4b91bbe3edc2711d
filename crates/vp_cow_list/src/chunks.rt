ghost use Rattle.std.specs.Prelude.{◌≡◌, ◌+◌, ◌-◌, ◌<◌, ◌≤◌, ◌*◌, ◌%◌, ◌++◌, ℕ, List, Some, drop, length, min, slice_get, take, true, IfOk, OnErr, OnOk};
ghost use Rattle.std.specs.Arc.{arc_value};
ghost use Rattle.vp_cow_list.specs.Chunks.{with_items};
ghost use Rattle.vp_cow_list.specs.Exchanges.{AreExchanges, Fits, exchanged_in, taken_in};

use crate::blocks::{Block, Blocks};
use std::alloc::{AllocError, Global};
use std::marker::{Model, PhantomData};
use std::sync::Arc;
use vp_text::{Same, are_same};

/// What stands for a list, and of which a longer list can be made.
pub trait Part<T>: Clone + Drop {
    /// The list.
    ghost items: { Self → List T };

    /// What its maker needs.
    ghost can_make: { Type 0 };

    /// So many items from a place on stand in one chunk, if they stand in the list.
    ghost in_chunk: { ℕ → ℕ → Type 0 };

    /// A part that stands for some items. Takes memory.
    fn of_items(alloc: Global, list: &[T]) -> Result<Self, AllocError>
        requires { can_make }
        ensures { IfOk result (λ p. items p ≡ list.now) };

    /// Exchanges the items from a place on, which stand in one chunk, for others. May take memory, and changes nothing if
    /// there is none.
    fn set_items(&mut self, place: usize, list: &[T]) -> Result<(), AllocError>
        requires chunk { in_chunk place (length list.now) }
        requires some { 0 < length list.now }
        requires there { place + length list.now ≤ length (items self.old) }
        ensures set { OnOk result (items self.new ≡ with_items (items self.old) place list.now) }
        ensures unchanged { OnErr result (items self.new ≡ items self.old) };

    /// A clone stands for the same list.
    ghost copied: { (a b : Self) → Self.is_clone a b → items b ≡ items a };
}

/// Some items, which are copied where they are cloned. A contract sees its list.
#[derive(Drop)]
pub struct Chunk<T: Copy + Drop> {
    alloc: Global,
    items: Vec<T>,
}

impl<T: Copy + Drop> Model for Chunk<T> {
    ghost use Rattle.std.specs.Prelude.{List};

    ghost Value = { List T };

    ghost view = { λ c. c.items.items };
}

impl<T: Copy + Drop> Chunk<T> {
    /// How many items there are.
    pub fn len(&self) -> usize
        ensures { result ≡ length self.now }
    {
        self.items.len()
    }

    /// The item at a place, if there is one.
    pub fn get(&self, place: usize) -> Option<T>
        ensures { result ≡ slice_get self.now place }
    {
        self.items.get(place).copied()
    }
}

impl<T: Copy + Drop> Clone for Chunk<T> {
    ghost is_clone = { λ c d. d ≡ c };

    fn clone(&self) -> Result<Chunk<T>, AllocError> {
        Ok(Chunk {
            alloc: self.alloc,
            items: Vec::from_slice(self.alloc, self.items.as_slice())?,
        })
    }
}

impl<T: Copy + Drop> Part<T> for Chunk<T> {
    ghost items = { λ c. c };

    ghost can_make = { Unit {0} };

    ghost in_chunk = { λ place count. Unit {0} };

    ghost copied = { λ a b h. h };

    fn of_items(alloc: Global, list: &[T]) -> Result<Chunk<T>, AllocError> {
        Ok(Chunk {
            alloc,
            items: Vec::from_slice(alloc, list)?,
        })
    }

    fn set_items(&mut self, place: usize, list: &[T]) -> Result<(), AllocError> {
        self.items[place..place + list.len()].copy_from_slice(list);
        Ok(())
    }
}

/// A list in parts of SIZE items, of which the last may have fewer; clones share the parts. A contract sees the list.
#[derive(Drop)]
pub struct Parts<T: Copy + Drop, P: Part<T>, const SIZE: usize> {
    alloc: Global,
    parts: Vec<Arc<P>>,
    kind: PhantomData<T>,
}

impl<T: Copy + Drop, P: Part<T>, const SIZE: usize> Model for Parts<T, P, SIZE> {
    ghost use Rattle.std.specs.Prelude.{List, ◌<◌, map};
    ghost use Rattle.std.specs.Arc.{arc_value};
    ghost use Rattle.vp_text.specs.Lists.{joined};
    ghost use Rattle.vp_cow_list.specs.Chunks.{AreChunks};

    ghost Value = { List T };

    ghost view = { λ s. joined (map (λ p. P.items (arc_value p)) s.parts.items) };

    ghost invariant = { λ s. (0 < SIZE)
        × AreChunks SIZE (map (λ p. P.items (arc_value p)) s.parts.items) };
}

impl<T: Copy + Drop, P: Part<T>, const SIZE: usize> Parts<T, P, SIZE> {
    /// Exchanges the items from a place on, which stand in one chunk, for others. A part that is shared is copied first, and
    /// where there is no memory for that nothing changes.
    fn set_within(&mut self, place: usize, list: &[T]) -> Result<(), AllocError>
        requires chunk { (place % SIZE + length list.now ≤ SIZE)
            × P.in_chunk (place % SIZE) (length list.now) }
        requires some { 0 < length list.now }
        requires there { place + length list.now ≤ length self.old }
        ensures set { OnOk result (self.new ≡ with_items self.old place list.now) }
        ensures unchanged { OnErr result (self.new ≡ self.old) }
    {
        let _ = &self.parts;
        let part = Arc::make_mut(&mut self.parts[place / SIZE])?;
        part.set_items(place % SIZE, list)
    }

    /// Appends a part of some items to full parts; where there is no memory nothing changes.
    fn add(&mut self, list: &[T]) -> Result<(), AllocError>
        requires full { length self.old % SIZE ≡ 0 }
        requires some { 0 < length list.now }
        requires most { length list.now ≤ SIZE }
        requires can_make { P.can_make }
        ensures added { OnOk result (self.new ≡ self.old ++ list.now) }
        ensures kept { OnErr result (self.new ≡ self.old) }
    {
        let made = P::of_items(self.alloc, list)?;
        let part = Arc::new(self.alloc, made)?;
        self.parts.push(part)?;
        Ok(())
    }

    /// The parts of a list. Takes memory.
    pub fn cut(alloc: Global, list: &[T]) -> Result<Parts<T, P, SIZE>, AllocError>
        requires size { 0 < SIZE }
        requires can_make { P.can_make }
        ensures { IfOk result (λ s. s ≡ list.now) }
    {
        let mut parts = Parts {
            alloc,
            parts: Vec::new(alloc),
            kind: PhantomData,
        };
        let full = list.len() / SIZE;
        for number in 0..full {
            let start = number * SIZE;
            parts.add(&list[start..start + SIZE])?;
        }
        let start = full * SIZE;
        if start < list.len() {
            parts.add(&list[start..])?;
        }
        Ok(parts)
    }

    /// A part of the list by its number.
    pub fn part(&self, number: usize) -> &Arc<P>
        requires { SIZE * number < length self.now }
        ensures { P.items (arc_value result.now) ≡ take SIZE (drop (SIZE * number) self.now) }
    {
        &self.parts[number]
    }
}

impl<T: Copy + Drop, P: Part<T>, const SIZE: usize> Clone for Parts<T, P, SIZE> {
    ghost is_clone = { λ c d. d ≡ c };

    fn clone(&self) -> Result<Parts<T, P, SIZE>, AllocError> {
        let mut parts = Vec::with_capacity(self.alloc, self.parts.len())?;
        for part in &self.parts {
            parts.push(Arc::try_clone(part)?)?;
        }
        Ok(Parts {
            alloc: self.alloc,
            parts,
            kind: PhantomData,
        })
    }
}

impl<T: Copy + Drop, P: Part<T>, const SIZE: usize> Part<T> for Parts<T, P, SIZE> {
    ghost items = { λ s. s };

    ghost can_make = { (0 < SIZE) × P.can_make };

    ghost in_chunk = { λ place count. (place % SIZE + count ≤ SIZE)
        × P.in_chunk (place % SIZE) count };

    ghost copied = { λ a b h. h };

    fn of_items(alloc: Global, list: &[T]) -> Result<Parts<T, P, SIZE>, AllocError> {
        Parts::cut(alloc, list)
    }

    fn set_items(&mut self, place: usize, list: &[T]) -> Result<(), AllocError> {
        self.set_within(place, list)
    }
}

/// A chunk that stands in place of the base's chunk of a number.
#[derive(Drop)]
struct Exchange<T: Copy + Drop> {
    number: usize,
    chunk: Arc<Chunk<T>>,
}

impl<T: Copy + Drop> Model for Exchange<T> {
    ghost use Rattle.std.specs.Arc.{arc_value};
    ghost use Rattle.std.specs.Prelude.{ℕ, List};

    ghost Value = { ℕ × List T };

    ghost view = { λ e. (e.number, arc_value e.chunk) };
}

/// A list in chunks of 64 items that its copies share: a copy costs at most five counts. At most four chunks are exchanged for those of
/// the base, so that to write one of these copies no more than itself; else one of them is taken into the base first, with the pointers to
/// 16 chunks and to 16 times 16 of them, and those to all of these. A contract sees its items, in order.
#[derive(Drop)]
pub(crate) struct ChunkedList<T: Copy + Drop> {
    alloc: Global,
    len: usize,
    base: Arc<Parts<T, Blocks<T>, 16384>>,
    /// Each at the rest of its chunk's number by 4, so that it is found at once.
    exchanges: [Option<Exchange<T>>; 4],
}

impl<T: Copy + Drop> Model for ChunkedList<T> {
    ghost use Rattle.std.specs.Arc.{arc_value};
    ghost use Rattle.std.specs.Prelude.{◌≡◌, List, length};
    ghost use Rattle.vp_cow_list.specs.Exchanges.{exchanged_in, AreExchanges};

    ghost Value = { List T };

    ghost view = { λ s. exchanged_in (arc_value s.base) s.exchanges };

    ghost invariant = { λ s. (s.len ≡ length (arc_value s.base)) × (length s.exchanges ≡ 4)
        × AreExchanges s.len s.exchanges };
}

impl<T: Copy + Drop> ChunkedList<T> {
    /// The list of a slice's items. Takes memory.
    #[tactic(auto, using(crate::specs::laws::Exchanges::none_exchanged))]
    pub fn from_slice(alloc: Global, list: &[T]) -> Result<ChunkedList<T>, AllocError>
        ensures { IfOk result (λ s. s ≡ list.now) }
    {
        Ok(ChunkedList {
            alloc,
            len: list.len(),
            base: Arc::new(alloc, Parts::cut(alloc, list)?)?,
            exchanges: [None, None, None, None],
        })
    }

    /// How many items there are.
    #[tactic(auto, using(crate::specs::laws::Exchanges::length_exchanged))]
    pub fn len(&self) -> usize
        ensures { result ≡ length self.now }
    {
        self.len
    }

    /// The item at a place, if there is one.
    #[tactic(auto, using(crate::specs::laws::Exchanges::get_in_chunk))]
    pub fn get(&self, place: usize) -> Option<T>
        ensures { result ≡ slice_get self.now place }
    {
        if place >= self.len() {
            return None;
        }
        self.chunk(place / 64).get(place % 64)
    }

    /// Exchanges a chunk of 64 items, or fewer at the end, for others. Another that stands at its place is taken into the base first, and
    /// where there is no memory nothing changes.
    pub(crate) fn set_chunk(&mut self, number: usize, list: &[T]) -> Result<(), AllocError>
        requires there { 64 * number < length self.old }
        requires whole { length list.now ≡ min (length self.old - 64 * number) 64 }
        ensures set { OnOk result (self.new ≡ with_items self.old (64 * number) list.now) }
        ensures unchanged { OnErr result (self.new ≡ self.old) }
    {
        let _len = self.len;
        let chunk = Arc::new(self.alloc, Chunk::of_items(self.alloc, list)?)?;
        put(&mut self.base, &mut self.exchanges, number, chunk)
    }

    /// The items, one by one. Takes memory for all of them.
    #[tactic(auto, using(crate::specs::laws::Copies::chunk_more, crate::specs::laws::Copies::chunk_within, crate::specs::laws::Copies::all_same))]
    pub fn to_vec(&self, alloc: Global) -> Result<Vec<T>, AllocError>
        ensures { IfOk result (λ v. v.items ≡ self.now) }
    {
        let mut items = Vec::with_capacity(alloc, self.len())?;
        for number in 0..self.len().div_ceil(64) {
            items.extend_from_slice(self.chunk(number).items.as_slice())?;
        }
        Ok(items)
    }

    /// The chunk of 64 items, or fewer at the end, by its number: those from 64 times the number on.
    pub fn chunk(&self, number: usize) -> &Arc<Chunk<T>>
        requires { 64 * number < length self.now }
        ensures { arc_value result.now ≡ take 64 (drop (64 * number) self.now) }
    {
        if let Some(exchange) = &self.exchanges[number % 4] {
            if exchange.number == number {
                return &exchange.chunk;
            }
        }
        base_chunk(&self.base, number)
    }
}

impl<T: Copy + Drop> Clone for ChunkedList<T> {
    ghost is_clone = { λ c d. d ≡ c };

    fn clone(&self) -> Result<ChunkedList<T>, AllocError> {
        let [first, second, third, fourth] = &self.exchanges;
        Ok(ChunkedList {
            alloc: self.alloc,
            len: self.len,
            base: Arc::try_clone(&self.base)?,
            exchanges: [share(first)?, share(second)?, share(third)?, share(fourth)?],
        })
    }
}

/// The same exchange for one holder more, if there is one.
fn share<T: Copy + Drop>(exchange: &Option<Exchange<T>>) -> Result<Option<Exchange<T>>, AllocError>
    ensures { IfOk result (λ e. e ≡ exchange.now) }
{
    match exchange {
        Some(held) => Ok(Some(Exchange {
            number: held.number,
            chunk: Arc::try_clone(&held.chunk)?,
        })),
        None => Ok(None),
    }
}

/// Exchanges a chunk of the base; another that stands at its place is taken into the base first.
fn put<T: Copy + Drop>(
    base: &mut Arc<Parts<T, Blocks<T>, 16384>>,
    exchanges: &mut [Option<Exchange<T>>; 4],
    number: usize,
    chunk: Arc<Chunk<T>>,
) -> Result<(), AllocError>
    requires size { length (arc_value base.old) < 18446744073709551616 }
    requires four { length exchanges.old ≡ 4 }
    requires fit { AreExchanges (length (arc_value base.old)) exchanges.old }
    requires there { 64 * number < length (arc_value base.old) }
    requires whole { length (arc_value chunk)
        ≡ min (length (arc_value base.old) - 64 * number) 64 }
    ensures set { OnOk result (exchanged_in (arc_value base.new) exchanges.new
        ≡ with_items (exchanged_in (arc_value base.old) exchanges.old) (64 * number)
        (arc_value chunk)) }
    ensures base { OnErr result (arc_value base.new ≡ arc_value base.old) }
    ensures kept { OnErr result (exchanges.new ≡ exchanges.old) }
    ensures length { length (arc_value base.new) ≡ length (arc_value base.old) }
    ensures fit { AreExchanges (length (arc_value base.old)) exchanges.new }
    ensures four { length exchanges.new ≡ 4 }
{
    let place = number % 4;
    make_room(base, &exchanges[place], number)?;
    exchanges[place] = Some(Exchange { number, chunk });
    Ok(())
}

/// Takes an exchange into the base, if there is one and of another chunk than that of a number.
fn make_room<T: Copy + Drop>(
    base: &mut Arc<Parts<T, Blocks<T>, 16384>>,
    exchange: &Option<Exchange<T>>,
    number: usize,
) -> Result<(), AllocError>
    requires size { length (arc_value base.old) < 18446744073709551616 }
    requires fits { Fits (length (arc_value base.old)) (number % 4) (Some exchange.now) }
    ensures taken { OnOk result (arc_value base.new
        ≡ taken_in (arc_value base.old) exchange.now number) }
    ensures unchanged { OnErr result (arc_value base.new ≡ arc_value base.old) }
{
    if let Some(other) = exchange {
        if other.number != number {
            let parts = Arc::make_mut(base)?;
            return parts.set_items(64 * other.number, other.chunk.items.as_slice());
        }
    }
    Ok(())
}

/// A chunk of the base by its number.
fn base_chunk<T: Copy + Drop>(base: &Parts<T, Blocks<T>, 16384>, number: usize) -> &Arc<Chunk<T>>
    requires { 64 * number < length base.now }
    ensures { arc_value result.now ≡ take 64 (drop (64 * number) base.now) }
{
    block_of(base, number / 16).chunk(number % 16)
}

/// The block of 16 chunks, or fewer at the end, of the base by its number.
fn block_of<T: Copy + Drop>(base: &Parts<T, Blocks<T>, 16384>, number: usize) -> &Block<T>
    requires { 1024 * number < length base.now }
    ensures { result.now ≡ take 1024 (drop (1024 * number) base.now) }
{
    base.part(number / 16).block(number % 16)
}

impl<T: Copy + Drop + Same> ChunkedList<T> {
    /// Two lists have the same items. It takes time for each item at most, chunk by chunk, and no memory.
    #[tactic(auto, using(crate::specs::laws::Copies::chunk_within, crate::specs::laws::Copies::next_same, crate::specs::laws::Copies::all_same))]
    pub fn is_same(&self, other: &ChunkedList<T>) -> bool
        ensures same { result ≡ true → self.now ≡ other.now }
        ensures differs { self.now ≡ other.now → result ≡ true }
    {
        if self.len() != other.len() {
            return false;
        }
        for number in 0..self.len().div_ceil(64) {
            if !chunks_are_same(self.chunk(number), other.chunk(number)) {
                return false;
            }
        }
        true
    }
}

/// Two chunks have the same items.
fn chunks_are_same<T: Copy + Drop + Same>(first: &Chunk<T>, second: &Chunk<T>) -> bool
    ensures same { result ≡ true → first.now ≡ second.now }
    ensures differs { first.now ≡ second.now → result ≡ true }
{
    are_same(first.items.as_slice(), second.items.as_slice())
}
