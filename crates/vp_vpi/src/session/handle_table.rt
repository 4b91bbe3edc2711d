// The handles of a session: kept are those that are not freed.
ghost use Rattle.std.specs.Bool.{OnFalse};
ghost use Rattle.std.specs.List.{list_all};
ghost use Rattle.std.specs.Option.{option_flatten};
ghost use Rattle.std.specs.Prelude.{◌≡◌, ◌^◌, ◌+◌, ◌<◌, ◌≤◌, [], ◌∷◌, ◌++◌, count_by, is_some, length, map, None, slice_get, slice_set, vec_capacity, vec_len, Some, IfNone, IfSome, IsOk, OnErr, OnOk};
ghost use Rattle.vp_notify.specs.Renumbered.{number_now};
ghost use Rattle.vp_vpi.specs.HandleTables.{IsPlaceOf, is_open_within, moved_open, opened_from};
ghost use Rattle.vp_vpi.specs.Renumbered.{is_handle_within, moved_handle};
ghost use Rattle.vp_vpi.specs.SessionStates.{number_limit};

use std::alloc::{AllocError, Global};
use std::marker::Model;
use vp_elab::ObjectId;
use vp_notify::number_now;

/// A handle that is not freed: its index, which is its number less one, and its object.
#[derive(Clone, Copy)]
pub(crate) struct OpenHandle {
    index: u32,
    object: ObjectId,
}

/// A user's handles, of which those that were freed take no memory. A contract sees, of each that was made, its object; none where it
/// was freed.
#[derive(Drop)]
pub(crate) struct HandleTable {
    /// The handles that are not freed, by rising index.
    opened: Vec<OpenHandle>,
    /// How many handles were made.
    made: u32,
}

impl Model for HandleTable {
    ghost use Rattle.std.specs.Prelude.{◌≡◌, List, Option};
    ghost use Rattle.vp_elab.specs.declared.object.ObjectId.{ObjectId};
    ghost use Rattle.vp_vpi.specs.HandleTables.{handles_of, opened_from};

    ghost Value = { List (Option ObjectId) };

    ghost view = { λ t. handles_of t.made t.opened.items };

    ghost invariant = { λ t. t.opened.items ≡ opened_from 0 (handles_of t.made t.opened.items) };
}

/// Adds those of these handles that are not freed, of which the first has an index. There is room for them.
fn add_opened(
    opened: &mut Vec<OpenHandle>,
    index: u32,
    handles: &[Option<ObjectId>],
) -> Result<(), AllocError>
    requires numbers { index + length handles.now ≤ number_limit }
    requires room { vec_len opened.old + length handles.now ≤ vec_capacity opened.old }
    ensures added { opened.new.items ≡ opened.old.items ++ opened_from index handles.now }
    ensures ok { IsOk result }
{
    for place in 0..handles.len() {
        if let Some(object) = handles[place] {
            opened.push(OpenHandle {
                index: index + place as u32,
                object,
            })?;
        }
    }
    Ok(())
}

/// The objects of these handles are among so many.
fn are_open_within(opened: &[OpenHandle], count: usize) -> bool
    ensures { result ≡ list_all (is_open_within count) opened.now }
{
    opened
        .iter()
        .all(|handle| (handle.object.0 as usize) < count)
}

/// A handle whose object has its number now.
fn renumbered(handle: OpenHandle, numbers: &[u32]) -> OpenHandle
    ensures { result ≡ moved_open (number_now numbers.now) handle }
{
    OpenHandle {
        index: handle.index,
        object: number_now(numbers, handle.object),
    }
}

/// Gives the objects of these handles their numbers now.
fn renumber_opened(opened: &mut Vec<OpenHandle>, numbers: &[u32])
    ensures { opened.new.items ≡ map (moved_open (number_now numbers.now)) opened.old.items }
{
    for place in 0..opened.len() {
        opened[place] = renumbered(opened[place], numbers);
    }
}

impl HandleTable {
    /// A table without handles.
    pub(crate) fn new(alloc: Global) -> HandleTable
        ensures { result ≡ [] }
    {
        HandleTable {
            opened: Vec::new(alloc),
            made: 0,
        }
    }

    /// How many handles were made.
    pub(crate) fn len(&self) -> usize
        ensures made { result ≡ length self.now }
        ensures small { result < 2 ^ 32 }
    {
        self.made as usize
    }

    /// How many handles are not freed.
    pub(crate) fn open_count(&self) -> usize
        ensures { result ≡ count_by is_some self.now }
    {
        self.opened.len()
    }

    /// The place of the handle with an index among those that are not freed.
    fn place(&self, index: usize) -> Option<usize>
        ensures found { IfSome result (IsPlaceOf (opened_from 0 self.now) index) }
        ensures absent { IfNone result (option_flatten (slice_get self.now index) ≡ None) }
    {
        match self
            .opened
            .binary_search_by_key(&index, |handle| handle.index as usize)
        {
            Ok(place) => Some(place),
            Err(_) => None,
        }
    }

    /// The object of the handle with an index; none where it was freed, and past the end.
    pub(crate) fn object(&self, index: usize) -> Option<ObjectId>
        ensures { result ≡ option_flatten (slice_get self.now index) }
    {
        match self.place(index) {
            Some(place) => Some(self.opened[place].object),
            None => None,
        }
    }

    /// Adds a handle. Out of memory leaves the table as it was.
    pub(crate) fn push(&mut self, object: ObjectId) -> Result<(), AllocError>
        requires { length self.old < number_limit }
        ensures pushed { OnOk result (self.new ≡ self.old ++ Some object ∷ []) }
        ensures unchanged { OnErr result (self.new ≡ self.old) }
    {
        let index = self.made;
        self.opened.push(OpenHandle { index, object })?;
        self.made += 1;
        Ok(())
    }

    /// Adds handles, all of them; or none, when out of memory.
    pub(crate) fn extend(&mut self, more: &[Option<ObjectId>]) -> Result<(), AllocError>
        requires { length self.old + length more.now ≤ number_limit }
        ensures added { OnOk result (self.new ≡ self.old ++ more.now) }
        ensures unchanged { OnErr result (self.new ≡ self.old) }
    {
        self.opened.reserve(more.len())?;
        add_opened(&mut self.opened, self.made, more)?;
        self.made += more.len() as u32;
        Ok(())
    }

    /// Frees the handle with an index; reports whether it was one.
    pub(crate) fn take(&mut self, index: usize) -> bool
        ensures taken { self.new ≡ slice_set self.old index None }
        ensures there { result ≡ is_some (option_flatten (slice_get self.old index)) }
        ensures unchanged { OnFalse result (self.new ≡ self.old) }
    {
        match self.place(index) {
            Some(place) => {
                let _handle = self.opened.remove(place);
                true
            }
            None => false,
        }
    }

    /// The objects of its handles that are not freed are among so many.
    pub(crate) fn are_within(&self, count: usize) -> bool
        ensures { result ≡ list_all (is_handle_within count) self.now }
    {
        are_open_within(&self.opened, count)
    }

    /// Gives the objects of its handles their numbers now. Takes no memory.
    pub(crate) fn renumber(&mut self, numbers: &[u32])
        ensures { self.new ≡ map (moved_handle (number_now numbers.now)) self.old }
    {
        renumber_opened(&mut self.opened, numbers);
    }
}
