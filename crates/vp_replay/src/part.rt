// A user's part of a world, and what comes of what of the log goes to him.
ghost use Rattle.std.specs.Prelude.{◌≡◌, IfErr, IfOk, OnOk, None, Some, option_map, map, slice_set, true};
ghost use Rattle.vp_pragma.specs.declared.rights.Right.TheVariants as right;
ghost use Rattle.vp_notify.specs.Registry.{is_unwatchable};
ghost use Rattle.vp_answer.specs.OpenSessions.{notified_session};
ghost use Rattle.vp_replay.specs.Explained.{value_asked};
ghost use Rattle.vp_replay.specs.Faults.{MayRefuse};
ghost use Rattle.vp_replay.specs.Parts.{granted_values, part_after, part_after_entry, part_granted, races_after, reply_of, takes, takes_grant, takes_own, values_after, with_known, with_own, first_part};
ghost use Rattle.vp_replay.specs.declared.item.OwnEvent.TheVariants as own_event;
ghost use Rattle.vp_replay.specs.Seen.{denied_seen};

use crate::error::AuditError;
use crate::item::{GrantItem, Item, OrderItem, OwnEvent};
use crate::part_observer::PartObserver;
use crate::watching::watch_rights;
use std::alloc::{AllocError, Global};
use std::marker::Model;
use vp_answer::{
    OpenSession, Query, Reply, SessionId, are_sessions_within, notify_sessions, renumber_sessions,
    session_index,
};
use vp_bits::Bits;
use vp_elab::ObjectId;
use vp_expr::Change;
use vp_notify::rises;
use vp_policy::View;
use vp_text::Shared;
use vp_vpi::ShownRace;

/// A user's part of a world: what he sees of the objects that he knows, his open sessions, in which objects have their numbers in that
/// view, the values that came to him, the time, and the races that he is shown.
#[derive(Drop)]
pub struct Part<'a> {
    alloc: Global,
    view: &'a View,
    /// How often he has opened a session.
    opens: u64,
    /// Those that are open, in the order in which they were opened.
    sessions: Vec<OpenSession>,
    /// By the numbers of the objects in the view; none where none came.
    values: Vec<Option<Bits>>,
    /// In time units.
    time: u64,
    finished: bool,
    races: Vec<Shared<ShownRace>>,
}

impl<'a> Model for Part<'a> {
    ghost use Rattle.vp_replay.specs.Parts.{Part};

    ghost Value = { Part };

    ghost view = { λ p. record {
      view = p.view.now;
      opens = p.opens;
      sessions = p.sessions.items;
      values = p.values.items;
      time = p.time;
      finished = p.finished;
      races = p.races.items;
    } };
}

/// Races for one holder more. Takes memory.
fn copied_races(
    alloc: Global,
    races: &[Shared<ShownRace>],
) -> Result<Vec<Shared<ShownRace>>, AllocError>
    ensures { IfOk result (λ copies. copies.items ≡ races.now) }
{
    let mut copies = Vec::new(alloc);
    for race in races {
        copies.push(race.try_clone()?)?;
    }
    Ok(copies)
}

/// Sets the value of an object.
fn set_value(values: &mut Vec<Option<Bits>>, object: ObjectId, value: Bits)
    ensures { values.new.items ≡ slice_set values.old.items object.0 (Some value) }
{
    if let Some(index) = values.get_mut(object.0 as usize) {
        *index = Some(value);
    }
}

/// The object of a number has a value that was known of it, where none came.
fn keep_value(values: &mut Vec<Option<Bits>>, number: u32, known: Option<Bits>)
    ensures { values.new.items ≡ with_known values.old.items number known }
{
    if let Some(value) = values.get_mut(number as usize) {
        *value = value.or(known);
    }
}

/// Each object that was known before has the value that was known of it, under its number now, where none came.
fn keep_values(values: &mut Vec<Option<Bits>>, moved: &[u32], known: &[Option<Bits>])
    ensures { values.new.items ≡ granted_values moved.now known.now values.old.items }
{
    for (number, value) in moved.iter().zip(known) {
        keep_value(values, *number, *value);
    }
}

impl<'a> Part<'a> {
    /// The part of a world in which nothing has happened, of a user who sees this and may read these values. Takes memory.
    pub fn new(
        alloc: Global,
        view: &'a View,
        values: &[Option<Bits>],
    ) -> Result<Part<'a>, AllocError>
        ensures { IfOk result (λ part. part ≡ first_part view.now values.now) }
    {
        Ok(Part {
            alloc,
            view,
            opens: 0,
            sessions: Vec::new(alloc),
            values: Vec::from_slice(alloc, values)?,
            time: 0,
            finished: false,
            races: Vec::new(alloc),
        })
    }

    /// He opens a session.
    fn open(&mut self, id: SessionId) -> Result<Reply, AuditError>
        ensures reply { IfOk result (λ reply. reply ≡ reply_of self.old (own_event.Opens id)) }
        ensures after { OnOk result (self.new ≡ with_own self.old (own_event.Opens id)) }
        ensures accepted { OnOk result (takes_own self.old (own_event.Opens id) ≡ true) }
        ensures refused { IfErr result (MayRefuse (takes_own self.old (own_event.Opens id))) }
    {
        if self.opens == u64::MAX {
            return Err(AuditError::NotOpen);
        }
        let id = SessionId {
            user: id.user,
            opens: self.opens + 1,
        };
        let session = OpenSession::new(self.alloc, id)?;
        self.sessions.push(session)?;
        self.opens += 1;
        Ok(Reply::Opened(id))
    }

    /// A session of his asks.
    fn ask(&mut self, id: SessionId, query: &Query) -> Result<Reply, AuditError>
        ensures reply { IfOk result
            (λ reply. reply ≡ reply_of self.old (own_event.Asks id query.now)) }
        ensures after { OnOk result (self.new ≡ with_own self.old (own_event.Asks id query.now)) }
        ensures accepted { OnOk result (takes_own self.old (own_event.Asks id query.now) ≡ true) }
        ensures refused { IfErr result
            (MayRefuse (takes_own self.old (own_event.Asks id query.now))) }
    {
        let Some(index) = session_index(&self.sessions, id) else {
            return Err(AuditError::NotOpen);
        };
        let observation = PartObserver::new(
            self.view,
            &self.values,
            self.time,
            self.finished,
            &self.races,
        );
        let answer = self.sessions[index].ask(&observation, query)?;
        Ok(answer.reply)
    }

    /// A session of his is closed.
    fn close(&mut self, id: SessionId) -> Result<Reply, AuditError>
        ensures reply { IfOk result (λ reply. reply ≡ reply_of self.old (own_event.Closes id)) }
        ensures after { OnOk result (self.new ≡ with_own self.old (own_event.Closes id)) }
        ensures accepted { OnOk result (takes_own self.old (own_event.Closes id) ≡ true) }
        ensures refused { IfErr result (MayRefuse (takes_own self.old (own_event.Closes id))) }
    {
        let Some(index) = session_index(&self.sessions, id) else {
            return Err(AuditError::NotOpen);
        };
        self.sessions.remove(index);
        Ok(Reply::Done)
    }

    /// An event of his own happens, and is answered.
    fn own_event(&mut self, own_event: &OwnEvent) -> Result<Reply, AuditError>
        ensures reply { IfOk result (λ reply. reply ≡ reply_of self.old own_event.now) }
        ensures after { OnOk result (self.new ≡ with_own self.old own_event.now) }
        ensures accepted { OnOk result (takes_own self.old own_event.now ≡ true) }
        ensures refused { IfErr result (MayRefuse (takes_own self.old own_event.now)) }
    {
        match own_event {
            OwnEvent::Opens(id) => self.open(*id),
            OwnEvent::Asks(id, query) => self.ask(*id, query),
            OwnEvent::Closes(id) => self.close(*id),
        }
    }

    /// An object gets a value, which is due to the callbacks of his sessions. Takes no memory.
    fn change(&mut self, change: &Change)
        ensures { self.new ≡ record self.old {
          sessions = map (notified_session (Some change.now) self.old.time) self.old.sessions;
          values = values_after self.old.values (Some change.now);
        } }
    {
        notify_sessions(&mut self.sessions, change, self.time);
        set_value(&mut self.values, change.object, change.value);
    }

    /// The time, what `$finish` did, a change and a race that go to him are taken up. Takes memory.
    fn follow(&mut self, item: &Item) -> Result<(), AllocError>
        ensures { OnOk result (self.new ≡ part_after_entry self.old None item.now) }
    {
        self.time = item.time.unwrap_or(self.time);
        self.finished = item.finished.unwrap_or(self.finished);
        if let Some(change) = &item.change {
            self.change(change);
        }
        if let Some(race) = &item.race {
            self.races.push(race.try_clone()?)?;
        }
        Ok(())
    }

    /// The object whose value an event of his own asks, if it asks one.
    pub fn value_asked(&self, own_event: &OwnEvent) -> Option<ObjectId>
        ensures { option_map (λ o. o.0) result ≡ value_asked self.now own_event.now }
    {
        let OwnEvent::Asks(id, Query::Value { handle, .. }) = own_event else {
            return None;
        };
        let index = session_index(&self.sessions, *id)?;
        self.sessions[index].object(*handle)
    }

    /// A change of his grants is taken up.
    fn grant(&mut self, granted: &'a GrantItem) -> Result<(), AuditError>
        ensures after { OnOk result (self.new ≡ part_granted self.old granted.now) }
        ensures accepted { OnOk result (takes_grant self.old granted.now ≡ true) }
        ensures refused { IfErr result (MayRefuse (takes_grant self.old granted.now)) }
    {
        let moved = granted.moved.as_slice();
        if !rises(moved) || !are_sessions_within(&self.sessions, moved.len()) {
            return Err(AuditError::NotOpen);
        }
        let rights = watch_rights(self.alloc, &granted.view)?;
        let mut values = Vec::from_slice(self.alloc, granted.values.as_slice())?;
        let races = copied_races(self.alloc, granted.races.as_slice())?;
        keep_values(&mut values, moved, &self.values);
        renumber_sessions(&mut self.sessions, moved, &rights);
        self.view = &granted.view;
        self.values = values;
        self.races = races;
        Ok(())
    }

    /// What of an entry of the log goes to him is taken up; an event of his own is answered. Refused where it goes to nobody so (1303),
    /// and when out of memory (1307), which leaves the part as it may be.
    pub fn take(&mut self, item: &'a Item) -> Result<Option<Reply>, AuditError>
        ensures reply { IfOk result
            (λ reply. reply ≡ option_map (reply_of self.old) item.now.own_event) }
        ensures after { OnOk result (self.new ≡ part_after self.old item.now) }
        ensures accepted { OnOk result (takes self.old item.now ≡ true) }
        ensures refused { IfErr result (MayRefuse (takes self.old item.now)) }
    {
        match (&item.own_event, &item.order) {
            (Some(_), Some(_)) => Err(AuditError::NotOpen),
            (None, Some(OrderItem::Grant(granted))) => {
                self.grant(granted.value())?;
                Ok(None)
            }
            (None, Some(OrderItem::End)) => {
                self.sessions.clear();
                Ok(None)
            }
            (Some(own_event), None) => {
                let reply = self.own_event(own_event)?;
                self.follow(item)?;
                Ok(Some(reply))
            }
            (None, None) => {
                self.follow(item)?;
                Ok(None)
            }
        }
    }
}
