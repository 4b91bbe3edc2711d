// A log that is read for one user: what is kept of the world's state, and what of each entry goes to him.
ghost use Rattle.std.specs.Prelude.{◌≡◌, ◌==◌, ◌<◌, ◌≤◌, Bool, List, None, IfOk, IsOkUnless, OnOk, false, length, option_copied, slice_get, slice_set, unwrap_or};
ghost use Rattle.std.specs.Option.{option_flatten};
ghost use Rattle.vp_elab.specs.Tree.{Tree};
ghost use Rattle.vp_policy.specs.PolicyState.{Fits};
ghost use Rattle.vp_policy.specs.Regrants.{regranted};
ghost use Rattle.vp_policy.specs.SeenObjects.{numbers_from};
ghost use Rattle.vp_policy.specs.Users.{Member, member_at};
ghost use Rattle.vp_sim.specs.States as sim;
ghost use Rattle.vp_world.specs.Entries.{change_in, event_in};
ghost use Rattle.vp_world.specs.declared.event.Event.{Event};
ghost use Rattle.vp_world.specs.declared.event.Event.TheVariants as event;
ghost use Rattle.vp_world.specs.History.{after, refusal_of};
ghost use Rattle.vp_world.specs.Worlds.{Opening, State, start};
ghost use Rattle.vp_replay.specs.declared.error.AuditError.TheVariants.{NoMemory};
ghost use Rattle.vp_replay.specs.Known.{known_also};
ghost use Rattle.vp_audit.specs.Projections.{change_seen, granted_of, is_end_of, is_followed, is_read, item_if, known_at_first, moved_numbers, order_by, other_flag, other_number, own_of, race_of_event, read_marks, values_but, values_seen};
ghost use Rattle.vp_audit.specs.Readings.{Continues, Grants, Reads, either_marked, followed, reading_of, value_but, value_of};

use std::alloc::{AllocError, Global};
use std::marker::Model;
use vp_answer::{GrantChange, SessionId};
use vp_bits::Bits;
use vp_elab::{Design, ObjectId};
use vp_expr::{Change, Checked, Values};
use vp_policy::{Policy, PolicyError, UserId};
use vp_pragma::Right;
use vp_race::BookedFinding;
use vp_replay::{AuditError, GrantItem, Item, OrderItem, OwnEvent};
use vp_text::{Sequence, Shared};
use vp_vpi::ShownRace;
use vp_world::{Entry, LoggedEvent, is_race_shown, seen_race, seen_races};

/// A log that is read for one user. A contract sees what is kept of the world's state, and which objects he knows.
#[derive(Drop)]
pub struct LogReader<'a> {
    alloc: Global,
    design: &'a Design,
    user: UserId,
    /// The policy in force.
    policy: Policy,
    /// Of each object whether it was ever listed to him.
    known: Vec<bool>,
    /// Of each object that he knows its number among these.
    numbers: Vec<Option<u32>>,
    values: Vec<Bits>,
    /// The races that were booked.
    book: Vec<Shared<BookedFinding>>,
    /// In time units.
    time: u64,
    finished: bool,
}

impl<'a> Model for LogReader<'a> {
    ghost use Rattle.std.specs.Prelude.{◌≡◌, length};
    ghost use Rattle.vp_policy.specs.PolicyState.{Fits};
    ghost use Rattle.vp_policy.specs.SeenObjects.{numbers_from};
    ghost use Rattle.vp_policy.specs.View.{HoldScopes};
    ghost use Rattle.vp_audit.specs.Readings.{LogReader};

    ghost Value = { LogReader };

    ghost view = { λ r. record {
      design = r.design.now;
      user = r.user.0;
      policy = r.policy;
      known = r.known.items;
      values = r.values.items;
      book = r.book.items;
      time = r.time;
      finished = r.finished;
    } };

    ghost invariant = { λ r. Fits r.policy r.design.now.tree
        × (length r.known.items ≡ length r.design.now.tree.nodes)
        × HoldScopes r.design.now.tree.nodes r.known.items
        × (r.numbers.items ≡ numbers_from 0 r.known.items) };
}

/// The object of a number is marked.
fn is_marked(marks: &[bool], number: u32) -> bool
    ensures { result ≡ unwrap_or (slice_get marks.now number) false }
{
    marks.get(number as usize).copied().unwrap_or(false)
}

/// The number of an object among those that are known.
fn number_at(numbers: &[Option<u32>], object: ObjectId) -> Option<u32>
    ensures { result ≡ option_flatten (slice_get numbers.now object.0) }
{
    numbers.get(object.0 as usize).copied().flatten()
}

/// Of each marked object of a design its number among these. Takes memory.
fn numbers_of(
    alloc: Global,
    design: &Design,
    marks: &[bool],
) -> Result<Vec<Option<u32>>, AllocError>
    requires { length marks.now ≡ length design.now.tree.nodes }
    ensures { IfOk result (λ numbers. numbers.items ≡ numbers_from 0 marks.now) }
{
    let mut numbers = Vec::new(alloc);
    let mut count = 0;
    for number in 0..design.count() {
        if is_marked(marks, number) {
            numbers.push(Some(count))?;
            count += 1;
        } else {
            numbers.push(None)?;
        }
    }
    Ok(numbers)
}

/// Those that are marked in one or the other of two lists. Takes memory.
fn either_marked(alloc: Global, first: &[bool], second: &[bool]) -> Result<Vec<bool>, AllocError>
    requires { length first.now ≡ length second.now }
    ensures { IfOk result (λ marks. marks.items ≡ either_marked first.now second.now) }
{
    let mut marks = Vec::new(alloc);
    for index in 0..first.len() {
        marks.push(first[index] || second[index])?;
    }
    Ok(marks)
}

/// Of each object of a design that was known before, by its number, the number now. Takes memory.
fn moved_numbers(
    alloc: Global,
    design: &Design,
    before: &[bool],
    numbers: &[Option<u32>],
) -> Result<Sequence<u32>, AllocError>
    requires { length before.now ≡ length design.now.tree.nodes }
    ensures { (now : List Bool) → numbers.now ≡ numbers_from 0 now
        → IfOk result (λ moved. moved ≡ moved_numbers before.now now) }
{
    let mut moved = Vec::new(alloc);
    for number in 0..design.count() {
        if is_marked(before, number) {
            moved.push(number_at(numbers, ObjectId(number)).unwrap_or(0))?;
        }
    }
    Ok(Sequence::from_vec(moved))
}

/// The values of all objects before anything has happened. Takes memory.
fn start_values(alloc: Global, checked: &Checked) -> Result<Vec<Bits>, AuditError>
    ensures values { IfOk result (λ values. values.items ≡ (sim.start checked.now).values) }
    ensures refused { IsOkUnless result NoMemory }
{
    let Ok(start) = Values::new(alloc, checked) else {
        return Err(AuditError::NoMemory);
    };
    let mut values = Vec::new(alloc);
    for number in 0..checked.design().count() {
        values.push(start.get(ObjectId(number)))?;
    }
    Ok(values)
}

/// A number, if it is another than before.
fn other_number(before: u64, following: u64) -> Option<u64>
    ensures { result ≡ other_number before following }
{
    if before == following {
        None
    } else {
        Some(following)
    }
}

/// Whether something is so, if that is other than before.
fn other_flag(before: bool, following: bool) -> Option<bool>
    ensures { result ≡ other_flag before following }
{
    if before == following {
        None
    } else {
        Some(following)
    }
}

/// What of an entry goes to a user, if anything does.
fn item_if(item: Item) -> Option<Item>
    ensures { result ≡ item_if item }
{
    let is_empty = item.own_event.is_none()
        && item.order.is_none()
        && item.change.is_none()
        && item.time.is_none()
        && item.finished.is_none()
        && item.race.is_none();
    if is_empty { None } else { Some(item) }
}

/// What goes to a user of what an operator orders: that his sessions ended, or a change of his grants.
fn order_by(is_end: bool, granted: Option<Shared<GrantItem>>) -> Option<OrderItem>
    ensures { result ≡ order_by is_end granted }
{
    match granted {
        _ if is_end => Some(OrderItem::End),
        Some(granted) => Some(OrderItem::Grant(granted)),
        None => None,
    }
}

/// What happened changed this.
fn change_in(happening: &LoggedEvent) -> Option<&Change>
    ensures { option_copied result ≡ change_in happening.now }
{
    match happening {
        LoggedEvent::Put { change, .. } | LoggedEvent::StepWithChange { change, .. } => Some(
            change,
        ),
        _ => None,
    }
}

/// Sets the value of an object.
fn set_value(values: &mut Vec<Bits>, change: &Change)
    ensures { values.new.items ≡ slice_set values.old.items change.now.object.0 change.now.value }
{
    if let Some(index) = values.get_mut(change.object.0 as usize) {
        *index = change.value;
    }
}

impl<'a> LogReader<'a> {
    /// A log of which nothing was read, of a world that opens with this design and policy. Refused when out of memory (1307).
    pub fn new(
        alloc: Global,
        checked: &'a Checked,
        policy: &Policy,
        user: UserId,
    ) -> Result<LogReader<'a>, AuditError>
        requires { Fits policy.now checked.now.tree }
        ensures reading { (opening : Opening) → opening.design ≡ checked.now
            → opening.policy ≡ policy.now
            → let known = known_at_first opening user.0 in
            IfOk result (λ r. r ≡ reading_of user.0 (start opening) known) }
        ensures refused { IsOkUnless result NoMemory }
    {
        let design = checked.design();
        let Ok(known) = policy.listed_marks(alloc, design, user) else {
            return Err(AuditError::NoMemory);
        };
        let Ok(policy) = policy.try_clone(alloc, design) else {
            return Err(AuditError::NoMemory);
        };
        let numbers = numbers_of(alloc, design, &known)?;
        let values = start_values(alloc, checked)?;
        Ok(LogReader {
            alloc,
            design,
            user,
            policy,
            known,
            numbers,
            values,
            book: Vec::new(alloc),
            time: 0,
            finished: false,
        })
    }

    /// A session is his.
    fn is_his(&self, session: SessionId) -> bool
        ensures { result ≡ (session.user.0 == self.now.user) }
    {
        session.user.0 == self.user.0
    }

    /// The event of an entry, if it is his own. Takes memory.
    fn own_event(&self, entry: &Entry) -> Result<Option<OwnEvent>, AllocError>
        ensures { IfOk result (λ own_event. own_event
            ≡ own_of self.now.user entry.now.event entry.now.reply) }
    {
        match &entry.happening {
            LoggedEvent::Open { session, .. } if self.is_his(*session) => {
                Ok(Some(OwnEvent::Opens(*session)))
            }
            LoggedEvent::Ask { asked, .. } | LoggedEvent::Put { asked, .. }
                if self.is_his(asked.session) => {
                let query = asked.query.try_clone(self.alloc)?;
                Ok(Some(OwnEvent::Asks(asked.session, query)))
            }
            LoggedEvent::Close { session } if self.is_his(*session) => {
                Ok(Some(OwnEvent::Closes(*session)))
            }
            _ => Ok(None),
        }
    }

    /// He may read or watch an object, or there is none.
    fn is_followed(&self, object: ObjectId) -> bool
        ensures { let member : Member = member_at self.now.policy.members self.now.user in
            result ≡ is_followed self.now.design.tree member object.0 }
    {
        !self.policy.is_denied(self.user, object, Right::Read)
            || !self.policy.is_denied(self.user, object, Right::Watch)
    }

    /// What an entry changed, under its number among the objects that he knows, if he may read or watch it.
    fn change(&self, entry: &Entry) -> Option<Change>
        ensures { let member : Member = member_at self.now.policy.members self.now.user in
            result ≡ change_seen self.now.design.tree member self.now.known entry.now.change }
    {
        let change = change_in(&entry.happening)?;
        if !self.is_followed(change.object) {
            return None;
        }
        let number = number_at(&self.numbers, change.object)?;
        Some(Change {
            object: ObjectId(number),
            value: change.value,
        })
    }

    /// The race that an entry booked, if he is shown it. Takes memory.
    fn race(&self, entry: &Entry) -> Result<Option<Shared<ShownRace>>, AllocError>
        ensures { let member : Member = member_at self.now.policy.members self.now.user in
            IfOk result (λ race. race
            ≡ race_of_event self.now.design.tree member entry.now.event) }
    {
        let LoggedEvent::Book { finding } = &entry.happening else {
            return Ok(None);
        };
        let finding = finding.value();
        if !is_race_shown(&self.policy, self.user, finding) {
            return Ok(None);
        }
        let race = seen_race(self.alloc, self.design, &self.policy, self.user, finding)?;
        Ok(Some(Shared::new(self.alloc, race)?))
    }

    /// The value of an object, if it has one and he may read it.
    fn value_seen(&self, object: ObjectId) -> Option<Bits>
        ensures { let member : Member = member_at self.now.policy.members self.now.user in
            result ≡ value_of self.now.design.tree self.now.values member object.0 }
    {
        match self.design.kind(object) {
            Some(kind) if kind.has_value() => {}
            _ => return None,
        }
        if self.policy.is_denied(self.user, object, Right::Read) {
            return None;
        }
        match self.values.get(object.0 as usize) {
            Some(value) => Some(*value),
            None => Some(Bits::unknown(1)),
        }
    }

    /// The value of an object, if it has one and he may read it, unless it is marked.
    fn value_but(&self, marks: &[bool], object: ObjectId) -> Option<Bits>
        ensures { let member : Member = member_at self.now.policy.members self.now.user in
            result ≡ value_but marks.now self.now.design.tree self.now.values member object.0 }
    {
        if is_marked(marks, object.0) {
            return None;
        }
        self.value_seen(object)
    }

    /// The values of the objects that he knows, of those that have one and that he may read. Takes memory.
    pub fn values_seen(&self) -> Result<Sequence<Option<Bits>>, AllocError>
        ensures { (run : sim.State) → run.design ≡ self.now.design
            → run.values ≡ self.now.values
            → let member : Member = member_at self.now.policy.members self.now.user in
            IfOk result (λ values. values ≡ values_seen run member self.now.known) }
    {
        self.values_but(&[])
    }

    /// The same, but for those that are marked.
    fn values_but(&self, marks: &[bool]) -> Result<Sequence<Option<Bits>>, AllocError>
        ensures { (run : sim.State) → run.design ≡ self.now.design
            → run.values ≡ self.now.values
            → let member : Member = member_at self.now.policy.members self.now.user in
            IfOk result (λ values. values ≡ values_but marks.now run member self.now.known) }
    {
        let mut values = Vec::new(self.alloc);
        for number in 0..self.design.count() {
            if is_marked(&self.known, number) {
                values.push(self.value_but(marks, ObjectId(number)))?;
            }
        }
        Ok(Sequence::from_vec(values))
    }

    /// He knows an object and may read it.
    fn is_read(&self, object: ObjectId) -> bool
        ensures { let member : Member = member_at self.now.policy.members self.now.user in
            result ≡ is_read self.now.design.tree member self.now.known object.0 }
    {
        is_marked(&self.known, object.0) && !self.policy.is_denied(self.user, object, Right::Read)
    }

    /// Of each object whether he knows it and may read it. Takes memory.
    fn read_marks(&self) -> Result<Vec<bool>, AllocError>
        ensures { let member : Member = member_at self.now.policy.members self.now.user in
            IfOk result (λ marks. marks.items
            ≡ read_marks self.now.design.tree member self.now.known) }
    {
        let mut marks = Vec::new(self.alloc);
        for number in 0..self.design.count() {
            marks.push(self.is_read(ObjectId(number)))?;
        }
        Ok(marks)
    }

    /// A user's grant for an envelope is from now on what an operator orders. Nothing changes where no envelope has the number. Refused for
    /// out of memory (1307).
    fn regrant(&mut self, grantee: UserId, change: &GrantChange) -> Result<(), AuditError>
        requires { grantee.0 < length self.old.policy.members }
        ensures grant { change.now.envelope ≤ length self.old.design.tree.authors
            → let access = change.now.access in
            OnOk result (self.new ≡ record self.old {
              policy = regranted self.old.policy grantee.0 change.now.envelope access;
            }) }
        ensures refused { IsOkUnless result NoMemory }
    {
        let access = change.access.rights();
        match self
            .policy
            .regrant(self.alloc, self.design, grantee, change.envelope, access)
        {
            Ok(()) | Err(PolicyError::NoSuchEnvelope) => Ok(()),
            Err(_) => Err(AuditError::NoMemory),
        }
    }

    /// He knows from now on also what is listed to him now; which he knew before is handed back. Refused when out of memory (1307).
    fn learn(&mut self) -> Result<Vec<bool>, AuditError>
        ensures before { IfOk result (λ before. before.items ≡ self.old.known) }
        ensures now { let member : Member = member_at self.old.policy.members self.old.user in
            let tree : Tree = self.old.design.tree in
            OnOk result (self.new ≡ record self.old {
              known = known_also tree member self.old.known tree.nodes;
            }) }
        ensures refused { IsOkUnless result NoMemory }
    {
        let Ok(listed) = self.policy.listed_marks(self.alloc, self.design, self.user) else {
            return Err(AuditError::NoMemory);
        };
        let known = either_marked(self.alloc, &self.known, &listed)?;
        let numbers = numbers_of(self.alloc, self.design, &known)?;
        self.numbers = numbers;
        Ok(std::mem::replace(&mut self.known, known))
    }

    /// What goes to him of a change of his grants, after it, where he knew these objects before it and could read those. Refused when out
    /// of memory (1307).
    fn granted(
        &self,
        before: &[bool],
        was_read: &[bool],
        change: &GrantChange,
    ) -> Result<GrantItem, AuditError>
        requires { length before.now ≡ length self.now.known }
        ensures granted { (s t : State) → self.now ≡ reading_of self.now.user t self.now.known
            → (let member : Member = member_at s.policy.members self.now.user in
            was_read.now ≡ read_marks s.run.design.tree member before.now)
            → IfOk result (λ granted. granted
            ≡ granted_of self.now.user s t before.now self.now.known change.now) }
        ensures refused { IsOkUnless result NoMemory }
    {
        let view = self
            .policy
            .known_view(self.alloc, self.design, self.user, &self.known);
        let Ok(view) = view else {
            return Err(AuditError::NoMemory);
        };
        Ok(GrantItem {
            envelope: change.envelope,
            access: change.access.copy(),
            view,
            moved: moved_numbers(self.alloc, self.design, before, &self.numbers)?,
            values: self.values_but(was_read)?,
            races: seen_races(self.alloc, self.design, &self.policy, self.user, &self.book)?,
        })
    }

    /// A grant of a user changes; what of it goes to him, if it is his. Refused when out of memory (1307).
    fn grant(&mut self, change: &GrantChange) -> Result<Option<Shared<GrantItem>>, AuditError>
        ensures grant { let e : Event = event.Grant change.now in
            (opening : Opening) → (s : State) → (known : List Bool) → (full : Bool)
            → self.old ≡ reading_of self.old.user s known
            → refusal_of opening full s e ≡ None
            → Grants self.old.user s (after opening s e) known change.now result self.new }
        ensures refused { IsOkUnless result NoMemory }
    {
        let Some(grantee) = self.policy.user(change.user.as_str()) else {
            return Ok(None);
        };
        let was_read = self.read_marks()?;
        self.regrant(grantee, change)?;
        if grantee.0 != self.user.0 {
            return Ok(None);
        }
        let before = self.learn()?;
        let granted = self.granted(&before, &was_read, change)?;
        Ok(Some(Shared::new(self.alloc, granted)?))
    }

    /// What happened ended his open sessions, by an operator's order.
    fn is_end(&self, happening: &LoggedEvent) -> bool
        ensures { result ≡ is_end_of self.now.user self.now.policy (event_in happening.now) }
    {
        let LoggedEvent::End { order } = happening else {
            return false;
        };
        match self.policy.user(order.user.as_str()) {
            Some(user) => user.0 == self.user.0,
            None => false,
        }
    }

    /// The values, the book and the time are as after an entry. Takes memory for a race.
    fn follow(&mut self, entry: &Entry) -> Result<(), AllocError>
        ensures { OnOk result (self.new ≡ followed self.old entry.now) }
    {
        if let Some(change) = change_in(&entry.happening) {
            set_value(&mut self.values, change);
        }
        if let LoggedEvent::Book { finding } = &entry.happening {
            self.book.push(finding.try_clone()?)?;
        }
        self.time = entry.time;
        self.finished = entry.finished;
        Ok(())
    }

    /// What of the next entry goes to him, if anything does. Refused when out of memory (1307).
    pub fn item(&mut self, entry: &Entry) -> Result<Option<Item>, AuditError>
        ensures item { (opening : Opening) → (s : State) → (known : List Bool)
            → self.old ≡ reading_of self.old.user s known
            → Continues opening s entry.now
            → Reads self.old.user opening s known entry.now result self.new }
        ensures refused { IsOkUnless result NoMemory }
    {
        let own_event = self.own_event(entry)?;
        let change = self.change(entry);
        let race = self.race(entry)?;
        let time = other_number(self.time, entry.time);
        let finished = other_flag(self.finished, entry.finished);
        let is_end = self.is_end(&entry.happening);
        let granted = match &entry.happening {
            LoggedEvent::Grant { change } => self.grant(change)?,
            _ => None,
        };
        self.follow(entry)?;
        Ok(item_if(Item {
            own_event,
            order: order_by(is_end, granted),
            change,
            time,
            finished,
            race,
        }))
    }
}
