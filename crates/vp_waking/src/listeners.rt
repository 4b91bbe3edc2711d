ghost use Rattle.std.specs.Prelude.{◌≡◌, ◌==◌, ◌<◌, ℕ, [], All, length, map, slice_get, true, Some, IfOk, OnErr, OnOk};
ghost use Rattle.std.specs.List.{AllPairs};
ghost use Rattle.std.specs.Arc.{arc_value};
ghost use Rattle.vp_expr.specs.Tables.{awaited_of, tables_of};
ghost use Rattle.vp_waking.specs.Listening.{AreHeard, AreKept, AreListeners, IsHeard, has, listeners_of, may_listen, with_number, with_number_at};
ghost use Rattle.vp_operand.specs.Arena.{term_at};
ghost use Rattle.vp_operand.specs.Reads.{reads};
ghost use Rattle.vp_waking.specs.Waking.{any_of, awaited_by, located, object_at, operand_terms, statement_terms, terms_of};

use crate::processes::process_at;
use crate::waiting::{Waiting, set_wait, wait_of};
use std::alloc::{AllocError, Global};
use std::marker::Model;
use std::sync::Arc;
use vp_elab::ObjectId;
use vp_expr::{Checked, Process, add_reads};
use vp_operand::{ExprId, Slot};
use vp_text::Same;

/// A design, and of each object its listeners: the processes that have waited for its changes, rising. A process that waits for an
/// object stands among them, and none is ever taken out. A contract sees the design and the listeners.
#[derive(Drop)]
pub struct Listeners {
    alloc: Global,
    checked: Arc<Checked>,
    /// Of each object, as far as one was waited for.
    lists: Vec<Vec<usize>>,
    /// Of each process, how it waited when it was last put among listeners.
    known: Vec<Waiting>,
}

impl Model for Listeners {
    ghost use Rattle.std.specs.Prelude.{map};
    ghost use Rattle.std.specs.Arc.{arc_value};
    ghost use Rattle.vp_expr.specs.Tables.{tables_of};
    ghost use Rattle.vp_waking.specs.Listening.{AreHeard, AreAllListeners, Listening};

    ghost Value = { Listening };

    ghost view = { λ l. record {
      design = arc_value l.checked;
      lists = map (λ v. v.items) l.lists.items;
    } };

    ghost invariant = { λ l.
        AreAllListeners (tables_of (arc_value l.checked)) (map (λ v. v.items) l.lists.items)
        × AreHeard (tables_of (arc_value l.checked)) (map (λ v. v.items) l.lists.items)
        l.known.items };
}

/// Puts empty lists after others, until there is one for an object.
fn grow(alloc: Global, lists: &mut Vec<Vec<usize>>, object: usize) -> Result<(), AllocError>
    ensures same { (k : ℕ) → listeners_of (map (λ v. v.items) lists.new.items) k
        ≡ listeners_of (map (λ v. v.items) lists.old.items) k }
    ensures within { OnOk result (object < length lists.new.items) }
{
    if object < lists.len() {
        return Ok(());
    }
    for _other in lists.len()..object {
        lists.push(Vec::new(alloc))?;
    }
    lists.push(Vec::new(alloc))?;
    Ok(())
}

/// A number stands among others, which rise.
fn add_number(numbers: &mut Vec<usize>, number: usize) -> Result<(), AllocError>
    requires { AllPairs (λ x y. x < y) numbers.old.items }
    ensures ok { OnOk result (numbers.new.items ≡ with_number numbers.old.items number) }
    ensures err { OnErr result (numbers.new.items ≡ numbers.old.items) }
{
    match numbers.binary_search(&number) {
        Ok(_) => Ok(()),
        Err(place) => {
            numbers.insert(place, number)?;
            Ok(())
        }
    }
}

/// A process stands among the listeners of an object, which rise.
fn add_listener(
    alloc: Global,
    lists: &mut Vec<Vec<usize>>,
    object: usize,
    process: usize,
) -> Result<(), AllocError>
    requires { AllPairs (λ x y. x < y) (listeners_of (map (λ v. v.items) lists.old.items) object) }
    ensures ok { OnOk result ((k : ℕ) → listeners_of (map (λ v. v.items) lists.new.items) k
        ≡ with_number_at (listeners_of (map (λ v. v.items) lists.old.items) k) process
        (object == k)) }
    ensures err { OnErr result ((k : ℕ) → listeners_of (map (λ v. v.items) lists.new.items) k
        ≡ listeners_of (map (λ v. v.items) lists.old.items) k) }
{
    grow(alloc, lists, object)?;
    add_number(&mut lists[object], process)
}

impl Listeners {
    /// No listeners of the objects of a design.
    pub fn new(alloc: Global, checked: Arc<Checked>) -> Result<Listeners, AllocError>
        ensures { IfOk result (λ l. l ≡ record { design = arc_value checked; lists = [] }) }
    {
        let known = vec![in alloc; Waiting::Nothing; checked.tables().processes.len()]?;
        Ok(Listeners {
            alloc,
            checked,
            lists: Vec::new(alloc),
            known,
        })
    }

    /// The design, checked.
    pub fn checked(&self) -> &Checked
        ensures { result.now ≡ self.now.design }
    {
        &self.checked
    }

    /// The design, checked, for one holder more; or an error where they can't be counted.
    pub fn share(&self) -> Result<Arc<Checked>, AllocError>
        ensures { IfOk result (λ checked. arc_value checked ≡ self.now.design) }
    {
        Arc::try_clone(&self.checked)
    }

    /// The listeners of an object, to which each of them may listen.
    pub fn processes_on(&self, object: usize) -> &[usize]
        ensures listeners { result.now ≡ listeners_of self.now.lists object }
        ensures fit { AreListeners (tables_of self.now.design) object
            (listeners_of self.now.lists object) }
    {
        match self.lists.get(object) {
            Some(list) => list,
            None => &[],
        }
    }

    /// A process that may listen to an object stands among its listeners.
    fn add(&mut self, object: usize, process: usize) -> Result<(), AllocError>
        requires { may_listen (tables_of self.old.design) object process ≡ true }
        ensures design { self.new.design ≡ self.old.design }
        ensures kept { AreKept self.old.lists self.new.lists }
        ensures heard { OnOk result (has (listeners_of self.new.lists object) process ≡ true) }
    {
        add_listener(self.alloc, &mut self.lists, object, process)
    }

    /// A procedure in an instance stands among the listeners of the objects that the statement at a place awaits.
    fn add_statement(
        &mut self,
        process: usize,
        instance: ObjectId,
        place: u32,
    ) -> Result<(), AllocError>
        requires { (object : ℕ) → may_listen (tables_of self.old.design) object process ≡ true }
        ensures design { self.new.design ≡ self.old.design }
        ensures kept { AreKept self.old.lists self.new.lists }
        ensures heard { OnOk result (IsHeard self.new.lists
            (map (located instance) (awaited_of (tables_of self.old.design) place)) process) }
    {
        for k in 0..self.checked.awaited(place).len() {
            let slot = self.checked.awaited(place)[k].slot;
            self.add(instance.0 as usize + slot.0 as usize, process)?;
        }
        Ok(())
    }

    /// A process stands among the listeners of the objects of an instance at these slots.
    fn add_slots(
        &mut self,
        process: usize,
        instance: ObjectId,
        slots: &[Slot],
    ) -> Result<(), AllocError>
        requires { All (λ slot. may_listen (tables_of self.old.design) (object_at instance slot.0)
            process ≡ true) slots.now }
        ensures design { self.new.design ≡ self.old.design }
        ensures kept { AreKept self.old.lists self.new.lists }
        ensures heard { OnOk result (IsHeard self.new.lists
            (map (λ slot. any_of instance slot.0) slots.now) process) }
    {
        for slot in slots {
            self.add(instance.0 as usize + slot.0 as usize, process)?;
        }
        Ok(())
    }

    /// A continuous assignment in an instance stands among the listeners of the objects in its expression.
    fn add_operands(
        &mut self,
        process: usize,
        instance: ObjectId,
        value: ExprId,
    ) -> Result<(), AllocError>
        requires { All (λ slot. may_listen (tables_of self.old.design) (object_at instance slot)
            process ≡ true) (reads (term_at (tables_of self.old.design).operands value.place)) }
        ensures design { self.new.design ≡ self.old.design }
        ensures kept { AreKept self.old.lists self.new.lists }
        ensures heard { OnOk result (IsHeard self.new.lists
            (map (any_of instance) (reads (term_at (tables_of self.old.design).operands
            value.place))) process) }
    {
        let mut slots = Vec::new(self.alloc);
        add_reads(&self.checked, value.place(), &mut slots)?;
        self.add_slots(process, instance, &slots)
    }

    /// A process of this kind stands among the listeners of the objects that the statement at a place awaits.
    fn add_waiting(&mut self, process: usize, kind: Process, place: u32) -> Result<(), AllocError>
        requires { slice_get (tables_of self.old.design).processes process ≡ Some kind }
        ensures design { self.new.design ≡ self.old.design }
        ensures kept { AreKept self.old.lists self.new.lists }
        ensures heard { OnOk result (IsHeard self.new.lists
            (statement_terms (tables_of self.old.design) place kind) process) }
    {
        match kind {
            Process::Procedure { instance, .. } => self.add_statement(process, instance, place),
            Process::Assignment { .. } | Process::Connection { .. } => Ok(()),
        }
    }

    /// A process of this kind stands among the listeners of its operands.
    fn add_continuous(&mut self, process: usize, kind: Process) -> Result<(), AllocError>
        requires { slice_get (tables_of self.old.design).processes process ≡ Some kind }
        ensures design { self.new.design ≡ self.old.design }
        ensures kept { AreKept self.old.lists self.new.lists }
        ensures heard { OnOk result (IsHeard self.new.lists
            (operand_terms (tables_of self.old.design) kind) process) }
    {
        match kind {
            Process::Procedure { .. } => Ok(()),
            Process::Assignment {
                instance,
                value,
                ..
            } => self.add_operands(process, instance, value),
            Process::Connection { port, .. } => self.add(port.0 as usize, process),
        }
    }

    /// A process of this kind stands among the listeners of the objects that it awaits when it waits so.
    fn add_process(
        &mut self,
        process: usize,
        kind: Process,
        waiting: Waiting,
    ) -> Result<(), AllocError>
        requires { slice_get (tables_of self.old.design).processes process ≡ Some kind }
        ensures design { self.new.design ≡ self.old.design }
        ensures kept { AreKept self.old.lists self.new.lists }
        ensures heard { OnOk result (IsHeard self.new.lists
            (terms_of (tables_of self.old.design) waiting kind) process) }
    {
        match waiting {
            Waiting::Nothing => Ok(()),
            Waiting::Statement(place) => self.add_waiting(process, kind, place),
            Waiting::Operands => self.add_continuous(process, kind),
        }
    }

    /// A process is known to stand among the listeners of the objects that it awaits when it waits so.
    fn set_known(&mut self, process: usize, waiting: Waiting)
        requires { IsHeard self.old.lists (awaited_by (tables_of self.old.design) waiting process)
            process }
        ensures { self.new ≡ self.old }
    {
        set_wait(&mut self.known, process, waiting);
    }

    /// A process is known to wait so.
    #[inline(always)]
    fn knows(&self, process: usize, waiting: Waiting) -> bool
        ensures { result ≡ true → IsHeard self.now.lists
            (awaited_by (tables_of self.now.design) waiting process) process }
    {
        wait_of(&self.known, process).is_same(&waiting)
    }

    /// A process begins to wait so: it stands among the listeners of the objects that it awaits. Takes memory the first time.
    #[inline(always)]
    pub fn listen(&mut self, process: usize, waiting: Waiting) -> Result<(), AllocError>
        ensures design { self.new.design ≡ self.old.design }
        ensures kept { AreKept self.old.lists self.new.lists }
        ensures heard { OnOk result (IsHeard self.new.lists
            (awaited_by (tables_of self.old.design) waiting process) process) }
    {
        if self.knows(process, waiting) {
            return Ok(());
        }
        self.begin_to_listen(process, waiting)
    }

    /// The same where it is not known to wait so.
    #[inline(never)]
    fn begin_to_listen(&mut self, process: usize, waiting: Waiting) -> Result<(), AllocError>
        ensures design { self.new.design ≡ self.old.design }
        ensures kept { AreKept self.old.lists self.new.lists }
        ensures heard { OnOk result (IsHeard self.new.lists
            (awaited_by (tables_of self.old.design) waiting process) process) }
    {
        if let Some(kind) = process_at(&self.checked, process) {
            self.add_process(process, kind, waiting)?;
        }
        self.set_known(process, waiting);
        Ok(())
    }

    /// All processes stand among the listeners of the objects that they await when they wait so. Takes memory.
    pub fn listen_all(&mut self, waiting: &[Waiting]) -> Result<(), AllocError>
        ensures design { self.new.design ≡ self.old.design }
        ensures kept { AreKept self.old.lists self.new.lists }
        ensures heard { OnOk result (AreHeard (tables_of self.old.design) self.new.lists
            waiting.now) }
    {
        for process in 0..waiting.len() {
            self.listen(process, waiting[process])?;
        }
        Ok(())
    }
}
