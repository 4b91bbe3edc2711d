ghost use Rattle.std.specs.Prelude.{◌≡◌, true, false, IfOk, IfSome, MatchOption};
ghost use Rattle.vp_operand.specs.Arena.{fitting};
ghost use Rattle.vp_expr.specs.Tables.{IsChecked, assignment_of};
ghost use Rattle.vp_resolve.specs.Checks.{refusal_of};
ghost use Rattle.vp_resolve.specs.Operands.{all_fit, operands_of, widths_of};

use crate::actions::{actions_of, sized_at};
use crate::awaited::{Awaited, awaits_of};
use crate::process::processes_of;
use std::alloc::{AllocError, Global};
use vp_elab::{Design, ObjectId};
use vp_operand::{ExprId, Operand, Slot, fitted, size_at, sizes_of};
use vp_resolve::width_in;
use vp_source::Span;
use vp_text::Sequence;

/// What of an object of an instance an assignment sets (clause 5.2.1).
#[derive(Clone, Copy)]
pub enum Target {
    /// The object, which has so many bits.
    Whole { slot: Slot, width: u8 },
    /// The bit at an index, by the place of that, which sizes itself; `lowest` is the index of the least significant bit.
    Bit { slot: Slot, lowest: u32, index: u32 },
    /// So many bits from a place on; the least significant bit has place 0.
    Part { slot: Slot, place: u32, width: u8 },
}

impl Target {
    ghost use Rattle.vp_expr.specs.Evaluation.{slot_of};

    /// The slot of the object of which something is set.
    pub fn slot(self) -> Slot
        ensures { result.0 ≡ slot_of self }
    {
        match self {
            Target::Whole { slot, .. } | Target::Bit { slot, .. } | Target::Part { slot, .. } =>
                slot,
        }
    }
}

/// A statement (clause 9), with a slot in place of a name. It names its parts by their places in the list of
/// actions or of operands. A condition sizes itself (5.4.1).
#[derive(Clone, Copy)]
pub enum Action {
    /// A block without statements.
    Nothing,
    /// The statements of a block, and one more after them.
    Then {
        list: u32,
        last: u32,
    },
    /// A blocking assignment of a value, at the greater of its size and the target's width.
    Assign {
        target: Target,
        value: ExprId,
    },
    /// A statement that does nothing (A.6.4).
    Null,
    /// A nonblocking assignment of a value, sized as that of a blocking one, perhaps after a delay (9.2.2).
    Nonblocking {
        target: Target,
        value: ExprId,
        delay: Option<u32>,
    },
    /// A statement after a delay (9.7.1).
    Delay {
        amount: u32,
        body: u32,
    },
    /// A statement after an event; what it waits for stands in the table of what is awaited (9.7.2 to 9.7.5).
    Event {
        body: u32,
    },
    /// Waits until a condition is true (9.7.6).
    Wait {
        condition: ExprId,
        body: u32,
    },
    /// A choice, perhaps with an `else` (9.4).
    If {
        condition: ExprId,
        first: u32,
        second: Option<u32>,
    },
    /// Goes on as long as a condition is true; a `for`'s turns end with its step (9.6).
    While {
        condition: ExprId,
        body: u32,
        step: Option<u32>,
    },
    /// An assignment, and then a loop (9.6).
    For {
        start: u32,
        turns: u32,
    },
    /// One of a span of the source's choices, by a selector at the greatest of its size and the sizes of all labels, which is the
    /// context of each label too; `casez` takes z and ? for anything (9.5).
    Case {
        is_wild: bool,
        selector: ExprId,
        choices: Span,
    },
    /// Goes on without an end (9.6).
    Forever {
        body: u32,
    },
    /// Ends the simulation (17.4.1).
    Finish,
}

/// What goes on by itself.
#[derive(Clone, Copy)]
pub enum Process {
    /// A procedure (clause 9.9): its object, the instance in which it stands, and its statement by its place in the list of
    /// actions.
    Procedure {
        object: ObjectId,
        instance: ObjectId,
        /// It is an `always`, which begins again when it is over (clause 9.9.2).
        repeats: bool,
        body: u32,
    },
    /// A continuous assignment (clause 6.1), or a connection of a port inwards (clause 12.3.9.2): its object (the port's, for a
    /// connection), the net that it drives, and the value, an expression that is evaluated for an instance.
    Assignment {
        object: ObjectId,
        net: ObjectId,
        instance: ObjectId,
        value: ExprId,
    },
    /// A connection of a port outwards: the port, whose value the net outside gets (clause 12.3.9.2).
    Connection {
        port: ObjectId,
        net: ObjectId,
    },
}

impl Process {
    ghost use Rattle.vp_expr.specs.Tables.{process_object};

    /// The object of the process; of a connection the port.
    pub fn object(self) -> ObjectId
        ensures { result ≡ process_object self }
    {
        match self {
            Process::Procedure { object, .. } | Process::Assignment { object, .. } => object,
            Process::Connection { port, .. } => port,
        }
    }
}

/// What a simulator runs: a design's expressions and statements, by the places that they have in its source, and its processes
/// in the order of their objects.
#[derive(Drop)]
pub struct Tables {
    pub operands: Sequence<Operand>,
    /// The width of each object, in bits.
    pub widths: Sequence<u8>,
    /// The size of each operand, in bits.
    pub sizes: Sequence<u8>,
    pub actions: Sequence<Action>,
    pub processes: Sequence<Process>,
    /// The changes for which statements wait, one statement's after the other's.
    pub awaited: Sequence<Awaited>,
    /// Of each statement, by its place, where its own changes end.
    pub awaited_ends: Sequence<usize>,
}

/// A continuous assignment of the expression at a place to a net, at the greater of the net's width and its own size.
pub fn assignment_of(
    design: &Design,
    sizes: &[u8],
    object: ObjectId,
    net: ObjectId,
    instance: ObjectId,
    value: u32,
) -> Option<Process>
    ensures { result ≡ assignment_of design.now sizes.now object net instance value }
{
    let size = width_in(design, net).max(u32::from(size_at(sizes, value)));
    let value = sized_at(value, size)?;
    Some(Process::Assignment {
        object,
        net,
        instance,
        value,
    })
}

/// The widths of the objects of a design, in bits; none where one is not 1 to 64.
fn widths_of(alloc: Global, design: &Design) -> Result<Option<Sequence<u8>>, AllocError>
    ensures { IfOk result (λ widths. widths ≡ fitting (widths_of design.now)) }
{
    let mut widths = Vec::new(alloc);
    for object in design.objects() {
        let Some(width) = fitted(u64::from(object.width)) else {
            return Ok(None);
        };
        widths.push(width)?;
    }
    Ok(Some(Sequence::from_vec(widths)))
}

/// The tables of a design, with its expressions as operands; none where a width or a size is not 1 to 64.
#[tactic(auto, unfolding(crate::specs::Tables::tables_of))]
pub fn tables_of(
    alloc: Global,
    design: &Design,
    operands: Sequence<Operand>,
) -> Result<Option<Tables>, AllocError>
    requires operands { operands ≡ operands_of design.now }
    requires accepted { refusal_of design.now ≡ None }
    ensures tables { IfOk result (λ tables. IfSome tables (λ t. IsChecked design.now t)) }
    ensures fit { IfOk result (λ tables. MatchOption tables (all_fit design.now ≡ false)
        (λ t. all_fit design.now ≡ true)) }
{
    let Some(widths) = widths_of(alloc, design)? else {
        return Ok(None);
    };
    let Some(sizes) = sizes_of(alloc, operands.as_slice())? else {
        return Ok(None);
    };
    let actions = actions_of(alloc, design, sizes.as_slice())?;
    let processes = processes_of(alloc, design, sizes.as_slice())?;
    let awaits = awaits_of(alloc, design, operands.as_slice())?;
    Ok(Some(Tables {
        operands,
        widths,
        sizes,
        actions,
        processes,
        awaited: Sequence::from_vec(awaits.awaited),
        awaited_ends: Sequence::from_vec(awaits.ends),
    }))
}
