// What an expression reads.
ghost use Rattle.std.specs.Prelude.{◌≡◌, ◌++◌, map, OnOk};
ghost use Rattle.vp_operand.specs.Arena.{term_below, term_made};
ghost use Rattle.vp_operand.specs.Reads.{reads, slot_at, slots_at};

use crate::operand::{Operand, Slot, operand_before};
use std::alloc::AllocError;

/// Adds the slots that the operand at a place before an end reads.
#[cycle(reads)]
fn add_below(
    operands: &[Operand],
    end: usize,
    place: u32,
    slots: &mut Vec<Slot>,
) -> Result<(), AllocError>
    ensures { OnOk result (slots.new.items ≡ slots.old.items
        ++ map slot_at (reads (term_below operands.now end place))) }
{
    match operand_before(operands, end, place) {
        Some(operand) => add_of(operands, place as usize, operand, slots),
        None => Ok(()),
    }
}

/// Adds the slots that two operands before an end read.
#[cycle(reads)]
fn add_both(
    operands: &[Operand],
    end: usize,
    left: u32,
    right: u32,
    slots: &mut Vec<Slot>,
) -> Result<(), AllocError>
    ensures { OnOk result (slots.new.items ≡ slots.old.items
        ++ map slot_at (reads (term_below operands.now end left)
        ++ reads (term_below operands.now end right))) }
{
    add_below(operands, end, left, slots)?;
    add_below(operands, end, right, slots)
}

/// Adds the slots that an operand at a place reads.
#[cycle(reads)]
fn add_of(
    operands: &[Operand],
    place: usize,
    operand: Operand,
    slots: &mut Vec<Slot>,
) -> Result<(), AllocError>
    ensures { OnOk result (slots.new.items ≡ slots.old.items
        ++ map slot_at (reads (term_made operands.now place operand))) }
{
    match operand {
        Operand::Constant { .. } => Ok(()),
        Operand::Object { slot, .. } | Operand::PartSelect { slot, .. } => {
            slots.push(slot)?;
            Ok(())
        }
        Operand::BitSelect { slot, index, .. } => {
            slots.push(slot)?;
            add_below(operands, place, index, slots)
        }
        Operand::Applied(_, part)
        | Operand::Reduced(_, part)
        | Operand::Concatenated(part)
        | Operand::Replicated { list: part, .. } => add_below(operands, place, part, slots),
        Operand::Paired(_, left, right) => add_both(operands, place, left, right, slots),
        Operand::Appended { list, part } => add_both(operands, place, list, part, slots),
        Operand::Conditional(condition, first, second) => {
            add_both(operands, place, condition, first, slots)?;
            add_below(operands, place, second, slots)
        }
    }
}

/// Adds the slots that the expression at a place reads.
pub fn add_slots(operands: &[Operand], place: u32, slots: &mut Vec<Slot>) -> Result<(), AllocError>
    ensures { OnOk result (slots.new.items ≡ slots.old.items ++ slots_at operands.now place) }
{
    add_below(operands, operands.len(), place, slots)
}
