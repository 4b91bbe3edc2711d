ghost use Rattle.vp_text.specs.Refusals.{MayExplain};
ghost use Rattle.vp_resolve.specs.declared.error.ExprError.TheVariants.{NoMemory};
ghost use Rattle.std.specs.Prelude.{◌≡◌, ◌≤◌, ℕ, [], slice_index_or, true, length, map, All, None, IfErr, IfOk, OnOk};
ghost use Rattle.std.specs.List.{list_all};
ghost use Rattle.vp_expr.specs.Origins.{origins_of};
ghost use Rattle.vp_operand.specs.Arena.{is_width};
ghost use Rattle.vp_source.specs.ExprGrammar.{Expr};
ghost use Rattle.vp_source.specs.declared.source.Module.{Module};
ghost use Rattle.vp_expr.specs.Awaits.{awaits_of};
ghost use Rattle.vp_expr.specs.Derived.{HasTerm, StandsAt, expr_term};
ghost use Rattle.vp_expr.specs.Resolved.{NamesAreFound, StatementsAreActions};
ghost use Rattle.vp_expr.specs.Tables.{IsChecked, awaited_of, tables_of};
ghost use Rattle.vp_resolve.specs.Checks.{refusal_of};
ghost use Rattle.vp_resolve.specs.Names.{scope_of};
ghost use Rattle.vp_resolve.specs.Operands.{operands_of};

use crate::awaited::{Awaited, cut_at};
use crate::tables::{Tables, tables_of};
use std::alloc::Global;
use std::marker::Model;
use vp_elab::{Design, Object};
use vp_resolve::{ExprError, operands_of, refuse};

/// A design whose expressions are at most 64 bits wide, with the tables that a simulator runs. A contract sees the design,
/// of which the tables are a function.
#[derive(Drop)]
pub struct Checked {
    design: Design,
    tables: Tables,
}

impl Model for Checked {
    ghost use Rattle.vp_elab.specs.Built.{Elaborated};

    ghost Value = { Elaborated };

    ghost view = { λ c. c.design };

    ghost use Rattle.vp_expr.specs.Tables.{IsChecked};

    ghost invariant = { λ c. IsChecked c.design c.tables };
}

impl Checked {
    /// The design.
    pub fn design(&self) -> &Design
        ensures { result.now ≡ self.now }
    {
        &self.design
    }

    /// The objects of the design.
    pub fn objects(&self) -> &[Object]
        ensures kinds { map (λ o. o.kind) result.now ≡ map (λ n. n.kind) self.now.tree.nodes }
        ensures widths { map (λ o. o.width) result.now ≡ map (λ n. n.width) self.now.tree.nodes }
        ensures fit { All (λ o. (1 ≤ o.width) × (o.width ≤ 64)) result.now }
    {
        self.design.objects()
    }

    /// What a simulator runs, with all processes of the design.
    pub fn tables(&self) -> &Tables
        ensures tables { result.now ≡ tables_of self.now }
        ensures fit { list_all is_width result.now.sizes ≡ true }
        ensures whole { length result.now.processes ≡ length (origins_of self.now) }
    {
        &self.tables
    }

    /// The expression at a place has the size, the sign and the reads of the derivation that stands there (clauses 5.4.1, 5.5.1 and
    /// 9.7.5).
    pub fn derivations_are_expressions(&self)
        ensures { (m : Module) (place : ℕ) (e : Expr) → StandsAt self.now m place e
            → HasTerm self.now place (expr_term self.now (scope_of self.now m) e) }
    {
        self.design.source_is_whole();
    }

    /// Nothing is lost: each name that a module uses finds its item in each object of the module, and each statement is an action.
    pub fn nothing_is_lost(&self)
        ensures names { NamesAreFound self.now }
        ensures statements { StatementsAreActions self.now }
    {
        self.design.modules_are_right();
        self.design.items_are_found();
    }

    /// The changes for which the statement at a place waits.
    #[tactic(auto, unfolding(crate::specs::Tables::awaited_of))]
    pub fn awaited(&self, place: u32) -> &[Awaited]
        ensures cut { result.now ≡ awaited_of (tables_of self.now) place }
        ensures awaited { result.now ≡ slice_index_or (awaits_of self.now (operands_of self.now))
            place [] }
    {
        let tables = &self.tables;
        let ends = tables.awaited_ends.as_slice();
        cut_at(tables.awaited.as_slice(), ends, place as usize)
    }
}

/// The tables of a design that is not refused; or the first refusal that holds, or out of memory.
fn checked_tables(alloc: Global, design: &Design) -> Result<Tables, ExprError>
    ensures tables { IfOk result (λ tables. IsChecked design.now tables) }
    ensures accepted { OnOk result (refusal_of design.now ≡ None) }
    ensures refused { IfErr result (MayExplain NoMemory (refusal_of design.now)) }
{
    let operands = operands_of(alloc, design)?;
    refuse(alloc, design, operands.as_slice())?;
    match tables_of(alloc, design, operands)? {
        Some(tables) => Ok(tables),
        // Each width and each size of a design that is not refused is 1 to 64.
        None => unreachable!(),
    }
}

/// A design's expressions, checked; or the first refusal that holds, by its line: `TooWide` (601), `SignedCompare` (602), `BadSelect`
/// (603), each tested over the whole text; or out of memory (604). On a refusal the design is dropped.
pub fn check(alloc: Global, design: Design) -> Result<Checked, ExprError>
    ensures design { IfOk result (λ checked. checked ≡ design) }
    ensures accepted { OnOk result (refusal_of design ≡ None) }
    ensures refused { IfErr result (MayExplain NoMemory (refusal_of design)) }
{
    match checked_tables(alloc, &design) {
        Ok(tables) => Ok(Checked { design, tables }),
        Err(fault) => {
            // Dropped by a call, so that how a design is dropped is no part of this function's proof.
            drop(design);
            Err(fault)
        }
    }
}
