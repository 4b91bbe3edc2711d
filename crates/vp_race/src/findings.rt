ghost use Rattle.std.specs.Prelude.{◌≡◌, ◌<◌, ◌∷◌, ◌++◌, ◌&&◌, [], if◌then◌else◌, not, length, None, Some, IfOk, OnOk, IsOkUnless};
ghost use Rattle.vp_race.specs.declared.error.RaceError.TheVariants.{NoMemory};
ghost use Rattle.vp_race.specs.Orders.{after_choices, differs};
ghost use Rattle.vp_race.specs.Search.{finding_of, found_after, is_among, objects_of};

use crate::comparison::finding_at;
use crate::error::RaceError;
use crate::finding::Finding;
use crate::pair::SegmentOrders;
use std::alloc::{AllocError, Global};
use std::marker::Model;
use vp_elab::ObjectId;
use vp_sim::Sim;

/// What a search has found, each object once. A contract sees the findings, and among how many objects they are.
#[derive(Drop)]
pub struct Findings {
    list: Vec<Finding>,
    /// Of each object, whether it is found.
    marks: Vec<bool>,
}

impl Model for Findings {
    ghost use Rattle.std.specs.Prelude.{length};
    ghost use Rattle.vp_race.specs.Search.{AreMarked, Listed};

    ghost Value = { Listed };

    ghost view = { λ f. record { findings = f.list.items; objects = length f.marks.items } };

    ghost invariant = { λ f. AreMarked f.list.items f.marks.items };
}

impl Findings {
    /// No finding, among so many objects. Takes memory for a mark of each.
    pub fn new(alloc: Global, objects: u32) -> Result<Findings, AllocError>
        ensures findings { IfOk result (λ f. f.findings ≡ []) }
        ensures objects { IfOk result (λ f. f.objects ≡ objects) }
    {
        let marks = vec![in alloc; false; objects as usize]?;
        Ok(Findings {
            list: Vec::new(alloc),
            marks,
        })
    }

    /// The findings.
    pub fn into_vec(self) -> Vec<Finding>
        ensures { result.items ≡ self.findings }
    {
        self.list
    }

    /// An object is found.
    fn has(&self, object: ObjectId) -> bool
        requires { object.0 < self.now.objects }
        ensures { result ≡ is_among (objects_of self.now.findings) object.0 }
    {
        self.marks[object.0 as usize]
    }

    /// One finding more. Takes memory.
    fn push(&mut self, finding: Finding) -> Result<(), AllocError>
        requires { finding.object.0 < self.old.objects }
        ensures findings { OnOk result (self.new.findings ≡ self.old.findings ++ finding ∷ []) }
        ensures objects { self.new.objects ≡ self.old.objects }
    {
        let object = finding.object().0 as usize;
        self.list.push(finding)?;
        self.marks[object] = true;
        Ok(())
    }

    /// Finds an object, if it is not found and is a net or reg that has different values in the simulations after two orders; or want of
    /// memory (1207).
    fn find_at(
        &mut self,
        beside: &SegmentOrders,
        first: &Sim,
        second: &Sim,
        object: ObjectId,
    ) -> Result<(), RaceError>
        requires first { let segment = beside.now.segment in
            after_choices segment.start segment.order ≡ Some first.now }
        requires second { let segment = beside.now.segment in
            after_choices segment.start beside.now.second ≡ Some second.now }
        requires within { object.0 < self.old.objects }
        ensures found { OnOk result (self.new.findings ≡ self.old.findings
            ++ (if differs first.now second.now object.0
            && not (is_among (objects_of self.old.findings) object.0)
            then finding_of beside.now.segment beside.now.second object.0 ∷ [] else [])) }
        ensures objects { self.new.objects ≡ self.old.objects }
        ensures memory { IsOkUnless result NoMemory }
    {
        if self.has(object) {
            return Ok(());
        }
        if let Some(finding) = finding_at(beside, first, second, object)? {
            self.push(finding)?;
        }
        Ok(())
    }

    /// Finds each net and reg that is not found and has different values in the simulations after two orders; or out of memory (1207).
    pub fn find_after(
        &mut self,
        beside: &SegmentOrders,
        first: &Sim,
        second: &Sim,
    ) -> Result<(), RaceError>
        requires first { let segment = beside.now.segment in
            after_choices segment.start segment.order ≡ Some first.now }
        requires second { let segment = beside.now.segment in
            after_choices segment.start beside.now.second ≡ Some second.now }
        requires objects { self.old.objects ≡ length first.now.design.tree.nodes }
        ensures found { OnOk result (self.new.findings ≡ self.old.findings
            ++ found_after beside.now.segment (objects_of self.old.findings) first.now
            beside.now.second (Some second.now)) }
        ensures objects { self.new.objects ≡ self.old.objects }
        ensures memory { IsOkUnless result NoMemory }
    {
        for object in 0..first.design().count() {
            self.find_at(beside, first, second, ObjectId(object))?;
        }
        Ok(())
    }
}
