//! What is declared in the scopes of a design. Each function asks one question, which keeps each proof short.

use std::alloc::Global;
use vp_design::shared_of;
use vp_elab::{Design, ObjectId};
use vp_text::Sequence;

/// Two top modules, one of them with a reg and two instances, each of which has two ports and an assignment.
const DESIGN: &str = "module inv(input wire a, output wire y);
  assign y = ~a;
endmodule
module top;
  reg r;
  inv u(r), v(.a(r));
endmodule
module other;
endmodule
";

/// The top modules of a design.
fn roots_of(alloc: Global, design: &Design) -> Option<Sequence<ObjectId>> {
    design.roots(alloc).ok()
}

/// The top modules of the design.
fn roots(alloc: Global) -> Option<Sequence<ObjectId>> {
    let checked = shared_of(alloc, DESIGN)?;
    roots_of(alloc, checked.design())
}

#[test]
fn top_modules(rt: HostRuntime) {
    let roots = roots(rt.alloc()).expect(&rt, "roots");
    assert_eq!(rt; roots.as_slice(), [ObjectId(0), ObjectId(10)].as_slice());
}

/// What is declared in a scope of a design.
fn children_in(alloc: Global, design: &Design, scope: ObjectId) -> Option<Sequence<ObjectId>> {
    design.children(alloc, scope).ok()
}

/// What is declared in a scope of the design.
fn children(alloc: Global, scope: u32) -> Option<Sequence<ObjectId>> {
    let checked = shared_of(alloc, DESIGN)?;
    children_in(alloc, checked.design(), ObjectId(scope))
}

#[test]
fn declared_in_scopes(rt: HostRuntime) {
    let rows = [
        (0, [ObjectId(1), ObjectId(2), ObjectId(6)]),
        (2, [ObjectId(3), ObjectId(4), ObjectId(5)]),
        (6, [ObjectId(7), ObjectId(8), ObjectId(9)]),
    ];
    for (scope, wanted) in rows {
        let children = children(rt.alloc(), scope).expect(&rt, "children");
        assert_eq!(rt; children.as_slice(), wanted.as_slice(), "in {scope}");
    }
}
