//! What a user sees of a design.
use crate::tests::sessions::READER;
use std::alloc::Global;
use vp_design::shared_of;
use vp_elab::Design;
use vp_policy::{SeenObject, UserId, View, read_policy};
use vp_text::Text;

/// A design in which `acme` hides two regs, and opens one of them by a viewport.
const DESIGN: &str = "module top;
  reg a;
`pragma protect author=\"acme\", begin
`pragma protect viewport=(object=\"top.s\", access=\"read\")
  reg k;
  reg s;
`pragma protect end
endmodule
";

/// What Ann sees of a design.
fn view_of(alloc: Global, design: &Design) -> Option<View> {
    let policy = read_policy(alloc, READER, design).ok()?;
    let view = policy.view(alloc, design, UserId(0)).ok();
    drop(policy);
    view
}

/// What Ann sees of the design.
fn view(alloc: Global) -> Option<View> {
    let checked = shared_of(alloc, DESIGN)?;
    view_of(alloc, checked.design())
}

/// How many objects Ann sees, and whether she may let the design run.
fn count_and_run(alloc: Global) -> Option<(usize, bool)> {
    let view = view(alloc)?;
    let count_and_run = (view.objects().len(), view.may_run());
    drop(view);
    Some(count_and_run)
}

#[test]
fn policy_view(rt: HostRuntime) {
    assert_eq!(rt; count_and_run(rt.alloc()), Some((3, true)));
}

/// The object of the first viewport that matches an object.
fn first_viewport(alloc: Global, object: &SeenObject) -> Option<Text> {
    Text::copy(alloc, object.viewports.as_slice().first()?.object.as_str()).ok()
}

/// The object of the viewport through which the last object of a view is seen.
fn viewport_of_last(alloc: Global, view: &View) -> Option<Text> {
    first_viewport(alloc, view.objects().last()?)
}

/// The object of the viewport through which Ann sees the last object.
fn last_viewport(alloc: Global) -> Option<Text> {
    let view = view(alloc)?;
    let object = viewport_of_last(alloc, &view);
    drop(view);
    object
}

#[test]
fn viewport_of_a_view(rt: HostRuntime) {
    let object = last_viewport(rt.alloc()).expect(&rt, "a viewport");
    assert_eq!(rt; object.as_str(), "top.s");
}
