//! The envelopes of a design that are closed to a user.
use crate::tests::sessions::READER;
use std::alloc::Global;
use vp_design::shared_of;
use vp_elab::{Design, ObjectId};
use vp_policy::{UserId, read_policy};
use vp_text::Sequence;

/// The README's design. Its objects are `top` (0), `a` (1), `k` (2) and the process (3).
const DESIGN: &str = "module top;
  reg a;
`pragma protect author=\"acme\", begin
  reg k;
`pragma protect end
  initial begin a = 1'b1; k = a; end
endmodule
";

/// The envelopes of a scope of a design that are closed to Ann.
fn closed_in(alloc: Global, design: &Design, scope: Option<ObjectId>) -> Option<Sequence<u8>> {
    let policy = read_policy(alloc, READER, design).ok()?;
    let closed = policy.closed(alloc, UserId(0), scope).ok();
    drop(policy);
    closed
}

/// The envelopes of a scope of the design that are closed to Ann.
fn closed(alloc: Global, scope: Option<ObjectId>) -> Option<Sequence<u8>> {
    let checked = shared_of(alloc, DESIGN)?;
    closed_in(alloc, checked.design(), scope)
}

#[test]
fn closed_envelopes(rt: HostRuntime) {
    let rows: [(Option<ObjectId>, &[u8]); 2] = [(None, &[]), (Some(ObjectId(0)), &[1])];
    for (scope, want) in rows {
        let numbers = closed(rt.alloc(), scope).expect(&rt, "numbers");
        assert_eq!(rt; numbers.as_slice(), want);
    }
}
