//! Texts, policies, and worlds of them in which nothing has happened.
ghost use Rattle.std.specs.Prelude.{◌≡◌, ◌<◌, [], IfSome};
ghost use Rattle.vp_world.specs.History.{most_entries};

use std::alloc::Global;
use std::sync::ledger::Blank;
use vp_design::shared_of;
use vp_policy::read_policy;
use vp_world::{Limits, World};

/// A clock `c` at the top (object 1), and below it a module with an envelope, in which stand `k` and `s`.
pub const CLOCKED: &str = "module ip(input wire c, output reg q);
`pragma protect author=\"acme\", begin
  reg k, s;
`pragma protect viewport=(object=\"ip.s\", access=\"read\")
  initial begin k = 1'b1; s = 1'b0; end
  always @(posedge c) begin s = k; q = s; end
`pragma protect end
endmodule
module top;
  reg c;
  wire q;
  ip u(.c(c), .q(q));
  initial begin c = 0; #5 c = 1; end
endmodule
";

/// Two processes that race for `a` and for `b` at time 5.
pub const SWAPPED: &str = "module top;
  reg a, b, c;
  initial begin a = 0; b = 1; c = 0; #5 c = 1; end
  always @(posedge c) a = b;
  always @(posedge c) b = a;
endmodule
";

/// A reg that changes at each time, for ever.
pub const ENDLESS: &str =
    "module top; reg r; initial begin r = 0; forever #1 r = ~r; end endmodule";

/// A process that goes round in its first time slot without an end.
pub const SPINNING: &str = "module top; reg r; initial begin r = 0; forever r = ~r; end endmodule";

/// A policy with three users: Ann and Bob may do all in the open text, Bob in the envelope too; Cem may find what stands in the open text.
pub const USERS: &[u8] = b"{\"users\":[\
{\"name\":\"ann\",\"token\":\"t1\",\"open\":\"list+read+watch+put+race\",\"run\":true},\
{\"name\":\"bob\",\"token\":\"t2\",\"open\":\"list+read+watch+put+race\",\
\"grants\":[{\"envelope\":1,\"access\":\"list+read+watch+put+race\"}]},\
{\"name\":\"cem\",\"token\":\"t3\",\"open\":\"list\"}]}";

/// The same policy with an operator.
pub const OPERATED: &[u8] = b"{\"operator\":\"op\",\"users\":[\
{\"name\":\"ann\",\"token\":\"t1\",\"open\":\"list+read+watch+put+race\",\"run\":true},\
{\"name\":\"bob\",\"token\":\"t2\",\"open\":\"list+read+watch+put+race\",\
\"grants\":[{\"envelope\":1,\"access\":\"list+read+watch+put+race\"}]},\
{\"name\":\"cem\",\"token\":\"t3\",\"open\":\"list\"}]}";

/// A policy with two users, for a text without an envelope: Ann may do all there, Cem may find what stands there.
pub const TWO_USERS: &[u8] = b"{\"users\":[\
{\"name\":\"ann\",\"token\":\"t1\",\"open\":\"list+read+watch+put+race\",\"run\":true},\
{\"name\":\"cem\",\"token\":\"t3\",\"open\":\"list\"}]}";

/// The limits of a world whose log holds so many entries.
fn limits_of(entries: u32) -> Limits
    ensures { result.log ≡ entries }
{
    Limits {
        log: entries as usize,
        ..Limits::GREATEST
    }
}

/// A world of a text and a policy, of these limits, in which nothing has happened; none where one of them is refused, or out of memory.
pub fn world_with(alloc: Global, text: &str, policy: &[u8], limits: Limits) -> Option<World>
    ensures empty { IfSome result (λ world. world.log ≡ []) }
    ensures limits { IfSome result (λ world. world.opening.limits ≡ limits) }
{
    let checked = shared_of(alloc, text)?;
    let policy = read_policy(alloc, policy, checked.design()).ok()?;
    World::new(alloc, checked, policy, limits).ok()
}

/// The same, whose log holds so many entries.
pub fn world_of(alloc: Global, text: &str, policy: &[u8], entries: u32) -> Option<World>
    ensures empty { IfSome result (λ world. world.log ≡ []) }
    ensures limit { IfSome result (λ world. world.opening.limits.log ≡ entries) }
{
    world_with(alloc, text, policy, limits_of(entries))
}

/// A ledger with a part for each entry that a log may get, and one more.
pub fn blank() -> Blank
    ensures { most_entries < result.parts }
{
    Blank::new((1 << 62) + 1)
}
