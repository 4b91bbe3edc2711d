//! The design and the policy that are served.
ghost use Rattle.std.specs.Prelude.{◌≡◌, [], IfSome};
ghost use Rattle.std.specs.Arc.{arc_value};

use std::alloc::{AllocError, Global};
use std::sync::Arc;
use vp_design::shared_of;
use vp_expr::Checked;
use vp_policy::read_policy;
use vp_world::{Limits, World};

/// A design with a clock that runs on and two envelopes, in the second of which there is a race whenever the first one's counter has come
/// round.
pub const DESIGN: &str = "module counter(input wire clk, output reg [3:0] q);
`pragma protect author=\"acme\", begin
  reg [3:0] k, s;
`pragma protect viewport=(object=\"counter.s\", access=\"read\")
  initial begin k = 4'd0; s = 4'd0; q = 4'd0; end
  always @(posedge clk) begin
    k = k + 4'd1;
    if (k == 4'd0) begin s = s + 4'd1; q = q + 4'd1; end
  end
`pragma protect end
endmodule
module mixer(input wire [3:0] c, output reg [3:0] y);
`pragma protect author=\"bell\", begin
  reg [3:0] m, n;
  always @(c) m = c;
  always @(c) n = m;
  always @(n) y = n;
`pragma protect end
endmodule
module top;
  reg clk;
  reg [3:0] a, b, r;
  wire [3:0] q, y;
  counter u(.clk(clk), .q(q));
  mixer v(.c(q), .y(y));
  initial clk = 1'b0;
  always #1 clk = ~clk;
  always @(posedge clk) r <= a ^ b;
endmodule
";

/// About so many entries come to the log while the simulation of the design goes on by a time unit.
pub const ENTRIES_IN_UNIT: u64 = 9;

/// So many users the policy has, u1, u2, .., each of whom opens one session.
pub const CLIENTS: u64 = 64;

/// The number of the user who may let the design run, and who does.
pub const RUNNER: u64 = 1;

/// What the policy opens in the open text to the user of a number.
fn open_rights(number: u64) -> &'static str {
    if number % 8 == 7 {
        "list+read"
    } else {
        "list+read+watch+put+race"
    }
}

/// What the policy grants the user of a number in the envelopes.
fn grants(number: u64) -> &'static str {
    match number % 4 {
        0 => "{\"envelope\":1,\"access\":\"list+read+watch\"}",
        1 => "{\"envelope\":1,\"access\":\"list+read+watch+put\"},\
{\"envelope\":2,\"access\":\"list+read+watch+put+race\"}",
        2 => "{\"envelope\":2,\"access\":\"list+watch\"}",
        _ => "",
    }
}

/// The user of a number, as the policy has him.
fn user_text(alloc: Global, number: u64) -> Result<String, AllocError> {
    let open = open_rights(number);
    let run = number == RUNNER;
    let grants = grants(number);
    format!(in alloc;
        "{{\"name\":\"u{number}\",\"token\":\"t{number}\",\"open\":\"{open}\",\"run\":{run},\"grants\":[{grants}]}}"
    )
}

/// The policy.
fn policy_text(alloc: Global) -> Result<String, AllocError> {
    let mut text = String::from_str(alloc, "{\"operator\":\"op\",\"users\":[")?;
    for number in 1..=CLIENTS {
        if number > 1 {
            text.push(',')?;
        }
        text.push_str(user_text(alloc, number)?.as_str())?;
    }
    text.push_str("]}")?;
    Ok(text)
}

/// The design, checked, to be shared.
pub fn design(alloc: Global) -> Option<Arc<Checked>> {
    shared_of(alloc, DESIGN)
}

/// A world of the design and the policy in which nothing has happened.
pub fn world_of(alloc: Global, checked: &Arc<Checked>, limits: Limits) -> Option<World>
    ensures design { IfSome result (λ world. world.opening.design ≡ arc_value checked.now) }
    ensures limits { IfSome result (λ world. world.opening.limits ≡ limits) }
    ensures empty { IfSome result (λ world. world.log ≡ []) }
{
    let policy = policy_text(alloc).ok()?;
    let checked = Arc::try_clone(checked).ok()?;
    let policy = read_policy(alloc, policy.as_bytes(), checked.design()).ok()?;
    match World::new(alloc, checked, policy, limits) {
        Ok(world) => Some(world),
        Err(_) => None,
    }
}
