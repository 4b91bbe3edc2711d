ghost use Rattle.std.specs.Prelude.{◌≡◌, ◌≤◌, false, filter, length, true};
ghost use Rattle.std.specs.List.Sorted.{IsPartitionPoint};
ghost use Rattle.vp_notify.specs.Registry.{AreOrdered, is_below, is_by, is_on};

use crate::registry::Callback;
use vp_expr::ObjectId;

/// How many of the callbacks, which stand by object, are on an object or a lower one.
pub fn count_by(callbacks: &[Callback], object: ObjectId) -> usize
    requires { AreOrdered callbacks.now }
    ensures parted { IsPartitionPoint (λ c. is_by object.0 c ≡ true) (λ c. is_by object.0 c ≡ false)
        callbacks.now result }
    ensures within { result ≤ length callbacks.now }
{
    callbacks.partition_point(|callback| callback.object.0 <= object.0)
}

/// How many of the callbacks, which stand by object, are on lower objects.
fn count_below(callbacks: &[Callback], object: ObjectId) -> usize
    requires { AreOrdered callbacks.now }
    ensures parted { IsPartitionPoint (λ c. is_below object.0 c ≡ true)
        (λ c. is_below object.0 c ≡ false) callbacks.now result }
    ensures within { result ≤ length callbacks.now }
{
    callbacks.partition_point(|callback| callback.object.0 < object.0)
}

/// Those of the callbacks, which stand by object, that are on an object.
pub fn on_object(callbacks: &[Callback], object: ObjectId) -> &[Callback]
    requires { AreOrdered callbacks.now }
    ensures { result.now ≡ filter (is_on object.0) callbacks.now }
{
    let by = &callbacks[..count_by(callbacks, object)];
    &by[count_below(by, object)..]
}
