// Objects that have other numbers now: of each number before, in order, the number now.
ghost use Rattle.std.specs.Prelude.{◌≡◌};
ghost use Rattle.vp_notify.specs.Renumbered.{number_now, rises};

use vp_expr::ObjectId;

/// Each of these numbers is higher than the one before it, so that objects keep their order under them.
pub fn rises(numbers: &[u32]) -> bool
    ensures { result ≡ rises numbers.now }
{
    let mut least = 0;
    for number in numbers {
        if u64::from(*number) < least {
            return false;
        }
        least = u64::from(*number) + 1;
    }
    true
}

/// The number now of an object; 0 of one that had no number before.
pub fn number_now(numbers: &[u32], object: ObjectId) -> ObjectId
    ensures { result.0 ≡ number_now numbers.now object.0 }
{
    ObjectId(numbers.get(object.0 as usize).copied().unwrap_or(0))
}
