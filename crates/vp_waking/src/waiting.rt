ghost use Rattle.std.specs.Prelude.{◌≡◌, slice_set};
ghost use Rattle.vp_waking.specs.Waking.{wait_of};

use vp_text::Same;

/// What a process waits for.
#[derive(Clone, Copy)]
pub enum Waiting {
    /// Nothing: it is active, or over.
    Nothing,
    /// The changes for which the statement at a place waits.
    Statement(u32),
    /// Of a continuous process, changes of its operands.
    Operands,
}

impl Same for Waiting {
    /// What is waited for is the same.
    fn is_same(&self, other: &Waiting) -> bool {
        match (self, other) {
            (Waiting::Nothing, Waiting::Nothing) | (Waiting::Operands, Waiting::Operands) => true,
            (Waiting::Statement(first), Waiting::Statement(second)) => first == second,
            _ => false,
        }
    }
}

/// What a process waits for; nothing past the end.
pub fn wait_of(waiting: &[Waiting], process: usize) -> Waiting
    ensures { result ≡ wait_of waiting.now process }
{
    match waiting.get(process) {
        Some(wait) => *wait,
        None => Waiting::Nothing,
    }
}

/// A process waits so.
pub fn set_wait(waiting: &mut Vec<Waiting>, process: usize, wait: Waiting)
    ensures { waiting.new.items ≡ slice_set waiting.old.items process wait }
{
    if let Some(place) = waiting.get_mut(process) {
        *place = wait;
    }
}
