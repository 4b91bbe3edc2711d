ghost use Rattle.std.specs.Prelude.{◌≡◌, true};

/// Is asked between the orders of a search whether it goes on.
pub trait Gate {
    // Every turn of the gate answers true.
    ghost stays_open: { Self → Type 0 };

    /// Whether the search goes on.
    fn turn(&self) -> bool
        ensures { stays_open self.now → result ≡ true };
}

/// A gate that is always open.
#[derive(Clone, Copy, Debug)]
pub struct OpenGate;

impl Gate for OpenGate {
    ghost stays_open = { λ _. Unit {0} };

    fn turn(&self) -> bool {
        true
    }
}
