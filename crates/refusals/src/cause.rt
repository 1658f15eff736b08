// What is wrong with a call: one of a layer's causes.
ghost use Rattle.std.specs.Prelude.{◌≡◌, ℕ, ◌≤◌};

/// A cause of refusals, which is known by a number.
pub trait Cause {
    /// The name under which a refusal with such a cause is shown by `{:?}`: `Fault`, unless the layer gives its own.
    const FAULT: &'static str = "Fault";

    ghost number_of: { Self → ℕ };

    /// The number of the refusal.
    fn number(self) -> u8
        ensures { result ≡ number_of self };
}
