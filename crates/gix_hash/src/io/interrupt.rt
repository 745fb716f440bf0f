//! Asking whether the reading of a stream should stop.

ghost use Rattle.std.specs.Prelude.{◌≡◌, Bool, false};

/// A cancellation check, which is called after each chunk of a stream.
///
/// An implementation specifies the call by `answers`: a relation of its value before the call, the
/// returned `bool`, and its value after the call.
///
/// ```
/// struct AtOnce;
///
/// impl Interrupt for AtOnce {
///     ghost answers = { λ before answer after. answer ≡ true };
///
///     fn should_interrupt(&mut self) -> bool {
///         true
///     }
/// }
/// ```
pub trait Interrupt {
    ghost answers: { Self → Bool → Self → Type 0 };

    /// Whether to stop here.
    fn should_interrupt(&mut self) -> bool
        ensures { answers self.old result self.new };
}

/// An interruption that never comes: each call returns false and leaves it as it was.
///
/// ```
/// let id = bytes(&mut reader, 41, Kind::Sha1, &mut NoProgress, &mut Never)?;
/// ```
#[derive(Clone, Copy, Debug)]
pub struct Never;

impl Interrupt for Never {
    ghost answers = { λ before answer after. (answer ≡ false) × (after ≡ before) };

    fn should_interrupt(&mut self) -> bool {
        false
    }
}
