//! Reporting how far the reading of a stream has come.

ghost use Rattle.std.specs.Prelude.{◌≡◌};
ghost use Rattle.gix_hash.specs.Hashing.{ProgressCall, Init, IncBy, ShowThroughput};

/// Receives how far the reading of a stream has come, in bytes.
///
/// An implementation specifies its calls by `hears`: a relation of its value before a call, the
/// call, and its value after the call.
///
/// ```
/// struct Total(u64);
///
/// impl Progress for Total {
///     ghost hears = { λ before call after. ⊤ };
///
///     fn init(&mut self, _max: Option<u64>) {}
///
///     fn inc_by(&mut self, step: u64) {
///         self.0 = self.0.saturating_add(step);
///     }
///
///     fn show_throughput(&mut self) {}
/// }
/// ```
pub trait Progress {
    ghost hears: { Self → ProgressCall → Self → Type 0 };

    /// The reading begins, of `max` bytes in all if that is known.
    fn init(&mut self, max: Option<u64>)
        ensures { hears self.old (Init max) self.new };

    /// `step` bytes more were read.
    fn inc_by(&mut self, step: u64)
        ensures { hears self.old (IncBy step) self.new };

    /// All bytes were read.
    fn show_throughput(&mut self)
        ensures { hears self.old ShowThroughput self.new };
}

/// A progress that does nothing, and stays as it is.
///
/// ```
/// let id = bytes(&mut reader, 41, Kind::Sha1, &mut NoProgress, &mut Never)?;
/// ```
#[derive(Clone, Copy, Debug)]
pub struct NoProgress;

impl Progress for NoProgress {
    ghost hears = { λ before call after. after ≡ before };

    fn init(&mut self, _max: Option<u64>) {}

    fn inc_by(&mut self, _step: u64) {}

    fn show_throughput(&mut self) {}
}
