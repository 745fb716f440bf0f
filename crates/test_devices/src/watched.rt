//! Devices of which it is known whether one was called after a failure.

use std::cell::Cell;
use std::io;

/// How the devices of a run fared.
#[derive(Clone, Copy, Debug, PartialEq, Eq)]
pub enum Course {
    /// None failed.
    Fine,
    /// One failed, and none was called after that.
    Failed,
    /// One was called after the failure of it or of another.
    AskedAgain,
}

impl Course {
    /// How devices fare whose n-th call fails, if there are that many.
    pub fn of_fault(n: usize, calls: usize) -> Course {
        if n <= calls {
            Course::Failed
        } else {
            Course::Fine
        }
    }
}

/// What the devices of a run report of their calls.
#[derive(Drop)]
pub struct Watch {
    course: Cell<Course>,
}

impl Watch {
    /// A run of which no call was made.
    pub fn new() -> Self {
        Watch {
            course: Cell::new(Course::Fine),
        }
    }

    /// How they fared.
    pub fn course(&self) -> Course {
        self.course.get()
    }

    // A device was asked.
    fn note(&self, fails: bool) {
        self.course.set(match self.course.get() {
            Course::Fine if fails => Course::Failed,
            Course::Fine => Course::Fine,
            Course::Failed | Course::AskedAgain => Course::AskedAgain,
        });
    }
}

/// A reader or a writer that reports its calls.
#[derive(Drop)]
pub struct Watched<'a, T> {
    inner: T,
    watch: &'a Watch,
}

impl<'a, T> Watched<'a, T> {
    /// A device that calls the inner one, and reports to the run's watch.
    pub fn new(inner: T, watch: &'a Watch) -> Self {
        Watched { inner, watch }
    }
}

impl<T: io::Read> io::Read for Watched<'_, T> {
    fn read(&mut self, buf: &mut [u8]) -> io::Result<usize> {
        let outcome = self.inner.read(buf);
        self.watch.note(outcome.is_err());
        outcome
    }
}

impl<T: io::Write> io::Write for Watched<'_, T> {
    fn write(&mut self, buf: &[u8]) -> io::Result<usize> {
        let outcome = self.inner.write(buf);
        self.watch.note(match &outcome {
            Ok(count) => *count == 0 && !buf.is_empty(),
            Err(_) => true,
        });
        outcome
    }

    fn flush(&mut self) -> io::Result<()> {
        let outcome = self.inner.flush();
        self.watch.note(outcome.is_err());
        outcome
    }
}
