//! How much of a file was read, on a line of a terminal.

ghost use Rattle.std.specs.Prelude.{◌≡◌, None, false};

use std::io::{self, IsTerminal, Read, Seek, SeekFrom};
use std::num::nearest_u64_to_f64 as nearest;
use std::path::Path;
use std::time::{Duration, Instant};

// How many milliseconds a command shows nothing after it began; and how many are at least between
// two lines, and between the first byte of a file and its line.
const DELAY: u64 = 2000;

const PAUSE: u64 = 200;

const MIB: u64 = 1 << 20;

const GIB: u64 = 1 << 30;

/// From when on a command that begins now shows how much it reads. It is `None`, and nothing is
/// shown, if that is not wanted, if standard error is no terminal, or if the clock fails.
pub fn first_due(rt: &HostRuntime, wanted: bool) -> Option<Instant>
    ensures { wanted ≡ false → result ≡ None }
{
    let due = due_after(rt, DELAY)?;
    (wanted && rt.stderr().is_terminal()).then_some(due)
}

// The time after a pause that begins now.
fn due_after(rt: &HostRuntime, pause: u64) -> Option<Instant> {
    let pause = Duration::from_millis(pause);
    Instant::now(rt).ok()?.checked_add(pause)
}

/// A reader that shows how much it has read. The line is cleared when the reader is dropped.
#[derive(Drop)]
pub(crate) struct Watched<'a, R> {
    inner: R,
    line: Line<'a>,
}

impl<'a, R> Watched<'a, R> {
    /// Wraps the reader of a file of this length, or 0 if it is not known. What was read is shown
    /// from a time on, if one is given.
    pub(crate) fn new(
        rt: &'a HostRuntime,
        path: &'a str,
        len: u64,
        due: Option<Instant>,
        inner: R,
    ) -> Self
        ensures { result.inner ≡ inner }
    {
        let line = Line {
            rt,
            path,
            len,
            read: 0,
            end: "",
            due: due.and(due_after(rt, PAUSE)).max(due),
            is_shown: false,
        };
        Watched { inner, line }
    }
}

impl<R: Read> Read for Watched<'_, R> {
    ghost remaining = { λ s. R.remaining s.inner };

    fn read(&mut self, buf: &mut [u8]) -> io::Result<usize> {
        let count = self.inner.read(buf);
        self.line.count(count.unwrap_or(0));
        count
    }
}

/// The one seek goes to the start of a file that is read again for its SHA-256.
impl<R: Seek> Seek for Watched<'_, R> {
    fn seek(&mut self, to: SeekFrom) -> io::Result<u64> {
        (self.line.read, self.line.end) = (0, " (SHA-256)");
        self.inner.seek(to)
    }
}

// What is shown of a file: how much of how many bytes was read, and what is after that.
struct Line<'a> {
    rt: &'a HostRuntime,
    path: &'a str,
    len: u64,
    read: u64,
    end: &'static str,
    // From when on it is written, or `None` if it is not.
    due: Option<Instant>,
    is_shown: bool,
}

impl Line<'_> {
    // Counts bytes that were read, and asks the clock once a MiB whether the line is due. It is
    // written again after the last byte.
    fn count(&mut self, count: usize) {
        let before = self.read;
        self.read = before.saturating_add(count as u64);
        let is_last = count > 0 && self.len == self.read;
        if is_last && self.is_shown || before / MIB < self.read / MIB && self.is_due() {
            self.write();
        }
    }

    // Whether the line is due. Then the next one is due after a pause, or never if the clock fails.
    fn is_due(&mut self) -> bool {
        let Some(due) = self.due else { return false };
        if Instant::now(self.rt).is_ok_and(|now| now < due) {
            return false;
        }
        self.due = due_after(self.rt, PAUSE);
        self.due.is_some()
    }

    // Writes the line over the last one, which is no longer. A write that fails is ignored.
    fn write(&mut self) {
        self.is_shown = true;
        let name = Path::new(self.path).file_name().unwrap_or(self.path);
        let (name, _) = name.split_once(char::is_control).unwrap_or((name, ""));
        let is_large = self.len >= GIB;
        let (size, unit) = if is_large { (GIB, "GiB") } else { (MIB, "MiB") };
        let (read, end) = (nearest(self.read) / nearest(size), self.end);
        let _ = if self.len == 0 {
            eprint!(self.rt; "\r{name:.30}: {read:.1} {unit}{end}")
        } else {
            let percent = (self.read.saturating_mul(100) / self.len).min(100);
            let len = nearest(self.len) / nearest(size);
            eprint!(self.rt; "\r{name:.30}: {percent}% ({read:.1} of {len:.1} {unit}){end}")
        };
    }
}

impl Drop for Line<'_> {
    fn drop(self) {
        if self.is_shown {
            let _ = eprint!(self.rt; "\r{:79}\r", "");
        }
        let Line {
            rt: _,
            path: _,
            len: _,
            read: _,
            end: _,
            due: _,
            is_shown: _,
        } = self;
    }
}
