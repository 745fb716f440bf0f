//! What tests share: ids, a reader and a writer whose faults are chosen, and `expect!`. The reader
//! and the writer claim nothing of their bytes.
#![tactic(auto)]

use std::alloc::Global;
use std::io;

pub mod ids;
pub mod watched;

/// As `assert!`, by a single call of `expecting::expect` of the crate that calls it, and with the
/// row of a table that it is about, where one is given.
#[macro_export]
macro_rules! expect {
    ($rt:expr; $condition:expr $(, $row:expr)?) => {
        crate::expecting::expect($rt, $condition, stringify!($condition), &($($row)?))
    };
}

/// The text of a device's error.
pub const FAILED: &str = "the device failed";

/// Every kind of error that a device may return.
pub const KINDS: [io::ErrorKind; 42] = [
    io::ErrorKind::NotFound,
    io::ErrorKind::PermissionDenied,
    io::ErrorKind::ConnectionRefused,
    io::ErrorKind::ConnectionReset,
    io::ErrorKind::HostUnreachable,
    io::ErrorKind::NetworkUnreachable,
    io::ErrorKind::ConnectionAborted,
    io::ErrorKind::NotConnected,
    io::ErrorKind::AddrInUse,
    io::ErrorKind::AddrNotAvailable,
    io::ErrorKind::NetworkDown,
    io::ErrorKind::BrokenPipe,
    io::ErrorKind::AlreadyExists,
    io::ErrorKind::WouldBlock,
    io::ErrorKind::NotADirectory,
    io::ErrorKind::IsADirectory,
    io::ErrorKind::DirectoryNotEmpty,
    io::ErrorKind::ReadOnlyFilesystem,
    io::ErrorKind::FilesystemLoop,
    io::ErrorKind::StaleNetworkFileHandle,
    io::ErrorKind::InvalidInput,
    io::ErrorKind::InvalidData,
    io::ErrorKind::TimedOut,
    io::ErrorKind::WriteZero,
    io::ErrorKind::StorageFull,
    io::ErrorKind::NotSeekable,
    io::ErrorKind::QuotaExceeded,
    io::ErrorKind::FileTooLarge,
    io::ErrorKind::ResourceBusy,
    io::ErrorKind::ExecutableFileBusy,
    io::ErrorKind::Deadlock,
    io::ErrorKind::CrossesDevices,
    io::ErrorKind::TooManyLinks,
    io::ErrorKind::InvalidFilename,
    io::ErrorKind::ArgumentListTooLong,
    io::ErrorKind::Interrupted,
    io::ErrorKind::Unsupported,
    io::ErrorKind::UnexpectedEof,
    io::ErrorKind::OutOfMemory,
    io::ErrorKind::InProgress,
    io::ErrorKind::Other,
    io::ErrorKind::Uncategorized,
];

/// When a device returns an error.
#[derive(Clone, Copy)]
pub enum Fault {
    /// Never.
    Never,
    /// At the call with this number, counted from 1, and at no other.
    AtCall(usize),
    /// As `AtCall`, with the error that the library's own loops try again after.
    InterruptedAt(usize),
    /// At each call after that many bytes have passed.
    AfterBytes(usize),
    /// At each flush of a writer, and at no other call.
    AtFlush,
    /// As `InterruptedAt`, at the flush of a writer with this number, and at no other call.
    FlushInterruptedAt(usize),
    /// At each call, and at each flush of a writer, with an error of that kind.
    Always(io::ErrorKind),
}

impl Fault {
    /// Whether a call fails that is the device's `calls`-th, when `len` bytes have passed before.
    fn strikes(self, calls: usize, len: usize) -> bool {
        match self {
            Fault::Never | Fault::AtFlush | Fault::FlushInterruptedAt(_) => false,
            Fault::AtCall(at) | Fault::InterruptedAt(at) => calls == at,
            Fault::AfterBytes(most) => len >= most,
            Fault::Always(_) => true,
        }
    }

    /// The error that it returns.
    fn error(self) -> io::Error {
        match self {
            Fault::InterruptedAt(_) | Fault::FlushInterruptedAt(_) => {
                io::Error::from(io::ErrorKind::Interrupted)
            }
            Fault::Always(kind) => io::Error::from(kind),
            _ => io::Error::new(io::ErrorKind::Other, FAILED),
        }
    }

    /// How many more bytes may pass when `len` have passed before.
    fn room(self, len: usize) -> usize {
        match self {
            Fault::AfterBytes(most) => most.saturating_sub(len),
            _ => usize::MAX,
        }
    }
}

/// A reader of a slice.
#[derive(Drop)]
pub struct Reader<'a> {
    /// What it has not given yet.
    pub rest: &'a [u8],
    /// How often it was called.
    pub calls: usize,
    chunk: usize,
    fault: Fault,
    given: usize,
}

impl<'a> Reader<'a> {
    /// A reader that gives at most `chunk` bytes a call.
    pub fn new(bytes: &'a [u8], chunk: usize, fault: Fault) -> Self {
        Reader {
            rest: bytes,
            calls: 0,
            chunk,
            fault,
            given: 0,
        }
    }
}

impl io::Read for Reader<'_> {
    fn read(&mut self, buf: &mut [u8]) -> io::Result<usize> {
        self.calls = self.calls.saturating_add(1);
        if self.fault.strikes(self.calls, self.given) {
            return Err(self.fault.error());
        }
        let room = self.chunk.min(self.fault.room(self.given));
        let count = buf.len().min(self.rest.len()).min(room);
        buf[..count].copy_from_slice(&self.rest[..count]);
        self.rest = &self.rest[count..];
        self.given = self.given.saturating_add(count);
        Ok(count)
    }
}

/// A writer that keeps what it took.
#[derive(Drop)]
pub struct Writer {
    /// What it took.
    pub bytes: Vec<u8>,
    /// How often it was asked to write.
    pub calls: usize,
    /// How often it was asked to flush.
    pub flushes: usize,
    /// The most bytes that it takes at a call.
    pub chunk: usize,
    /// When it fails.
    pub fault: Fault,
}

impl Writer {
    /// A writer that takes at most `chunk` bytes a call: none at 0.
    pub fn new(alloc: Global, chunk: usize, fault: Fault) -> Self {
        Writer {
            bytes: Vec::new(alloc),
            calls: 0,
            flushes: 0,
            chunk,
            fault,
        }
    }
}

impl io::Write for Writer {
    fn write(&mut self, buf: &[u8]) -> io::Result<usize> {
        self.calls = self.calls.saturating_add(1);
        let len = self.bytes.len();
        if self.fault.strikes(self.calls, len) {
            return Err(self.fault.error());
        }
        let count = buf.len().min(self.chunk).min(self.fault.room(len));
        self.bytes.extend_from_slice(&buf[..count])?;
        Ok(count)
    }

    fn flush(&mut self) -> io::Result<()> {
        self.flushes = self.flushes.saturating_add(1);
        match self.fault {
            Fault::AtFlush | Fault::Always(_) => Err(self.fault.error()),
            Fault::FlushInterruptedAt(at) if at == self.flushes => Err(self.fault.error()),
            _ => Ok(()),
        }
    }
}
