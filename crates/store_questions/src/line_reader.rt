//! Standard input as lines, in chunks as they come.

ghost use Rattle.std.specs.Prelude.{◌≡◌, ◌≤◌, ◌<◌, [], true, false, length, take, drop, vec_len, count_by, IfOk, OnOk};
ghost use Rattle.std.specs.Io.{StartsWith};
ghost use Rattle.std.specs.Io.KnownBytes.{Consumes, IsAtEnd, Keeps};
ghost use Rattle.store_questions.specs.declared.line_reader.TheConstants.{FIRST_LEN};
ghost use Rattle.store_questions.specs.WholeLines.{AreWhole, HasNoLineFeed, is_line_feed};

use crate::failure::Failure;
use std::alloc::{AllocError, Global};
use std::io;

/// The most bytes of a chunk, and so of a line with its line feed.
pub const MAX_LEN: usize = 1 << 20;

// The length of the buffer at first, and its greatest length until a line does not fit it. A short
// input would take less time than the pages of a long buffer do.
const FIRST_LEN: usize = 1 << 14;

const BUF_LEN: usize = 1 << 18;

// The most lines of a chunk.
const MAX_LINES: u64 = 1 << 13;

/// A reader whose lines are looked up in chunks: the whole lines that one read completes, at most
/// 8,192 of them. The beginning of a line that has not ended is kept for the next chunk.
#[derive(Drop)]
pub struct LineReader<R> {
    reader: R,
    buf: Vec<u8>,
    // How many bytes of the buffer were read, and how many of these are the lines of the chunk.
    filled: usize,
    chunk_len: usize,
    // Whether the last read filled the buffer.
    has_more: bool,
    // How many lines the chunks had so far.
    count: u64,
    ghost in_bounds: { filled ≤ vec_len buf },
    ghost ordered: { chunk_len ≤ filled },
    ghost has_room: { FIRST_LEN ≤ vec_len buf },
}

impl<R: io::Read> LineReader<R> {
    ghost use Rattle.store_questions.specs.LineReaders.{chunk, held, to_come};
    ghost use Rattle.store_questions.specs.WholeLines.{made_whole};
    ghost use Rattle.std.specs.Option.{option_map};

    /// Wraps this reader, whose interrupted reads are tried again.
    pub fn new(alloc: Global, reader: R) -> Result<LineReader<R>, AllocError>
    where
        R: Drop,
        ensures chunk { IfOk result (λ lines. chunk lines ≡ []) }
        ensures lines { IfOk result (λ lines. to_come R.remaining lines
            ≡ option_map made_whole (R.remaining reader)) }
    {
        let mut buf = Vec::new(alloc);
        buf.extend_from_slice(&[0; FIRST_LEN])?;
        Ok(LineReader {
            reader,
            buf,
            filled: 0,
            chunk_len: 0,
            has_more: false,
            count: 0,
        })
    }

    /// The lines of the chunk, each with its line feed.
    pub fn lines(&self) -> &[u8]
        ensures { result.now ≡ chunk self.now }
    {
        &self.buf[..self.chunk_len]
    }

    /// Goes on to the next chunk, and returns whether there is one, or the input has ended. The
    /// last line may lack its line feed, which is added.
    ///
    /// The error is [`Failure::Input`] if a read fails, and [`Failure::LongLine`] if a line does
    /// not fit a chunk. Nothing that was read is lost then.
    pub fn next<'a>(&mut self) -> Result<bool, Failure<'a>>
        ensures lines { Consumes (to_come R.remaining self.old) (to_come R.remaining self.new)
            (chunk self.new) }
        ensures whole { AreWhole (chunk self.new) }
        ensures full { OnOk result (count_by is_line_feed (chunk self.new) < MAX_LINES
            → HasNoLineFeed (drop self.new.chunk_len (held self.new))) }
        ensures any { IfOk result (λ any. any ≡ false → IsAtEnd (to_come R.remaining self.new)) }
        ensures none { IfOk result (λ any. any ≡ false → chunk self.new ≡ []) }
    {
        self.drop_chunk();
        self.find_chunk(0);
        while self.chunk_len == 0 {
            let before = self.filled;
            if !self.read()? {
                self.end_line();
                break;
            }
            self.find_chunk(before);
        }
        Ok(self.chunk_len > 0)
    }

    // Moves what was read after the chunk to the start of the buffer.
    fn drop_chunk(&mut self)
        ensures chunk { self.new.chunk_len ≡ 0 }
        ensures lines { to_come R.remaining self.new ≡ to_come R.remaining self.old }
        ensures count { self.new.count ≡ self.old.count }
    {
        self.buf.copy_within(self.chunk_len..self.filled, 0);
        self.filled -= self.chunk_len;
        self.chunk_len = 0;
    }

    // Takes as the chunk the whole lines in the buffer, whose first bytes, `from` of them, have no
    // line feed.
    fn find_chunk(&mut self, from: usize)
        requires chunk { self.old.chunk_len ≡ 0 }
        requires bound { from ≤ self.old.filled }
        requires begun { HasNoLineFeed (take from (held self.old)) }
        ensures lines { Consumes (to_come R.remaining self.old) (to_come R.remaining self.new)
            (chunk self.new) }
        ensures whole { AreWhole (chunk self.new) }
        ensures full { count_by is_line_feed (chunk self.new) < MAX_LINES
            → HasNoLineFeed (drop self.new.chunk_len (held self.new)) }
        ensures kept { self.new.filled ≡ self.old.filled }
    {
        let (len, count) = whole_lines(&self.buf[..self.filled], from);
        self.chunk_len = len;
        self.count = self.count.saturating_add(count);
    }

    // Reads once, and returns whether the input has not ended.
    fn read<'a>(&mut self) -> Result<bool, Failure<'a>>
        requires { self.old.chunk_len ≡ 0 }
        ensures chunk { self.new.chunk_len ≡ 0 }
        ensures begun { take self.old.filled (held self.new) ≡ held self.old }
        ensures lines { Keeps (to_come R.remaining self.old) (to_come R.remaining self.new) }
        ensures more { IfOk result (λ more. more ≡ true → self.old.filled < self.new.filled) }
        ensures end { IfOk result (λ more. more ≡ false → IsAtEnd (R.remaining self.new.reader)
            × (self.new.filled < vec_len self.new.buf) × (self.new.filled ≡ self.old.filled)) }
    {
        self.make_room()?;
        match self.reader.read(&mut self.buf[self.filled..]) {
            Ok(count) => {
                self.filled += count;
                self.has_more = self.filled == self.buf.len();
                Ok(count > 0)
            }
            Err(error) => Err(Failure::Input(error)),
        }
    }

    // Makes room in the buffer for what is read next.
    fn make_room<'a>(&mut self) -> Result<(), Failure<'a>>
        ensures held { held self.new ≡ held self.old }
        ensures reader { self.new.reader ≡ self.old.reader }
        ensures filled { self.new.filled ≡ self.old.filled }
        ensures chunk { self.new.chunk_len ≡ self.old.chunk_len }
        ensures room { OnOk result (self.new.filled < vec_len self.new.buf) }
    {
        let is_full = self.filled == self.buf.len();
        if is_full && self.buf.len() >= MAX_LEN {
            let number = self.count.saturating_add(1);
            let most = MAX_LEN - 1;
            return Err(Failure::LongLine { number, most });
        }
        if is_full || self.has_more && self.buf.len() < BUF_LEN {
            lengthen(&mut self.buf)?;
        }
        Ok(())
    }

    // Takes as the chunk the last line, if the input ended in one without a line feed.
    fn end_line(&mut self)
        requires chunk { self.old.chunk_len ≡ 0 }
        requires begun { HasNoLineFeed (held self.old) }
        requires room { self.old.filled < vec_len self.old.buf }
        requires end { IsAtEnd (R.remaining self.old.reader) }
        ensures lines { Consumes (to_come R.remaining self.old) (to_come R.remaining self.new)
            (chunk self.new) }
        ensures whole { AreWhole (chunk self.new) }
        ensures rest { HasNoLineFeed (drop self.new.chunk_len (held self.new)) }
        ensures end { IsAtEnd (to_come R.remaining self.new) }
    {
        if 0 < self.filled {
            self.buf[self.filled] = b'\n';
            self.filled += 1;
            self.chunk_len = self.filled;
            self.count = self.count.saturating_add(1);
        }
    }
}

// Makes a buffer four times as long.
fn lengthen(buf: &mut Vec<u8>) -> Result<(), AllocError>
    requires { FIRST_LEN ≤ vec_len buf.old }
    ensures kept { StartsWith buf.new.items buf.old.items }
    ensures len { OnOk result (vec_len buf.old < vec_len buf.new) }
{
    let zeros = [0; FIRST_LEN];
    for _at in 0..buf.len() / zeros.len() * 3 {
        buf.extend_from_slice(&zeros)?;
    }
    Ok(())
}

// The length of the whole lines of a chunk, with their line feeds, and their number. There is no
// line feed before `from`.
fn whole_lines(bytes: &[u8], from: usize) -> (usize, u64)
    requires bound { from ≤ length bytes.now }
    requires begun { HasNoLineFeed (take from bytes.now) }
    ensures bound { result.0 ≤ length bytes.now }
    ensures whole { AreWhole (take result.0 bytes.now) }
    ensures count { result.1 ≡ count_by is_line_feed (take result.0 bytes.now) }
    ensures most { result.1 ≤ MAX_LINES }
    ensures all { result.1 < MAX_LINES → HasNoLineFeed (drop result.0 bytes.now) }
{
    let mut len = 0;
    let mut count = 0;
    for at in from..bytes.len() {
        if bytes[at] == b'\n' {
            len = at + 1;
            count += 1;
            if count >= MAX_LINES {
                break;
            }
        }
    }
    (len, count)
}
