//! What is printed for each line of a text, by what is found in a store.

ghost use Rattle.std.specs.Prelude.{◌≡◌, ◌++◌, ◌∷◌, ℕ, Bool, List, IfOk, OnErr, OnOk, Option, Some, false, option_copied, true};
ghost use Rattle.std.specs.Io.KnownBytes.{Appends};
ghost use Rattle.std.specs.Option.{option_map_or};
ghost use Rattle.packtool_commands.specs.Stores.{answer_of, answers_by, found_text, limit_for, no_answer, no_answer_by, with_found};
ghost use Rattle.packtool_commands.specs.declared.printing.NoAnswer.{NoAnswer};
ghost use Rattle.streams.specs.Streams.{AppendsBeginning, Wrote, lines_of};

use crate::prefixes::{Line, PrefixLines};
use std::alloc::Allocator;
use streams::{Sink, WriteFailed, write_all};
use thiserror::Error as ThisError;

/// What [`find_each`](crate::find_each) and [`locate_each`](crate::locate_each) write for a prefix.
/// If no id begins with it, or several do and one is asked for, `All` and `One` write the line and
/// which of the two it is, and `Bare` and `BareOne` write nothing.
///
/// ```
/// let lines = PrefixLines::read(rt.alloc(), Kind::Sha1, b"4b8\n4b9\n")?;
/// let all = find_each(rt.alloc(), &mut store, &lines, Wanted::All, 65_536, &mut out)?;
/// ```
#[derive(Clone, Copy, PartialEq, Eq, Debug)]
pub enum Wanted {
    /// Each id that begins with it, after the line as it is and a space.
    All,
    /// The one id that begins with it.
    One,
    /// Each id that begins with it, without the line.
    Bare,
    /// The one id that begins with it, written as `One` writes it.
    BareOne,
}

/// How many ids of a prefix are looked up: all, or the first two, which show whether there are
/// several.
pub(crate) fn limit_for(wanted: Wanted) -> Option<usize>
    ensures { result ≡ limit_for wanted }
{
    match wanted {
        Wanted::All | Wanted::Bare => None,
        Wanted::One | Wanted::BareOne => Some(2),
    }
}

/// The reason why a line has no answer.
///
/// ```
/// let why = find_each(rt.alloc(), &mut store, &lines, Wanted::One, 65_536, &mut out)?;
/// if why == Some(NoAnswer::Ambiguous) {
///     println!(rt; "the first line that is no prefix of one id is one of several")?;
/// }
/// ```
#[derive(Clone, Copy, PartialEq, Eq, Debug, ThisError)]
pub enum NoAnswer {
    /// No id begins with the line.
    #[error("missing")]
    Missing,
    /// Several ids begin with the line, and one is asked for.
    #[error("ambiguous")]
    Ambiguous,
    /// The line is not a prefix.
    #[error("bad")]
    Bad,
}

/// How what is found for a prefix, a `T`, is printed.
pub(crate) trait AnswerForm<T> {
    /// What is printed for a line that is a prefix.
    ghost text: { Self → List ℕ → T → List ℕ };

    /// Why what was found is not an answer, or `None` if it is one.
    ghost no_answer: { Self → T → Option NoAnswer };

    /// Writes what is printed for a line, by what was found if it is a prefix.
    fn write<W: Sink>(&self, line: &[u8], found: Option<&T>, out: &mut W) -> Result<(), WriteFailed>
        requires { W.has_failed out.old ≡ false }
        ensures { Wrote W.taken W.has_failed out.old out.new result
            (answer_of (text self.now) (line.now, option_copied found.entry)) };

    /// Returns why a line has no answer, by what was found if it is a prefix, or `None` if it has
    /// one.
    fn no_answer(&self, found: Option<&T>) -> Option<NoAnswer>
        ensures { result ≡ option_map_or (no_answer self.now) (option_copied found.entry)
            (Some NoAnswer.Bad) };
}

/// Writes what is printed for each of some lines, by what was found for each prefix among them.
/// Returns why the first line that has no answer has none, or `None` if each has one.
pub(crate) fn write_answers<T, A: Allocator, F: AnswerForm<T>, W: Sink>(
    lines: &PrefixLines<'_, A>,
    found: &[T],
    form: &F,
    out: &mut W,
) -> Result<Option<NoAnswer>, WriteFailed>
    requires { W.has_failed out.old ≡ false }
    ensures written { OnOk result (Appends (W.taken out.old) (W.taken out.new) (answers_by
        (F.text form.now) lines.now.kind (lines_of lines.now.text.now) found.now)) }
    ensures why { IfOk result (λ why. why ≡ no_answer_by (F.no_answer form.now) lines.now.kind
        (lines_of lines.now.text.now) found.now) }
    ensures not_failed { OnOk result (W.has_failed out.new ≡ false) }
    ensures part { OnErr result (AppendsBeginning (W.taken out.old) (W.taken out.new) (answers_by
        (F.text form.now) lines.now.kind (lines_of lines.now.text.now) found.now)) }
    ensures failed { OnErr result (W.has_failed out.new ≡ true) }
{
    let mut why = None;
    let mut left = found;
    for line in &lines.lines {
        let (answer, after) = answer_to(line, left);
        form.write(line.text, answer, out)?;
        why = why.or(form.no_answer(answer));
        left = after;
    }
    Ok(why)
}

// What was found for a line, if it is a prefix, and for those after it.
fn answer_to<'f, T>(line: &Line<'_>, found: &'f [T]) -> (Option<&'f T>, &'f [T])
    ensures { (lines : List (List ℕ × Bool))
        → with_found ((line.now.text.now, line.now.is_prefix) ∷ lines) found.now
        ≡ (line.now.text.now, option_copied result.0) ∷ with_found lines result.1.now }
{
    if line.is_prefix && !found.is_empty() {
        (Some(&found[0]), &found[1..])
    } else {
        (None, found)
    }
}

/// What is before a result in its line: a line of the text and a space, or nothing.
#[derive(Drop)]
pub(crate) struct Front<'l> {
    /// The line, or nothing.
    pub(crate) line: &'l [u8],
    /// The space, or nothing.
    pub(crate) space: &'l [u8],
}

/// How one thing that is found, an `X`, is printed.
pub(crate) trait ItemForm<X> {
    /// What is printed for it, after the bytes of a front.
    ghost text: { Self → List ℕ → X → List ℕ };

    /// Writes it, after a front.
    fn write_after<W: Sink>(
        &self,
        front: &Front<'_>,
        item: &X,
        out: &mut W,
    ) -> Result<(), WriteFailed>
        requires { W.has_failed out.old ≡ false }
        ensures { Wrote W.taken W.has_failed out.old out.new result
            (text self.now (front.now.line.now ++ front.now.space.now) item.now) };
}

/// How a list of what is found is printed: all of it, or the only one.
#[derive(Drop)]
pub(crate) struct ListForm<F> {
    /// What is asked for.
    pub(crate) wanted: Wanted,
    /// How each is printed.
    pub(crate) item: F,
}

impl<X, A: Allocator, F: ItemForm<X>> AnswerForm<Vec<X, A>> for ListForm<F> {
    ghost text = { λ form line ids. found_text (F.text form.item) form.wanted line ids.items };

    ghost no_answer = { λ form found. no_answer form.wanted found.items };

    fn write<W: Sink>(
        &self,
        line: &[u8],
        found: Option<&Vec<X, A>>,
        out: &mut W,
    ) -> Result<(), WriteFailed> {
        let Some(found) = found else {
            return write_two(line, b" bad\n", out);
        };
        if found.is_empty() {
            if matches!(self.wanted, Wanted::Bare | Wanted::BareOne) {
                return Ok(());
            }
            return write_two(line, b" missing\n", out);
        }
        let front = match self.wanted {
            Wanted::All => Front { line, space: b" " },
            Wanted::One if found.len() > 1 => return write_two(line, b" ambiguous\n", out),
            Wanted::BareOne if found.len() > 1 => return Ok(()),
            _ => Front {
                line: b"",
                space: b"",
            },
        };
        for item in found {
            self.item.write_after(&front, item, out)?;
        }
        Ok(())
    }

    fn no_answer(&self, found: Option<&Vec<X, A>>) -> Option<NoAnswer> {
        let Some(found) = found else {
            return Some(NoAnswer::Bad);
        };
        if found.is_empty() {
            return Some(NoAnswer::Missing);
        }
        match self.wanted {
            Wanted::One | Wanted::BareOne if found.len() > 1 => Some(NoAnswer::Ambiguous),
            _ => None,
        }
    }
}

/// Writes two texts, one after the other.
pub(crate) fn write_two<W: Sink>(
    first: &[u8],
    second: &[u8],
    out: &mut W,
) -> Result<(), WriteFailed>
    requires { W.has_failed out.old ≡ false }
    ensures { Wrote W.taken W.has_failed out.old out.new result (first.now ++ second.now) }
{
    write_all(out, first)?;
    write_all(out, second)
}
