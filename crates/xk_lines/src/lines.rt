//! Lines and columns.

ghost use Rattle.std.specs.Prelude.{◌≡◌, ◌+◌, ◌-◌, ◌≤◌, Some, IfOk, length, map, slice_get, slice_range, take, count_by};
ghost use Rattle.std.specs.List.{prefix_len};
ghost use Rattle.xk_lines.specs.Excerpts.{excerpt};
ghost use Rattle.xk_lines.specs.Extents.{StandsIn, extent_of};
ghost use Rattle.xk_lines.specs.Lines.{ends_line, first_line, is_blank, is_line_feed, line_start, line_starts, position_of, words_at};

use crate::columns::ColumnMarks;
use crate::excerpts::framed;
use std::alloc::{AllocError, Global};
use std::marker::Model;

/// A place in a text: its line and its column, both counted from 1.
///
/// A character is one column, so is a tab. In UTF-8 a character begins at each byte but those of 128 to 191, and these are no
/// columns in a text that isn't UTF-8 either: so it is what editors show.
#[derive(Clone, Copy, Debug, PartialEq, Eq)]
pub struct Position {
    pub line: usize,
    pub column: usize,
}

/// How many line feeds there are.
fn line_feeds(text: &[u8]) -> usize
    ensures count { result ≡ count_by is_line_feed text.now }
    ensures within { result ≤ length text.now }
{
    text.iter().filter(|b| **b == b'\n').count()
}

/// Where lines begin.
fn starts_of(alloc: Global, text: &[u8]) -> Result<Vec<usize>, AllocError>
    ensures { IfOk result (λ v. v.items ≡ line_starts text.now) }
{
    let mut starts = Vec::with_capacity(alloc, line_feeds(text) + 1)?;
    starts.push(0)?;
    for (i, byte) in text.iter().enumerate() {
        if *byte == b'\n' {
            starts.push(i + 1)?;
        }
    }
    Ok(starts)
}

/// Whether a line's end stands at the front: a line feed, or a carriage return and a line feed.
fn ends_line(text: &[u8]) -> bool
    ensures { result ≡ ends_line text.now }
{
    match text {
        [b'\n', ..] | [b'\r', b'\n', ..] => true,
        _ => false,
    }
}

/// The first line of a text, without its end.
fn first_line(text: &[u8]) -> &[u8]
    ensures { result.now ≡ first_line text.now }
{
    let mut len = 0;
    let mut rest = text;
    while let [_, after @ ..] = rest {
        if ends_line(rest) {
            break;
        }
        len += 1;
        rest = after;
    }
    &text[..len]
}

/// Where the words of a line begin, behind its blanks, and where it ends.
#[derive(Clone, Copy)]
pub(crate) struct Extent {
    words: usize,
    end: usize,
}

/// How many blanks stand at the front of a text.
fn blanks(text: &[u8]) -> usize
    ensures count { result ≡ prefix_len is_blank text.now }
    ensures within { result ≤ length text.now }
{
    text.iter()
        .take_while(|&&b| b == b' ' || b == b'\t')
        .count()
}

/// Where the words of the line stand that begins at an offset.
fn extent_of(text: &[u8], start: usize) -> Extent
    requires { start ≤ length text.now }
    ensures { result ≡ extent_of text.now start }
{
    let rest = &text[start..];
    Extent {
        words: start + blanks(rest),
        end: start + first_line(rest).len(),
    }
}

/// Where the words of all lines stand, which begin there.
fn extents_of(alloc: Global, text: &[u8], starts: &[usize]) -> Result<Vec<Extent>, AllocError>
    requires { starts.now ≡ line_starts text.now }
    ensures { IfOk result (λ v. v.items ≡ map (extent_of text.now) (line_starts text.now)) }
{
    let mut extents = Vec::with_capacity(alloc, starts.len())?;
    for start in starts {
        extents.push(extent_of(text, *start))?;
    }
    Ok(extents)
}

/// What stands there.
fn part_of(text: &[u8], extent: Extent) -> &[u8]
    requires { StandsIn text.now extent }
    ensures { result.now ≡ slice_range text.now extent.words extent.end }
{
    &text[extent.words..extent.end]
}

/// The line in which an offset lies.
#[derive(Drop)]
struct Line {
    number: usize,
    start: usize,
}

/// A text, and where its lines begin: what finds the line of an offset without reading the text again.
#[derive(Drop)]
pub struct LineStarts<'t> {
    text: &'t [u8],
    starts: Vec<usize>,
    extents: Vec<Extent>,
    columns: ColumnMarks<'t>,
}

impl<'t> Model for LineStarts<'t> {
    ghost use Rattle.std.specs.Prelude.{◌≡◌, ℕ, List, map};
    ghost use Rattle.xk_lines.specs.Extents.{extent_of};
    ghost use Rattle.xk_lines.specs.Lines.{line_starts};

    ghost Value = { List ℕ };

    ghost view = { λ l. l.text.now };

    ghost invariant = { λ l. (l.starts.items ≡ line_starts l.text.now)
        × (l.extents.items ≡ map (extent_of l.text.now) (line_starts l.text.now))
        × (l.columns ≡ l.text.now) };
}

impl<'t> LineStarts<'t> {
    /// The lines of a text. Err where memory was refused.
    pub fn new(alloc: Global, text: &'t [u8]) -> Result<LineStarts<'t>, AllocError>
        ensures { IfOk result (λ l. l ≡ text.now) }
    {
        let starts = starts_of(alloc, text)?;
        let extents = extents_of(alloc, text, &starts)?;
        let columns = ColumnMarks::new(alloc, text)?;
        Ok(LineStarts {
            text,
            starts,
            extents,
            columns,
        })
    }

    /// The line of an offset, also of that of the text's end.
    fn line(&self, offset: usize) -> Line
        requires { offset ≤ length self.now }
        ensures number { result.number ≡ 1 + count_by is_line_feed (take offset self.now) }
        ensures start { result.start ≡ line_start self.now offset }
        ensures before { result.start ≤ offset }
        ensures listed { slice_get (line_starts self.now) (result.number - 1) ≡ Some result.start }
    {
        let number = self.starts.partition_point(|start| *start <= offset);
        Line {
            number,
            start: self.starts[number - 1],
        }
    }

    /// The position of an offset, also of that of the text's end.
    pub fn position(&self, offset: usize) -> Position
        requires { offset ≤ length self.now }
        ensures { result ≡ position_of self.now offset }
    {
        let line = self.line(offset);
        Position {
            line: line.number,
            column: self.columns.between(line.start, offset) + 1,
        }
    }

    /// The text of the line of an offset, without its end and without the blanks that it begins with.
    pub fn words_at(&self, offset: usize) -> &'t [u8]
        requires { offset ≤ length self.now }
        ensures { result.now ≡ words_at self.now offset }
    {
        let line = self.line(offset);
        let extent = self.extents[line.number - 1];
        part_of(self.text, extent)
    }

    /// The excerpt of the line of an offset, three lines: `   |`, ` 8 | ` and the line, `   | ` and carets.
    ///
    /// Of the line no more is shown than 80 signs before the offset and 80 from it on, with `..` for what is left out. A sign is a
    /// character, or a byte that belongs to none. A tab is one blank, and control signs and such bytes are told by their numbers, as
    /// `\x1b`, and marks of layout as `\u{202e}`. The carets stand under so many signs from the offset on, under one column at least: where a terminal makes each
    /// character one column wide, so not where it makes two of one. No line feed is behind the last caret, so words may follow.
    /// Err where memory was refused.
    pub fn excerpt(
        &self,
        alloc: Global,
        offset: usize,
        marked: usize,
    ) -> Result<Vec<u8>, AllocError>
        requires { offset ≤ length self.now }
        ensures { IfOk result (λ v. v.items ≡ excerpt self.now offset marked) }
    {
        let line = self.line(offset);
        let text = first_line(&self.text[line.start..]);
        let (before, from) = text.split_at(text.len().min(offset - line.start));
        framed(alloc, line.number, before, from, marked)
    }
}
