// The lines of a text, and what of a line is read.
ghost use Rattle.std.specs.Prelude.{◌≡◌, ◌<◌, List, ◌∷◌, ℕ, length, MatchOption};
ghost use Rattle.std.specs.Iterator.{YieldsFirstBy, item_count};
ghost use Rattle.std.specs.Option.{option_map};
ghost use Rattle.paper_text.specs.Lines.{parts, lines, without_return, lines_below, line_after, before_comment, ends_control, has_control};

use std::marker::Model;

// The lines that are left of a text, seen as a list. A line ends at LF, and a CR just before that
// is no part of it; the last line needs no LF, and none is left below it.
#[derive(Drop)]
pub struct Lines<'a> {
    below: Option<&'a [u8]>,
}

impl<'a> Model for Lines<'a> {
    ghost Value = { List (List ℕ) };

    ghost view = { λ l. lines_below l.below };
}

// What stands before and behind the first such byte.
pub(crate) fn split_at(bytes: &[u8], mark: u8) -> Option<(&[u8], &[u8])>
    ensures { option_map (λ p. (p.0.now, p.1.now)) result ≡ parts mark bytes.now }
{
    let at = bytes.iter().position(|b| *b == mark)?;
    Some((&bytes[..at], &bytes[at + 1..]))
}

// The first line of a text, and the text below it: one step of `Lines`, by which a caller has that text
// as bytes.
pub fn first_line(text: &[u8]) -> (&[u8], Option<&[u8]>)
    ensures value { lines text.now ≡ result.0.now ∷ lines_below result.1 }
    ensures shorter { MatchOption result.1 (result.0.now ≡ text.now) (λ below. length below.now < length text.now) }
{
    match split_at(text, b'\n') {
        Some((line, below)) => (without_return(line), Some(below)),
        None => (text, None),
    }
}

fn without_return(line: &[u8]) -> &[u8]
    ensures { result.now ≡ without_return line.now }
{
    match line {
        [front @ .., b'\r'] => front,
        _ => line,
    }
}

impl<'a> Lines<'a> {
    pub fn of(text: &'a [u8]) -> Lines<'a>
        ensures { result ≡ lines text.now }
    {
        Lines { below: Some(text) }
    }
}

// Not the library's split, which leaves the CR of a line in place.
impl<'a> Iterator for Lines<'a> {
    type Item = &'a [u8];

    ghost next_gives = { YieldsFirstBy (λ l. l.now) (λ ls. ls) };

    ghost remaining = { item_count (λ ls. ls) };

    fn next(&mut self) -> Option<&'a [u8]> {
        let (line, below) = first_line(self.below?);
        self.below = below;
        Some(line)
    }
}

// The number of the line that follows a text, counted from 1. A sum without a branch: a filter that
// is counted takes twice the time.
pub fn line_after(text: &[u8]) -> usize
    ensures { result ≡ line_after text.now }
{
    let mut line: usize = 1;
    for b in text {
        line += usize::from(*b == b'\n');
    }
    line
}

// A line up to its comment.
pub fn before_comment(line: &[u8]) -> &[u8]
    ensures { result.now ≡ before_comment line.now }
{
    match split_at(line, b'#') {
        Some((before, _)) => before,
        None => line,
    }
}

// Whether a line has a control character other than the tab, in UTF-8: one byte, or 0xC2 and a
// second byte for those from U+0080 on.
// It goes by the byte before, so a walk and no chain over single bytes.
pub fn has_control(line: &[u8]) -> bool
    ensures { result ≡ has_control line.now }
{
    let mut before: u8 = 0;
    for b in line {
        if ends_control(before, *b) {
            return true;
        }
        before = *b;
    }
    false
}

// Whether a control character ends with a byte after another one.
fn ends_control(before: u8, b: u8) -> bool
    ensures { result ≡ ends_control before b }
{
    match b {
        b'\t' => false,
        0..=0x1f | 0x7f => true,
        0x80..=0x9f => before == 0xc2,
        _ => false,
    }
}
