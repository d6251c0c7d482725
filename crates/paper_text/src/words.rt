// The words of a line: bytes between spaces and tabs.
ghost use Rattle.std.specs.Prelude.{◌≡◌, ◌<◌, ◌≤◌, List, [], ◌∷◌, ℕ, length, MatchOption, IfSome};
ghost use Rattle.std.specs.Iterator.{YieldsFirstBy, item_count};
ghost use Rattle.std.specs.Option.{option_map};
ghost use Rattle.std.specs.Str.{bytes_eq};
ghost use Rattle.paper_text.specs.Words.{is_blank, words, leading, only_word};

use std::marker::Model;

// The words that are left of a line, seen as a list. They are taken from the front.
#[derive(Drop)]
pub struct Words<'a> {
    left: &'a [u8],
}

impl<'a> Model for Words<'a> {
    ghost Value = { List (List ℕ) };

    ghost view = { λ w. words w.left.now };
}

// The first word of a line, and what is left of the line behind it.
#[derive(Clone, Copy)]
pub struct Line<'a> {
    pub keyword: &'a [u8],
    pub rest: &'a [u8],
}

fn is_blank(b: u8) -> bool
    ensures { result ≡ is_blank b }
{
    b == b' ' || b == b'\t'
}

// How many bytes at the front are blank, or are not.
fn leading(line: &[u8], blank: bool) -> usize
    ensures value { result ≡ leading blank line.now }
    ensures within { result ≤ length line.now }
{
    line.iter()
        .position(|b| is_blank(*b) != blank)
        .unwrap_or(line.len())
}

impl<'a> Words<'a> {
    // The word, where there is no other.
    pub fn only(mut self) -> Option<&'a [u8]>
        ensures { option_map (λ w. w.now) result ≡ only_word self.entry }
    {
        let word = self.next()?;
        match self.next() {
            Some(_) => None,
            None => Some(word),
        }
    }
}

// Not the library's split with a filter: what is left of it is no text, from which a line is made again.
impl<'a> Iterator for Words<'a> {
    type Item = &'a [u8];

    ghost next_gives = { YieldsFirstBy (λ w. w.now) (λ ws. ws) };

    ghost remaining = { item_count (λ ws. ws) };

    fn next(&mut self) -> Option<&'a [u8]> {
        let line = Line::of(self.left)?;
        self.left = line.rest;
        Some(line.keyword)
    }
}

impl<'a> Line<'a> {
    // None where a line has no word.
    pub fn of(text: &'a [u8]) -> Option<Line<'a>>
        ensures words { MatchOption result (words text.now ≡ []) (λ l. words text.now ≡ l.keyword.now ∷ words l.rest.now) }
        ensures shorter { IfSome result (λ l. length l.rest.now < length text.now) }
    {
        let dark = &text[leading(text, true)..];
        if dark.is_empty() {
            return None;
        }
        let end = leading(dark, false);
        Some(Line {
            keyword: &dark[..end],
            rest: &dark[end..],
        })
    }

    // Whether the first word is that keyword.
    pub fn is(self, keyword: &[u8]) -> bool
        ensures { result ≡ bytes_eq self.entry.keyword.now keyword.now }
    {
        self.keyword == keyword
    }

    // The words behind the first.
    pub fn words(self) -> Words<'a>
        ensures { result ≡ words self.entry.rest.now }
    {
        Words { left: self.rest }
    }
}
