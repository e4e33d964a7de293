//! The words of a text, and the numbers and clients that words name.

ghost use Rattle.std.specs.Prelude.{◌≢◌, ◌≡◌, ◌≤◌, ◌<◌, ℕ, decimal, IfSome, IfNone};
ghost use Rattle.fw_op.specs.Words.{client_word};

use itoa::Buffer;
use std::marker::Model;

/// The words of a text that are left to read: what stands between its blanks.
#[derive(Drop)]
pub struct Words<'a> {
    rest: &'a str,
    is_done: bool,
}

impl<'a> Model for Words<'a> {
    ghost use Rattle.std.specs.Prelude.{List, ℕ};
    ghost use Rattle.fw_op.specs.Words.{words_left};

    ghost Value = { List (List ℕ) };

    ghost view = { λ w. words_left w.is_done w.rest.now };
}

impl<'a> Words<'a> {
    ghost use Rattle.std.specs.Prelude.{◌≡◌, ◌≢◌, ◌↔◌, List, ℕ, [], ◌∷◌, drop, IfSome, IfNone, MatchOption, IsTrue};
    ghost use Rattle.fw_op.specs.Words.{words_of};

    /// All words of a text.
    pub fn of(text: &'a str) -> Self
        ensures { result ≡ words_of text.now }
    {
        Words {
            rest: text,
            is_done: false,
        }
    }

    /// Takes the next word.
    pub fn next(&mut self) -> Option<&'a str>
        ensures { MatchOption result ((self.old ≡ []) × (self.new ≡ [])) (λ word. self.old ≡ word.now ∷ self.new) }
    {
        if self.is_done {
            return None;
        }
        match self.rest.split_once(' ') {
            Some((word, rest)) => {
                self.rest = rest;
                Some(word)
            }
            None => {
                self.is_done = true;
                Some(self.rest)
            }
        }
    }

    /// The same words once more.
    pub(crate) fn again(&self) -> Words<'a>
        ensures { result ≡ self.now }
    {
        Words {
            rest: self.rest,
            is_done: self.is_done,
        }
    }

    /// Takes all words that are left.
    pub(crate) fn all(&mut self) -> Words<'a>
        ensures same { result ≡ self.old }
        ensures left { self.new ≡ [] }
    {
        let all = self.again();
        self.is_done = true;
        all
    }

    /// Whether no word is left. A word that is left is taken.
    pub fn has_ended(&mut self) -> bool
        ensures ended { IsTrue result ↔ (self.old ≡ []) }
        ensures left { self.new ≡ drop 1 self.old }
    {
        match self.next() {
            Some(_) => false,
            None => true,
        }
    }

    /// The item, if no word is left.
    pub fn end_with<T: Drop>(&mut self, item: T) -> Option<T>
        ensures found { IfSome result (λ found. (self.old ≡ []) × (found ≡ item)) }
        ensures none { IfNone result (self.old ≢ []) }
    {
        if self.has_ended() { Some(item) } else { None }
    }

    /// The one word that is left. Where there are more, two are taken.
    pub fn only_word(&mut self) -> Option<&'a str>
        ensures left { self.new ≡ drop 2 self.old }
        ensures word { MatchOption result ((a : List ℕ) → self.old ≢ a ∷ []) (λ word. self.old ≡ word.now ∷ []) }
    {
        let word = self.next()?;
        match self.next() {
            Some(_) => None,
            None => Some(word),
        }
    }

    /// The two words that are left. Where there are more, three are taken.
    pub fn two_words(&mut self) -> Option<(&'a str, &'a str)>
        ensures left { self.new ≡ drop 3 self.old }
        ensures words { MatchOption result ((a b : List ℕ) → self.old ≢ a ∷ b ∷ []) (λ pair. self.old ≡ pair.0.now ∷ pair.1.now ∷ []) }
    {
        let first = self.next()?;
        match self.only_word() {
            Some(second) => Some((first, second)),
            None => None,
        }
    }

    /// The three words that are left. Where there are more, four are taken.
    pub(crate) fn three_words(&mut self) -> Option<(&'a str, &'a str, &'a str)>
        ensures left { self.new ≡ drop 4 self.old }
        ensures words { MatchOption result ((a b c : List ℕ) → self.old ≢ a ∷ b ∷ c ∷ []) (λ three. self.old ≡ three.0.now ∷ three.1.now ∷ three.2.now ∷ []) }
    {
        let first = self.next()?;
        match self.two_words() {
            Some((second, third)) => Some((first, second, third)),
            None => None,
        }
    }
}

/// The number in a range that the word spells.
pub fn number_of(word: &str, least: u32, most: u32) -> Option<u32>
    ensures found { IfSome result (λ n. (word.now ≡ decimal n) × (least ≤ n) × (n ≤ most)) }
    ensures none { IfNone result ((n : ℕ) → least ≤ n → n ≤ most → word.now ≢ decimal n) }
{
    let number = match word.parse::<u32>() {
        Ok(number) => number,
        Err(_) => return None,
    };
    if number < least {
        return None;
    }
    if number > most {
        return None;
    }
    let mut buffer = Buffer::new();
    if buffer.format(number) == word {
        Some(number)
    } else {
        None
    }
}

/// The client that the word names, of so many.
pub fn client_of(word: &str, clients: u32) -> Option<u32>
    ensures found { IfSome result (λ c. (word.now ≡ client_word c) × (c < clients)) }
    ensures none { IfNone result ((c : ℕ) → c < clients → word.now ≢ client_word c) }
{
    if clients == 0 {
        return None;
    }
    match word.strip_prefix('c') {
        Some(digits) => number_of(digits, 0, clients - 1),
        None => None,
    }
}
