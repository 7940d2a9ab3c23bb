ghost use Rattle.std.specs.Prelude.{◌≡◌, ◌<◌, ◌≤◌, length, true, IfSome, option_map};
ghost use Rattle.std.specs.List.{prefix_len};
ghost use Rattle.hold_certtext.specs.inner.Parsing.{word_in, number_in};
ghost use Rattle.hold_certtext.specs.inner.Words.{is_in_word, is_nil, is_word, left, takes, words_of};

use crate::number::read_number;

/// The words of a line that are still to come.
#[derive(Clone, Copy)]
pub(crate) struct Words<'a> {
    more: bool,
    text: &'a [u8],
}

/// How many bytes stand before the first space.
fn word_len(text: &[u8]) -> usize
    ensures value { result ≡ prefix_len is_in_word text.now }
    ensures within { result ≤ length text.now }
{
    text.iter().take_while(|b| **b != b' ').count()
}

impl<'a> Words<'a> {
    /// All words of a line.
    pub(crate) fn new(line: &'a [u8]) -> Words<'a>
        ensures { left result ≡ words_of line.now }
    {
        Words {
            more: true,
            text: line,
        }
    }

    /// Whether no word is left.
    pub(crate) fn is_done(self) -> bool
        ensures { result ≡ is_nil (left self.entry) }
    {
        !self.more
    }

    /// The next word, None behind the last.
    pub(crate) fn next(&mut self) -> Option<&'a [u8]>
        ensures { word_in (left self.old) ≡ option_map (λ word. (word.now, left self.new)) result }
    {
        if !self.more {
            return None;
        }
        let len = word_len(self.text);
        let (word, rest) = self.text.split_at(len);
        if rest.is_empty() {
            self.more = false;
        } else {
            let (_, behind) = rest.split_at(1);
            self.text = behind;
        }
        Some(word)
    }

    /// Passes over the next word if it is this one. Answers whether it was.
    pub(crate) fn take(&mut self, word: &[u8]) -> bool
        ensures { takes word.now (left self.old) ≡ (result, left self.new) }
    {
        let mut behind = *self;
        let Some(next) = behind.next() else {
            return false;
        };
        if next != word {
            return false;
        }
        *self = behind;
        true
    }

    /// Whether this is the one word that is left.
    pub(crate) fn is_word(mut self, word: &[u8]) -> bool
        ensures { result ≡ is_word word.now (left self.entry) }
    {
        self.take(word) && self.is_done()
    }

    /// The next word as a number that is at most so much, None where there is no next word or it is no such number.
    pub(crate) fn number(&mut self, most: u64) -> Option<u64>
        ensures value { number_in most (left self.old) ≡ option_map (λ n. (n, left self.new)) result }
        ensures most { IfSome result (λ n. n ≤ most) }
    {
        let Some(word) = self.next() else {
            return None;
        };
        let Some(n) = read_number(word) else {
            return None;
        };
        if n <= most { Some(n) } else { None }
    }
}
