// The words of a text, counted as they are read.
ghost use Rattle.std.specs.Prelude.{◌≡◌, ◌+◌, ◌-◌, ◌^◌, min};

use std::str::SplitWhitespace;

/// What is left of a text's words, and how many were asked for: one that is missing has a place too, so `enumerate` would not tell it.
#[derive(Drop)]
pub struct Words<'a> {
    left: SplitWhitespace<'a>,
    read: usize,
}

impl<'a> Words<'a> {
    pub fn new(text: &'a str) -> Words<'a>
        ensures { result.read ≡ 0 }
    {
        Words {
            left: text.split_whitespace(),
            read: 0,
        }
    }

    /// The next word, if there is one.
    pub fn next_word(&mut self) -> Option<&'a str>
        ensures { self.new.read ≡ min (self.old.read + 1) (2 ^ 64 - 1) }
    {
        self.read = self.read.saturating_add(1);
        self.left.next()
    }

    /// The place of the word last asked for, from 0.
    pub fn place(&self) -> usize
        ensures { result ≡ self.now.read - 1 }
    {
        self.read.saturating_sub(1)
    }
}
