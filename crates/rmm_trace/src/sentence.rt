//! Lists of trace words, called sentences, and their texts with single spaces between the words.
ghost use Rattle.std.specs.Prelude.{◌≡◌, ◌==◌, [], option_map};
ghost use Rattle.std.specs.List.{slice_split};
ghost use Rattle.rmm_trace.specs.Sentences.{if_read, words_in};

use crate::cut::cut_at;
use crate::word::{TraceWord, read_word};
use arrayvec::ArrayVec;
use std::fmt;

/// The maximum number of words in the question or the answer of a trace line.
pub const MOST_WORDS: usize = 64;

/// A list of at most `MOST_WORDS` words of a trace, such as a question or an answer.
pub type Sentence = ArrayVec<TraceWord, MOST_WORDS>;

/// Parses the words of a text into an empty list of trace words. Returns whether the text is a sentence. If the text is
/// not a sentence, the list may have any words. The function takes no memory.
///
/// A sentence has 64 places. It is filled in place, since a move costs more than the reading.
pub fn read_into(text: &[u8], words: &mut Sentence) -> bool
    requires { words.old.items ≡ [] }
    ensures { if_read result words.new.items ≡ words_in 64 (slice_split (λ b. b == 32) text.now) }
{
    let mut rest = Some(text);
    'words: while let Some(here) = rest {
        let (first, after) = cut_at(here, b' ');
        if words.is_full() {
            return false;
        }
        match read_word(first) {
            Some(word) => words.push(word),
            None => return false,
        }
        rest = after;
    }
    true
}

/// Returns the trace words of a text, or `None` if the text is malformed or has more than `MOST_WORDS` words. The
/// function takes no memory.
pub fn read_words(text: &[u8]) -> Option<Sentence>
    ensures { option_map (λ v. v.items) result ≡ words_in 64 (slice_split (λ b. b == 32) text.now) }
{
    let mut words = Sentence::new();
    if read_into(text, &mut words) {
        Some(words)
    } else {
        None
    }
}

// The text of words, with one space before each word.
#[derive(Clone, Copy)]
struct SpacedWords<'a>(&'a [TraceWord]);

impl fmt::Display for SpacedWords<'_> {
    ghost use Rattle.std.specs.Prelude.{Some};
    ghost use Rattle.rmm_trace.specs.Sentences.{spaced};

    ghost output = { λ s. Some (spaced s.0.now) };

    fn fmt<W: fmt::Write>(&self, f: &mut fmt::Formatter<W>) -> fmt::Result {
        for word in self.0 {
            write!(f, " {word}")?;
        }
        Ok(())
    }
}

/// Words that are displayed with single spaces between them.
#[derive(Clone, Copy)]
pub struct SentenceText<'a>(pub &'a [TraceWord]);

impl fmt::Display for SentenceText<'_> {
    ghost use Rattle.std.specs.Prelude.{Some};
    ghost use Rattle.rmm_trace.specs.Sentences.{sentence_text};

    ghost output = { λ s. Some (sentence_text s.0.now) };

    fn fmt<W: fmt::Write>(&self, f: &mut fmt::Formatter<W>) -> fmt::Result {
        match self.0 {
            [] => Ok(()),
            [first, rest @ ..] => write!(f, "{first}{}", SpacedWords(rest)),
        }
    }
}
