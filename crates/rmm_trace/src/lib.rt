//! Functions that read the lines of traces, print words as text, and compare answers.
//!
//! A line is words that are separated by single spaces. A word is a name or a number, and can have a mask after `/`, a
//! step after `+`, and a comma. A number keeps its base, so words and their texts determine each other: what is printed
//! is read back as itself, and no two sentences are written alike (`law.rt`). No function takes memory.
//!
//! | Module | It has |
//! |---|---|
//! | `name`, `place` | the names, and constants for the indices of some of them |
//! | `word`, `sentence` | words and sentences, read and printed |
//! | `grammar`, `table` | the grammar of questions: a row for each group of words, and one reader for all rows |
//! | `consistent` | the conditions on the numbers of a question together |
//! | `line` | lines: remarks, questions, and neither |
//! | `access` | the registers of a call, and the values of groups |
//! | `answer`, `digest` | parts of answers, and measurements |
//! | `compare` | the comparison of a written answer with the model's |
//!
//! A question is groups of words, each a name and its values: `platform BASE GRANULES`, and after it settings as
//! `layout eac5`; `realm_params ADDR`, and after it fields. A row says where its group may occur, how many values it
//! has and of which kinds, and what may follow. So a command, a setting, a field and a step of a guest are each one
//! row.
#![tactic(auto)]

mod access;
mod answer;
mod compare;
mod consistent;
mod cut;
mod digest;
mod grammar;
mod law;
mod line;
mod name;
mod number;
pub mod place;
mod sentence;
mod table;
mod word;

pub use access::{FUNCTIONS, after_name, call_registers, operand};
pub use answer::{RUNS_ON, index_of, output_atom, plain, push_word, status_of};
pub use compare::{UNSURE, atom_number, is_register, is_same, is_same_register, split_word};
pub use consistent::is_consistent;
pub use cut::cut_at;
pub use digest::{sha256_text, sha512_text};
pub use grammar::{Group, Place, ValueKind, accepts, is_of_kind};
pub use law::{
    answered_questions_are_read_back, commands_have_their_rows, measurement_texts_are_injective,
    places_are_of_their_names, printed_answers_are_read_back, printed_questions_are_read_back,
    printed_words_are_read_back, sentences_are_injective, unsure_checks_are_of_their_names,
};
pub use line::{LineKind, MOST_LINE, RmmTraceLine, cut_line};
pub use name::{find_name, name_text};
pub use sentence::{MOST_WORDS, Sentence, SentenceText, read_into, read_words};
pub use table::{GROUPS, START};
pub use word::{Atom, TraceWord};
