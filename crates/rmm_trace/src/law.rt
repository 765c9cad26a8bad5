//! Theorems about the text of traces: printed text is read back unchanged, and the tables of names, commands and
//! uncertain checks are as specified.
ghost use Rattle.std.specs.Prelude.{◌≡◌, ◌≤◌, ◌==◌, ◌++◌, true, ℕ, List, Some, length, codes};
ghost use Rattle.hex.specs.Hex.{encode_lower, IsBytes};
ghost use Rattle.std.specs.List.{slice_split};
ghost use Rattle.rmm_trace.specs.declared.grammar.Group.{Group};
ghost use Rattle.rmm_trace.specs.declared.grammar.Place.{Place};
ghost use Rattle.rmm_trace.specs.declared.word.TraceWord.{TraceWord};
ghost use Rattle.rmm_trace.specs.Commands.{are_commands_named};
ghost use Rattle.rmm_trace.specs.Lines.{bare_text, answer_in, is_question, question_of, line_in};
ghost use Rattle.rmm_trace.specs.Places.{are_places_named};
ghost use Rattle.rmm_trace.specs.Sentences.{sentence_text, words_in, IsSentence};
ghost use Rattle.rmm_trace.specs.Unsure.{are_unsure_named};

/// Proves that a valid list of trace words, printed as text, is read back unchanged.
pub fn printed_words_are_read_back()
    ensures { (ws : List TraceWord) → IsSentence ws
        → words_in 64 (slice_split (λ b. b == 32) (sentence_text ws)) ≡ Some ws }
{}

/// Proves that different valid lists of trace words have different texts.
pub fn sentences_are_injective()
    ensures { (vs ws : List TraceWord) → IsSentence vs → IsSentence ws → sentence_text vs ≡ sentence_text ws → vs ≡ ws }
{}

/// Proves that a valid trace line without an answer, once printed, is read back unchanged.
pub fn printed_questions_are_read_back()
    ensures { (groups : List Group) (start : Place) (ws : List TraceWord)
        → IsSentence ws → is_question groups start ws ≡ true
        → length (sentence_text ws) ≤ 65536
        → line_in groups start (sentence_text ws) ≡ question_of (record { items = ws }) }
{}

/// Proves that the part of a printed trace line before ` = ` is read back unchanged. The line consists of the
/// question's text, ` = ` and the answer's text.
pub fn answered_questions_are_read_back()
    ensures { (groups : List Group) (start : Place) (ws vs : List TraceWord)
        → IsSentence ws → IsSentence vs → is_question groups start ws ≡ true
        → length (sentence_text ws ++ (codes " = " ++ sentence_text vs)) ≤ 65536
        → line_in groups start (sentence_text ws ++ (codes " = " ++ sentence_text vs))
        ≡ question_of (record { items = ws }) }
{}

/// Proves that the answer in a printed trace line is read back unchanged. The line consists of a question's text, ` = `
/// and the answer's text.
pub fn printed_answers_are_read_back()
    ensures { (ws vs : List TraceWord) → IsSentence vs
        → answer_in (bare_text (sentence_text ws ++ (codes " = " ++ sentence_text vs))) ≡ Some (sentence_text vs) }
{}

/// Proves that different measurements have different texts.
pub fn measurement_texts_are_injective()
    ensures { (a b : List ℕ) → IsBytes a → IsBytes b → encode_lower a ≡ encode_lower b → a ≡ b }
{}

/// Proves that each constant of the module `place` is the index of its name in the table of names.
pub fn places_are_of_their_names()
    ensures { are_places_named ≡ true }
{}

/// Proves that the table of names, `FUNCTIONS` and `GROUPS` have the name, the function identifier and the number of
/// operands of each command.
pub fn commands_have_their_rows()
    ensures { are_commands_named ≡ true }
{}

/// Proves that `UNSURE` has exactly the checks whose names are not compared, each with its command.
pub fn unsure_checks_are_of_their_names()
    ensures { are_unsure_named ≡ true }
{}
