//! Findings on a plan, and their spans in its text.
use crate::message_text::{Piece, filled_message};
use crate::nearest::nearest;
use realm_plan::PlanFault;
use std::alloc::{AllocError, Global};

/// A contiguous part of a text, given by two byte offsets.
#[derive(Clone, Copy)]
pub struct Span {
    pub start: usize,
    pub end: usize,
}

impl Span {
    /// Creates the span of the `len` bytes from `start` on.
    pub(crate) fn new(start: usize, len: usize) -> Span {
        let end = start.saturating_add(len);
        Span { start, end }
    }
}

/// The severity of a finding on a document: error or warning.
#[derive(Clone, Copy, PartialEq, Eq)]
pub enum Severity {
    /// A mistake that keeps a document from being a valid plan. The values are the fault of the mistake, and a second
    /// fault if the mistake causes two.
    Error(PlanFault, Option<PlanFault>),
    /// A likely mistake in a plan, which is valid all the same.
    Warning,
}

/// An error in a document, or a likely mistake in a valid plan, with its span in the text.
pub struct Finding {
    pub severity: Severity,
    pub span: Span,
    pub words: String,
    /// The lines printed below the finding's excerpt in a report, such as a line of help.
    pub notes: Vec<String>,
}

impl Drop for Finding {
    fn drop(self) {
        let Finding {
            severity: _,
            span: _,
            words: _,
            notes: _,
        } = self;
    }
}

/// A growing list of findings, with a flag that records a failed allocation. Code that adds a finding need not check
/// the flag.
pub struct Findings {
    pub alloc: Global,
    list: Vec<Finding>,
    has_failed: bool,
}

impl Drop for Findings {
    fn drop(self) {
        let Findings {
            alloc: _,
            list: _,
            has_failed: _,
        } = self;
    }
}

impl Findings {
    pub(crate) fn new(alloc: Global) -> Findings {
        Findings {
            alloc,
            list: Vec::new(alloc),
            has_failed: false,
        }
    }

    /// Returns all findings, or an error if an allocation failed.
    pub(crate) fn finish(self) -> Result<Vec<Finding>, AllocError> {
        let Findings {
            alloc: _,
            list,
            has_failed,
        } = self;
        if has_failed {
            Err(AllocError)
        } else {
            Ok(list)
        }
    }

    /// Adds a finding whose message is a template with its gaps filled. The template `words` has a gap `{}` for each
    /// piece.
    pub(crate) fn add(
        &mut self,
        severity: Severity,
        span: Span,
        words: &str,
        pieces: &[Piece<'_>],
    ) {
        let Ok(words) = filled_message(self.alloc, "", words, pieces) else {
            self.has_failed = true;
            return;
        };
        let added = self.list.push(Finding {
            severity,
            span,
            words,
            notes: Vec::new(self.alloc),
        });
        self.has_failed |= added.is_err();
    }

    /// Adds a finding that is an error with one fault.
    pub(crate) fn error(
        &mut self,
        fault: PlanFault,
        span: Span,
        words: &str,
        pieces: &[Piece<'_>],
    ) {
        self.add(Severity::Error(fault, None), span, words, pieces);
    }

    pub(crate) fn warning(&mut self, span: Span, words: &str, pieces: &[Piece<'_>]) {
        self.add(Severity::Warning, span, words, pieces);
    }

    /// Adds a line of help to the last finding.
    pub(crate) fn help(&mut self, words: &str, pieces: &[Piece<'_>]) {
        self.note("help: ", words, pieces);
    }

    /// Adds a line that starts with `beginning` to the notes of the last finding.
    pub(crate) fn note(&mut self, beginning: &str, words: &str, pieces: &[Piece<'_>]) {
        let Ok(line) = filled_message(self.alloc, beginning, words, pieces) else {
            self.has_failed = true;
            return;
        };
        if let Some(last) = self.list.last_mut() {
            self.has_failed |= last.notes.push(line).is_err();
        }
    }

    /// Returns the one of `names` that a misspelled word probably means, or `None` if none is near. If an allocation
    /// fails, that is noted, and the result is `None`.
    pub(crate) fn nearest(&mut self, names: &[&'static str], word: &str) -> Option<&'static str> {
        let Ok(near) = nearest(self.alloc, names, word) else {
            self.has_failed = true;
            return None;
        };
        near
    }
}
