//! Functions that find the parts of a plan in the plan's text.
//!
//! The TOML parser has accepted the text already, so the functions only check which part is next. The functions end at
//! the first part that they do not expect, and find no part after it.
use crate::finding::Span;
use crate::outline::{Build, Content, KeyValue, Outline, Value};
use std::alloc::{AllocError, Global};
use toml_parser::text::{first, skip, skip_blank, skip_ws};
use toml_parser::{ErrorKind, Key, ParseError, dotted_key, quoted, starts_string, unquoted};

/// A part of a plan's text that can contain keys or array items.
#[derive(Clone, Copy)]
enum Part {
    Plan,
    /// The elements of the array `order`.
    Turns,
    /// The elements of the array `build`.
    Builds,
    /// The keys of the last build that the walk has reached.
    Build,
    /// The elements of the array `steps` of the last build that the walk has reached.
    Steps,
    /// A table or an array that no plan has.
    Other,
}

impl Part {
    // The part to which the keys or items inside a value belong.
    fn below(self, name: &str, content: &Content) -> Part {
        match (self, name, content) {
            (Part::Plan, "order", Content::Array) => Part::Turns,
            (Part::Plan, "build", Content::Array) => Part::Builds,
            (Part::Builds, _, Content::Table) => Part::Build,
            (Part::Build, "steps", Content::Array) => Part::Steps,
            _ => Part::Other,
        }
    }
}

/// An array or inline table whose closing bracket has not been read yet.
#[derive(Clone, Copy)]
struct Open {
    /// The part of the text that contains the array or table. `part` is the part to which its own keys or items belong.
    owner: Part,
    part: Part,
    is_table: bool,
}

/// The state of the walk through a plan's text: the text that is still to be read, and the parts found so far.
#[derive(Drop)]
struct Walk<'a> {
    alloc: Global,
    whole: usize,
    /// The text that is still to be read.
    rest: &'a str,
    /// The part of the text to which the keys below the last header belong.
    section: Part,
    open: Vec<Open>,
    outline: Outline,
}

/// Finds the parts of a plan in its text, up to the first unreadable part.
pub(crate) fn outline_of(alloc: Global, text: &str) -> Result<Outline, AllocError> {
    let mut outline = parts_of(alloc, text)?;
    outline.note_missing_keys()?;
    Ok(outline)
}

// The outline of a text, without the keys that the text lacks.
fn parts_of(alloc: Global, text: &str) -> Result<Outline, AllocError> {
    let mut walk = Walk {
        alloc,
        whole: text.len(),
        rest: text.strip_prefix('\u{feff}').unwrap_or(text),
        section: Part::Plan,
        open: Vec::new(alloc),
        outline: Outline::new(alloc),
    };
    match walk.to_end() {
        Err(ParseError::OutOfMemory) => Err(AllocError),
        _ => Ok(walk.outline),
    }
}

impl<'a> Walk<'a> {
    fn to_end(&mut self) -> Result<(), ParseError> {
        for _ in 0..self.whole {
            self.rest = skip_blank(self.rest, true);
            if self.rest.is_empty() {
                return Ok(());
            }
            self.next_part()?;
        }
        Ok(())
    }

    // Reads a header, a key with its value, an item, a comma, or the end of an array or of an inline table.
    fn next_part(&mut self) -> Result<(), ParseError> {
        let is_in_table = match self.open.last() {
            Some(open) => open.is_table,
            None => true,
        };
        match first(self.rest) {
            b'[' if self.open.is_empty() => self.header(),
            b',' => self.skip_byte(),
            b']' | b'}' => self.close(),
            _ if is_in_table => self.pair(),
            // (reads an item of an array; of an item that is an array or a table, only the opening bracket)
            _ => {
                let (owner, key) = (self.owner(), Span::new(self.at(), 0));
                self.value(owner, String::new(self.alloc), key)
            }
        }
    }

    // The number of bytes before the rest of the text.
    fn at(&self) -> usize {
        self.whole.saturating_sub(self.rest.len())
    }

    // The span from a byte offset to the start of the rest of the text.
    fn span_from(&self, start: usize) -> Span {
        let end = self.at();
        Span { start, end }
    }

    // The owner of the next key or item.
    fn owner(&self) -> Part {
        match self.open.last() {
            Some(open) => open.part,
            None => self.section,
        }
    }

    // Skips one byte, which has to be an ASCII character.
    fn skip_byte(&mut self) -> Result<(), ParseError> {
        let byte = first(self.rest);
        if byte == 0 || byte >= 128 {
            return Err(ParseError::at(ErrorKind::Content, self.rest));
        }
        self.rest = skip(self.rest, 1);
        Ok(())
    }

    // Reads a key with dots or without, and returns it with its span.
    fn key(&mut self) -> Result<(Key, Span), ParseError> {
        let (start, from) = (self.at(), self.rest);
        let (key, rest) = dotted_key(self.alloc, from)?;
        self.rest = rest;
        let written = from.get(..from.len().saturating_sub(rest.len()));
        let span = Span::new(start, written.unwrap_or("").trim_end().len());
        Ok((key, span))
    }

    // Reads a line `[KEY]` or `[[KEY]]`, and adds the part that it opens. The keys below belong to that part.
    fn header(&mut self) -> Result<(), ParseError> {
        let start = self.at();
        let is_array = self.rest.starts_with("[[");
        self.rest = skip_ws(self.rest.trim_start_matches('['));
        let (key, _) = self.key()?;
        self.rest = self.rest.trim_start_matches(']');
        let (owner, content) = self.headed(&key, is_array);
        let name = name_at(key, usize::from(matches!(owner, Part::Build)));
        let key = self.span_from(start);
        let value = Value { span: key, content };
        self.add(owner, KeyValue { name, key, value })
    }

    // The owner and the kind of the part that a header opens. The part becomes the owner of the keys below.
    fn headed(&mut self, key: &Key, is_array: bool) -> (Part, Content) {
        let owner = match key.path.first() {
            None if is_array && key.last.as_str() == "build" => Part::Builds,
            Some(first) if first.as_str() == "build" && !self.outline.builds.is_empty() =>
                Part::Build,
            _ => Part::Plan,
        };
        self.section = match owner {
            Part::Builds => Part::Build,
            _ => Part::Other,
        };
        let is_of_plan = matches!(owner, Part::Plan);
        if !is_array || (is_of_plan && !key.path.is_empty()) {
            return (owner, Content::Headed);
        }
        (owner, Content::Tables)
    }

    // Reads a key with its value, and of an array or an inline table only the opening bracket. A value below a key with
    // dots is no part of a plan.
    fn pair(&mut self) -> Result<(), ParseError> {
        let owner = self.owner();
        let (written, key) = self.key()?;
        self.note_deeper_pages(owner, &written);
        let has_dots = !written.path.is_empty();
        let name = name_at(written, 0);
        self.skip_byte()?;
        self.rest = skip_ws(self.rest);
        if !has_dots {
            return self.value(owner, name, key);
        }
        let content = Content::Table;
        let value = Value { span: key, content };
        self.add(owner, KeyValue { name, key, value })?;
        self.value(Part::Other, String::new(self.alloc), key)
    }

    // Notes a key `pages` of a table that no plan has.
    fn note_deeper_pages(&mut self, owner: Part, key: &Key) {
        let has_dots = !key.path.is_empty();
        let is_deeper = match owner {
            Part::Other => self.open.is_empty() && !has_dots,
            _ => has_dots,
        };
        self.outline.has_deeper_pages |= is_deeper && key.last.as_str() == "pages";
    }

    // Reads a value, or only the opening bracket of an array or an inline table.
    fn value(&mut self, owner: Part, name: String, key: Span) -> Result<(), ParseError> {
        let start = self.at();
        let (content, rest) = content_of(self.alloc, self.rest)?;
        self.rest = rest;
        let span = self.span_from(start);
        let value = Value { span, content };
        let added = KeyValue { name, key, value };
        self.push_open(owner, &added)?;
        self.add(owner, added)
    }

    // Notes the array or the inline table whose opening bracket was read, if there is one.
    fn push_open(&mut self, owner: Part, added: &KeyValue) -> Result<(), ParseError> {
        let content = &added.value.content;
        let is_table = matches!(content, Content::Table);
        if is_table || matches!(content, Content::Array) {
            let part = owner.below(added.name.as_str(), content);
            self.open.push(Open {
                owner,
                part,
                is_table,
            })?;
        }
        Ok(())
    }

    // Adds a key with its value, or an element, which has no key, to its owner.
    fn add(&mut self, owner: Part, added: KeyValue) -> Result<(), ParseError> {
        if let Some(keys) = keys_of(&mut self.outline, owner) {
            keys.push(added)?;
            return Ok(());
        }
        self.add_element(owner, added.into_value())
    }

    // Adds an element to the array of its owner.
    fn add_element(&mut self, owner: Part, value: Value) -> Result<(), ParseError> {
        if let Some(elements) = elements_of(&mut self.outline, owner) {
            elements.push(value)?;
        } else if matches!(owner, Part::Builds) {
            let (keys, steps) = (Vec::new(self.alloc), Vec::new(self.alloc));
            self.outline.builds.push(Build { value, keys, steps })?;
        }
        Ok(())
    }

    // Closes the array or the inline table that was opened last.
    fn close(&mut self) -> Result<(), ParseError> {
        self.skip_byte()?;
        let end = self.at();
        if let Some(open) = self.open.pop() {
            if let Some(value) = last_of(&mut self.outline, open.owner) {
                value.span.end = end;
            }
        }
        Ok(())
    }
}

// Reads a value, or only the opening bracket of an array or an inline table. The second part is the text after it.
fn content_of(alloc: Global, text: &str) -> Result<(Content, &str), ParseError> {
    if starts_string(text) {
        let (string, rest) = quoted(alloc, text)?;
        return Ok((Content::Text(string), rest));
    }
    match first(text) {
        b'[' => Ok((Content::Array, skip(text, 1))),
        b'{' => Ok((Content::Table, skip(text, 1))),
        _ => {
            let (scalar, rest) = unquoted(alloc, text)?;
            Ok((Content::Scalar(scalar), rest))
        }
    }
}

// The name at a place of a key with dots, or its last name if there are fewer.
fn name_at(key: Key, place: usize) -> String {
    let Key { path, last } = key;
    path.into_iter().nth(place).unwrap_or(last)
}

// The keys of a part of an outline, if it has keys.
fn keys_of(outline: &mut Outline, owner: Part) -> Option<&mut Vec<KeyValue>> {
    match owner {
        Part::Plan => Some(&mut outline.keys),
        Part::Build => Some(&mut outline.builds.last_mut()?.keys),
        _ => None,
    }
}

// The elements of a part of an outline that is an array of turns or of steps.
fn elements_of(outline: &mut Outline, owner: Part) -> Option<&mut Vec<Value>> {
    match owner {
        Part::Turns => Some(&mut outline.turns),
        Part::Steps => Some(&mut outline.builds.last_mut()?.steps),
        _ => None,
    }
}

// The value that was added last to a part.
fn last_of(outline: &mut Outline, owner: Part) -> Option<&mut Value> {
    match owner {
        Part::Builds => Some(&mut outline.builds.last_mut()?.value),
        Part::Plan | Part::Build => Some(&mut keys_of(outline, owner)?.last_mut()?.value),
        _ => elements_of(outline, owner)?.last_mut(),
    }
}
