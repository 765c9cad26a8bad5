//! The words and arguments of a plan's steps, for messages about invalid steps.
use crate::finding::Findings;

/// The kind of a numeric operand of a step.
#[derive(Clone, Copy)]
pub enum OperandKind {
    Order,
    Page,
    Value,
    Offset,
    Ipa,
    Level,
    Width,
    Count,
    Rec,
}

impl OperandKind {
    /// Returns the name of an operand of this kind in messages, and the greatest value that the operand can have.
    pub(crate) fn limits(self) -> (&'static str, u64) {
        match self {
            OperandKind::Order => ("the order of a block", 255),
            OperandKind::Page => ("a page", 4095),
            OperandKind::Value => ("the value of a byte", 255),
            OperandKind::Offset => ("an offset in a page", 4095),
            OperandKind::Ipa => ("an IPA granule", 4_294_967_295),
            OperandKind::Level => ("the level of a table", 255),
            OperandKind::Width => ("an IPA width", 255),
            OperandKind::Count => ("a count of pages", 65_535),
            OperandKind::Rec => ("the number of a REC", 65_535),
        }
    }
}

/// The syntax of a kind of step: its word, its arguments, and the names that it has outside of plans.
#[derive(Clone, Copy)]
pub struct Form {
    pub word: &'static str,
    /// The number and the names of the step's arguments, in words for a message.
    pub takes: &'static str,
    /// The kinds of the step's arguments. Further arguments, if the step can have any, are pages.
    kinds: &'static [OperandKind],
    /// The greatest number of arguments that the step can have.
    pub most: usize,
    /// Other names of the step, separated by spaces. They are its names in the RMI, in traces and in histories.
    other_names: &'static str,
}

impl Form {
    /// Returns the kind of the step's argument at index `place`.
    pub(crate) fn kind_at(&self, place: usize) -> OperandKind {
        self.kinds.get(place).copied().unwrap_or(OperandKind::Page)
    }

    // Whether a name is among the step's other names.
    fn has_name(&self, name: &str) -> bool {
        for other in self.other_names.split_whitespace() {
            if name.eq_ignore_ascii_case(other) {
                return true;
            }
        }
        false
    }
}

/// The help text that lists the words of all steps. A test compares them with the steps that plans can have.
pub const ALL_STEPS: &str =
    "the steps are `take`, `fill`, `peek`, `delegate`, `realm`, `activate`, \
    `rtt`, `ripas`, `data`, `unknown`, `rec`, `enter`, `exit`, `poke`, `undo`, `abort`, `mark` and `back`";

macro_rules! form {
    ($word:literal, $takes:literal, [$($kind:ident)*], $most:literal; $names:literal) => {
        Form {
            word: $word,
            takes: $takes,
            kinds: &[$(OperandKind::$kind),*],
            most: $most,
            other_names: $names,
        }
    };
}

const FORMS: [Form; 18] = [
    form!("take", "1 argument (ORDER)", [Order], 1; ""),
    form!("fill", "2 arguments (PAGE VALUE)", [Page Value], 2; "host_fill"),
    form!("peek", "2 arguments (PAGE OFFSET)", [Page Offset], 2; "host_peek"),
    form!("delegate", "1 argument (PAGE)", [Page], 1; "granule_delegate"),
    form!("realm", "2 or 3 arguments (RD ROOT [WIDTH])", [Page Page Width], 3; "realm_create"),
    form!("activate", "no argument", [], 0; "realm_activate"),
    form!("rtt", "3 arguments (PAGE IPA LEVEL)", [Page Ipa Level], 3; "rtt_create"),
    form!("ripas", "2 arguments (IPA COUNT)", [Ipa Count], 2; "rtt_init_ripas init_ripas"),
    form!("data", "3 arguments (PAGE IPA SOURCE)", [Page Ipa Page], 3; "data_create"),
    form!("unknown", "2 arguments (PAGE IPA)", [Page Ipa], 2; "data_create_unknown"),
    form!("rec", "1 to 17 arguments (PAGE AUX ..)", [Page], 17; "rec_create"),
    form!("enter", "1 argument (REC)", [Rec], 1; "rec_enter"),
    form!("exit", "1 argument (REC)", [Rec], 1; "rec_exit"),
    form!("poke", "4 arguments (REC IPA OFFSET VALUE)", [Rec Ipa Offset Value], 4; "guest_write"),
    form!("undo", "no argument", [], 0;
        "granule_undelegate undelegate untake realm_destroy rtt_destroy data_destroy rec_destroy destroy"),
    form!("abort", "no argument", [], 0; ""),
    form!("mark", "no argument", [], 0; ""),
    form!("back", "no argument", [], 0; ""),
];

fn forms() -> &'static [Form; 18] {
    &FORMS
}

/// Returns the word of a step that the misspelled `word` probably means, or `None` if no step's word is near.
pub(crate) fn nearest_step(word: &str, found: &mut Findings) -> Option<&'static str> {
    let mut words = [""; 18];
    for (place, form) in forms().iter().enumerate() {
        words[place] = form.word;
    }
    found.nearest(&words, word)
}

/// Returns the syntax of the step with the given first word, or `None` if no step has that word.
pub(crate) fn form_of(word: &str) -> Option<Form> {
    for form in forms() {
        if form.word == word {
            return Some(*form);
        }
    }
    None
}

/// Returns the word of the step whose command has the given name in the RMI, in traces or in histories, or `None` if
/// there is none.
pub(crate) fn step_of_command(name: &str) -> Option<&'static str> {
    for form in forms() {
        if form.has_name(name) {
            return Some(form.word);
        }
    }
    None
}
