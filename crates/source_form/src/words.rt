//! Parts of a line.

ghost use Rattle.std.specs.Prelude.{◌≡◌, ◌<◌, IfSome, IfNone, true, false, slice_index_or, length};
ghost use Rattle.std.specs.List.{list_all};
ghost use Rattle.text_lines.specs.Lines.{finishes};
ghost use Rattle.source_form.specs.SourceText.{before_mark, all_but_last, statement, first_word, after_first_word};
ghost use Rattle.source_form.specs.SourceText.{has_label, label_of, statement_words, has_text, is_heading, names_map, operand_form_of};
ghost use Rattle.source_form.specs.SourceText.{is_number_byte, begins_number, is_name, is_name_byte};

/// What the operands of an instruction may be, the last one above all.
#[derive(Clone, Copy, Debug, PartialEq, Eq)]
pub enum Form {
    /// A number, a register or a place.
    Plain,
    /// A distance or a label.
    Jump,
    /// A helper's number or name.
    Call,
    /// A number of 64 bits.
    Wide,
    /// The number of a map, and of a byte in its value: no immediate.
    MapRow,
}

/// What is before the first mark, or all.
pub(crate) fn before_mark(text: &str, mark: char) -> &str
    requires { mark < 128 }
    ensures { result.now ≡ before_mark mark text.now }
{
    match text.split_once(mark) {
        Some((front, _)) => front,
        None => text,
    }
}

/// The line without its comment and without white space around the rest.
pub(crate) fn statement(line: &str) -> &str
    ensures { result.now ≡ statement line.now }
{
    before_mark(line, '#').trim()
}

/// What is up to the first space or tab.
pub(crate) fn first_word(statement: &str) -> &str
    ensures { result.now ≡ first_word statement.now }
{
    before_mark(before_mark(statement, ' '), '\t')
}

/// What comes after the first word, without white space around it.
pub(crate) fn after_first_word(statement: &str) -> &str
    ensures { result.now ≡ after_first_word statement.now }
{
    match statement.strip_prefix(first_word(statement)) {
        Some(rest) => rest.trim(),
        None => "",
    }
}

/// What is before a mark at the end.
pub(crate) fn without_end<'a>(text: &'a str, mark: &str) -> Option<&'a str>
    requires { length mark.now ≡ 1 }
    ensures some { IfSome result (λ front. (front.now ≡ all_but_last text.now) × (finishes text.now mark.now ≡ true)) }
    ensures none { IfNone result (finishes text.now mark.now ≡ false) }
{
    match text.strip_suffix(mark) {
        Some(front) => Some(front),
        None => None,
    }
}

/// The name of the statement's label: what is before its colon.
pub(crate) fn label_of(statement: &str) -> Option<&str>
    ensures some { IfSome result (λ name. (name.now ≡ label_of statement.now) × (has_label statement.now ≡ true)) }
    ensures none { IfNone result (has_label statement.now ≡ false) }
{
    match statement.split_once(':') {
        Some((name, _)) => Some(name),
        None => None,
    }
}

/// The instruction or heading of the statement, without its label.
pub(crate) fn words_of(statement: &str) -> &str
    ensures { result.now ≡ statement_words statement.now }
{
    match statement.split_once(':') {
        Some((_, words)) => words.trim(),
        None => statement,
    }
}

/// Whether the statement means a line of the exact text.
pub(crate) fn has_text(statement: &str) -> bool
    ensures { result ≡ has_text statement.now }
{
    !words_of(statement).is_empty()
}

/// Whether the word begins the first line or that of a map.
pub(crate) fn is_heading(word: &str) -> bool
    ensures { result ≡ is_heading word.now }
{
    word == "version" || word == "map"
}

/// Whether the word begins an instruction that names a map.
pub(crate) fn names_map(word: &str) -> bool
    ensures { result ≡ names_map word.now }
{
    word == "ldmap" || word == "ldval"
}

/// What the operands behind this first word may be.
pub(crate) fn form_of(word: &str) -> Form
    ensures { result ≡ operand_form_of word.now }
{
    if word.starts_with("j") {
        return Form::Jump;
    }
    if word == "call" {
        return Form::Call;
    }
    if word == "lddw" {
        return Form::Wide;
    }
    if names_map(word) {
        Form::MapRow
    } else {
        Form::Plain
    }
}

/// The first byte, or 0.
fn first_byte(text: &str) -> u8
    ensures { result ≡ slice_index_or text.now 0 0 }
{
    match text.as_bytes().first() {
        Some(byte) => *byte,
        None => 0,
    }
}

/// Whether the byte is a digit or a sign.
fn is_number_byte(byte: u8) -> bool
    ensures { result ≡ is_number_byte byte }
{
    byte == 43 || byte == 45 || (47 < byte && byte < 58)
}

/// Whether the operand begins with a digit or a sign.
pub(crate) fn begins_number(operand: &str) -> bool
    ensures { result ≡ begins_number operand.now }
{
    is_number_byte(first_byte(operand))
}

fn is_name_byte(byte: u8) -> bool
    ensures { result ≡ is_name_byte byte }
{
    (96 < byte && byte < 123)
        || (64 < byte && byte < 91)
        || (47 < byte && byte < 58)
        || byte == 95
        || byte == 46
}

fn are_name_bytes(bytes: &[u8]) -> bool
    ensures { result ≡ list_all is_name_byte bytes.now }
{
    bytes.iter().all(|byte| is_name_byte(*byte))
}

/// Whether a label may have the name: letters, digits, `_` and `.`, and no digit in front.
pub(crate) fn is_name(name: &str) -> bool
    ensures { result ≡ is_name name.now }
{
    !name.is_empty() && !begins_number(name) && are_name_bytes(name.as_bytes())
}
