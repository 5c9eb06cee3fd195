//! Whether a file begins as a source does.

ghost use Rattle.std.specs.Prelude.{◌≡◌};
ghost use Rattle.source_form.specs.SourceBeginning.{is_blank, is_word_byte, goes_into, begins_as_source};

fn is_blank(byte: u8) -> bool
    ensures { result ≡ is_blank byte }
{
    byte == 32 || byte == 9 || byte == 13 || byte == 10
}

/// Whether the byte is neither blank nor of a comment, by whether a comment has begun before it.
fn is_word_byte(in_comment: bool, byte: u8) -> bool
    ensures { result ≡ is_word_byte in_comment byte }
{
    !(in_comment || byte == 35 || is_blank(byte))
}

/// Whether the byte behind this one is in a comment.
fn goes_into(in_comment: bool, byte: u8) -> bool
    ensures { result ≡ goes_into in_comment byte }
{
    if in_comment { byte != 10 } else { byte == 35 }
}

/// Whether a file begins as a source does: behind blanks and comments comes the word `version`. An image never does, nor any other file
/// that the program reads.
pub fn begins_as_source(text: &[u8]) -> bool
    ensures { result ≡ begins_as_source text.now }
{
    let mut rest = text;
    let mut in_comment = false;
    'bytes: while let Some((byte, more)) = rest.split_first() {
        if is_word_byte(in_comment, *byte) {
            return rest.starts_with(b"version");
        }
        in_comment = goes_into(in_comment, *byte);
        rest = more;
    }
    false
}
