//! Bytes as text, or the line where that ends.

ghost use Rattle.std.specs.Prelude.{◌≡◌, ◌==◌, ◌+◌, ◌<◌, IfErr, IfOk, IsUtf8, count_by, length, take};
ghost use Rattle.text_lines.specs.NoText.{IsNoText};

/// The line, counted from 1, in which the byte at an index is.
fn line_at(bytes: &[u8], index: usize) -> usize
    requires { index < length bytes.now }
    ensures { result ≡ 1 + count_by (λ byte. byte == 10) (take index bytes.now) }
{
    let before = &bytes[..index];
    1 + before.iter().filter(|byte| **byte == b'\n').count()
}

/// The bytes as text, if all of them are UTF-8 (RFC 3629); else the line, counted from 1, of the first byte that is not. Lines end with a line feed.
pub fn text_or_line(bytes: &[u8]) -> Result<&str, usize>
    ensures text { IfOk result (λ text. (text.now ≡ bytes.now) × IsUtf8 bytes.now) }
    ensures no_text { IfErr result (IsNoText bytes.now) }
{
    match str::from_utf8(bytes) {
        Ok(text) => Ok(text),
        Err(error) => Err(line_at(bytes, error.valid_up_to())),
    }
}
