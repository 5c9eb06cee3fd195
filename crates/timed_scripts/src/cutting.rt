//! A text taken apart at its first mark, and what a line has before its comment.

ghost use Rattle.std.specs.Prelude.{◌≡◌, ◌<◌, Some, None};
ghost use Rattle.std.specs.Option.{MatchOption};
ghost use Rattle.timed_scripts.specs.Cutting.{cut_at, front_or, without_end_blanks, content};

/// What comes before the first mark and what comes after it.
pub(crate) fn cut_at(text: &str, mark: char) -> Option<(&str, &str)>
    requires { mark < 128 }
    ensures { MatchOption result (cut_at mark text.now ≡ None) (λ parts. cut_at mark text.now ≡ Some (parts.0.now, parts.1.now)) }
{
    text.split_once(mark)
}

/// What comes before the first `#`, or all of it.
fn before_comment(line: &str) -> &str
    ensures { result.now ≡ front_or line.now (cut_at 35 line.now) }
{
    match cut_at(line, '#') {
        Some((front, _comment)) => front,
        None => line,
    }
}

/// The text without the blanks at its end.
fn without_end_blanks(text: &str) -> &str
    ensures { result.now ≡ without_end_blanks text.now }
{
    let mut kept = text;
    'blanks: while let Some(front) = kept.strip_suffix(' ') {
        kept = front;
    }
    kept
}

/// What a line says, without its comment and the blanks before that.
pub(crate) fn content(line: &str) -> &str
    ensures { result.now ≡ content line.now }
{
    without_end_blanks(before_comment(line))
}
