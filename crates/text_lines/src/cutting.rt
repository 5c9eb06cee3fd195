//! Texts read leniently: where a text has no such mark or beginning, it is read as something else. Who reads prints the result again and compares.

ghost use Rattle.std.specs.Prelude.{◌≡◌, ◌++◌, ◌∷◌, [], ◌<◌, ℕ, List};
ghost use Rattle.text_lines.specs.Lines.{Lacks, finishes};

/// What comes before the first mark and what comes after it, or the text and nothing.
pub fn cut(text: &str, mark: char) -> (&str, &str)
    requires { mark < 128 }
    ensures both { (xs ys : List ℕ) → text.now ≡ xs ++ mark ∷ ys → Lacks mark xs → (result.0.now ≡ xs) × (result.1.now ≡ ys) }
    ensures whole { Lacks mark text.now → (result.0.now ≡ text.now) × (result.1.now ≡ []) }
{
    match text.split_once(mark) {
        Some((front, back)) => (front, back),
        None => (text, ""),
    }
}

/// What comes after this beginning.
pub fn after<'a>(text: &'a str, front: &str) -> &'a str
    ensures { (rest : List ℕ) → text.now ≡ front.now ++ rest → result.now ≡ rest }
{
    match text.strip_prefix(front) {
        Some(rest) => rest,
        None => "",
    }
}

/// Whether a text ends so.
pub fn finishes(text: &str, end: &str) -> bool
    ensures { result ≡ finishes text.now end.now }
{
    text.ends_with(end)
}
