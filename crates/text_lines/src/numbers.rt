//! Decimal numbers read leniently.

ghost use Rattle.std.specs.Prelude.{◌≡◌, ◌<◌, ◌^◌, ℕ};
ghost use Rattle.std.specs.Fmt.{decimal};

/// The number of 32 bits that the text says in decimal. What says none is read as some other number.
pub fn count_of(text: &str) -> u32
    ensures { (number : ℕ) → number < 2 ^ 32 → text.now ≡ decimal number → result ≡ number }
{
    match text.parse::<u32>() {
        Ok(value) => value,
        Err(_) => 0,
    }
}
