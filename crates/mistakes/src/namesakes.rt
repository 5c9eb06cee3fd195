//! What is printed of a fault, and of others that have its name.

ghost use Rattle.std.specs.Prelude.{◌≡◌, ◌++◌, ◌<◌, ◌^◌, true, IfOk, OnOk, string_bytes};
ghost use Rattle.mistakes.specs.Namesakes.{explained_text, is_namesake, is_namesake_of, numbers_line, namesake_text, namesakes_below, namesakes_line};

use faults::Explanation;
use std::alloc::{AllocError, Global};

/// No fault has a number as high as this one.
const NO_FAULT: u32 = 96;

/// Whether a fault is another one that has the name of this one.
fn is_other(about: &Explanation, other: Explanation) -> bool
    ensures { result ≡ is_namesake_of about.now true other.number other.name.now }
{
    other.name == about.name && other.number != about.number
}

/// Whether a number is that of another fault that has the name of this one.
fn is_namesake(about: &Explanation, number: u32) -> bool
    ensures { result ≡ is_namesake about.now number }
{
    match Explanation::of(number) {
        Some(other) => is_other(about, other),
        None => false,
    }
}

/// Appends a number behind a blank, if it is that of another fault that has the name of this one.
fn put_namesake(
    alloc: Global,
    text: &mut String,
    about: &Explanation,
    number: u32,
) -> Result<(), AllocError>
    ensures { OnOk result (string_bytes text.new ≡ string_bytes text.old ++ namesake_text about.now number) }
{
    if !is_namesake(about, number) {
        return Ok(());
    }
    text.push_str(&format!(in alloc; " {number}")?)
}

/// The numbers below this one of the other faults that have the name, each behind a blank.
#[tactic(auto, unfolding(crate::specs::Namesakes::namesakes_below))]
fn namesakes_below(alloc: Global, about: &Explanation, most: u32) -> Result<String, AllocError>
    requires { most < 2 ^ 31 }
    ensures { IfOk result (λ text. string_bytes text ≡ namesakes_below about.now most) }
{
    let mut text = String::new(alloc);
    'numbers: for number in 0..most {
        put_namesake(alloc, &mut text, about, number)?;
    }
    Ok(text)
}

/// The line of these numbers.
fn line_of(alloc: Global, numbers: &str) -> Result<String, AllocError>
    ensures { IfOk result (λ line. string_bytes line ≡ numbers_line numbers.now) }
{
    format!(in alloc; "Other faults of this name:{numbers}\n")
}

/// Appends this line, if there are any numbers.
fn put_line(alloc: Global, text: &mut String, numbers: &str) -> Result<(), AllocError>
    ensures { OnOk result (string_bytes text.new ≡ string_bytes text.old ++ namesakes_line numbers.now) }
{
    if numbers.is_empty() {
        return Ok(());
    }
    text.push_str(&line_of(alloc, numbers)?)
}

/// What is printed of a fault: its paragraph, and below it one line with the number of each other fault that has its name, if there are
/// any. It fails only for lack of memory.
pub fn explained(alloc: Global, about: &Explanation) -> Result<String, AllocError>
    ensures { IfOk result (λ text. string_bytes text ≡ explained_text about.now) }
{
    let numbers = namesakes_below(alloc, about, NO_FAULT)?;
    let mut text = about.text(alloc)?;
    put_line(alloc, &mut text, numbers.as_str())?;
    Ok(text)
}
