//! Files that are there already, where a command may write over none.

ghost use Rattle.std.specs.Prelude.{◌≡◌, ℕ, List, Some, None, IfOk, IfSome, false, true, string_bytes};
ghost use Rattle.command_line.specs.Reading.{text_of};
ghost use Rattle.xlb_commands.specs.Clashes.{AreFree, IsWrittenAnew, IsWrittenInReplay, present_text};

use crate::printable::in_one_line;
use command_line::{ReplayFiles, Settings};
use folders::Folder;
use std::alloc::{AllocError, Global};

/// The line that is printed of such a file.
pub(crate) fn present_text(alloc: Global, name: &str) -> Result<String, AllocError>
    ensures { IfOk result (λ text. string_bytes text ≡ present_text name.now) }
{
    let name = in_one_line(alloc, name)?;
    let name = name.as_str();
    format!(in alloc; "error: {name} is there already: --no-clobber writes over no file\n")
}

/// The name of a file, if one is named and it is there.
fn if_there<'a, D: Folder>(folder: &D, name: Option<&'a str>) -> Option<&'a str>
    ensures found { IfSome result (λ found. (text_of name.entry ≡ Some found.now) × D.has folder.now found.now true) }
    ensures none { result ≡ None → (other : List ℕ) → text_of name.entry ≡ Some other → D.has folder.now other false }
{
    let name = name?;
    if folder.has(name) { Some(name) } else { None }
}

/// The first file that a replay writes and that is there.
fn there_in_replay<'a, D: Folder>(folder: &D, files: &ReplayFiles<'a>) -> Option<&'a str>
    ensures found { IfSome result (λ found. IsWrittenInReplay files.now found.now × D.has folder.now found.now true) }
    ensures none { result ≡ None → (other : List ℕ) → IsWrittenInReplay files.now other → D.has folder.now other false }
{
    if let Some(name) = if_there(folder, Some(files.sent)) {
        return Some(name);
    }
    if let Some(name) = if_there(folder, files.journals) {
        return Some(name);
    }
    if let Some(name) = if_there(folder, files.report) {
        return Some(name);
    }
    if_there(folder, files.maps)
}

/// The first file that is to be written, and is there, of a command that may write over none.
pub(crate) fn in_the_way<'a, D: Folder>(folder: &D, settings: &Settings<'a>) -> Option<&'a str>
    ensures found { IfSome result (λ found. IsWrittenAnew settings.now found.now × D.has folder.now found.now true) }
    ensures none { result ≡ None → AreFree (D.has folder.now) settings.now }
{
    match settings {
        Settings::Replay(asked) if asked.no_clobber => there_in_replay(folder, &asked.files),
        _ => None,
    }
}
