//! Laws of commands, as contracts of functions that do nothing.

ghost use Rattle.xlb_commands.specs.AcceptedJournals.{AuditsAccept};
ghost use Rattle.xlb_commands.specs.SameFiles.{ExactReplaysWriteTheSame, JournalsChangeNoBytes};
ghost use Rattle.xlb_commands.specs.SameFolders.{SameFilesLeaveTheSame};

use control::one_script;
use ebpf_decode::one_encoding;
use folders::Folder;
use replay::laws::{exact_replays_agree, journals_change_nothing};

/// An audit of journals that `xlb replay --journals J` wrote, whatever the file is named now, and of an image of the same maps, is refused
/// neither for a line (55) nor for an entry (53), in a folder whose files have the bytes that `holds` says and no others.
pub fn audits_accept<D: Folder>(folder: &D)
    ensures { AuditsAccept (D.holds folder.now) }
{
    let _ = folder;
}

/// Any two exact replays of one program, script and capture, with the same options and updates, write the same bytes to each of their files,
/// and the same report to the output, unless a command was refused for lack of memory (95).
pub fn exact_replays_write_the_same()
    ensures { ExactReplaysWriteTheSame }
{
    exact_replays_agree();
}

/// With journals of another size, or with none kept, an exact replay sends the same bytes, writes the same report of its records and prints
/// the same, where in neither of the two a journal was full for a run or for a command, and memory was refused to no command.
pub fn journals_change_no_bytes()
    ensures { JournalsChangeNoBytes }
{
    journals_change_nothing();
}

/// Two commands `xlb replay --exact` with the same settings, each in a folder of its own, whose files have the same bytes by the same names,
/// leave files of the same bytes and print the same: the sent frames, the journals and the report, whatever reading or part of the capture
/// they ask for, unless memory was refused to a command of a script (95).
pub fn same_files_leave_the_same<D: Folder>()
    ensures { SameFilesLeaveTheSame D.holds }
{
    one_encoding();
    one_script();
    exact_replays_write_the_same();
}
