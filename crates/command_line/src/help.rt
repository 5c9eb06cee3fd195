//! What a command's help says at its end.
//!
//! These are functions, since a literal of this length in a function that says what the command takes would be part of each of its goals.

pub fn after_check<'a>() -> &'a str {
    "\
IMAGE may be a source, as asm --source reads it, in place of an image: a file
whose first word, behind comments and blank lines, is `version`. Prints one line:
  accepted slots <slots> maps <maps> reader <yes or no>
A slot has eight bytes; an instruction takes one or two. A reader has no
instruction that changes a key or a value of a map or asks for the worker's
number, so it does the same on each worker. A program that may not run is
refused with the first rule that it breaks and the slot of the instruction,
counted from 0; of a source, its line and the label above it are in a line
below.
With --explain more lines follow: for a refused program what was known
at that instruction, the rule and the usual remedy; for an accepted one what is
known before each instruction, and why it is not a reader.
An image of version 2 may also take addresses in the values of its maps (the
instruction ldval), and have values of up to 256 bytes."
}

pub fn after_run<'a>() -> &'a str {
    "\
Prints three lines:
  verdict <aborted, drop, pass or tx>
  instructions <how many were run>
  frame <the frame afterwards, in hexadecimal>
A dropped frame is thrown away, a passed one goes to the host, and tx sends it
out; aborted means that the program returned none of these. FRAME has raw bytes;
of a text, or of hexadecimal digits, the letters are run, and a line on the
standard error says so. The maps are new:
the elements of an array are zeros, other maps have no keys. With --update,
which may be given any number of times, the controller sets a key of a map to a
value before the run: MAP is the map's place in the image, from 0, KEY and VALUE
are bytes in hexadecimal, as many as the map's keys and values have. With
--journals the calls that the controller and the run made on each map are
written to the file, with their replies, if the run came to its end; with --maps
what the maps hold then: for each key a line with the map's place, the key and
its value, in hexadecimal, or as a JSON object if the file's name ends in .json
or .jsonl."
}

pub fn after_disasm<'a>() -> &'a str {
    "\
Prints `version 1`, a line for each map and a line for each instruction: what
asm reads. The program is not judged. With --source it prints the source form:
labels in place of distances, and each instruction's slot in a comment."
}

pub fn after_asm<'a>() -> &'a str {
    "\
Prints nothing. An image has one text: another spelling is refused with its
line, counted from 1. With --source the text may have comments, blank lines,
labels, hexadecimal numbers and names of helpers."
}

pub fn after_audit<'a>() -> &'a str {
    "\
Prints `legal` if each entry of each journal is a call that its caller may
make, with the reply that a map on one thread gives, and none came past a full
journal. Otherwise the first entry that is not is reported, by its shard and its
place there, counted from 0. Only the image's maps count: its program is not
judged. They have to be those of the program that wrote the journals: for the
shipped program, 'xlb shipped' writes its image for the --ring and the --flows of
the replay."
}

pub fn after_explain<'a>() -> &'a str {
    "\
Prints what the fault means, what mostly leads to it, and an example. FAULT is
its number or its name. If several faults have the name (BadLine, Memory and
others), the one with the least number is explained, and the numbers of the
others are printed below. A number or a name that no fault has is a mistake of
the command line."
}

pub fn after_shipped<'a>() -> &'a str {
    "\
Prints nothing. The image is the program that replay runs if no other one is
given, with its maps. Audit that program's journals with it, if --ring and
--flows are the same."
}

pub fn after_table<'a>() -> &'a str {
    "\
Prints the lookup table that the controller of a replay writes, after each
command of the script, in its order: a line
  command <its number, from 1> frame <its frame> moved <slots> least <slots>
with the number of slots that change hands, and the fewest that have to for the
shares that follow, and then a line for each backend that is up
  backend <number> address <address> slots <its share> percent <its share>
A command that is refused has the line
  command <its number, from 1> refused <fault number>
in which case the status is 1, and a line on the standard error says why."
}

pub fn after_replay<'a>() -> &'a str {
    "\
Prints how many frames there were, and among them those shorter than an
Ethernet header, those whose run was stopped by a full journal, and those of
each verdict:
  frames <n>
  short <n>
  stopped <n>
  aborted <n>
  drop <n>
  pass <n>
  tx <n>
and for each command of the script that was refused
  command <its number, from 1> refused <fault number>
in which case the status is 1. A frame is handled by the worker of its flow,
so that a flow's frames stay in order. --image replays any program, without a
script; --update, as of run, sets a value in its maps before the first frame.
--program replays one over the maps of the shipped program, with any size of the
lookup table and of the flow table, and with a script; --update then sets the
maps 1 and 5 alone, of flows and counts, which no command sets. The shipped program notes
the backends of --flows flows; to note one more it forgets one. The controller
works beside the workers: a command may take effect up to some 64 frames for
each worker too early, because a worker's queue holds 64 frames, or later. With
--exact it takes effect when all frames before it are done, and before a later
one is begun. With --summary
lines on the standard error give the number of frames of each kind in the
capture, the number sent to each address, how many of these were sent to
another address than the frame of their flow before and why, how many are for
each service of the script, why others were not sent, how many slots of the
lookup table each backend has at the end, and the first ten records that went to
another address; of --image and --program, whose reasons are their own, how many
frames the program passed, dropped, aborted and sent. A frame that was cut within
its packet when it was captured is passed, as malformed (tcpdump -s 0 keeps
frames whole).
With --report one line for each record of the capture is written to the file:
  number,moment,worker,verdict,steps,case,backend,address,
  source,source_port,destination,destination_port,protocol,choice
as CSV, or as a JSON object if the file's name ends in .json or .jsonl, in upper
or lower case. The case is that of the steering rule; backend and address are
where the frame was sent; the next five are its flow; the choice is how its
backend was found: noted, or by the lookup table, as the flow has no note
(no-note), the noted backend is not up (note-down) or the service keeps no notes
(untracked). Case and choice are empty with --image and --program.
With --maps what the maps hold at the end is written to the file: for each key a
line with the map's place in the image, from 0, the key and its value, in
hexadecimal, or as a JSON object if the file's name ends in .json or .jsonl; of
the maps of steering also what the entry means: a service, the backend of a flow
or of a slot, a backend's slots, a verdict's frames.
A capture with a record of more than 2048 bytes is refused; with --skip-long
such records are skipped, and a line on the standard error gives their number.
With --pad-cut a record that was cut when it was captured has zeros up to the
length of its frame; with --allow-cut the end of a capture may be missing.
With --part the frames of some of the flows are replayed, so that N replays, of
the parts 0 to N - 1, share a capture: a flow is in one part, by a hash of its
key, and a frame without a flow is in part 0. The numbers of the script's
commands still count the frames of the whole capture. With --lost J@RECORD the
machine of part J is lost when so many records of the capture have passed: from
there on its flows are spread over the other parts by a second hash, its frames
without a flow are in the first of these, and the flows of others stay.
With --strict the status is 1 where a run was stopped, a record was skipped, cut
or filled up, or a command comes behind the last record. With --no-clobber a
file that is to be written and is there already is a mistake, with status 2.
With --no-journals no rows of journals are kept: a frame costs less time and no
memory for rows, and each shard may have 4000000000 calls, whatever --journal is."
}

pub fn after_script<'a>() -> &'a str {
    "\
Prints the script, for replay --script. TIMED has the lines of a script, but the
first word of each is a moment in place of the number of a record:
  2026-11-28T10:03:00Z   a date and a time of day, with an offset or Z
  1764324180.25          seconds since 1970, with up to six digits
  +180s                  from the moment of the first record
It becomes the number of records before the first one that is not earlier. Blank
lines, and what follows a #, are no part of it. A moment behind the last record
is named on the standard error. With --skip-long, --pad-cut and --allow-cut the
records are those of a replay with these options."
}

pub fn after_compare<'a>() -> &'a str {
    "\
FIRST and SECOND were written by replay --report, of one capture. Prints how many
records they have, how many of these differ in verdict, case (where both have
one), backend or address, from what to what and how often, and the first ten of
them. Worker, steps and choice may differ. The status is 0 where none differs, 1
where one does, and 2 where the files cannot be compared: one is no CSV, or they
are not of the same records."
}

pub fn after_flows<'a>() -> &'a str {
    "\
REPORT was written by replay --report, of the shipped program and of a whole
capture, not of --part, and SCRIPT is the script of that replay. Prints a line
for each flow: when it was seen, how many frames it had, how many of them were
sent, how many dropped, how many of these for want of a backend that was up, and
its backends in order, each with the reason of the change: down (the backend
before was not up), untracked (the service keeps no notes, or kept none at the
frame before), readdressed (its note was followed, and its backend has another
address), evicted (its note was gone, and its backend still up), unknown (the
report does not say how the backend was chosen). On threads down may stand for
evicted or untracked, or these for it, around a command. On the standard error it
says how many flows moved, how many lost frames (one was dropped behind a sent
one), how many frames were moved for each reason, and which ten flows moved most
often. The status is 2 where REPORT is no report of CSV, or the record of one of
its rows does not follow that of the row before."
}

pub fn after_page<'a>() -> &'a str {
    "\
REPORT was written by replay --report, and SCRIPT is the script of that replay.
Prints a page of HTML for a browser, which needs no network: frames over time by
backend and by what became of them, the script's commands as marks, and the flows
that were moved. The status is 2 where REPORT is no report of CSV."
}
