//! Reports of replays that are compared.

ghost use Rattle.std.specs.Prelude.{◌≡◌};

use super::replays::{MOVES, SENDS, TWO_DATAGRAMS};
use super::{Wanted, compare, done, put, put_digits, with_image};
use folders::MemoryFolder;
use std::alloc::Global;
use std::process::Abort;
use std::sync::Wait;
use std::thread::Threads;
use test_support::files::SERVICE;

/// Two frames that are sent, and one that passes.
const THREE: &[u8] = b"\
    number,moment,worker,verdict,steps,case,backend,address,source,source_port,destination,destination_port,protocol,choice\n\
    1,1.000002,0,TX,131,sent,7,192.0.2.1,198.51.100.7,40000,203.0.113.1,80,udp,no-note\n\
    2,1.000003,,SHORT,,short,,,,,,,,\n\
    3,2.000000,1,TX,131,sent,5,192.0.2.2,198.51.100.8,40000,203.0.113.1,80,tcp,no-note\n";

/// The same by other workers, in other steps, with backends that were chosen otherwise.
const THREE_AGAIN: &[u8] = b"\
    number,moment,worker,verdict,steps,case,backend,address,source,source_port,destination,destination_port,protocol,choice\n\
    1,1.000002,3,TX,9,sent,7,192.0.2.1,198.51.100.7,40000,203.0.113.1,80,udp,noted\n\
    2,1.000003,,SHORT,,short,,,,,,,,\n\
    3,2.000000,0,TX,8,sent,5,192.0.2.2,198.51.100.8,40000,203.0.113.1,80,tcp,note-down\n";

/// The first one goes elsewhere, and the third one is dropped.
const MOVED: &[u8] = b"\
    number,moment,worker,verdict,steps,case,backend,address,source,source_port,destination,destination_port,protocol,choice\n\
    1,1.000002,0,TX,131,sent,5,192.0.2.2,198.51.100.7,40000,203.0.113.1,80,udp,note-down\n\
    2,1.000003,,SHORT,,short,,,,,,,,\n\
    3,2.000000,1,DROP,40,no-backend,,,198.51.100.8,40000,203.0.113.1,80,tcp,\n";

/// The same by another program: a report has no cases of it.
const BY_PROGRAM: &[u8] = b"\
    number,moment,worker,verdict,steps,case,backend,address,source,source_port,destination,destination_port,protocol,choice\n\
    1,1.000002,0,TX,50,,7,192.0.2.1,198.51.100.7,40000,203.0.113.1,80,udp,\n\
    2,1.000003,,SHORT,,,,,,,,,,\n\
    3,2.000000,1,DROP,40,,,,198.51.100.8,40000,203.0.113.1,80,tcp,\n";

/// The third one came later.
const LATER: &[u8] = b"\
    number,moment,worker,verdict,steps,case,backend,address,source,source_port,destination,destination_port,protocol,choice\n\
    1,1.000002,0,TX,131,sent,7,192.0.2.1,198.51.100.7,40000,203.0.113.1,80,udp,no-note\n\
    2,1.000003,,SHORT,,short,,,,,,,,\n\
    3,2.000001,1,TX,131,sent,5,192.0.2.2,198.51.100.8,40000,203.0.113.1,80,tcp,no-note\n";

/// No record.
const HEAD: &[u8] =
    b"number,moment,worker,verdict,steps,case,backend,address,source,source_port,destination,destination_port,protocol,choice\n";

/// A field is missing in the second line of a record.
const CUT: &[u8] = b"\
    number,moment,worker,verdict,steps,case,backend,address,source,source_port,destination,destination_port,protocol,choice\n\
    1,1.000002,0,TX,131,sent,7,192.0.2.1,198.51.100.7,40000,203.0.113.1,80,udp,no-note\n\
    2,1.000003,,SHORT,,short,,,,,,,\n\
    3,2.000000,1,TX,131,sent,5,192.0.2.2,198.51.100.8,40000,203.0.113.1,80,tcp,no-note\n";

/// The destination of the second record is no address.
const NO_ADDRESS: &[u8] = b"\
    number,moment,worker,verdict,steps,case,backend,address,source,source_port,destination,destination_port,protocol,choice\n\
    1,1.000002,0,TX,131,sent,7,192.0.2.1,198.51.100.7,40000,203.0.113.1,80,udp,no-note\n\
    2,1.000003,0,TX,131,sent,7,192.0.2.1,198.51.100.7,40000,here,80,udp,no-note\n";

/// What a row shows, the two files, the status, and what is printed and of which mistake.
type Row = (
    &'static str,
    &'static [u8],
    &'static [u8],
    u8,
    &'static str,
    &'static str,
);

#[rattlefmt::skip]
static ROWS: [Row; 16] = [
    ("a report and itself", THREE, THREE, 0, "3 records in both, 0 treated differently\n", ""),
    ("other workers, steps and choices", THREE, THREE_AGAIN, 0, "3 records in both, 0 treated differently\n", ""),
    ("no record", HEAD, HEAD, 0, "0 records in both, 0 treated differently\n", ""),
    ("two are treated differently", THREE, MOVED, 1,
        "3 records in both, 2 treated differently\n\
         1 from TX sent 5 192.0.2.2 to DROP no-backend\n\
         1 from TX sent 7 192.0.2.1 to TX sent 5 192.0.2.2\n\
         record 1 at 1.000002, udp 198.51.100.7:40000 to 203.0.113.1:80: from TX sent 7 192.0.2.1 to TX sent 5 192.0.2.2\n\
         record 3 at 2.000000, tcp 198.51.100.8:40000 to 203.0.113.1:80: from TX sent 5 192.0.2.2 to DROP no-backend\n", ""),
    ("another program, which drops one", THREE, BY_PROGRAM, 1,
        "3 records in both, 1 treated differently\n\
         1 from TX sent 5 192.0.2.2 to DROP\n\
         record 3 at 2.000000, tcp 198.51.100.8:40000 to 203.0.113.1:80: from TX sent 5 192.0.2.2 to DROP\n", ""),
    ("the same the other way round", BY_PROGRAM, THREE, 1,
        "3 records in both, 1 treated differently\n\
         1 from DROP to TX sent 5 192.0.2.2\n\
         record 3 at 2.000000, tcp 198.51.100.8:40000 to 203.0.113.1:80: from DROP to TX sent 5 192.0.2.2\n", ""),
    ("another moment", THREE, LATER, 2, "", "error: first and second are not of the same records: record 3 differs\n"),
    ("fewer records", THREE, HEAD, 2, "", "error: first and second are not of the same records: record 1 differs\n"),
    ("more records", HEAD, THREE, 2, "", "error: first and second are not of the same records: record 1 differs\n"),
    ("a field is missing", THREE, CUT, 2, "", "error: second is no report of CSV: line 3\n"),
    ("an address that is none", THREE, NO_ADDRESS, 2, "", "error: second is no report of CSV: line 3, column destination\n"),
    ("no bytes", b"", THREE, 2, "", "error: first is no report of CSV: line 1\n"),
    ("a head that is cut", THREE, b"number,moment\n", 2, "", "error: second is no report of CSV: line 1\n"),
    ("JSON lines", THREE, b"{}\n", 2, "", "error: second has JSON lines, and a report of CSV is needed\n"),
    ("bytes that are no text", b"a\n\xff", THREE, 2, "", "error: first is no report of CSV: line 2\n"),
    ("JSON before anything else", b"{\xff", b"", 2, "", "error: first has JSON lines, and a report of CSV is needed\n"),
];

/// Holds the comparison of a row's files against what is wanted.
fn compare_row<R: Abort + Threads + Wait + Sync>(rt: &R, alloc: Global, row: &Row) {
    let (name, first, second, status, out, err) = *row;
    let folder = put(rt, alloc, MemoryFolder::new(alloc), "first", first);
    let folder = put(rt, alloc, folder, "second", second);
    let wanted = Wanted { status, out, err };
    compare(rt, alloc, name, folder, "xlb compare first second", wanted);
}

#[test]
fn reports_are_compared(rt: HostRuntime) {
    for row in &ROWS {
        compare_row(&rt, rt.alloc(), row);
    }
}

/// What is printed of a replay whose only backend stays up, and one in which it goes down behind the first frame.
const ONE_MOVED: &str = "2 records in both, 1 treated differently
1 from TX sent 0 192.0.2.1 to TX sent 1 192.0.2.2
record 2 at 1.000002, udp 198.51.100.7:40000 to 203.0.113.1:80: from TX sent 0 192.0.2.1 to TX sent 1 192.0.2.2
";

/// What is printed of the first of these, and a program that sends each frame as it is.
const NOT_TUNNELLED: &str = "2 records in both, 2 treated differently
2 from TX sent 0 192.0.2.1 to TX
record 1 at 1.000002, udp 198.51.100.7:40000 to 203.0.113.1:80: from TX sent 0 192.0.2.1 to TX
record 2 at 1.000002, udp 198.51.100.7:40000 to 203.0.113.1:80: from TX sent 0 192.0.2.1 to TX
";

/// The reports of three replays of one capture: with the backend, with one that goes down, and by another program.
fn replayed<R: Abort + Threads + Wait + Sync>(rt: &R, alloc: Global) -> MemoryFolder
    ensures { result.failures ≡ 0 }
{
    let folder = put(
        rt,
        alloc,
        MemoryFolder::new(alloc),
        "up",
        SERVICE.as_bytes(),
    );
    let folder = put(rt, alloc, folder, "moves", MOVES.as_bytes());
    let folder = put_digits(rt, alloc, folder, "capture", TWO_DATAGRAMS);
    let folder = with_image(rt, alloc, "a program", folder, SENDS);
    let line = "xlb replay capture sent --script up --exact --report first";
    let folder = done(rt, alloc, "up", folder, line);
    let line = "xlb replay capture sent --script moves --exact --report second";
    let folder = done(rt, alloc, "moves", folder, line);
    let line = "xlb replay capture sent --image image --report third";
    done(rt, alloc, "a program", folder, line)
}

#[test]
fn reports_of_replays_are_compared(rt: HostRuntime) {
    let alloc = rt.alloc();
    let wanted = Wanted {
        status: 1,
        out: ONE_MOVED,
        err: "",
    };
    compare(
        &rt,
        alloc,
        "two scripts",
        replayed(&rt, alloc),
        "xlb compare first second",
        wanted,
    );
    let wanted = Wanted {
        status: 1,
        out: NOT_TUNNELLED,
        err: "",
    };
    compare(
        &rt,
        alloc,
        "two programs",
        replayed(&rt, alloc),
        "xlb compare first third",
        wanted,
    );
}
