//! Flows of short reports, worked out by hand.

use crate::{Move, NoFlows, Reason, address_text, flows_in, how_many, moved_frames};
use control::parse_script;
use std::alloc::Global;
use std::process::Abort;
use wire::Ipv4Address;

/// What comes before the first row of a report.
const REPORT_HEAD: &str =
    "number,moment,worker,verdict,steps,case,backend,address,source,source_port,destination,destination_port,protocol,choice\n";

/// What comes before the first line of a table.
const TABLE_HEAD: &str =
    "source,source_port,destination,destination_port,protocol,first,last,frames,sent,dropped,no_backend,changes,backends\n";

/// What a row shows, a script, the rows of a report, the lines of the table, and the summary.
type Row = (
    &'static str,
    &'static str,
    &'static str,
    &'static str,
    &'static str,
);

#[rattlefmt::skip]
static ROWS: [Row; 21] = [
    ("no record", "", "", "",
        "0 flows with a sent frame, 0 of them moved, 0 of these TCP\n\
         0 flows had no backend for a frame, 0 lost a frame behind a sent one\n\
         0 frames moved: 0 down, 0 evicted, 0 untracked, 0 readdressed, 0 unknown\n"),
    ("flows without a sent frame, and a frame without a flow", "0 up 1 192.0.2.2\n",
        "1,1.000000,,SHORT,,short,,,,,,,,\n2,1.000001,0,PASS,9,arp,,,,,,,,\n3,1.000002,0,DROP,90,no-backend,,,10.0.0.1,1000,203.0.113.1,80,tcp,\n",
        "10.0.0.1,1000,203.0.113.1,80,tcp,1.000002,1.000002,1,0,1,1,0,\n",
        "0 flows with a sent frame, 0 of them moved, 0 of these TCP\n\
         1 flows had no backend for a frame, 0 lost a frame behind a sent one\n\
         0 frames moved: 0 down, 0 evicted, 0 untracked, 0 readdressed, 0 unknown\n"),
    ("a flow that stays", "0 vip 203.0.113.1 80 tcp\n0 up 1 192.0.2.2\n",
        "1,1.000000,0,DROP,90,no-backend,,,10.0.0.1,1000,203.0.113.1,80,tcp,\n\
         2,2.000000,0,TX,99,sent,1,192.0.2.2,10.0.0.1,1000,203.0.113.1,80,tcp,no-note\n\
         3,3.500000,0,TX,99,sent,1,192.0.2.2,10.0.0.1,1000,203.0.113.1,80,tcp,noted\n",
        "10.0.0.1,1000,203.0.113.1,80,tcp,1.000000,3.500000,3,2,1,1,0,1\n",
        "1 flows with a sent frame, 0 of them moved, 0 of these TCP\n\
         1 flows had no backend for a frame, 0 lost a frame behind a sent one\n\
         0 frames moved: 0 down, 0 evicted, 0 untracked, 0 readdressed, 0 unknown\n"),
    ("a command of number 1 comes before record 2", "0 vip 203.0.113.1 80 tcp\n0 up 0 192.0.2.1\n0 up 1 192.0.2.2\n1 down 1\n",
        "1,1.000000,0,TX,99,sent,1,192.0.2.2,10.0.0.1,1000,203.0.113.1,80,tcp,no-note\n\
         2,2.000000,0,TX,99,sent,0,192.0.2.1,10.0.0.1,1000,203.0.113.1,80,tcp,note-down\n",
        "10.0.0.1,1000,203.0.113.1,80,tcp,1.000000,2.000000,2,2,0,0,1,1 >down 0\n",
        "1 flows with a sent frame, 1 of them moved, 1 of these TCP\n\
         0 flows had no backend for a frame, 0 lost a frame behind a sent one\n\
         1 frames moved: 1 down, 0 evicted, 0 untracked, 0 readdressed, 0 unknown\n\
         1 changes of tcp 10.0.0.1:1000 to 203.0.113.1:80: 1 >down 0\n"),
    ("one of number 2 does not, so the note was gone", "0 vip 203.0.113.1 80 tcp\n0 up 0 192.0.2.1\n0 up 1 192.0.2.2\n2 down 1\n",
        "1,1.000000,0,TX,99,sent,1,192.0.2.2,10.0.0.1,1000,203.0.113.1,80,tcp,no-note\n\
         2,2.000000,0,TX,99,sent,0,192.0.2.1,10.0.0.1,1000,203.0.113.1,80,tcp,no-note\n",
        "10.0.0.1,1000,203.0.113.1,80,tcp,1.000000,2.000000,2,2,0,0,1,1 >evicted 0\n",
        "1 flows with a sent frame, 1 of them moved, 1 of these TCP\n\
         0 flows had no backend for a frame, 0 lost a frame behind a sent one\n\
         1 frames moved: 0 down, 1 evicted, 0 untracked, 0 readdressed, 0 unknown\n\
         1 changes of tcp 10.0.0.1:1000 to 203.0.113.1:80: 1 >evicted 0\n"),
    ("a backend that is up again was not the reason", "0 vip 203.0.113.1 80 tcp\n0 up 0 192.0.2.1\n0 up 1 192.0.2.2\n1 down 1\n1 up 1 192.0.2.2\n",
        "1,1.000000,0,TX,99,sent,1,192.0.2.2,10.0.0.1,1000,203.0.113.1,80,tcp,no-note\n\
         2,2.000000,0,TX,99,sent,0,192.0.2.1,10.0.0.1,1000,203.0.113.1,80,tcp,no-note\n",
        "10.0.0.1,1000,203.0.113.1,80,tcp,1.000000,2.000000,2,2,0,0,1,1 >evicted 0\n",
        "1 flows with a sent frame, 1 of them moved, 1 of these TCP\n\
         0 flows had no backend for a frame, 0 lost a frame behind a sent one\n\
         1 frames moved: 0 down, 1 evicted, 0 untracked, 0 readdressed, 0 unknown\n\
         1 changes of tcp 10.0.0.1:1000 to 203.0.113.1:80: 1 >evicted 0\n"),
    ("a service without tracking", "0 vip 203.0.113.2 53 udp notrack\n0 up 1 192.0.2.2\n1 up 2 192.0.2.3\n",
        "1,1.000000,0,TX,99,sent,1,192.0.2.2,10.0.0.1,1000,203.0.113.2,53,udp,untracked\n\
         2,2.000000,0,TX,99,sent,2,192.0.2.3,10.0.0.1,1000,203.0.113.2,53,udp,untracked\n",
        "10.0.0.1,1000,203.0.113.2,53,udp,1.000000,2.000000,2,2,0,0,1,1 >untracked 2\n",
        "1 flows with a sent frame, 1 of them moved, 0 of these TCP\n\
         0 flows had no backend for a frame, 0 lost a frame behind a sent one\n\
         1 frames moved: 0 down, 0 evicted, 1 untracked, 0 readdressed, 0 unknown\n\
         1 changes of udp 10.0.0.1:1000 to 203.0.113.2:53: 1 >untracked 2\n"),
    ("a service that was without tracking at the frame before", "0 vip 203.0.113.2 53 udp notrack\n\
         0 up 1 192.0.2.2\n\
         1 up 2 192.0.2.3\n\
         1 vip 203.0.113.2 53 udp\n",
        "1,1.000000,0,TX,99,sent,1,192.0.2.2,10.0.0.1,1000,203.0.113.2,53,udp,untracked\n\
         2,2.000000,0,TX,99,sent,2,192.0.2.3,10.0.0.1,1000,203.0.113.2,53,udp,no-note\n\
         3,3.000000,0,TX,99,sent,1,192.0.2.2,10.0.0.1,1000,203.0.113.2,53,udp,no-note\n",
        "10.0.0.1,1000,203.0.113.2,53,udp,1.000000,3.000000,3,3,0,0,2,1 >untracked 2 >evicted 1\n",
        "1 flows with a sent frame, 1 of them moved, 0 of these TCP\n\
         0 flows had no backend for a frame, 0 lost a frame behind a sent one\n\
         2 frames moved: 0 down, 1 evicted, 1 untracked, 0 readdressed, 0 unknown\n\
         2 changes of udp 10.0.0.1:1000 to 203.0.113.2:53: 1 >untracked 2 >evicted 1\n"),
    ("which services are without tracking, runs say and not the script", "0 vip 203.0.113.2 53 tcp notrack\n0 vip 203.0.113.2 53 udp\n0 up 1 192.0.2.2\n\
         0 up 2 192.0.2.3\n",
        "1,1.000000,0,TX,99,sent,1,192.0.2.2,10.0.0.1,1000,203.0.113.2,53,udp,no-note\n\
         2,2.000000,0,TX,99,sent,2,192.0.2.3,10.0.0.1,1000,203.0.113.2,53,udp,no-note\n",
        "10.0.0.1,1000,203.0.113.2,53,udp,1.000000,2.000000,2,2,0,0,1,1 >evicted 2\n",
        "1 flows with a sent frame, 1 of them moved, 0 of these TCP\n\
         0 flows had no backend for a frame, 0 lost a frame behind a sent one\n\
         1 frames moved: 0 down, 1 evicted, 0 untracked, 0 readdressed, 0 unknown\n\
         1 changes of udp 10.0.0.1:1000 to 203.0.113.2:53: 1 >evicted 2\n"),
    ("a backend with another address", "0 vip 203.0.113.1 80 tcp\n0 up 1 192.0.2.2\n1 down 1\n1 up 1 192.0.2.9\n",
        "1,1.000000,0,TX,99,sent,1,192.0.2.2,10.0.0.1,1000,203.0.113.1,80,tcp,no-note\n\
         2,2.000000,0,TX,99,sent,1,192.0.2.9,10.0.0.1,1000,203.0.113.1,80,tcp,noted\n",
        "10.0.0.1,1000,203.0.113.1,80,tcp,1.000000,2.000000,2,2,0,0,1,1 >readdressed 1\n",
        "1 flows with a sent frame, 1 of them moved, 1 of these TCP\n\
         0 flows had no backend for a frame, 0 lost a frame behind a sent one\n\
         1 frames moved: 0 down, 0 evicted, 0 untracked, 1 readdressed, 0 unknown\n\
         1 changes of tcp 10.0.0.1:1000 to 203.0.113.1:80: 1 >readdressed 1\n"),
    ("a backend whose number is not known", "0 vip 203.0.113.1 80 tcp\n0 up 1 192.0.2.2\n",
        "1,1.000000,0,TX,99,,,192.0.2.7,10.0.0.1,1000,203.0.113.1,80,tcp,\n2,2.000000,0,TX,99,,1,192.0.2.2,10.0.0.1,1000,203.0.113.1,80,tcp,\n",
        "10.0.0.1,1000,203.0.113.1,80,tcp,1.000000,2.000000,2,2,0,0,1,192.0.2.7 >unknown 1\n",
        "1 flows with a sent frame, 1 of them moved, 1 of these TCP\n\
         0 flows had no backend for a frame, 0 lost a frame behind a sent one\n\
         1 frames moved: 0 down, 0 evicted, 0 untracked, 0 readdressed, 1 unknown\n\
         1 changes of tcp 10.0.0.1:1000 to 203.0.113.1:80: 192.0.2.7 >unknown 1\n"),
    ("frames in no tunnel", "",
        "1,1.000000,0,TX,2,,,,10.0.0.1,1000,203.0.113.1,80,tcp,\n2,2.000000,0,TX,2,,,,10.0.0.1,1000,203.0.113.1,80,tcp,\n",
        "10.0.0.1,1000,203.0.113.1,80,tcp,1.000000,2.000000,2,2,0,0,0,-\n",
        "1 flows with a sent frame, 0 of them moved, 0 of these TCP\n\
         0 flows had no backend for a frame, 0 lost a frame behind a sent one\n\
         0 frames moved: 0 down, 0 evicted, 0 untracked, 0 readdressed, 0 unknown\n"),
    ("what comes between two sent frames is no change", "0 vip 203.0.113.1 80 tcp\n0 up 1 192.0.2.2\n1 down 1\n2 up 1 192.0.2.2\n",
        "1,1.000000,0,TX,99,sent,1,192.0.2.2,10.0.0.1,1000,203.0.113.1,80,tcp,no-note\n\
         2,2.000000,0,DROP,90,no-backend,,,10.0.0.1,1000,203.0.113.1,80,tcp,\n\
         3,3.000000,0,TX,99,sent,1,192.0.2.2,10.0.0.1,1000,203.0.113.1,80,tcp,noted\n",
        "10.0.0.1,1000,203.0.113.1,80,tcp,1.000000,3.000000,3,2,1,1,0,1\n",
        "1 flows with a sent frame, 0 of them moved, 0 of these TCP\n\
         1 flows had no backend for a frame, 1 lost a frame behind a sent one\n\
         0 frames moved: 0 down, 0 evicted, 0 untracked, 0 readdressed, 0 unknown\n"),
    ("an outage, with a stopped run", "0 vip 203.0.113.1 80 tcp\n0 up 1 192.0.2.2\n2 down 1\n",
        "1,1.000000,0,TX,99,sent,1,192.0.2.2,10.0.0.1,1000,203.0.113.1,80,tcp,no-note\n\
         2,2.000000,0,DROP,90,expired,,,10.0.0.1,1001,203.0.113.1,80,tcp,\n\
         3,3.000000,0,DROP,90,no-backend,,,10.0.0.1,1000,203.0.113.1,80,tcp,\n\
         4,4.000000,0,DROP,90,no-backend,,,10.0.0.1,1001,203.0.113.1,80,tcp,\n\
         5,5.000000,0,STOPPED,,,,,10.0.0.1,1000,203.0.113.1,80,tcp,\n\
         6,6.000000,0,DROP,90,,,,10.0.0.1,1000,203.0.113.1,80,tcp,\n",
        "10.0.0.1,1000,203.0.113.1,80,tcp,1.000000,6.000000,4,1,2,1,0,1\n\
         10.0.0.1,1001,203.0.113.1,80,tcp,2.000000,4.000000,2,0,2,1,0,\n",
        "1 flows with a sent frame, 0 of them moved, 0 of these TCP\n\
         2 flows had no backend for a frame, 1 lost a frame behind a sent one\n\
         0 frames moved: 0 down, 0 evicted, 0 untracked, 0 readdressed, 0 unknown\n\
         1 frames were stopped by full journals: what is said of flows is incomplete\n"),
    ("two flows that moved, one of them of TCP", "0 vip 203.0.113.1 80 tcp\n0 vip 203.0.113.1 53 udp\n0 up 1 192.0.2.2\n0 up 2 192.0.2.3\n2 down 1\n",
        "1,1.000000,0,TX,99,sent,1,192.0.2.2,10.0.0.1,1000,203.0.113.1,80,tcp,no-note\n\
         2,2.000000,0,TX,99,sent,1,192.0.2.2,10.0.0.1,1000,203.0.113.1,53,udp,no-note\n\
         3,3.000000,0,TX,99,sent,2,192.0.2.3,10.0.0.1,1000,203.0.113.1,80,tcp,note-down\n\
         4,4.000000,0,TX,99,sent,2,192.0.2.3,10.0.0.1,1000,203.0.113.1,53,udp,note-down\n\
         5,5.000000,0,TX,99,sent,2,192.0.2.3,10.0.0.2,1000,203.0.113.1,80,tcp,no-note\n",
        "10.0.0.1,1000,203.0.113.1,80,tcp,1.000000,3.000000,2,2,0,0,1,1 >down 2\n\
         10.0.0.1,1000,203.0.113.1,53,udp,2.000000,4.000000,2,2,0,0,1,1 >down 2\n\
         10.0.0.2,1000,203.0.113.1,80,tcp,5.000000,5.000000,1,1,0,0,0,2\n",
        "3 flows with a sent frame, 2 of them moved, 1 of these TCP\n\
         0 flows had no backend for a frame, 0 lost a frame behind a sent one\n\
         2 frames moved: 2 down, 0 evicted, 0 untracked, 0 readdressed, 0 unknown\n\
         1 changes of tcp 10.0.0.1:1000 to 203.0.113.1:80: 1 >down 2\n\
         1 changes of udp 10.0.0.1:1000 to 203.0.113.1:53: 1 >down 2\n"),
    ("three flows, of which the second has most changes", "0 vip 203.0.113.1 80 tcp\n\
         0 up 0 192.0.2.1\n\
         0 up 1 192.0.2.2\n\
         3 down 1\n\
         5 up 1 192.0.2.2\n\
         5 down 0\n",
        "1,1.000000,0,TX,99,sent,1,192.0.2.2,10.0.0.1,1000,203.0.113.1,80,tcp,no-note\n\
         2,2.000000,0,TX,99,sent,1,192.0.2.2,10.0.0.1,1001,203.0.113.1,80,tcp,no-note\n\
         3,3.000000,0,TX,99,sent,0,192.0.2.1,10.0.0.2,1000,203.0.113.1,80,tcp,no-note\n\
         4,4.000000,0,TX,99,sent,0,192.0.2.1,10.0.0.1,1001,203.0.113.1,80,tcp,note-down\n\
         5,5.000000,0,TX,99,sent,0,192.0.2.1,10.0.0.1,1000,203.0.113.1,80,tcp,note-down\n\
         6,6.000000,0,TX,99,sent,1,192.0.2.2,10.0.0.1,1001,203.0.113.1,80,tcp,note-down\n",
        "10.0.0.1,1000,203.0.113.1,80,tcp,1.000000,5.000000,2,2,0,0,1,1 >down 0\n\
         10.0.0.1,1001,203.0.113.1,80,tcp,2.000000,6.000000,3,3,0,0,2,1 >down 0 >down 1\n\
         10.0.0.2,1000,203.0.113.1,80,tcp,3.000000,3.000000,1,1,0,0,0,0\n",
        "3 flows with a sent frame, 2 of them moved, 2 of these TCP\n\
         0 flows had no backend for a frame, 0 lost a frame behind a sent one\n\
         3 frames moved: 3 down, 0 evicted, 0 untracked, 0 readdressed, 0 unknown\n\
         2 changes of tcp 10.0.0.1:1001 to 203.0.113.1:80: 1 >down 0 >down 1\n\
         1 changes of tcp 10.0.0.1:1000 to 203.0.113.1:80: 1 >down 0\n"),
    ("a note whose backend a run found down, though the script's numbers say that it is up", "0 vip 203.0.113.1 80 tcp\n0 up 0 192.0.2.1\n0 up 1 192.0.2.2\n",
        "1,1.000000,0,TX,99,sent,1,192.0.2.2,10.0.0.1,1000,203.0.113.1,80,tcp,no-note\n\
         2,2.000000,0,TX,99,sent,0,192.0.2.1,10.0.0.1,1000,203.0.113.1,80,tcp,note-down\n",
        "10.0.0.1,1000,203.0.113.1,80,tcp,1.000000,2.000000,2,2,0,0,1,1 >down 0\n",
        "1 flows with a sent frame, 1 of them moved, 1 of these TCP\n\
         0 flows had no backend for a frame, 0 lost a frame behind a sent one\n\
         1 frames moved: 1 down, 0 evicted, 0 untracked, 0 readdressed, 0 unknown\n\
         1 changes of tcp 10.0.0.1:1000 to 203.0.113.1:80: 1 >down 0\n"),
    ("a note that is older than the frame before, which left none", "0 vip 203.0.113.1 80 tcp\n0 up 1 192.0.2.2\n1 vip 203.0.113.1 80 tcp notrack\n\
         1 up 2 192.0.2.3\n2 vip 203.0.113.1 80 tcp\n",
        "1,1.000000,0,TX,99,sent,1,192.0.2.2,10.0.0.1,1000,203.0.113.1,80,tcp,no-note\n\
         2,2.000000,0,TX,99,sent,2,192.0.2.3,10.0.0.1,1000,203.0.113.1,80,tcp,untracked\n\
         3,3.000000,0,TX,99,sent,1,192.0.2.2,10.0.0.1,1000,203.0.113.1,80,tcp,noted\n",
        "10.0.0.1,1000,203.0.113.1,80,tcp,1.000000,3.000000,3,3,0,0,2,1 >untracked 2 >untracked 1\n",
        "1 flows with a sent frame, 1 of them moved, 1 of these TCP\n\
         0 flows had no backend for a frame, 0 lost a frame behind a sent one\n\
         2 frames moved: 0 down, 0 evicted, 2 untracked, 0 readdressed, 0 unknown\n\
         2 changes of tcp 10.0.0.1:1000 to 203.0.113.1:80: 1 >untracked 2 >untracked 1\n"),
    ("a service without tracking whose backend goes down, and is up again", "0 vip 203.0.113.2 53 udp notrack\n0 up 1 192.0.2.2\n0 up 2 192.0.2.3\n\
         1 down 1\n2 up 1 192.0.2.2\n",
        "1,1.000000,0,TX,99,sent,1,192.0.2.2,10.0.0.1,1000,203.0.113.2,53,udp,untracked\n\
         2,2.000000,0,TX,99,sent,2,192.0.2.3,10.0.0.1,1000,203.0.113.2,53,udp,untracked\n\
         3,3.000000,0,TX,99,sent,1,192.0.2.2,10.0.0.1,1000,203.0.113.2,53,udp,untracked\n",
        "10.0.0.1,1000,203.0.113.2,53,udp,1.000000,3.000000,3,3,0,0,2,1 >down 2 >untracked 1\n",
        "1 flows with a sent frame, 1 of them moved, 0 of these TCP\n\
         0 flows had no backend for a frame, 0 lost a frame behind a sent one\n\
         2 frames moved: 1 down, 0 evicted, 1 untracked, 0 readdressed, 0 unknown\n\
         2 changes of udp 10.0.0.1:1000 to 203.0.113.2:53: 1 >down 2 >untracked 1\n"),
    ("a note that is gone, of a backend that is down", "0 vip 203.0.113.1 80 tcp\n0 up 0 192.0.2.1\n0 up 1 192.0.2.2\n1 down 1\n",
        "1,1.000000,0,TX,99,sent,1,192.0.2.2,10.0.0.1,1000,203.0.113.1,80,tcp,no-note\n\
         2,2.000000,0,TX,99,sent,0,192.0.2.1,10.0.0.1,1000,203.0.113.1,80,tcp,no-note\n",
        "10.0.0.1,1000,203.0.113.1,80,tcp,1.000000,2.000000,2,2,0,0,1,1 >down 0\n",
        "1 flows with a sent frame, 1 of them moved, 1 of these TCP\n\
         0 flows had no backend for a frame, 0 lost a frame behind a sent one\n\
         1 frames moved: 1 down, 0 evicted, 0 untracked, 0 readdressed, 0 unknown\n\
         1 changes of tcp 10.0.0.1:1000 to 203.0.113.1:80: 1 >down 0\n"),
    ("a run of which nothing is said", "0 vip 203.0.113.1 80 tcp\n0 up 0 192.0.2.1\n0 up 1 192.0.2.2\n1 down 1\n",
        "1,1.000000,0,TX,99,,1,192.0.2.2,10.0.0.1,1000,203.0.113.1,80,tcp,\n2,2.000000,0,TX,99,,0,192.0.2.1,10.0.0.1,1000,203.0.113.1,80,tcp,\n",
        "10.0.0.1,1000,203.0.113.1,80,tcp,1.000000,2.000000,2,2,0,0,1,1 >unknown 0\n",
        "1 flows with a sent frame, 1 of them moved, 1 of these TCP\n\
         0 flows had no backend for a frame, 0 lost a frame behind a sent one\n\
         1 frames moved: 0 down, 0 evicted, 0 untracked, 0 readdressed, 1 unknown\n\
         1 changes of tcp 10.0.0.1:1000 to 203.0.113.1:80: 1 >unknown 0\n"),
];

/// What a row shows, bytes that are no report, and the refusal.
type Refusal = (&'static str, &'static [u8], NoFlows);

#[rattlefmt::skip]
static REFUSED: [Refusal; 3] = [
    ("JSON lines", b"{\"number\":1}\n", NoFlows::JsonLines),
    ("no bytes", b"", NoFlows::NoReport { line: 1 }),
    ("bytes that are no text", b"number\n\xff\n", NoFlows::NoReport { line: 2 }),
];

/// What a row shows, what stands behind the head, and the refusal.
type RefusedRows = (&'static str, &'static str, NoFlows);

#[rattlefmt::skip]
static REFUSED_ROWS: [RefusedRows; 6] = [
    ("a row with twelve commas",       "1,1.000000,,SHORT,,short,,,,,,,\n",    NoFlows::NoReport { line: 2 }),
    ("a row that is not ended",        "1,1.000000,,SHORT,,short,,,,,,,,",     NoFlows::NoReport { line: 2 }),
    ("a moment with 13 digits before its point", "1,123456789012.000000,,SHORT,,short,,,,,,,,\n2,1234567890123.000000,,SHORT,,short,,,,,,,,\n",
        NoFlows::WrongField { line: 3, column: 1 }),
    ("the second record first",        "2,1.000000,,SHORT,,short,,,,,,,,\n",   NoFlows::LeftOut { line: 2 }),
    ("no second record",               "1,1.000000,,SHORT,,short,,,,,,,,\n3,1.000000,,SHORT,,short,,,,,,,,\n", NoFlows::LeftOut { line: 3 }),
    ("a number with a zero in front",  "01,1.000000,,SHORT,,short,,,,,,,,\n",  NoFlows::LeftOut { line: 2 }),
];

/// Holds the texts of a row against what is wanted.
fn compare_row(rt: &impl Abort, alloc: Global, row: &Row) {
    let (name, commands, rows, lines, summary) = *row;
    let script = parse_script(alloc, commands.as_bytes()).expect(rt, name);
    let report = format!(in alloc; "{REPORT_HEAD}{rows}").expect(rt, name);
    let wanted = format!(in alloc; "{TABLE_HEAD}{lines}").expect(rt, name);
    let made = flows_in(alloc, report.as_bytes(), &script).expect(rt, name);
    assert_eq!(rt; made.table.as_str(), wanted.as_str(), "{name}");
    assert_eq!(rt; made.summary.as_str(), summary, "{name}: the summary");
}

/// Holds the refusal of a row against what is wanted.
fn compare_refusal(rt: &impl Abort, alloc: Global, name: &str, bytes: &[u8], wanted: NoFlows) {
    let script = parse_script(alloc, b"").expect(rt, name);
    let refusal = flows_in(alloc, bytes, &script).err();
    assert_eq!(rt; refusal, Some(wanted), "{name}");
}

/// The same of a report with these rows.
fn compare_refused_rows(rt: &impl Abort, alloc: Global, row: &RefusedRows) {
    let (name, rows, wanted) = *row;
    let report = format!(in alloc; "{REPORT_HEAD}{rows}").expect(rt, name);
    compare_refusal(rt, alloc, name, report.as_bytes(), wanted);
}

#[test]
fn flows_are_told(rt: HostRuntime) {
    for row in &ROWS {
        compare_row(&rt, rt.alloc(), row);
    }
}

#[test]
fn other_files_are_refused(rt: HostRuntime) {
    for row in &REFUSED {
        let (name, bytes, wanted) = *row;
        compare_refusal(&rt, rt.alloc(), name, bytes, wanted);
    }
}

#[test]
fn other_rows_are_refused(rt: HostRuntime) {
    for row in &REFUSED_ROWS {
        compare_refused_rows(&rt, rt.alloc(), row);
    }
}

/// Holds the line of a refusal against what is wanted.
fn compare_line(rt: &impl Abort, alloc: Global, refusal: NoFlows, wanted: &str) {
    let line = refusal.text(alloc, "a.csv").expect(rt, wanted);
    assert_eq!(rt; line.as_str(), wanted);
}

#[test]
fn refusals_have_lines(rt: HostRuntime) {
    let alloc = rt.alloc();
    compare_line(
        &rt,
        alloc,
        NoFlows::JsonLines,
        "error: a.csv has JSON lines, and a report of CSV is needed\n",
    );
    compare_line(
        &rt,
        alloc,
        NoFlows::NoReport { line: 7 },
        "error: a.csv is no report of CSV: line 7\n",
    );
    compare_line(
        &rt,
        alloc,
        NoFlows::LeftOut { line: 7 },
        "error: a.csv is not of all records of a replay: line 7\n",
    );
    compare_line(&rt, alloc, NoFlows::Memory, "fault 8 Memory\n");
}

/// Adds a row for each of the first flows, whose frames go to this backend, which was chosen so; so many rows come before.
fn push_rows(
    rt: &impl Abort,
    alloc: Global,
    report: &mut String,
    before: u16,
    flows: u16,
    backend: u8,
    choice: &str,
) {
    for port in 0..flows {
        let record = before as u32 + port as u32 + 1;
        let row = format!(in alloc;
            "{record},1.000000,0,TX,99,sent,{backend},192.0.2.{backend},10.0.0.1,{port},203.0.113.1,80,tcp,{choice}\n"
        ).expect(rt, "a row");
        report.push_str(row.as_str()).expect(rt, "a report");
    }
}

/// The head of a report, to which rows are added.
fn new_report(rt: &impl Abort, alloc: Global) -> String {
    String::from_str(alloc, REPORT_HEAD).expect(rt, "a report")
}

/// Holds the summary of a report by a script against what it is to begin with.
fn compare_summary(rt: &impl Abort, alloc: Global, report: &str, commands: &str, wanted: &str) {
    let script = parse_script(alloc, commands.as_bytes()).expect(rt, "a script");
    let made = flows_in(alloc, report.as_bytes(), &script).expect(rt, "flows");
    assert!(rt; made.summary.as_str().starts_with(wanted), "{wanted}");
}

/// Twelve flows that moved, the last of which did so twice: of those with as many changes the first are named, ten in all.
const TWELVE: &str = "\
    12 flows with a sent frame, 12 of them moved, 12 of these TCP\n\
    0 flows had no backend for a frame, 0 lost a frame behind a sent one\n\
    13 frames moved: 13 down, 0 evicted, 0 untracked, 0 readdressed, 0 unknown\n\
    2 changes of tcp 10.0.0.1:11 to 203.0.113.1:80: 1 >down 2 >down 3\n\
    1 changes of tcp 10.0.0.1:0 to 203.0.113.1:80: 1 >down 2\n\
    1 changes of tcp 10.0.0.1:1 to 203.0.113.1:80: 1 >down 2\n\
    1 changes of tcp 10.0.0.1:2 to 203.0.113.1:80: 1 >down 2\n\
    1 changes of tcp 10.0.0.1:3 to 203.0.113.1:80: 1 >down 2\n\
    1 changes of tcp 10.0.0.1:4 to 203.0.113.1:80: 1 >down 2\n\
    1 changes of tcp 10.0.0.1:5 to 203.0.113.1:80: 1 >down 2\n\
    1 changes of tcp 10.0.0.1:6 to 203.0.113.1:80: 1 >down 2\n\
    1 changes of tcp 10.0.0.1:7 to 203.0.113.1:80: 1 >down 2\n\
    1 changes of tcp 10.0.0.1:8 to 203.0.113.1:80: 1 >down 2\n";

#[test]
fn ten_flows_are_named(rt: HostRuntime) {
    let alloc = rt.alloc();
    let mut report = new_report(&rt, alloc);
    push_rows(&rt, alloc, &mut report, 0, 12, 1, "no-note");
    push_rows(&rt, alloc, &mut report, 12, 12, 2, "note-down");
    report
        .push_str("25,1.000000,0,TX,99,sent,3,192.0.2.3,10.0.0.1,11,203.0.113.1,80,tcp,note-down\n")
        .expect(&rt, "a report");
    let commands =
        "0 vip 203.0.113.1 80 tcp\n0 up 1 192.0.2.1\n0 up 2 192.0.2.2\n0 up 3 192.0.2.3\n12 down 1\n24 down 2\n";
    compare_summary(&rt, alloc, report.as_str(), commands, TWELVE);
}

#[test]
fn many_flows_are_told(rt: HostRuntime) {
    let alloc = rt.alloc();
    let mut report = new_report(&rt, alloc);
    push_rows(&rt, alloc, &mut report, 0, 1000, 1, "no-note");
    push_rows(&rt, alloc, &mut report, 1000, 1000, 2, "note-down");
    let commands = "0 vip 203.0.113.1 80 tcp\n0 up 1 192.0.2.1\n0 up 2 192.0.2.2\n1000 down 1\n";
    let wanted =
        "1000 flows with a sent frame, 1000 of them moved, 1000 of these TCP\n0 flows had no backend for a frame, 0 lost a frame behind a sent one\n\
         1000 frames moved: 1000 down, 0 evicted";
    compare_summary(&rt, alloc, report.as_str(), commands, wanted);
}

/// Frames of two flows. Backend 1 goes down before the third, and the flow of the second was not sent before the fourth.
const FOUR_ROWS: [&str; 4] = [
    "1,1.000000,0,TX,99,sent,1,192.0.2.2,10.0.0.1,1000,203.0.113.1,80,tcp,no-note",
    "2,2.000000,0,DROP,90,no-backend,,,10.0.0.1,1001,203.0.113.1,80,tcp,",
    "3,3.000000,0,TX,99,sent,0,192.0.2.1,10.0.0.1,1000,203.0.113.1,80,tcp,note-down",
    "4,4.000000,0,TX,99,sent,0,192.0.2.1,10.0.0.1,1001,203.0.113.1,80,tcp,no-note",
];

/// Whether a move is of this row, from this backend and address, for this reason.
fn is_move(moved: &Move, place: usize, backend: &str, from: &str, reason: Reason) -> bool {
    moved.place == place && moved.backend == backend && moved.from == from && moved.reason == reason
}

#[test]
fn moved_frames_have_their_reasons(rt: HostRuntime) {
    let alloc = rt.alloc();
    let commands = b"0 vip 203.0.113.1 80 tcp\n0 up 0 192.0.2.1\n0 up 1 192.0.2.2\n2 down 1\n";
    let script = parse_script(alloc, commands).expect(&rt, "the script");
    let moves = moved_frames(alloc, &FOUR_ROWS, script.commands()).expect(&rt, "the moves");
    assert_eq!(&rt; moves.len(), 1, "one frame was moved");
    let is = is_move(&moves[0], 2, "1", "192.0.2.2", Reason::Down);
    assert!(&rt; is, "the third one, from backend 1");
    assert_eq!(&rt; how_many(&moves, 0), 1, "one since its backend is down");
    assert_eq!(&rt; how_many(&moves, 1), 0, "none since its note is gone");
    let none = moved_frames(alloc, &[], script.commands()).expect(&rt, "no moves");
    assert_eq!(&rt; none.len(), 0, "of no rows none");
}

#[test]
fn reasons_are_listed_in_their_order(rt: HostRuntime) {
    let words = [
        "down",
        "evicted",
        "untracked",
        "readdressed",
        "unknown",
        "unknown",
    ];
    for rank in 0..words.len() {
        assert_eq!(&rt;
            Reason::at(rank).word(),
            words[rank],
            "the word of a reason"
        );
    }
}

#[test]
fn addresses_have_four_numbers(rt: HostRuntime) {
    let text = address_text(rt.alloc(), Ipv4Address([203, 0, 113, 255])).expect(&rt, "the text");
    assert_eq!(&rt; text.as_str(), "203.0.113.255", "an address");
}
