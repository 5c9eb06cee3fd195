//! Pages of short reports, worked out by hand, and of longer ones.

use crate::whole_page;
use control::parse_script;
use flows::NoFlows;
use std::alloc::{AllocError, Global};
use std::process::Abort;

/// What comes before the first row of a report.
const REPORT_HEAD: &str =
    "number,moment,worker,verdict,steps,case,backend,address,source,source_port,destination,destination_port,protocol,choice\n";

/// What a row shows, a script, the rows of a report, and parts of its page, one behind the other.
type Row = (
    &'static str,
    &'static str,
    &'static str,
    &'static [&'static str],
);

/// A frame that was sent, one that was dropped two slots of a third of the time later, and one that was passed; three commands.
const THREE_RECORDS: &str =
    "1,1.000000,0,TX,99,sent,1,192.0.2.2,10.0.0.1,1000,203.0.113.1,80,tcp,no-note\n2,1.000060,0,DROP,90,no-backend,,,10.0.0.2,1001,203.0.113.1,80,tcp,\n\
     3,1.000120,0,PASS,9,arp,,,,,,,,\n";

const THREE_COMMANDS: &str = "0 vip 203.0.113.1 80 tcp\n0 up 1 192.0.2.2\n2 down 1\n";

/// Frames of one flow over three backends, one of which has another address once and one no number, and then of a service that is not tracked.
const EACH_REASON: &str =
    "1,1.000000,0,TX,99,sent,1,192.0.2.2,10.0.0.1,1000,203.0.113.1,80,tcp,no-note\n\
     2,2.000000,0,TX,99,sent,0,192.0.2.1,10.0.0.1,1000,203.0.113.1,80,tcp,note-down\n\
     3,3.000000,0,TX,99,sent,2,192.0.2.3,10.0.0.1,1000,203.0.113.1,80,tcp,no-note\n4,4.000000,0,TX,99,sent,2,192.0.2.9,10.0.0.1,1000,203.0.113.1,80,tcp,noted\n\
     5,5.000000,0,TX,99,sent,,192.0.2.7,10.0.0.1,1000,203.0.113.1,80,tcp,no-note\n6,6.000000,0,TX,99,sent,0,192.0.2.1,10.0.0.1,1000,203.0.113.1,80,tcp,\n\
     7,7.000000,0,TX,99,sent,0,192.0.2.1,10.0.0.1,1000,203.0.113.2,53,udp,untracked\n\
     8,8.000000,0,TX,99,sent,2,192.0.2.3,10.0.0.1,1000,203.0.113.2,53,udp,untracked\n";

const EACH_REASON_COMMANDS: &str =
    "0 vip 203.0.113.1 80 tcp\n0 vip 203.0.113.2 53 udp notrack\n0 up 0 192.0.2.1\n0 up 1 192.0.2.2\n0 up 2 192.0.2.3\n1 down 1\n";

/// A flow that is sent to another backend and back, with a frame between that was dropped, and a frame of another flow.
const TWO_MOVES: &str =
    "1,1.000000,0,TX,99,sent,1,192.0.2.2,10.0.0.1,1000,203.0.113.1,80,tcp,no-note\n\
     2,2.000000,0,TX,99,sent,1,192.0.2.2,10.0.0.1,1001,203.0.113.1,80,tcp,no-note\n\
     3,3.000000,0,DROP,90,no-backend,,,10.0.0.1,1000,203.0.113.1,80,tcp,\n4,4.000000,0,TX,99,sent,2,192.0.2.3,10.0.0.1,1000,203.0.113.1,80,tcp,note-down\n\
     5,5.000000,0,TX,99,sent,1,192.0.2.2,10.0.0.1,1000,203.0.113.1,80,tcp,note-down\n";

/// Frames on the leap days of 2000 and 2024, in the year 2100, which has none, and in the last microsecond of the year 9999.
const DATES: &str =
    "1,951782400.000000,0,PASS,9,arp,,,,,,,,\n2,1709210096.654321,0,PASS,9,arp,,,,,,,,\n\
     3,4107542400.000000,0,PASS,9,arp,,,,,,,,\n4,253402300799.999999,0,PASS,9,arp,,,,,,,,\n";

/// Frames whose moments do not rise; the backend of the first has a number that no table has.
const NOT_RISING: &str =
    "1,9.000000,0,TX,99,sent,4294967295,192.0.2.2,10.0.0.1,1000,203.0.113.1,80,tcp,no-note\n\
     2,7.000000,0,TX,99,sent,0,192.0.2.3,10.0.0.2,1000,203.0.113.1,80,tcp,no-note\n\
     3,8.000000,0,TX,99,sent,0,192.0.2.3,10.0.0.2,1000,203.0.113.1,80,tcp,noted\n";

/// A frame to backend 5, and two to backend 7.
const UNEVEN: &str =
    "1,1.000000,0,TX,99,sent,5,192.0.2.6,10.0.0.1,1000,203.0.113.1,80,tcp,no-note\n\
     2,2.000000,0,TX,99,sent,7,192.0.2.8,10.0.0.2,1000,203.0.113.1,80,tcp,no-note\n\
     3,3.000000,0,TX,99,sent,7,192.0.2.8,10.0.0.3,1000,203.0.113.1,80,tcp,no-note\n";

#[rattlefmt::skip]
static ROWS: [Row; 15] = [
    ("no record", "0 up 1 192.0.2.2\n", "", &[
        "<!DOCTYPE html>\n",
        "<tr><th>records</th><td>0</td></tr>\n<tr><th>sent</th><td>0</td></tr>\n<tr><th>passed</th><td>0</td></tr>\n<tr><th>dropped</th><td>0</td></tr>\n",
        "<tr><th>aborted</th><td>0</td></tr>\n<tr><th>stopped</th><td>0</td></tr>\n<tr><th>short</th><td>0</td></tr>\n\
         <tr><th>moves of flows</th><td>0</td></tr>\n",
        "<tr><th>first moment</th><td>none</td></tr>\n<tr><th>last moment</th><td>none</td></tr>\n</table>\n",
        "</defs>\n<g fill=\"url(#f0)\"></g>\n",
        "<g fill=\"url(#f8)\"></g>\n<path class=\"axis\" d=\"M36 20H396M36 80H396M36 140H396\"/>\n<text class=\"end\" x=\"33\" y=\"24\">1</text>",
        "</svg>\n<h2>Frames by case</h2>\n<table class=\"figures\">\n</table>\n<h2>Frames by backend</h2>\n",
        "viewBox=\"0 0 400 4\">\n<title>Frames by backend</title>\n<desc>Bars: how many frames each backend got.</desc>\n</svg>\n",
        "<h2>Commands</h2>\n<p>1 commands before the first record</p>\n<div class=\"wide\"><table>\n",
        "<th>command</th></tr>\n</table></div>\n<h2>Shares of a lookup table of 251 slots</h2>\n",
        "<h2>Moved frames, by reason</h2>\n<svg role=\"img\" viewBox=\"0 0 400 74\">\n",
        "<text class=\"end\" x=\"104\" y=\"12\">down</text>\
         <rect class=\"key\" x=\"108\" y=\"4\" width=\"0\" height=\"10\" fill=\"url(#f0)\"/><text x=\"112\" y=\"12\">0</text>\n",
        "<text x=\"112\" y=\"68\">0</text>\n</svg>\n<h2>Flows that moved</h2>\n",
        "<th>to</th><th>reason</th></tr>\n</table></div>\n</body>\n</html>\n",
    ]),
    ("no backend has a slot of a table", "0 vip 203.0.113.1 80 tcp\n", "", &[
        "<th>at the start</th><th>at the end</th><th></th></tr>\n</table></div>\n<h2>Moved frames, by reason</h2>\n",
    ]),
    ("a backend without a number that a table has, and one with an address that is up, are refused",
        "0 up 1 192.0.2.2\n0 up 300 192.0.2.3\n1 up 2 192.0.2.2\n", "", &[
        "<th></th></tr>\n<tr><td>1 (192.0.2.2)</td><td>251</td><td>251</td><td><svg style=\"width:126px\" viewBox=\"0 0 126 20\">\
         <rect class=\"key\" x=\"2\" y=\"2\" width=\"122\" height=\"7\" fill=\"url(#f2)\"/>\
         <rect class=\"key\" x=\"2\" y=\"11\" width=\"122\" height=\"7\" fill=\"url(#f0)\"/></svg></td></tr>\n</table></div>\n",
    ]),
    ("each reason, and three backends of which one goes down: 251 turns are 84, 84 and 83, and then 126 and 125",
        EACH_REASON_COMMANDS, EACH_REASON, &[
        "<tr><th>moves of flows</th><td>6</td></tr>\n",
        "<tr><td>0 (192.0.2.1)</td><td>84</td><td>126</td><td>",
        "width=\"41\" height=\"7\" fill=\"url(#f2)\"/>", "width=\"62\" height=\"7\" fill=\"url(#f0)\"/>",
        "<tr><td>1 (192.0.2.2)</td><td>84</td><td>0</td><td>",
        "width=\"41\" height=\"7\" fill=\"url(#f2)\"/>", "width=\"0\" height=\"7\" fill=\"url(#f0)\"/>",
        "<tr><td>2 (192.0.2.3)</td><td>83</td><td>125</td><td>",
        "width=\"41\" height=\"7\" fill=\"url(#f2)\"/>", "width=\"61\" height=\"7\" fill=\"url(#f0)\"/>",
        "<text class=\"end\" x=\"104\" y=\"12\">down</text>\
         <rect class=\"key\" x=\"108\" y=\"4\" width=\"40\" height=\"10\" fill=\"url(#f0)\"/><text x=\"152\" y=\"12\">1</text>\n\
         <text class=\"end\" x=\"104\" y=\"26\">evicted</text>\
         <rect class=\"key\" x=\"108\" y=\"18\" width=\"80\" height=\"10\" fill=\"url(#f1)\"/><text x=\"192\" y=\"26\">2</text>\n\
         <text class=\"end\" x=\"104\" y=\"40\">untracked</text>\
         <rect class=\"key\" x=\"108\" y=\"32\" width=\"40\" height=\"10\" fill=\"url(#f2)\"/><text x=\"152\" y=\"40\">1</text>\n\
         <text class=\"end\" x=\"104\" y=\"54\">readdressed</text>\
         <rect class=\"key\" x=\"108\" y=\"46\" width=\"40\" height=\"10\" fill=\"url(#f3)\"/><text x=\"152\" y=\"54\">1</text>\n\
         <text class=\"end\" x=\"104\" y=\"68\">unknown</text>\
         <rect class=\"key\" x=\"108\" y=\"60\" width=\"40\" height=\"10\" fill=\"url(#f4)\"/><text x=\"152\" y=\"68\">1</text>\n</svg>\n",
        "<td>1 (192.0.2.2)</td><td>0 (192.0.2.1)</td><td>down</td></tr>\n", "<td>0 (192.0.2.1)</td><td>2 (192.0.2.3)</td><td>evicted</td></tr>\n",
        "<td>2 (192.0.2.3)</td><td>2 (192.0.2.9)</td><td>readdressed</td></tr>\n", "<td>2 (192.0.2.9)</td><td>192.0.2.7</td><td>evicted</td></tr>\n",
        "<td>192.0.2.7</td><td>0 (192.0.2.1)</td><td>unknown</td></tr>\n",
        "<td>0 (192.0.2.1)</td><td>2 (192.0.2.3)</td><td>untracked</td></tr>\n</table>",
    ]),
    ("three records: figures", THREE_COMMANDS, THREE_RECORDS, &[
        "<tr><th>records</th><td>3</td></tr>\n<tr><th>sent</th><td>1</td></tr>\n<tr><th>passed</th><td>1</td></tr>\n<tr><th>dropped</th><td>1</td></tr>\n",
        "<tr><th>short</th><td>0</td></tr>\n<tr><th>moves of flows</th><td>0</td></tr>\n",
    ]),
    ("three records: slots are of 3 microseconds, and the records in the first, 20 and 40 further; only the last command has a mark",
        THREE_COMMANDS, THREE_RECORDS, &[
        "<h2>Frames over time, by backend</h2>\n",
        "<g fill=\"url(#f0)\"><rect x=\"36\" y=\"20\" width=\"5\" height=\"120\"/></g>\n<g fill=\"url(#f1)\"></g>\n",
        "153\">1.000120 s</text>\n<path class=\"mark\" d=\"M276 12V140\"/><text class=\"mid\" x=\"276\" y=\"9\">1</text>\n",
        "<rect class=\"key\" x=\"36\" y=\"162\" width=\"14\" height=\"9\" fill=\"url(#f0)\"/><text x=\"54\" y=\"170\">1 (192.0.2.2)</text>\n</svg>\n",
        "<h2>Frames over time, by what became of them</h2>\n",
        "<g fill=\"url(#f0)\"><rect x=\"36\" y=\"20\" width=\"5\" height=\"120\"/></g>\n\
         <g fill=\"url(#f1)\"><rect x=\"276\" y=\"20\" width=\"5\" height=\"120\"/></g>\n\
         <g fill=\"url(#f2)\"><rect x=\"156\" y=\"20\" width=\"5\" height=\"120\"/></g>\n<g fill=\"url(#f3)\"></g>\n",
        "<text x=\"36\" y=\"153\">1.000000 s</text><text class=\"end\" x=\"396\" y=\"153\">1.000120 s</text>\n",
        "<path class=\"mark\" d=\"M276 12V140\"/><text class=\"mid\" x=\"276\" y=\"9\">1</text>\n",
        "<rect class=\"key\" x=\"280\" y=\"176\" width=\"14\" height=\"9\" fill=\"url(#f5)\"/><text x=\"298\" y=\"184\">short</text>\n</svg>\n\
         <h2>Frames by case</h2>\n<table class=\"figures\">\n<tr><th>sent</th><td>1</td></tr>\n<tr><th>no-backend</th><td>1</td></tr>\n\
         <tr><th>arp</th><td>1</td></tr>\n</table>\n<h2>Frames by backend</h2>\n",
    ]),
    ("three records: the bar of the backend, and the commands", THREE_COMMANDS, THREE_RECORDS, &[
        "viewBox=\"0 0 400 18\">\n<title>Frames by backend</title>\n",
        "<text class=\"end\" x=\"104\" y=\"12\">1 (192.0.2.2)</text>\
         <rect class=\"key\" x=\"108\" y=\"4\" width=\"240\" height=\"10\" fill=\"url(#f0)\"/><text x=\"352\" y=\"12\">1</text>\n</svg>\n\
         <h2>Frames by backend, before and behind the first command</h2>\n<p>The first command behind record 1 comes before record 3.</p>\n\
         <table class=\"figures\">\n<tr><th>backend</th><th>before</th><th>behind</th></tr>\n\
         <tr><th>1 (192.0.2.2)</th><td>1</td><td>0</td></tr>\n<tr><th>none</th><td>1</td><td>1</td></tr>\n</table>\n\
         <h2>Commands</h2>\n<p>2 commands before the first record</p>\n",
        "<tr><th>mark</th><th>before record</th><th>at</th><th>command</th></tr>\n\
         <tr><td>1</td><td>3</td><td>1.000120 s, 1970-01-01T00:00:01.000120Z</td><td>down 1</td></tr>\n\
         </table></div>\n<h2>Shares of a lookup table of 251 slots</h2>\n",
        "<tr><td>1 (192.0.2.2)</td><td>251</td><td>0</td><td>",
    ]),
    ("commands of each kind; one behind the last record is at the last moment",
        "1 gateway 192.0.2.1 02:00:00:00:00:01 02:00:00:00:00:02\n1 vip 203.0.113.2 53 udp notrack\n9 down 7\n",
        "1,1.000000,0,PASS,9,arp,,,,,,,,\n2,3.000000,0,PASS,9,arp,,,,,,,,\n", &[
        "<h2>Commands</h2>\n<div class",
        "<tr><td>1</td><td>2</td><td>3.000000 s, 1970-01-01T00:00:03.000000Z</td><td>gateway 192.0.2.1</td></tr>\n\
         <tr><td>2</td><td>2</td><td>3.000000 s, 1970-01-01T00:00:03.000000Z</td><td>vip 203.0.113.2 53 udp notrack</td></tr>\n\
         <tr><td>3</td><td>10</td><td>3.000000 s, 1970-01-01T00:00:03.000000Z</td><td>down 7</td></tr>\n",
    ]),
    ("two moves of one flow, and a frame between that was dropped", "", TWO_MOVES, &[
        "<tr><th>moves of flows</th><td>2</td></tr>\n",
        "<rect class=\"key\" x=\"108\" y=\"4\" width=\"240\" height=\"10\" fill=\"url(#f0)\"/><text x=\"352\" y=\"12\">2</text>\n",
        "<th>to</th><th>reason</th></tr>\n<tr><td>4</td>",
        "<td>down</td></tr>\n</table></div>\n</body>\n",
    ]),
    ("a verdict of another word, and the verdicts that are rare", "",
        "1,1.000000,0,ABORTED,9,aborted,,,,,,,,\n2,2.000000,0,STOPPED,,,,,,,,,,\n3,3.000000,,SHORT,,short,,,,,,,,\n\
         4,4.000000,,LATE,,late,,,,,,,,\n5,5.000000,,SHORT,,short,,,,,,,,\n", &[
        "<tr><th>sent</th><td>0</td></tr>\n<tr><th>passed</th><td>0</td></tr>\n<tr><th>dropped</th><td>0</td></tr>\n\
         <tr><th>aborted</th><td>1</td></tr>\n<tr><th>stopped</th><td>1</td></tr>\n<tr><th>short</th><td>2</td></tr>\n\
         <tr><th>other</th><td>1</td></tr>\n<tr><th>moves of flows</th>",
        "</table>\n<p>1 frames were stopped by full journals: what is said of flows is incomplete</p>\n<h2>Frames over time, by backend</h2>\n",
        "<text x=\"54\" y=\"198\">other</text>\n</svg>\n<h2>Frames by case</h2>\n<table class=\"figures\">\n\
         <tr><th>short</th><td>2</td></tr>\n<tr><th>stopped</th><td>1</td></tr>\n<tr><th>other</th><td>2</td></tr>\n</table>\n",
    ]),
    ("dates: a leap day, and a year of a century that has none", "1 down 1\n2 down 2\n", DATES, &[
        "<td>1709210096.654321 s, 2024-02-29T12:34:56.654321Z</td><td>down 1</td>", "<td>4107542400.000000 s, 2100-03-01T00:00:00.000000Z</td><td>down 2</td>",
    ]),
    ("a case whose word has a digit", "", "1,1.000000,0,PASS,9,ipv6,,,,,,,,\n", &[
        "<h2>Frames by case</h2>\n<table class=\"figures\">\n<tr><th>ipv6</th><td>1</td></tr>\n</table>\n",
    ]),
    ("a moment that has no such form", "", "1,253402300800.000000,0,PASS,9,arp,,,,,,,,\n", &[
        "<td>253402300800.000000 s, later</td></tr>\n</table>\n",
    ]),
    ("a backend whose number no table has is one of the others", "", NOT_RISING, &[
        "backend 0</text>\n\
         <rect class=\"key\" x=\"280\" y=\"190\" width=\"14\" height=\"9\" fill=\"url(#f8)\"/><text x=\"298\" y=\"198\">others</text>\n\
         </svg>\n",
        "<text class=\"end\" x=\"104\" y=\"12\">backend 0</text>\
         <rect class=\"key\" x=\"108\" y=\"4\" width=\"240\" height=\"10\" fill=\"url(#f0)\"/><text x=\"352\" y=\"12\">2</text>\n\
         <text class=\"end\" x=\"104\" y=\"26\">others</text>\
         <rect class=\"key\" x=\"108\" y=\"18\" width=\"120\" height=\"10\" fill=\"url(#f8)\"/><text x=\"232\" y=\"26\">1</text>\n</svg>\n\
         <h2>Commands</h2>\n",
    ]),
    ("the backend with most frames comes first; the script has the address of one", "0 up 7 192.0.2.8\n", UNEVEN, &[
        "<text x=\"54\" y=\"170\">7 (192.0.2.8)</text>\n\
         <rect class=\"key\" x=\"158\" y=\"162\" width=\"14\" height=\"9\" fill=\"url(#f1)\"/><text x=\"176\" y=\"170\">backend 5</text>\n</svg>\n",
        "viewBox=\"0 0 400 32\">\n<title>Frames by backend</title>\n",
        "<text class=\"end\" x=\"104\" y=\"12\">7 (192.0.2.8)</text>\
         <rect class=\"key\" x=\"108\" y=\"4\" width=\"240\" height=\"10\" fill=\"url(#f0)\"/><text x=\"352\" y=\"12\">2</text>\n\
         <text class=\"end\" x=\"104\" y=\"26\">backend 5</text>\
         <rect class=\"key\" x=\"108\" y=\"18\" width=\"120\" height=\"10\" fill=\"url(#f1)\"/><text x=\"232\" y=\"26\">1</text>\n</svg>\n",
    ]),
];

/// What a row shows, the rows of a report, and the first moment and the last on its page.
type Moments = (&'static str, &'static str, &'static str, &'static str);

#[rattlefmt::skip]
static MOMENTS: [Moments; 4] = [
    ("no record", "", "none", "none"),
    ("three records", THREE_RECORDS, "1.000000 s, 1970-01-01T00:00:01.000000Z", "1.000120 s, 1970-01-01T00:00:01.000120Z"),
    ("dates", DATES, "951782400.000000 s, 2000-02-29T00:00:00.000000Z", "253402300799.999999 s, 9999-12-31T23:59:59.999999Z"),
    ("moments that do not rise", NOT_RISING, "7.000000 s, 1970-01-01T00:00:07.000000Z", "9.000000 s, 1970-01-01T00:00:09.000000Z"),
];

/// A row of the table of flows that moved.
struct Moved {
    record: &'static str,
    moment: &'static str,
    flow: &'static str,
    before: &'static str,
    after: &'static str,
    reason: &'static str,
}

static UNTRACKED: Moved = Moved {
    record: "8",
    moment: "8.000000 s, 1970-01-01T00:00:08.000000Z",
    flow: "udp 10.0.0.1:1000 to 203.0.113.2:53",
    before: "0 (192.0.2.1)",
    after: "2 (192.0.2.3)",
    reason: "untracked",
};

static THERE_AND_BACK: [Moved; 2] = [
    Moved {
        record: "4",
        moment: "4.000000 s, 1970-01-01T00:00:04.000000Z",
        flow: "tcp 10.0.0.1:1000 to 203.0.113.1:80",
        before: "1 (192.0.2.2)",
        after: "2 (192.0.2.3)",
        reason: "down",
    },
    Moved {
        record: "5",
        moment: "5.000000 s, 1970-01-01T00:00:05.000000Z",
        flow: "tcp 10.0.0.1:1000 to 203.0.113.1:80",
        before: "2 (192.0.2.3)",
        after: "1 (192.0.2.2)",
        reason: "down",
    },
];

/// What a row shows, the bytes of a file, and the refusal.
type Refusal = (&'static str, &'static [u8], NoFlows);

#[rattlefmt::skip]
const REFUSED: [Refusal; 8] = [
    ("JSON lines", b"{\"number\":1}\n", NoFlows::JsonLines),
    ("an empty file", b"", NoFlows::NoReport { line: 1 }),
    ("a report without its head", b"1,1.000000,0,PASS,9,arp,,,,,,,,\n", NoFlows::NoReport { line: 1 }),
    ("a second row of thirteen fields",
        b"number,moment,worker,verdict,steps,case,backend,address,source,source_port,destination,destination_port,protocol,choice\n\
             1,1.000000,0,PASS,9,arp,,,,,,,,\n2,2.000000,0,PASS,9,arp,,,,,,,\n3\n",
        NoFlows::NoReport { line: 3 }),
    ("a last row without its line feed",
        b"number,moment,worker,verdict,steps,case,backend,address,source,source_port,destination,destination_port,protocol,choice\n\
             1,1.000000,0,PASS,9,arp,,,,,,,,\n2,2.000000,0,PASS,9,arp,,,,,,,,",
        NoFlows::NoReport { line: 3 }),
    ("marks of HTML",
        b"number,moment,worker,verdict,steps,case,backend,address,source,source_port,destination,destination_port,protocol,choice\n\
             1,1.000000,0,PASS,9,arp,,,,,,,,\n<b>,2.000000,0,PASS,9,arp,,,,,,,,\n",
        NoFlows::WrongField { line: 3, column: 0 }),
    ("a moment that a terminal would act on",
        b"number,moment,worker,verdict,steps,case,backend,address,source,source_port,destination,destination_port,protocol,choice\n\
             1,1.0\x1b[2J,0,PASS,9,arp,,,,,,,,\n",
        NoFlows::WrongField { line: 2, column: 1 }),
    ("bytes that are no text",
        b"number,moment,worker,verdict,steps,case,backend,address,source,source_port,destination,destination_port,protocol,choice\n\
             1,1.000000,0,PASS,9,arp,,,,,,,,\n\xff\n",
        NoFlows::NoReport { line: 3 }),
];

/// What a row shows, the rows of a report, and the refusal of its page.
type Gap = (&'static str, &'static str, NoFlows);

#[rattlefmt::skip]
static GAPS: [Gap; 4] = [
    ("the second record first", "2,1.000000,0,PASS,9,arp,,,,,,,,\n", NoFlows::LeftOut { line: 2 }),
    ("no second record", "1,1.000000,0,PASS,9,arp,,,,,,,,\n3,1.000000,0,PASS,9,arp,,,,,,,,\n", NoFlows::LeftOut { line: 3 }),
    ("records out of order", "1,1.000000,0,PASS,9,arp,,,,,,,,\n3,1.000000,0,PASS,9,arp,,,,,,,,\n2,1.000000,0,PASS,9,arp,,,,,,,,\n",
        NoFlows::LeftOut { line: 3 }),
    ("a field that no column has", "1,1.0,0,PASS,9,arp,,,,,,,,\n", NoFlows::WrongField { line: 2, column: 1 }),
];

/// The page of these rows and these commands.
fn page_of_rows(rt: &impl Abort, alloc: Global, name: &str, commands: &str, rows: &str) -> String {
    let script = parse_script(alloc, commands.as_bytes()).expect(rt, name);
    let report = format!(in alloc; "{REPORT_HEAD}{rows}").expect(rt, name);
    whole_page(alloc, report.as_bytes(), &script).expect(rt, name)
}

/// Finds parts in a text, each behind the one before it.
fn find_parts(rt: &impl Abort, name: &str, text: &str, parts: &[&str]) {
    let mut rest = text;
    for part in parts {
        match rest.split_once(*part) {
            Some((_, behind)) => rest = behind,
            None => panic!(rt; "{name}: there is no part {part}"),
        }
    }
}

/// Holds the page of a row against what is wanted.
fn compare_row(rt: &impl Abort, alloc: Global, row: &Row) {
    let (name, commands, rows, parts) = *row;
    let made = page_of_rows(rt, alloc, name, commands, rows);
    find_parts(rt, name, made.as_str(), parts);
}

#[test]
fn pages_are_made(rt: HostRuntime) {
    for row in &ROWS {
        compare_row(&rt, rt.alloc(), row);
    }
}

/// Holds the first moment and the last of a page against what is wanted.
fn find_moments(rt: &impl Abort, alloc: Global, name: &str, text: &str, first: &str, last: &str) {
    let wanted = format!(in alloc;
        "<tr><th>first moment</th><td>{first}</td></tr>\n<tr><th>last moment</th><td>{last}</td></tr>\n"
    ).expect(rt, name);
    find_parts(rt, name, text, &[wanted.as_str()]);
}

/// Holds the moments of a row against what is wanted.
fn compare_moments(rt: &impl Abort, alloc: Global, row: &Moments) {
    let (name, rows, first, last) = *row;
    let made = page_of_rows(rt, alloc, name, "", rows);
    find_moments(rt, alloc, name, made.as_str(), first, last);
}

#[test]
fn first_and_last_moments_are_told(rt: HostRuntime) {
    for row in &MOMENTS {
        compare_moments(&rt, rt.alloc(), row);
    }
}

/// Finds the row of a flow that moved.
fn find_moved(rt: &impl Abort, alloc: Global, name: &str, text: &str, moved: &Moved) {
    let (record, moment, flow) = (moved.record, moved.moment, moved.flow);
    let (before, after, reason) = (moved.before, moved.after, moved.reason);
    let wanted = format!(in alloc;
        "<tr><td>{record}</td><td>{moment}</td><td>{flow}</td><td>{before}</td><td>{after}</td><td>{reason}</td></tr>\n"
    ).expect(rt, name);
    find_parts(rt, name, text, &[wanted.as_str()]);
}

#[test]
fn flows_that_moved_are_told(rt: HostRuntime) {
    let alloc = rt.alloc();
    let made = page_of_rows(&rt, alloc, "each reason", EACH_REASON_COMMANDS, EACH_REASON);
    find_moved(&rt, alloc, "each reason", made.as_str(), &UNTRACKED);
    let twice = page_of_rows(&rt, alloc, "two moves", "", TWO_MOVES);
    for moved in &THERE_AND_BACK {
        find_moved(&rt, alloc, "two moves", twice.as_str(), moved);
    }
}

/// Holds the refusal of a row against what is wanted.
fn compare_refusal(rt: &impl Abort, alloc: Global, row: &Refusal) {
    let (name, bytes, wanted) = *row;
    let script = parse_script(alloc, b"").expect(rt, name);
    let refusal = whole_page(alloc, bytes, &script).err();
    assert_eq!(rt; refusal, Some(wanted), "{name}");
}

#[test]
fn other_files_are_refused(rt: HostRuntime) {
    for row in &REFUSED {
        compare_refusal(&rt, rt.alloc(), row);
    }
}

/// Holds the refusal of a report with a gap against what is wanted.
fn compare_gap(rt: &impl Abort, alloc: Global, row: &Gap) {
    let (name, rows, wanted) = *row;
    let script = parse_script(alloc, b"").expect(rt, name);
    let report = format!(in alloc; "{REPORT_HEAD}{rows}").expect(rt, name);
    let refusal = whole_page(alloc, report.as_bytes(), &script).err();
    assert_eq!(rt; refusal, Some(wanted), "{name}");
}

#[test]
fn reports_with_gaps_are_refused(rt: HostRuntime) {
    for row in &GAPS {
        compare_gap(&rt, rt.alloc(), row);
    }
}

/// The rows of so many records of one flow, a second apart, each with the next of forty backends.
fn rows_in_turn(alloc: Global, count: u64) -> Result<String, AllocError> {
    let mut rows = String::new(alloc);
    for place in 0..count {
        let number = place + 1;
        let backend = place % 40;
        let row = format!(in alloc;
            "{number},{number}.000000,0,TX,99,sent,{backend},192.0.2.{backend},10.0.0.1,1000,203.0.113.1,80,tcp,note-down\n"
        )?;
        rows.push_str(row.as_str())?;
    }
    Ok(rows)
}

/// So many commands, one before each record.
fn commands_in_turn(alloc: Global, count: u64) -> Result<String, AllocError> {
    let mut commands = String::new(alloc);
    for place in 0..count {
        let command = format!(in alloc; "{place} down {place}\n")?;
        commands.push_str(command.as_str())?;
    }
    Ok(commands)
}

/// Parts of the page of 200 records over forty backends and 150 commands, one behind the other. A slot of 3.316667 seconds has three records or
/// four; the first four are of backends 0 to 3. The backends 1 to 8 have names: the commands behind record 1 name them first.
#[rattlefmt::skip]
static MANY: [&str; 21] = [
    "<tr><th>records</th><td>200</td></tr>\n<tr><th>sent</th><td>200</td></tr>\n",
    "<tr><th>moves of flows</th><td>199</td></tr>\n<tr><th>first moment</th>",
    "<g fill=\"url(#f0)\"><rect x=\"36\" y=\"110\" width=\"5\" height=\"30\"/>",
    "<g fill=\"url(#f1)\"><rect x=\"36\" y=\"80\" width=\"5\" height=\"30\"/>",
    "<g fill=\"url(#f7)\"><rect x=\"48\" y=\"80\" width=\"5\" height=\"30\"/>",
    "<g fill=\"url(#f8)\"><rect x=\"36\" y=\"20\" width=\"5\" height=\"30\"/><rect x=\"48\" y=\"50\" width=\"5\" height=\"30\"/>\
     <rect x=\"54\" y=\"20\" width=\"5\" height=\"120\"/>",
    "<text class=\"end\" x=\"33\" y=\"24\">4</text>",
    "<text class=\"mid\" x=\"36\" y=\"9\">1</text>\n<path class=\"mark\" d=\"M42 12V140\"/><text class=\"mid\" x=\"42\" y=\"9\">4</text>\n",
    "backend 8</text>\n<rect class=\"key\" x=\"280\" y=\"190\" width=\"14\" height=\"9\" fill=\"url(#f8)\"/><text x=\"298\" y=\"198\">others</text>\n</svg>\n",
    "<g fill=\"url(#f0)\"><rect x=\"36\" y=\"20\" width=\"5\" height=\"120\"/><rect x=\"42\" y=\"50\" width=\"5\" height=\"90\"/>",
    "<h2>Frames by case</h2>\n<table class=\"figures\">\n<tr><th>sent</th><td>200</td></tr>\n</table>\n",
    "viewBox=\"0 0 400 466\">\n<title>Frames by backend</title>\n",
    "<text class=\"end\" x=\"104\" y=\"446\">backend 31</text>\
     <rect class=\"key\" x=\"108\" y=\"438\" width=\"30\" height=\"10\" fill=\"url(#f8)\"/><text x=\"142\" y=\"446\">5</text>\n",
    "<text class=\"end\" x=\"104\" y=\"460\">others</text>\
     <rect class=\"key\" x=\"108\" y=\"452\" width=\"240\" height=\"10\" fill=\"url(#f8)\"/><text x=\"352\" y=\"460\">40</text>\n</svg>\n",
    "<p>The first command behind record 1 comes before record 2.</p>\n",
    "<tr><th>backend 8</th><td>0</td><td>5</td></tr>\n<tr><th>backend 0</th><td>1</td><td>4</td></tr>\n<tr><th>backend 9</th><td>0</td><td>5</td></tr>\n",
    "<tr><th>others</th><td>0</td><td>40</td></tr>\n</table>\n<h2>Commands</h2>\n<p>1 commands before the first record</p>\n",
    "<tr><td>100</td><td>101</td><td>101.000000 s, 1970-01-01T00:01:41.000000Z</td><td>down 100</td></tr>\n</table></div>\n<p>and 49 more</p>\n",
    "<rect class=\"key\" x=\"108\" y=\"4\" width=\"240\" height=\"10\" fill=\"url(#f0)\"/><text x=\"352\" y=\"12\">199</text>\n",
    "<td>down</td></tr>\n</table></div>\n<p>and 99 more</p>\n",
    "</body>\n</html>\n",
];

/// Two of the rows of its flow that moved.
static MANY_MOVED: [Moved; 2] = [
    Moved {
        record: "2",
        moment: "2.000000 s, 1970-01-01T00:00:02.000000Z",
        flow: "tcp 10.0.0.1:1000 to 203.0.113.1:80",
        before: "0 (192.0.2.0)",
        after: "1 (192.0.2.1)",
        reason: "down",
    },
    Moved {
        record: "101",
        moment: "101.000000 s, 1970-01-01T00:01:41.000000Z",
        flow: "tcp 10.0.0.1:1000 to 203.0.113.1:80",
        before: "19 (192.0.2.19)",
        after: "20 (192.0.2.20)",
        reason: "down",
    },
];

/// Holds what the page of 200 records says of moments and moves against what is wanted.
fn compare_many(rt: &impl Abort, alloc: Global, text: &str) {
    let (first, last) = (
        "1.000000 s, 1970-01-01T00:00:01.000000Z",
        "200.000000 s, 1970-01-01T00:03:20.000000Z",
    );
    find_moments(rt, alloc, "many records", text, first, last);
    for moved in &MANY_MOVED {
        find_moved(rt, alloc, "many records", text, moved);
    }
}

#[test]
fn a_long_report_has_a_short_page(rt: HostRuntime) {
    let alloc = rt.alloc();
    let rows = rows_in_turn(alloc, 200).expect(&rt, "the rows");
    let commands = commands_in_turn(alloc, 150).expect(&rt, "the commands");
    let made = page_of_rows(&rt, alloc, "many records", commands.as_str(), rows.as_str());
    find_parts(&rt, "many records", made.as_str(), &MANY);
    compare_many(&rt, alloc, made.as_str());
    assert!(&rt; made.len() < 65536, "the page is short");
}

/// So many backends come up before the first record, each with its own address.
fn backends_up(alloc: Global, count: u64) -> Result<String, AllocError> {
    let mut commands = String::new(alloc);
    for backend in 0..count {
        let command = format!(in alloc; "0 up {backend} 10.1.0.{backend}\n")?;
        commands.push_str(command.as_str())?;
    }
    Ok(commands)
}

#[test]
fn forty_backends_have_six_slots_or_seven(rt: HostRuntime) {
    let alloc = rt.alloc();
    let commands = backends_up(alloc, 40).expect(&rt, "the commands");
    let made = page_of_rows(&rt, alloc, "many backends", commands.as_str(), "");
    let parts = [
        "<tr><td>0 (10.1.0.0)</td><td>7</td><td>7</td><td>",
        "<tr><td>10 (10.1.0.10)</td><td>7</td><td>7</td><td>",
        "<tr><td>11 (10.1.0.11)</td><td>6</td><td>6</td><td>",
        "<tr><td>39 (10.1.0.39)</td><td>6</td><td>6</td><td>",
        "</table></div>\n<h2>Moved frames, by reason</h2>\n",
    ];
    find_parts(&rt, "many backends", made.as_str(), &parts);
}

/// Parts of the page of 80 records over forty backends, where a command before record 6 names the last of them: it is listed before those with
/// the least numbers of the others, which have as many frames.
#[rattlefmt::skip]
static LAST_DOWN: [&str; 4] = [
    "<text class=\"end\" x=\"104\" y=\"12\">backend 39</text>\
     <rect class=\"key\" x=\"108\" y=\"4\" width=\"30\" height=\"10\" fill=\"url(#f0)\"/><text x=\"142\" y=\"12\">2</text>\n\
     <text class=\"end\" x=\"104\" y=\"26\">backend 0</text>",
    "<text class=\"end\" x=\"104\" y=\"446\">backend 30</text>\
     <rect class=\"key\" x=\"108\" y=\"438\" width=\"30\" height=\"10\" fill=\"url(#f8)\"/><text x=\"142\" y=\"446\">2</text>\n",
    "<text class=\"end\" x=\"104\" y=\"460\">others</text>\
     <rect class=\"key\" x=\"108\" y=\"452\" width=\"240\" height=\"10\" fill=\"url(#f8)\"/><text x=\"352\" y=\"460\">16</text>\n</svg>\n",
    "<tr><th>backend 39</th><td>0</td><td>2</td></tr>\n<tr><th>backend 0</th><td>1</td><td>1</td></tr>\n",
];

#[test]
fn a_backend_that_a_command_names_is_listed(rt: HostRuntime) {
    let alloc = rt.alloc();
    let rows = rows_in_turn(alloc, 80).expect(&rt, "the rows");
    let made = page_of_rows(&rt, alloc, "the last backend", "5 down 39\n", rows.as_str());
    find_parts(&rt, "the last backend", made.as_str(), &LAST_DOWN);
}
