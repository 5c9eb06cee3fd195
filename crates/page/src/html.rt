//! The page's frame, and the commands of a script on it.

ghost use Rattle.std.specs.Prelude.{◌≡◌, ◌<◌, IfOk, length, slice_get, string_bytes, take};
ghost use Rattle.page.specs.Html.{command_moment, command_row, command_rows, command_slots, command_words};
ghost use Rattle.page.specs.Html.{notrack_word, up_text, vip_words, whole_text};
ghost use Rattle.page.specs.Html.{command_text, commands_table, commands_text, down_text, firsts_text, gateway_words, head_text};

use crate::stamps::moment_text;
use crate::tables::more_text;
use crate::tallies::slot_of;
use control::{Action, Command, transport_text};
use flows::address_text;
use std::alloc::{AllocError, Global};

/// So many commands are in the table.
pub(crate) const COMMANDS: usize = 100;

/// What comes before the rows of the table of commands.
const COMMANDS_HEAD: &str =
    "<div class=\"wide\"><table>\n<tr><th>mark</th><th>before record</th><th>at</th><th>command</th></tr>\n";

/// Whether the flows of a service are noted.
fn notrack_word(is_notrack: bool) -> &'static str
    ensures { result.now ≡ notrack_word is_notrack }
{
    if is_notrack { " notrack" } else { "" }
}

fn vip_text(
    alloc: Global,
    address: &str,
    port: u16,
    transport: &str,
    notrack: &str,
) -> Result<String, AllocError>
    ensures { IfOk result (λ text. string_bytes text ≡ vip_words address.now port transport.now notrack.now) }
{
    format!(in alloc; "vip {address} {port} {transport}{notrack}")
}

fn up_text(alloc: Global, backend: u32, address: &str) -> Result<String, AllocError>
    ensures { IfOk result (λ text. string_bytes text ≡ up_text backend address.now) }
{
    format!(in alloc; "up {backend} {address}")
}

fn down_text(alloc: Global, backend: u32) -> Result<String, AllocError>
    ensures { IfOk result (λ text. string_bytes text ≡ down_text backend) }
{
    format!(in alloc; "down {backend}")
}

fn gateway_text(alloc: Global, address: &str) -> Result<String, AllocError>
    ensures { IfOk result (λ text. string_bytes text ≡ gateway_words address.now) }
{
    format!(in alloc; "gateway {address}")
}

/// What a command does.
fn action_text(alloc: Global, action: Action) -> Result<String, AllocError>
    ensures { IfOk result (λ text. string_bytes text ≡ command_words action) }
{
    match action {
        Action::Vip {
            service,
            is_notrack,
        } => {
            let address = address_text(alloc, service.address)?;
            vip_text(
                alloc,
                address.as_str(),
                service.port,
                transport_text(service.transport),
                notrack_word(is_notrack),
            )
        }
        Action::Up { backend, address } => {
            let address = address_text(alloc, address)?;
            up_text(alloc, backend, address.as_str())
        }
        Action::Down { backend } => down_text(alloc, backend),
        Action::Gateway { source, .. } => {
            let address = address_text(alloc, source)?;
            gateway_text(alloc, address.as_str())
        }
    }
}

/// The moment of a command.
fn command_moment(moments: &[u64], last: u64, frame: u32) -> u64
    ensures { result ≡ command_moment moments.now last frame }
{
    match moments.get(frame as usize) {
        Some(moment) => *moment,
        None => last,
    }
}

/// The slots of commands.
pub(crate) fn command_slots(
    alloc: Global,
    first: u64,
    long: u64,
    last: u64,
    moments: &[u64],
    commands: &[Command],
) -> Result<Vec<usize>, AllocError>
    requires { 0 < long }
    ensures { IfOk result (λ slots. slots.items ≡ command_slots first long last moments.now commands.now) }
{
    commands
        .iter()
        .map(|command| slot_of(first, long, command_moment(moments, last, command.frame)))
        .collect(alloc)
}

/// The row of a command with these pieces.
#[tactic(auto, unfolding(crate::specs::Html::command_text))]
fn command_text(
    alloc: Global,
    number: usize,
    before: u64,
    moment: &str,
    action: &str,
) -> Result<String, AllocError>
    ensures { IfOk result (λ text. string_bytes text ≡ command_text number before moment.now action.now) }
{
    format!(in alloc;
        "<tr><td>{number}</td><td>{before}</td><td>{moment}</td><td>{action}</td></tr>\n"
    )
}

/// The row of the command at a place.
fn command_row(
    alloc: Global,
    moments: &[u64],
    last: u64,
    commands: &[Command],
    place: usize,
) -> Result<String, AllocError>
    ensures { IfOk result (λ text. string_bytes text ≡ command_row moments.now last place (slice_get commands.now place)) }
{
    match commands.get(place) {
        None => Ok(String::new(alloc)),
        Some(command) => {
            let moment = moment_text(alloc, command_moment(moments, last, command.frame))?;
            let action = action_text(alloc, command.action)?;
            let before = u64::from(command.frame) + 1;
            command_text(alloc, place + 1, before, moment.as_str(), action.as_str())
        }
    }
}

/// The rows of commands.
fn command_rows(
    alloc: Global,
    moments: &[u64],
    last: u64,
    commands: &[Command],
) -> Result<String, AllocError>
    ensures { IfOk result (λ text. string_bytes text ≡ command_rows moments.now last commands.now (length commands.now)) }
{
    let mut text = String::new(alloc);
    'commands: for place in 0..commands.len() {
        let row = command_row(alloc, moments, last, commands, place)?;
        text.push_str(row.as_str())?;
    }
    Ok(text)
}

/// How many commands come before the first record.
fn firsts_text(alloc: Global, count: usize) -> Result<String, AllocError>
    ensures { IfOk result (λ text. string_bytes text ≡ firsts_text count) }
{
    if count == 0 {
        return Ok(String::new(alloc));
    }
    format!(in alloc; "<p>{count} commands before the first record</p>\n")
}

/// The table of these rows.
#[tactic(auto, unfolding(crate::specs::Html::commands_table))]
fn commands_table(alloc: Global, firsts: &str, rows: &str, more: &str) -> Result<String, AllocError>
    ensures { IfOk result (λ text. string_bytes text ≡ commands_table firsts.now rows.now more.now) }
{
    format!(in alloc; "<h2>Commands</h2>\n{firsts}{COMMANDS_HEAD}{rows}</table></div>\n{more}")
}

/// The first of commands.
pub(crate) fn first_commands(commands: &[Command], count: usize) -> &[Command]
    ensures { result.now ≡ take count commands.now }
{
    if commands.len() <= count {
        commands
    } else {
        &commands[..count]
    }
}

/// How many commands come before the first record, and the first hundred of the later ones.
#[tactic(auto, unfolding(crate::specs::Html::commands_text))]
pub(crate) fn commands_text(
    alloc: Global,
    count: usize,
    moments: &[u64],
    last: u64,
    later: &[Command],
) -> Result<String, AllocError>
    ensures { IfOk result (λ text. string_bytes text ≡ commands_text count moments.now last later.now) }
{
    let firsts = firsts_text(alloc, count)?;
    let rows = command_rows(alloc, moments, last, first_commands(later, COMMANDS))?;
    let more = more_text(alloc, later.len().saturating_sub(COMMANDS))?;
    commands_table(alloc, firsts.as_str(), rows.as_str(), more.as_str())
}

/// What comes before the figures.
#[tactic(auto, unfolding(crate::specs::Html::head_text))]
fn head_text() -> &'static str
    ensures { result.now ≡ head_text }
{
    "<!DOCTYPE html>\n<html lang=\"en\">\n<head>\n<meta charset=\"utf-8\">\n<meta name=\"viewport\" content=\"width=device-width, initial-scale=1\">\n\
     <title>Replay of a capture</title>\n<style>\nbody{font:16px/1.4 sans-serif;max-width:50em;margin:auto;padding:.5em;color:#111;background:#fff}\n\
     h1{font-size:1.5em}\nh2{font-size:1.15em;margin:1.5em 0 .3em}\nsvg{display:block;width:100%;height:auto}\nsvg text{font:9px sans-serif}\n\
     .end{text-anchor:end}\n.mid{text-anchor:middle}\n.axis{stroke:#777;stroke-width:.5;fill:none}\n.mark{stroke:#000;stroke-dasharray:3 2}\n\
     .key{stroke:#000;stroke-width:.5}\ntable{border-collapse:collapse}\n\
     th,td{border-bottom:1px solid #bbb;padding:.15em .6em;text-align:left;white-space:nowrap}\n.figures td{text-align:right}\n\
     .wide{overflow-x:auto}\n@media(max-width:30em){svg text{font-size:11px}}\n</style>\n</head>\n<body>\n<h1>Replay of a capture</h1>\n"
}

/// The page with these parts.
#[tactic(auto, unfolding(crate::specs::Html::whole_text))]
pub(crate) fn whole_text(
    alloc: Global,
    figures: &str,
    by_backend: &str,
    by_fate: &str,
    backends: &str,
    commands: &str,
    moves: &str,
) -> Result<String, AllocError>
    ensures { IfOk result (λ text. string_bytes text ≡
        whole_text figures.now by_backend.now by_fate.now backends.now commands.now moves.now) }
{
    let head = head_text();
    format!(in alloc;
        "{head}{figures}{by_backend}{by_fate}{backends}{commands}{moves}</body>\n</html>\n"
    )
}
