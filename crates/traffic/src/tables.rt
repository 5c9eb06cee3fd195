//! The lookup table after each command of a script, for people.

ghost use Rattle.std.specs.Prelude.{◌≡◌, ◌++◌, ◌+◌, ◌<◌, ◌^◌, ◌∷◌, ℕ, [], List, IfOk, OnOk, string_bytes};
ghost use Rattle.maglev.specs.RingSize.{IsRingSize};
ghost use Rattle.conntrack.specs.SteeringMaps.{steering_maps, AreSteeringMaps};
ghost use Rattle.control.specs.FaultNumber.{control_fault_number};
ghost use Rattle.traffic.specs.Shares.{AreShares};
ghost use Rattle.traffic.specs.TableText.{backend_line, backend_text, byte_at, done_line, done_lines, front_address, hundredths};
ghost use Rattle.traffic.specs.TableText.{lines_below};
ghost use Rattle.control.specs.Controlling.{opened_controller};
ghost use Rattle.traffic.specs.TableText.{percent_text, backend_record, refused_line, AreTables, IsShown, is_some};

use crate::printing::dotted;
use crate::shares::{WORDS, entry_at, least_moves, moved_slots, shares_of};
use crate::written_maps::WrittenMaps;
use conntrack::BACKENDS;
use control::{Command, ControlFault, Controller, Script};
use semantics::Value;
use std::alloc::{AllocError, Global};

/// A command that was refused.
#[derive(Clone, Copy, Debug, PartialEq, Eq)]
pub struct Refused {
    /// Which command of the script it is, counted from 0.
    pub place: usize,
    pub fault: ControlFault,
}

/// What is printed of a script.
#[derive(Drop)]
pub struct Tables {
    pub text: String,
    /// The commands that were refused, in their order.
    pub refused: Vec<Refused>,
}

impl Tables {
    /// Nothing as yet.
    fn none(alloc: Global) -> Tables
        ensures { (string_bytes result.text ≡ []) × (result.refused.items ≡ []) }
    {
        Tables {
            text: String::new(alloc),
            refused: Vec::new(alloc),
        }
    }

    /// Appends the lines of a command that was carried out.
    fn put(&mut self, lines: &str) -> Result<(), AllocError>
        ensures text { OnOk result (string_bytes self.new.text ≡ string_bytes self.old.text ++ lines.now) }
        ensures refused { self.new.refused.items ≡ self.old.refused.items }
    {
        self.text.push_str(lines)
    }

    /// Appends the line of one that was refused.
    fn refuse(&mut self, alloc: Global, place: usize, fault: ControlFault) -> Result<(), AllocError>
        ensures { OnOk result ((string_bytes self.new.text ≡ string_bytes self.old.text ++ refused_line place (control_fault_number fault))
            × (self.new.refused.items ≡ self.old.refused.items ++ record { place = place; fault = fault } ∷ [])) }
    {
        self.text
            .push_str(&refused_line(alloc, place, fault.number())?)?;
        self.refused.push(Refused { place, fault })?;
        Ok(())
    }

    /// Whether a command was refused.
    pub fn is_refused(&self) -> bool
        ensures { result ≡ is_some self.now.refused.items }
    {
        !self.refused.is_empty()
    }
}

/// The line of a command that was refused.
fn refused_line(alloc: Global, place: usize, fault: u8) -> Result<String, AllocError>
    ensures { IfOk result (λ line. string_bytes line ≡ refused_line place fault) }
{
    let number = place as u128 + 1;
    format!(in alloc; "command {number} refused {fault}\n")
}

/// The first line of a command that was carried out.
fn done_line(
    alloc: Global,
    place: usize,
    frame: u32,
    moved: u32,
    least: u128,
) -> Result<String, AllocError>
    ensures { IfOk result (λ line. string_bytes line ≡ done_line place frame moved least) }
{
    let number = place as u128 + 1;
    format!(in alloc; "command {number} frame {frame} moved {moved} least {least}\n")
}

/// A share in hundredths of a percent, to the nearest one.
fn hundredths(share: usize, size: u32) -> u128
    requires { 0 < size }
    ensures { result ≡ hundredths share size }
{
    (share as u128 * 20_000 + size as u128) / (size as u128 * 2)
}

/// Hundredths with a point and two digits.
fn percent_text(alloc: Global, part: u128) -> Result<String, AllocError>
    ensures { IfOk result (λ text. string_bytes text ≡ percent_text part) }
{
    let whole = part / 100;
    let tenths = part / 10 % 10;
    let rest = part % 10;
    format!(in alloc; "{whole}.{tenths}{rest}")
}

/// The byte at a place; 0 where there is none.
fn byte_at(bytes: &[u8], place: usize) -> u32
    ensures { result ≡ byte_at bytes.now place }
{
    u32::from(bytes.get(place).copied().unwrap_or(0))
}

/// The text of the address that a backend's record begins with.
fn front_address(alloc: Global, bytes: &[u8]) -> Result<String, AllocError>
    ensures { IfOk result (λ text. string_bytes text ≡ front_address bytes.now) }
{
    dotted(
        alloc,
        byte_at(bytes, 0),
        byte_at(bytes, 1),
        byte_at(bytes, 2),
        byte_at(bytes, 3),
    )
}

/// The line of a backend, from its words.
fn backend_text(
    alloc: Global,
    number: u32,
    address: &str,
    share: usize,
    percent: &str,
) -> Result<String, AllocError>
    ensures { IfOk result (λ line. string_bytes line ≡ backend_text number address.now share percent.now) }
{
    format!(in alloc; "backend {number} address {address} slots {share} percent {percent}\n")
}

/// Appends the line of a backend, if it owns a slot.
fn put_backend(
    alloc: Global,
    lines: &mut String,
    size: u32,
    number: u32,
    share: usize,
    backend: &[u8],
) -> Result<(), AllocError>
    requires { 0 < size }
    ensures { OnOk result (string_bytes lines.new ≡ string_bytes lines.old ++ backend_line size number share backend.now) }
{
    if share == 0 {
        return Ok(());
    }
    let percent = percent_text(alloc, hundredths(share, size))?;
    let address = front_address(alloc, backend)?;
    lines.push_str(&backend_text(alloc, number, address.as_str(), share, percent.as_str())?)
}

/// The record of a backend; nothing where there is none.
fn record_of(backends: &[Value], number: u32) -> &[u8]
    ensures { result.now ≡ backend_record backends.now number }
{
    match backends.get(number as usize) {
        Some(backend) => backend.as_slice(),
        None => &[],
    }
}

/// Appends the lines of the backends below this number that own a slot, by rising number, where these are the shares of the words.
#[tactic(auto, unfolding(crate::specs::TableText::lines_below))]
fn put_below(
    alloc: Global,
    lines: &mut String,
    maps: &WrittenMaps,
    shares: &[usize],
    most: u32,
) -> Result<(), AllocError>
    requires few { most < 257 }
    requires shares { AreShares maps.now.words 257 shares.now }
    ensures { OnOk result (string_bytes lines.new ≡ string_bytes lines.old ++ lines_below maps.now most) }
{
    'numbers: for number in 0..most {
        let share = entry_at(shares, number + 1);
        let backend = record_of(maps.backends(), number);
        put_backend(alloc, lines, maps.size(), number, share, backend)?;
    }
    Ok(())
}

/// The lines of a command that left the maps so, where these were the table's words before.
fn done_lines(
    alloc: Global,
    place: usize,
    frame: u32,
    before: &[u32],
    maps: &WrittenMaps,
) -> Result<String, AllocError>
    ensures { IfOk result (λ lines. string_bytes lines ≡ done_lines place frame before.now maps.now) }
{
    let moved = moved_slots(before, maps.words(), maps.size());
    let least = least_moves(alloc, before, maps.words())?;
    let shares = shares_of(alloc, maps.words(), WORDS)?;
    let mut lines = done_line(alloc, place, frame, moved, least)?;
    put_below(alloc, &mut lines, maps, &shares, BACKENDS)?;
    Ok(lines)
}

/// Carries a command out, and appends what is printed of it.
fn show(
    alloc: Global,
    place: usize,
    command: &Command,
    controller: &mut Controller,
    maps: &mut WrittenMaps,
    tables: &mut Tables,
) -> Result<(), AllocError>
    requires { AreSteeringMaps controller.old.size (steering_maps maps.old.size) }
    ensures shown { OnOk result ((first : List ℕ) × (one : List Refused)
        × IsShown place controller.old maps.old command.now controller.new maps.new first one
        × (string_bytes tables.new.text ≡ string_bytes tables.old.text ++ first) ×
        (tables.new.refused.items ≡ tables.old.refused.items ++ one)) }
    ensures serves { AreSteeringMaps controller.new.size (steering_maps maps.new.size) }
{
    let before = maps.words().to_vec(alloc)?;
    match controller.apply(alloc, command, maps) {
        Ok(()) => {
            let lines = done_lines(alloc, place, command.frame, &before, maps)?;
            tables.put(lines.as_str())
        }
        Err(fault) => tables.refuse(alloc, place, fault),
    }
}

/// A controller of a lookup table of a size, before its first command.
pub(crate) fn opened(alloc: Global, size: u32) -> Controller
    requires { IsRingSize size }
    ensures { result ≡ opened_controller size }
{
    match Controller::open(alloc, size) {
        Ok(controller) => controller,
        Err(_) => unreachable!(),
    }
}

/// What is printed of a script: for each command, in its order, how many slots of the lookup table change hands, beside the fewest that
/// have to, and the share of each backend that is up then; or that it was refused, with the fault's number. The controller is that of a
/// replay, over new maps and without journals, so no command meets a full one (94). It fails only for lack of memory.
#[tactic(auto, using(crate::proofs::TableLemmas::own_serves))]
pub fn tables_of(alloc: Global, script: &Script, size: u32) -> Result<Tables, AllocError>
    requires { IsRingSize size }
    ensures { IfOk result (λ tables. AreTables size script.now (string_bytes tables.text) tables.refused.items) }
{
    let mut controller = opened(alloc, size);
    let mut maps = WrittenMaps::open(alloc, size)?;
    let mut tables = Tables::none(alloc);
    let commands = script.commands();
    let mut place = 0;
    'lines: for command in commands {
        show(
            alloc,
            place,
            command,
            &mut controller,
            &mut maps,
            &mut tables,
        )?;
        place += 1;
    }
    Ok(tables)
}
