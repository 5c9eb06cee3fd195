//! The rows of the table of faults.

ghost use Rattle.std.specs.Prelude.{◌≡◌, IfOk, true, false, string_bytes};
ghost use Rattle.std.specs.Option.{MatchOption};
ghost use Rattle.faults.specs.Explanations.{is_fault, explanation_text};
ghost use Rattle.faults.specs.FaultTable.{IsRowOf, first_name, second_name};

use crate::table;
use std::alloc::{AllocError, Global};

/// The names of a fault's fields, as they are printed before their numbers.
#[derive(Clone, Copy, Debug, PartialEq, Eq)]
pub enum FieldNames {
    /// It has none.
    Empty,
    One(&'static str),
    Two(&'static str, &'static str),
}

impl FieldNames {
    /// The name of the first field; empty where there is none.
    pub fn first(self) -> &'static str
        ensures { result.now ≡ first_name self }
    {
        match self {
            FieldNames::Empty => "",
            FieldNames::One(first) => first,
            FieldNames::Two(first, _) => first,
        }
    }

    /// The name of the second field; empty where there is none.
    pub fn second(self) -> &'static str
        ensures { result.now ≡ second_name self }
    {
        match self {
            FieldNames::Empty => "",
            FieldNames::One(_) => "",
            FieldNames::Two(_, second) => second,
        }
    }
}

/// The row of a fault: its number, its names, and what explains it to people.
#[derive(Clone, Copy, Debug, PartialEq, Eq)]
pub struct Explanation {
    /// The fault's number, which never changes.
    pub number: u8,
    /// Its name, as it is printed behind the number.
    pub name: &'static str,
    /// The names of its fields.
    pub fields: FieldNames,
    /// What it means.
    pub meaning: &'static str,
    /// What mostly leads to it, and the remedy.
    pub causes: &'static str,
    /// One case of it.
    pub example: &'static str,
}

impl Explanation {
    /// The row of a fault's number, if there is such a fault.
    pub fn of(number: u32) -> Option<Explanation>
        ensures { MatchOption result (is_fault number ≡ false) (λ found. (is_fault number ≡ true) × IsRowOf number found) }
    {
        match number {
            1..=9 => Some(table::frames(number as u8)),
            10..=20 => Some(table::images(number as u8)),
            21..=23 => Some(table::texts(number as u8)),
            30..=34 => Some(table::structure(number as u8)),
            35..=49 => Some(table::kinds(number as u8)),
            50..=56 => Some(table::shards(number as u8)),
            60 => Some(table::stopped()),
            70..=74 => Some(table::rings(number as u8)),
            80..=83 => Some(table::tunnels(number as u8)),
            90..=95 => Some(table::scripts(number as u8)),
            _ => None,
        }
    }

    /// The paragraph that is printed: the number and the name, then the meaning, the causes and the example.
    pub fn text(&self, alloc: Global) -> Result<String, AllocError>
        ensures { IfOk result (λ text. string_bytes text ≡ explanation_text self.now) }
    {
        let Explanation {
            number,
            name,
            meaning,
            causes,
            example,
            ..
        } = self;
        format!(in alloc;
            "fault {number} {name}\n{meaning}\nUsual causes: {causes}\nFor example: {example}\n"
        )
    }
}
