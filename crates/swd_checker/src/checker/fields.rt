//! A checker as a struct of integers, for callers that store it themselves, such as programs in C.
ghost use Rattle.std.specs.Prelude.{◌≡◌, ◌==◌, Some, IfSome};
ghost use Rattle.swd_checker.specs.declared.checker.Checker.{Checker as CheckerType};
ghost use Rattle.swd_checker.specs.Fields.{checker_rule_number, checker_broken_place, checker_broken_rule};
ghost use Rattle.swd_checker.specs.Fields.{checker_opening_number, checker_opening_word};
ghost use Rattle.swd_checker.specs.Fields.{checked_held_fields, checker_identification_held, checker_fields};
ghost use Rattle.swd_checker.specs.FieldsRead.{checker_rule_from, checker_broken_from, checker_place_from};
ghost use Rattle.swd_checker.specs.FieldsRead.{checker_opening_from, checker_identification_from};
ghost use Rattle.swd_checker.specs.FieldsRead.{checked_worlds_from, checker_from};

use super::Checker;
use crate::fields::{HeldFields, WorldFields, fields_of_worlds, worlds_with};
use crate::held::Held;
use crate::identification::Identification;
use crate::near::Near;
use crate::opening::Opening;
use crate::rule::Rule;
use crate::worlds::{MOST_WORLDS, Worlds};

/// The state of a checker as integers, laid out as in C: less than 5 kB. [`Checker::fields`] returns it, and
/// [`checker`](CheckerFields::checker) restores the checker. Any values are safe: `checker` rejects those of no
/// checker, such as zeros.
///
/// The meaning of the fields is private to this crate.
#[repr(C)]
#[derive(Clone, Copy, Debug, PartialEq, Eq)]
pub struct CheckerFields {
    pub worlds: [WorldFields; 64],
    pub identification: HeldFields,
    pub began: u64,
    pub faults_before: u64,
    pub gaps: u64,
    pub broken: u64,
    pub crowded: u64,
    pub select: u32,
    pub count: u8,
    pub overfull: u8,
    pub opening: u8,
    pub clean: u8,
    pub has_began: u8,
    pub in_gap: u8,
    pub stray: u8,
    pub rule: u8,
    pub is_crowded: u8,
}

impl Rule {
    /// Returns the number of the rule, from 1 to 11, in the order of their declaration.
    pub fn number(self) -> u8
        ensures { result ≡ checker_rule_number self }
    {
        match self {
            Rule::Silence => 1,
            Rule::Acknowledgement => 2,
            Rule::NeverRefused => 3,
            Rule::Flags => 4,
            Rule::Power => 5,
            Rule::FaultFirst => 6,
            Rule::Posted => 7,
            Rule::Resent => 8,
            Rule::Status => 9,
            Rule::Identification => 10,
            Rule::Parity => 11,
        }
    }

    // Here and below, invalid numbers may give any result: `CheckerFields::checker` rejects a checker whose own fields
    // differ.
    fn with(number: u8) -> Rule
        ensures { result ≡ checker_rule_from number }
    {
        match number {
            1 => Rule::Silence,
            2 => Rule::Acknowledgement,
            3 => Rule::NeverRefused,
            4 => Rule::Flags,
            5 => Rule::Power,
            6 => Rule::FaultFirst,
            7 => Rule::Posted,
            8 => Rule::Resent,
            9 => Rule::Status,
            10 => Rule::Identification,
            _ => Rule::Parity,
        }
    }
}

// Returns the place and the number of a rule that is broken, or zeros.
fn fields_of_broken(broken: Option<(u64, Rule)>) -> (u64, u8)
    ensures place { result.0 ≡ checker_broken_place broken }
    ensures rule { result.1 ≡ checker_broken_rule broken }
{
    match broken {
        Some((place, rule)) => (place, rule.number()),
        None => (0, 0),
    }
}

fn broken_with(place: u64, rule: u8) -> Option<(u64, Rule)>
    ensures { result ≡ checker_broken_from place rule }
{
    if rule == 0 {
        None
    } else {
        Some((place, Rule::with(rule)))
    }
}

fn place_with(known: u8, place: u64) -> Option<u64>
    ensures { result ≡ checker_place_from known place }
{
    if known == 1 { Some(place) } else { None }
}

// Returns the number of what is known at first, and SELECT's word.
fn fields_of_opening(opening: Opening) -> (u8, u32)
    ensures number { result.0 ≡ checker_opening_number opening }
    ensures word { result.1 ≡ checker_opening_word opening }
{
    match opening {
        Opening::Anything => (1, 0),
        Opening::Resting => (2, 0),
        Opening::Selected(word) => (3, word),
        Opening::Over => (4, 0),
    }
}

fn opening_with(number: u8, word: u32) -> Opening
    ensures { result ≡ checker_opening_from number word }
{
    match number {
        1 => Opening::Anything,
        2 => Opening::Resting,
        3 => Opening::Selected(word),
        _ => Opening::Over,
    }
}

fn fields_of_identification(identification: Option<Near>) -> HeldFields
    ensures { result ≡ checked_held_fields (checker_identification_held identification) }
{
    match identification {
        Some(near) => HeldFields::of(Held::Seen(near)),
        None => HeldFields::of(Held::Unknown),
    }
}

fn identification_with(fields: HeldFields) -> Option<Near>
    ensures { result ≡ checker_identification_from fields }
{
    if fields.kind == 5 {
        Some(fields.near())
    } else {
        None
    }
}

impl CheckerFields {
    /// Returns the checker with these fields, or `None` if no checker has them.
    pub fn checker(&self) -> Option<Checker>
        ensures found { (c : CheckerType) → checker_fields c ≡ self.now → result ≡ Some c }
        ensures same { IfSome result (λ c. checker_fields c ≡ self.now) }
    {
        let checker = self.read();
        if checker.fields() == *self {
            Some(checker)
        } else {
            None
        }
    }

    fn read(&self) -> Checker
        ensures { result ≡ checker_from self.now }
    {
        Checker {
            worlds: self.read_worlds(),
            opening: opening_with(self.opening, self.select),
            identification: Identification {
                word: identification_with(self.identification),
            },
            clean: self.clean == 1,
            began: place_with(self.has_began, self.began),
            faults_before: self.faults_before,
            gaps: self.gaps,
            in_gap: self.in_gap == 1,
            stray: self.stray,
            broken: broken_with(self.broken, self.rule),
            crowded: place_with(self.is_crowded, self.crowded),
        }
    }

    fn read_worlds(&self) -> Worlds
        ensures kept { result.kept.items ≡ checked_worlds_from self.now.count self.now.worlds }
        ensures crowded { result.crowded ≡ (self.now.overfull == 1) }
    {
        let count = usize::from(self.count).min(MOST_WORLDS);
        Worlds {
            kept: worlds_with(&self.worlds[..count]),
            crowded: self.overfull == 1,
        }
    }
}

impl Checker {
    /// Returns the state of the checker as integers.
    pub fn fields(&self) -> CheckerFields
        ensures { result ≡ checker_fields self.now }
    {
        let (broken, rule) = fields_of_broken(self.broken);
        let (opening, select) = fields_of_opening(self.opening);
        CheckerFields {
            worlds: fields_of_worlds(self.worlds.kept.as_slice()),
            identification: fields_of_identification(self.identification.word()),
            began: self.began.unwrap_or(0),
            faults_before: self.faults_before,
            gaps: self.gaps,
            broken,
            crowded: self.crowded.unwrap_or(0),
            select,
            count: self.worlds.kept.len() as u8,
            overfull: u8::from(self.worlds.crowded),
            opening,
            clean: u8::from(self.clean),
            has_began: u8::from(self.began.is_some()),
            in_gap: u8::from(self.in_gap),
            stray: self.stray,
            rule,
            is_crowded: u8::from(self.crowded.is_some()),
        }
    }
}
