//! What the shared numbers and clocks of a run are called: clocks by the names that they were made under.

ghost use Rattle.std.specs.Prelude.{◌≡◌, ◌++◌, length, map, min, option_map, slice_get, IfOk, OnOk, string_bytes};
ghost use Rattle.xk_unit_origins.specs.UnitOrigins.{slots_at};
ghost use Rattle.xk_show_events.specs.Events.{places_of};
ghost use Rattle.xk_show_names.specs.ClockNames.{birth, birth_by, births, births_among, made_in};
ghost use Rattle.xk_show_names.specs.ClockNames.{clock_names, is_name, name_of, names_by, names_in_run, unnamed, unnamed_by};
ghost use Rattle.xk_show_names.specs.Letters.{cut_name};
ghost use Rattle.xk_show_names.specs.Methods.{prefix_at};

use crate::accounts::{Account, Recount, instr_at, recount_run};
use crate::letters::cut_name;
use crate::methods::prefix_at;
use crate::name_counts::each_numbered;
use std::alloc::{AllocError, Global};
use std::marker::Model;
use xk_core::Core;
use xk_lines::Position;
use xk_show_events::{LegalRun, Places, RunStep};
use xk_types::{Event, Instr, Module};
use xk_unit_origins::UnitOrigins;

/// Where a clock was made: the instruction, and the slot.
#[derive(Clone, Copy)]
pub struct Birth {
    pub unit: u16,
    pub place: u32,
    pub slot: u16,
}

/// The slot that an instruction makes a clock in.
fn made_in(instr: Option<&Instr>) -> u16
    ensures { result ≡ made_in (option_map (λ i. i.now) instr.entry) }
{
    match instr {
        Some(instr) => match instr {
            Instr::Make(slot) => *slot,
            _ => 0,
        },
        None => 0,
    }
}

/// Where a step made a clock.
fn birth_at(program: &Module, step: &RunStep) -> Birth
    ensures { result ≡ birth program.now step.now }
{
    Birth {
        unit: step.unit,
        place: step.place,
        slot: made_in(instr_at(program, step.unit, step.place)),
    }
}

/// Adds where a step made a clock, if it made one.
fn push_birth(
    list: &mut Vec<Birth>,
    program: &Module,
    step: &RunStep,
    event: Event,
) -> Result<(), AllocError>
    ensures { OnOk result (list.new.items ≡ list.old.items
        ++ birth_by program.now step.now event) }
{
    match event {
        Event::Made => {
            list.push(birth_at(program, step))?;
            Ok(())
        }
        _ => Ok(()),
    }
}

/// Tells of the steps that made clocks.
struct BirthTeller;

impl Recount<Birth> for BirthTeller {
    ghost recount = { λ teller m v a. birth_by m a.step a.step.event };

    fn push(
        &self,
        _alloc: Global,
        out: &mut Vec<Birth>,
        core: &Core<'_>,
        account: &Account,
    ) -> Result<(), AllocError> {
        push_birth(
            out,
            core.module().module(),
            &account.step,
            account.step.event,
        )
    }
}

/// Where the clocks of a run were made.
fn births(alloc: Global, legal: &LegalRun<'_, '_>) -> Result<Vec<Birth>, AllocError>
    ensures { IfOk result (λ v. v.items ≡ births
        legal.now.module.now legal.now.core.now.world.arguments legal.now.log.now) }
{
    let mut list = Vec::new(alloc);
    recount_run(&BirthTeller, alloc, &mut list, legal)?;
    Ok(list)
}

/// Where these steps made clocks.
fn births_among(
    alloc: Global,
    program: &Module,
    steps: &[Account],
) -> Result<Vec<Birth>, AllocError>
    ensures { IfOk result (λ v. v.items ≡ births_among program.now steps.now) }
{
    let mut list = Vec::new(alloc);
    for account in steps {
        push_birth(&mut list, program, &account.step, account.step.event)?;
    }
    Ok(list)
}

/// Whether it is a name of the text.
fn is_name(name: &[u8]) -> bool
    ensures { result ≡ is_name name.now }
{
    name.iter().any(|b| *b != b' ')
}

/// `clock of 4:5`, or `clock of 0.3`.
fn unnamed_by(
    alloc: Global,
    unit: u16,
    place: u32,
    origin: Option<Position>,
) -> Result<String, AllocError>
    ensures { IfOk result (λ text. string_bytes text ≡ unnamed_by unit place origin) }
{
    match origin {
        Some(position) => {
            let line = position.line;
            let column = position.column;
            format!(in alloc; "clock of {line}:{column}")
        }
        None => format!(in alloc; "clock of {unit}.{place}"),
    }
}

/// A clock whose name isn't in the text, by where it is made.
fn unnamed(alloc: Global, places: &Places<'_>, birth: Birth) -> Result<Vec<u8>, AllocError>
    ensures { IfOk result (λ v. v.items ≡ unnamed places.now birth) }
{
    let origin = places.origin(birth.unit, birth.place);
    let text = unnamed_by(alloc, birth.unit, birth.place, origin)?;
    Ok(text.into_bytes())
}

/// The name of a slot of a unit, if the origins say it.
fn slot_name<'o>(origins: &'o [UnitOrigins<'_>], unit: u16, slot: u16) -> Option<&'o [u8]>
    ensures { option_map (λ x. x.now) result ≡ slice_get (slots_at origins.now unit) slot }
{
    match origins.get(unit as usize) {
        Some(of_unit) => match of_unit.slots.get(slot as usize) {
            Some(name) => Some(*name),
            None => None,
        },
        None => None,
    }
}

/// A name of a unit, behind that of the unit's method, if it isn't main.
fn with_method(
    alloc: Global,
    origins: &[UnitOrigins<'_>],
    unit: u16,
    name: &[u8],
) -> Result<Vec<u8>, AllocError>
    ensures { IfOk result
        (λ v. v.items ≡ prefix_at origins.now unit ++ cut_name name.now) }
{
    let mut letters = prefix_at(alloc, origins, unit)?;
    letters.extend_from_slice(&cut_name(alloc, name)?)?;
    Ok(letters)
}

/// What a clock that was made so is called.
fn name_of(
    alloc: Global,
    places: &Places<'_>,
    origins: &[UnitOrigins<'_>],
    birth: Birth,
) -> Result<Vec<u8>, AllocError>
    requires { places.now.origins ≡ origins.now }
    ensures { IfOk result (λ v. v.items ≡ name_of places.now birth) }
{
    match slot_name(origins, birth.unit, birth.slot) {
        Some(name) => {
            if is_name(name) {
                return with_method(alloc, origins, birth.unit, name);
            }
            unnamed(alloc, places, birth)
        }
        None => unnamed(alloc, places, birth),
    }
}

/// The names of clocks that were made so.
fn names_of(
    alloc: Global,
    places: &Places<'_>,
    origins: &[UnitOrigins<'_>],
    births: &[Birth],
) -> Result<Vec<Vec<u8>>, AllocError>
    requires { places.now.origins ≡ origins.now }
    ensures { IfOk result (λ v. map (λ x. x.items) v.items
        ≡ map (name_of places.now) births.now) }
{
    let mut names = Vec::new(alloc);
    for birth in births {
        names.push(name_of(alloc, places, origins, *birth)?)?;
    }
    Ok(names)
}

/// The names of clocks that were made so, each with its number among those that are the same.
fn clock_names(
    alloc: Global,
    places: &Places<'_>,
    origins: &[UnitOrigins<'_>],
    births: &[Birth],
) -> Result<Vec<Vec<u8>>, AllocError>
    requires { places.now.origins ≡ origins.now }
    ensures { IfOk result (λ v. map (λ x. x.items) v.items ≡ clock_names places.now births.now) }
{
    let names = names_of(alloc, places, origins, births)?;
    each_numbered(alloc, &names)
}

/// What the shared numbers and clocks of a run are called, as far as it is known.
#[derive(Drop)]
pub struct Names<'t> {
    shared: &'t [&'t [u8]],
    clocks: Vec<Vec<u8>>,
}

impl<'t> Model for Names<'t> {
    ghost use Rattle.std.specs.Prelude.{map};
    ghost use Rattle.xk_show_names.specs.ClockNames.{NamesValue};

    ghost Value = { NamesValue };

    ghost view = { λ n. record {
      shared = map (λ x. x.now) n.shared.now;
      clocks = map (λ x. x.items) n.clocks.items;
    } };
}

impl<'t> Names<'t> {
    /// Those of a run of a source text's module, whose shared numbers have these names. Clocks have those that they were
    /// made under: where a method other than main made one, with that one's name before it, as `work.c`; and where one
    /// name has made several, with `#2` behind it, `#3` and so on. One that no name was given is told by its place. The
    /// log is played again for it. Err where memory was refused.
    pub fn of_run(
        alloc: Global,
        text: &[u8],
        origins: &[UnitOrigins<'_>],
        shared: &'t [&'t [u8]],
        legal: &LegalRun<'_, '_>,
    ) -> Result<Names<'t>, AllocError>
        ensures { IfOk result (λ n. n ≡ names_in_run
            (places_of text.now origins.now) (map (λ x. x.now) shared.now)
            legal.now.module.now legal.now.core.now.world.arguments legal.now.log.now) }
    {
        let places = Places::of_source(alloc, text, origins)?;
        let clocks = clock_names(alloc, &places, origins, &births(alloc, legal)?)?;
        Ok(Names { shared, clocks })
    }

    /// What the shared numbers are called.
    pub fn shared(&self) -> &'t [&'t [u8]]
        ensures { map (λ x. x.now) result.now ≡ self.now.shared }
    {
        self.shared
    }

    /// The same, where these steps made the clocks. Err where memory was refused.
    pub fn by_steps(
        alloc: Global,
        places: &Places<'_>,
        origins: &[UnitOrigins<'_>],
        shared: &'t [&'t [u8]],
        program: &Module,
        steps: &[Account],
    ) -> Result<Names<'t>, AllocError>
        requires { places.now.origins ≡ origins.now }
        ensures { IfOk result (λ n. n ≡ names_by places.now (map (λ x. x.now) shared.now)
            (births_among program.now steps.now)) }
    {
        let births = births_among(alloc, program, steps)?;
        let clocks = clock_names(alloc, places, origins, &births)?;
        Ok(Names { shared, clocks })
    }

    /// How many of so many clocks have a name.
    pub fn named_clocks(&self, clocks: u32) -> u32
        ensures { result ≡ min (length self.now.clocks) clocks }
    {
        self.clocks.len().min(clocks as usize) as u32
    }

    /// The name of a shared number, if it is known.
    pub(crate) fn shared_name(&self, number: u16) -> Option<&[u8]>
        ensures { option_map (λ x. x.now) result ≡ slice_get self.now.shared number }
    {
        match self.shared.get(number as usize) {
            Some(name) => Some(*name),
            None => None,
        }
    }

    /// The name that a clock was made under, if it is known.
    pub(crate) fn clock_name(&self, clock: u32) -> Option<&[u8]>
        ensures { option_map (λ x. x.now) result ≡ slice_get self.now.clocks clock }
    {
        match self.clocks.get(clock as usize) {
            Some(name) => Some(name.as_slice()),
            None => None,
        }
    }
}
