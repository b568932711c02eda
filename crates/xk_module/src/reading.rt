//! Reads modules out of JSON values.

ghost use Rattle.std.specs.Prelude.{◌≡◌, ◌⊎◌, IsErrOf, Option, codes, length, option_map};
ghost use Rattle.serde_json.specs.Data.{Data};
ghost use Rattle.serde_json.specs.View.{view};
ghost use Rattle.xk_types.specs.Code.{module_of};
ghost use Rattle.xk_module.specs.ModuleReader.{Gives, views, each, elements_at, name_and_operands_at, lit_at, comparison_at, unless_at, for_at, forto_at, run_at, instr_of, instr_without_args, instr_of_words, instr_of_none, instr_of_one, instr_of_two, instr_of_three, kind_at, param_at, params_at, unit_members_at, version_at, module_members_at, module_at};

use crate::fault::Refusal;
use crate::json::{array, end, field, long, object, word};
use crate::version::Version;
use serde_json::Value;
use std::alloc::Global;
use xk_types::{Args, Comparison, Instr, ParamKind, Unit, UnitKind};

/// What a JSON value can name.
trait Named: Drop {
    /// The one that a value names, if it names one.
    ghost named: { Data → Option Self };

    /// Reads it.
    fn read(alloc: Global, value: &Value) -> Result<Self, Refusal>
        ensures { Gives (λ x. x) result (named (view value.now)) };
}

/// Reads each of the values.
fn all<T: Named>(alloc: Global, values: &[Value]) -> Result<Vec<T>, Refusal>
    ensures { Gives (λ found. found.items) result (each T.named (views values.now)) }
{
    let mut found = Vec::new(alloc);
    for value in values {
        found.push(T::read(alloc, value)?)?;
    }
    Ok(found)
}

/// Reads each element of an array.
fn elements<T: Named>(alloc: Global, value: &Value) -> Result<Vec<T>, Refusal>
    ensures { Gives (λ found. found.items) result (elements_at T.named (view value.now)) }
{
    all(alloc, array(value).ok_or(Refusal::Unfit)?)
}

impl Named for i64 {
    ghost use Rattle.xk_module.specs.ModuleReader.{long_at};

    ghost named = { long_at };

    /// A whole number that an `i64` holds.
    fn read(_alloc: Global, value: &Value) -> Result<i64, Refusal> {
        long(value).ok_or(Refusal::Unfit)
    }
}

impl Named for u16 {
    ghost use Rattle.xk_module.specs.ModuleReader.{word_at};

    ghost named = { word_at };

    /// A whole number from 0 to 65,535.
    fn read(_alloc: Global, value: &Value) -> Result<u16, Refusal> {
        word(value).ok_or(Refusal::Unfit)
    }
}

impl Named for Instr {
    ghost use Rattle.xk_module.specs.ModuleReader.{instr_at};

    ghost named = { instr_at };

    /// An array of the instruction's name and its operands.
    #[tactic(auto, unfolding(crate::specs::ModuleReader::instr_at))]
    fn read(alloc: Global, value: &Value) -> Result<Instr, Refusal> {
        let (name, operands) = name_and_operands(value).ok_or(Refusal::Unfit)?;
        instr(alloc, name, operands)
    }
}

impl Named for Unit {
    ghost use Rattle.xk_module.specs.ModuleReader.{unit_at};

    ghost named = { unit_at };

    /// An object of the unit's code, kind, parameters and slots.
    #[tactic(auto, unfolding(crate::specs::ModuleReader::unit_at, crate::specs::ModuleReader::code_at))]
    fn read(alloc: Global, value: &Value) -> Result<Unit, Refusal> {
        let (code, kind, params, slots) = unit_members(value).ok_or(Refusal::Unfit)?;
        let kind = unit_kind(kind).ok_or(Refusal::Unfit)?;
        let slots = word(slots).ok_or(Refusal::Unfit)?;
        let params = param_kinds(alloc, params)?;
        let code = elements(alloc, code)?;
        Ok(Unit {
            kind,
            params,
            slots,
            code,
        })
    }
}

/// What an instruction's array has inside.
#[tactic(auto, unfolding(crate::specs::ModuleReader::name_and_operands_at))]
fn name_and_operands(value: &Value) -> Option<(&str, &[Value])>
    ensures { option_map (λ parts. (parts.0.now, views parts.1.now)) result ≡
        name_and_operands_at (view value.now) }
{
    let (name, operands) = array(value)?.split_first()?;
    Some((name.as_str()?, operands))
}

/// The instruction of this name with these operands.
#[tactic(auto, unfolding(crate::specs::ModuleReader::instr_of))]
fn instr(alloc: Global, name: &str, operands: &[Value]) -> Result<Instr, Refusal>
    ensures given { Gives (λ x. x) result (instr_of name.now (views operands.now)) }
    ensures memory { IsErrOf result Refusal.Memory
        → (name.now ≡ codes "call") ⊎ (name.now ≡ codes "spawn") }
{
    match name {
        "call" => unit_and_args(alloc, operands).map(|(unit, args)| Instr::Call { unit, args }),
        "spawn" => unit_and_args(alloc, operands).map(|(unit, args)| Instr::Spawn { unit, args }),
        _ => instr_without_args(name, operands).ok_or(Refusal::Unfit),
    }
}

/// The same of an instruction that runs no unit.
#[tactic(auto, unfolding(crate::specs::ModuleReader::instr_without_args))]
fn instr_without_args(name: &str, operands: &[Value]) -> Option<Instr>
    ensures { result ≡ instr_without_args name.now (views operands.now) }
{
    match name {
        "lit" => slot_and_number(operands).map(|(d, n)| Instr::Lit { d, n }),
        "unless" => compared_slots(operands).map(|(op, a, b, t)| Instr::Unless { op, a, b, t }),
        "for" => slot_and_bounds(operands).map(|(k, lo, hi, e)| Instr::For { k, lo, hi, e }),
        "forto" => slot_bounds_and_limit(operands).map(|(k, lo, x, hi, e)| Instr::ForTo {
            k,
            lo,
            x,
            hi,
            e,
        }),
        _ => instr_of_words(name, operands),
    }
}

/// The same of an instruction whose operands are all slots, shared numbers or places.
#[tactic(auto, unfolding(crate::specs::ModuleReader::instr_of_words))]
fn instr_of_words(name: &str, operands: &[Value]) -> Option<Instr>
    ensures { result ≡ instr_of_words name.now (views operands.now) }
{
    match operands {
        [] => instr_of_none(name),
        [a] => instr_of_one(name, word(a)?),
        [a, b] => instr_of_two(name, word(a)?, word(b)?),
        [a, b, c] => instr_of_three(name, word(a)?, word(b)?, word(c)?),
        _ => None,
    }
}

/// The instruction of this name that has no operand.
#[tactic(auto, unfolding(crate::specs::ModuleReader::instr_of_none))]
fn instr_of_none(name: &str) -> Option<Instr>
    ensures { result ≡ instr_of_none name.now }
{
    match name {
        "advance" => Some(Instr::Advance),
        "ret" => Some(Instr::Ret),
        _ => None,
    }
}

/// The instruction of this name with this slot or place.
#[tactic(auto, unfolding(crate::specs::ModuleReader::instr_of_one))]
fn instr_of_one(name: &str, x: u16) -> Option<Instr>
    ensures { result ≡ instr_of_one name.now x }
{
    match name {
        "jump" => Some(Instr::Jump(x)),
        "next" => Some(Instr::Next(x)),
        "finish" => Some(Instr::Finish(x)),
        "endfinish" => Some(Instr::EndFinish(x)),
        "print" => Some(Instr::Print(x)),
        "make" => Some(Instr::Make(x)),
        "resume" => Some(Instr::Resume(x)),
        "drop" => Some(Instr::Drop(x)),
        _ => None,
    }
}

/// The instruction of this name with these two slots, or with a slot and a shared number.
#[tactic(auto, unfolding(crate::specs::ModuleReader::instr_of_two))]
fn instr_of_two(name: &str, x: u16, y: u16) -> Option<Instr>
    ensures { result ≡ instr_of_two name.now x y }
{
    match name {
        "copy" => Some(Instr::Copy { d: x, a: y }),
        "get" => Some(Instr::Get { d: x, s: y }),
        "put" => Some(Instr::Put { s: x, a: y }),
        "addto" => Some(Instr::AddTo { s: x, a: y }),
        _ => None,
    }
}

/// The instruction of this name with these slots.
#[tactic(auto, unfolding(crate::specs::ModuleReader::instr_of_three))]
fn instr_of_three(name: &str, d: u16, a: u16, b: u16) -> Option<Instr>
    ensures { result ≡ instr_of_three name.now d a b }
{
    match name {
        "add" => Some(Instr::Add { d, a, b }),
        "sub" => Some(Instr::Sub { d, a, b }),
        "mul" => Some(Instr::Mul { d, a, b }),
        _ => None,
    }
}

/// A slot and a number.
#[tactic(auto, unfolding(crate::specs::ModuleReader::lit_at))]
fn slot_and_number(operands: &[Value]) -> Option<(u16, i64)>
    ensures { result ≡ lit_at (views operands.now) }
{
    match operands {
        [d, n] => Some((word(d)?, long(n)?)),
        _ => None,
    }
}

/// The comparison that a text names.
#[tactic(auto, unfolding(crate::specs::ModuleReader::comparison_at))]
fn comparison(value: &Value) -> Option<Comparison>
    ensures { result ≡ comparison_at (view value.now) }
{
    match value.as_str()? {
        "eq" => Some(Comparison::Eq),
        "ne" => Some(Comparison::Ne),
        "lt" => Some(Comparison::Lt),
        "le" => Some(Comparison::Le),
        "gt" => Some(Comparison::Gt),
        "ge" => Some(Comparison::Ge),
        _ => None,
    }
}

/// A comparison, two slots and a place.
#[tactic(auto, unfolding(crate::specs::ModuleReader::unless_at))]
fn compared_slots(operands: &[Value]) -> Option<(Comparison, u16, u16, u16)>
    ensures { result ≡ unless_at (views operands.now) }
{
    match operands {
        [op, a, b, t] => Some((comparison(op)?, word(a)?, word(b)?, word(t)?)),
        _ => None,
    }
}

/// A slot, two bounds and a place.
#[tactic(auto, unfolding(crate::specs::ModuleReader::for_at))]
fn slot_and_bounds(operands: &[Value]) -> Option<(u16, i64, i64, u16)>
    ensures { result ≡ for_at (views operands.now) }
{
    match operands {
        [k, lo, hi, e] => Some((word(k)?, long(lo)?, long(hi)?, word(e)?)),
        _ => None,
    }
}

/// A slot, a bound, the slot of a limit, a bound and a place.
#[tactic(auto, unfolding(crate::specs::ModuleReader::forto_at))]
fn slot_bounds_and_limit(operands: &[Value]) -> Option<(u16, i64, u16, i64, u16)>
    ensures { result ≡ forto_at (views operands.now) }
{
    match operands {
        [k, lo, x, hi, e] => Some((word(k)?, long(lo)?, word(x)?, long(hi)?, word(e)?)),
        _ => None,
    }
}

/// A unit that is run, and its arguments.
#[tactic(auto, unfolding(crate::specs::ModuleReader::run_at))]
fn unit_and_args(alloc: Global, operands: &[Value]) -> Result<(u16, Args), Refusal>
    ensures given { Gives (λ x. x) result (run_at (views operands.now)) }
    ensures memory { IsErrOf result Refusal.Memory → length operands.now ≡ 2 }
{
    match operands {
        [unit, slots] => {
            let unit = word(unit).ok_or(Refusal::Unfit)?;
            Ok((unit, Args::new(elements(alloc, slots)?)))
        }
        _ => Err(Refusal::Unfit),
    }
}

/// The kind of unit that a text names.
#[tactic(auto, unfolding(crate::specs::ModuleReader::kind_at))]
fn unit_kind(value: &Value) -> Option<UnitKind>
    ensures { result ≡ kind_at (view value.now) }
{
    match value.as_str()? {
        "main" => Some(UnitKind::Main),
        "method" => Some(UnitKind::Method),
        "body" => Some(UnitKind::Body),
        _ => None,
    }
}

/// The kinds of parameters that a text's letters stand for.
#[tactic(auto, unfolding(crate::specs::ModuleReader::params_at))]
fn param_kinds(alloc: Global, value: &Value) -> Result<Vec<ParamKind>, Refusal>
    ensures { Gives (λ kinds. kinds.items) result (params_at (view value.now)) }
{
    let letters = value.as_str().ok_or(Refusal::Unfit)?;
    let mut kinds = Vec::new(alloc);
    for letter in letters.as_bytes() {
        kinds.push(param_kind(*letter).ok_or(Refusal::Unfit)?)?;
    }
    Ok(kinds)
}

/// The kind of parameter that a letter stands for.
fn param_kind(letter: u8) -> Option<ParamKind>
    ensures { result ≡ param_at letter }
{
    match letter {
        b'n' => Some(ParamKind::Number),
        b'c' => Some(ParamKind::Clock),
        _ => None,
    }
}

/// The values of a unit's members, in the order of their keys.
#[tactic(auto, unfolding(crate::specs::ModuleReader::unit_members_at))]
fn unit_members(value: &Value) -> Option<(&Value, &Value, &Value, &Value)>
    ensures { option_map (λ m. (view m.0.now, view m.1.now, view m.2.now, view m.3.now)) result ≡
        unit_members_at (view value.now) }
{
    let mut members = object(value)?;
    let code = field(&mut members, "code")?;
    let kind = field(&mut members, "kind")?;
    let params = field(&mut members, "params")?;
    let slots = field(&mut members, "slots")?;
    end(members)?;
    Some((code, kind, params, slots))
}

/// The version of this number.
#[tactic(auto, unfolding(crate::specs::ModuleReader::version_at))]
fn version(value: &Value) -> Option<Version>
    ensures { result ≡ version_at (view value.now) }
{
    match value.as_u64() {
        Some(1) => Some(Version::One),
        Some(2) => Some(Version::Two),
        _ => None,
    }
}

/// The values of a module's members, the version as what it is.
#[tactic(auto, unfolding(crate::specs::ModuleReader::module_members_at))]
fn module_members(value: &Value) -> Option<(&Value, &Value, Version)>
    ensures { option_map (λ m. (view m.0.now, view m.1.now, m.2)) result ≡
        module_members_at (view value.now) }
{
    let mut members = object(value)?;
    let shared = field(&mut members, "shared")?;
    let units = field(&mut members, "units")?;
    let number = field(&mut members, "version")?;
    end(members)?;
    Some((shared, units, version(number)?))
}

/// The shared numbers and the units of a module.
#[tactic(auto, unfolding(crate::specs::ModuleReader::module_at, crate::specs::ModuleReader::shared_at, crate::specs::ModuleReader::units_at))]
pub(crate) fn module(alloc: Global, value: &Value) -> Result<(Vec<i64>, Vec<Unit>), Refusal>
    ensures { Gives (λ x. module_of x.0.items x.1.items) result (module_at (view value.now)) }
{
    let (shared, units, version) = module_members(value).ok_or(Refusal::Unfit)?;
    let shared: Vec<i64> = elements(alloc, shared)?;
    let units: Vec<Unit> = elements(alloc, units)?;
    if !version.knows(&units) {
        return Err(Refusal::Unfit);
    }
    Ok((shared, units))
}
