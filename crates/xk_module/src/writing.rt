//! Writes modules as text.

ghost use Rattle.std.specs.Prelude.{◌≡◌, ◌∷◌, [], map, IfOk, OnOk, string_bytes};
ghost use Rattle.std.specs.List.{AllByRecursion};
ghost use Rattle.serde_json.specs.Data.{Data, string};
ghost use Rattle.serde_json.specs.View.{view};
ghost use Rattle.serde_json.specs.Written.{compact_text};
ghost use Rattle.xk_module.specs.Operands.{operand_value};
ghost use Rattle.xk_module.specs.ModuleText.{word, long, array_of, named, comparison_name, kind_value, letter, module_value, IsWord, IsInRange, IsModuleText, Names};
ghost use Rattle.xk_types.specs.Code.{ModuleValue};

use crate::version::version_of;
use serde_json::{Value, json};
use std::alloc::{AllocError, Global};
use xk_types::{Comparison, Instr, Module, ParamKind, Unit, UnitKind};

/// Writes the text of a module, in the format that `read_module` reads: with no white space, and with the keys of each object in
/// alphabetic order. `read_module` reads the text as that module: the value that is written names the module, and no other. It is a text of
/// version 2 where the module has a `forto` or its main has parameters, else of version 1.
pub fn write_module(alloc: Global, m: &Module) -> Result<String, AllocError>
    ensures text { IfOk result (λ text. string_bytes text ≡ compact_text (module_value m.now)) }
    ensures reads_back { IfOk result (λ text. IsModuleText (string_bytes text) m.now) }
    ensures fits { OnOk result (Names (module_value m.now) m.now) }
    ensures alone { OnOk result ((n : ModuleValue) → Names (module_value m.now) n → n ≡ m.now) }
{
    let value = module_json(alloc, m)?;
    let text = value.to_string(alloc)?;
    Ok(text)
}

/// The value of a module.
fn module_json(alloc: Global, m: &Module) -> Result<Value, AllocError>
    ensures value { IfOk result (λ v. view v ≡ module_value m.now) }
    ensures range { OnOk result (IsInRange m.now) }
{
    let shared = array(alloc, m.shared())?;
    let units = array(alloc, m.units())?;
    let version = version_of(m).number();
    json!(in alloc; {"shared": shared, "units": units, "version": version})
}

/// What has a JSON value.
trait Written {
    /// The value.
    ghost value: { Self → Data };

    /// Its numbers are in their ranges.
    ghost in_range: { Self → Type 0 };

    /// Makes the value.
    fn json(&self, alloc: Global) -> Result<Value, AllocError>
        ensures value { IfOk result (λ v. view v ≡ value self.now) }
        ensures range { OnOk result (in_range self.now) };
}

/// The array of the values of these.
fn array<T: Written>(alloc: Global, items: &[T]) -> Result<Value, AllocError>
    ensures value { IfOk result (λ v. view v ≡ array_of (map T.value items.now)) }
    ensures range { OnOk result (AllByRecursion T.in_range items.now) }
{
    let mut values = Vec::new(alloc);
    for item in items {
        values.push(item.json(alloc)?)?;
    }
    Ok(Value::from(values))
}

impl Written for i64 {
    ghost use Rattle.xk_module.specs.ModuleText.{long, IsLong};

    ghost value = { long };

    ghost in_range = { IsLong };

    /// The number itself; no memory is taken.
    fn json(&self, _alloc: Global) -> Result<Value, AllocError> {
        Ok(Value::from(*self))
    }
}

impl Written for u16 {
    ghost use Rattle.xk_module.specs.ModuleText.{word, IsWord};

    ghost value = { word };

    ghost in_range = { IsWord };

    /// The number itself; no memory is taken.
    fn json(&self, _alloc: Global) -> Result<Value, AllocError> {
        Ok(Value::from(*self))
    }
}

impl Written for Instr {
    ghost use Rattle.xk_module.specs.ModuleText.{instr_value, IsInstrInRange};

    ghost value = { instr_value };

    ghost in_range = { IsInstrInRange };

    /// An array of the instruction's name and its operands.
    fn json(&self, alloc: Global) -> Result<Value, AllocError> {
        match self {
            Instr::Lit { d, n } => slot_and_number(alloc, "lit", *d, *n),
            Instr::Copy { d, a } => two_words(alloc, "copy", *d, *a),
            Instr::Add { d, a, b } => three_slots(alloc, "add", *d, *a, *b),
            Instr::Sub { d, a, b } => three_slots(alloc, "sub", *d, *a, *b),
            Instr::Mul { d, a, b } => three_slots(alloc, "mul", *d, *a, *b),
            Instr::Unless { op, a, b, t } => compared_slots(alloc, "unless", *op, *a, *b, *t),
            Instr::Jump(t) => one_word(alloc, "jump", *t),
            Instr::For { k, lo, hi, e } => slot_and_bounds(alloc, "for", *k, *lo, *hi, *e),
            Instr::ForTo { k, lo, x, hi, e } => slot_bounds_and_limit(
                alloc, "forto", *k, *lo, *x, *hi, *e,
            ),
            Instr::Next(b) => one_word(alloc, "next", *b),
            Instr::Finish(e) => one_word(alloc, "finish", *e),
            Instr::EndFinish(b) => one_word(alloc, "endfinish", *b),
            Instr::Get { d, s } => two_words(alloc, "get", *d, *s),
            Instr::Put { s, a } => two_words(alloc, "put", *s, *a),
            Instr::AddTo { s, a } => two_words(alloc, "addto", *s, *a),
            Instr::Print(a) => one_word(alloc, "print", *a),
            Instr::Make(k) => one_word(alloc, "make", *k),
            Instr::Resume(k) => one_word(alloc, "resume", *k),
            Instr::Drop(k) => one_word(alloc, "drop", *k),
            Instr::Advance => no_operand(alloc, "advance"),
            Instr::Call { unit, args } => run(alloc, "call", *unit, args.slots()),
            Instr::Spawn { unit, args } => run(alloc, "spawn", *unit, args.slots()),
            Instr::Ret => no_operand(alloc, "ret"),
        }
    }
}

impl Written for Unit {
    ghost use Rattle.xk_module.specs.ModuleText.{unit_value, IsUnitInRange};

    ghost value = { unit_value };

    ghost in_range = { IsUnitInRange };

    /// An object of the unit's code, kind, parameters and slots.
    fn json(&self, alloc: Global) -> Result<Value, AllocError> {
        let code = array(alloc, &self.code)?;
        let params = letters(alloc, &self.params)?;
        let kind = kind(self.kind);
        json!(in alloc; {"code": code, "kind": kind, "params": params, "slots": self.slots})
    }
}

/// An instruction with no operand.
fn no_operand(alloc: Global, name: &str) -> Result<Value, AllocError>
    ensures { IfOk result (λ v. view v ≡ named name.now []) }
{
    operation(alloc, name, &[])
}

/// An instruction with a slot or a place.
fn one_word(alloc: Global, name: &str, a: u16) -> Result<Value, AllocError>
    ensures { IfOk result (λ v. view v ≡ named name.now (word a ∷ [])) }
{
    operation(alloc, name, &[Operand::Word(a)])
}

/// An instruction with two slots, or a slot and a shared number.
fn two_words(alloc: Global, name: &str, a: u16, b: u16) -> Result<Value, AllocError>
    ensures { IfOk result (λ v. view v ≡ named name.now (word a ∷ word b ∷ [])) }
{
    operation(alloc, name, &[Operand::Word(a), Operand::Word(b)])
}

/// An instruction with three slots.
fn three_slots(alloc: Global, name: &str, a: u16, b: u16, c: u16) -> Result<Value, AllocError>
    ensures { IfOk result (λ v. view v ≡ named name.now (word a ∷ word b ∷ word c ∷ [])) }
{
    let operands = [Operand::Word(a), Operand::Word(b), Operand::Word(c)];
    operation(alloc, name, &operands)
}

/// An instruction with a slot and a number.
fn slot_and_number(alloc: Global, name: &str, d: u16, n: i64) -> Result<Value, AllocError>
    ensures { IfOk result (λ v. view v ≡ named name.now (word d ∷ long n ∷ [])) }
{
    operation(alloc, name, &[Operand::Word(d), Operand::Long(n)])
}

/// An instruction with a comparison, two slots and a place.
fn compared_slots(
    alloc: Global,
    name: &str,
    op: Comparison,
    a: u16,
    b: u16,
    t: u16,
) -> Result<Value, AllocError>
    ensures { IfOk result (λ v. view v ≡
        named name.now (string (comparison_name op) ∷ word a ∷ word b ∷ word t ∷ [])) }
{
    let operands = [
        Operand::Comparison(op),
        Operand::Word(a),
        Operand::Word(b),
        Operand::Word(t),
    ];
    operation(alloc, name, &operands)
}

/// An instruction with a slot, two bounds and a place.
fn slot_and_bounds(
    alloc: Global,
    name: &str,
    k: u16,
    lo: i64,
    hi: i64,
    e: u16,
) -> Result<Value, AllocError>
    ensures { IfOk result (λ v. view v ≡
        named name.now (word k ∷ long lo ∷ long hi ∷ word e ∷ [])) }
{
    let operands = [
        Operand::Word(k),
        Operand::Long(lo),
        Operand::Long(hi),
        Operand::Word(e),
    ];
    operation(alloc, name, &operands)
}

/// An instruction with a slot, a bound, the slot of a limit, a bound and a place.
fn slot_bounds_and_limit(
    alloc: Global,
    name: &str,
    k: u16,
    lo: i64,
    x: u16,
    hi: i64,
    e: u16,
) -> Result<Value, AllocError>
    ensures { IfOk result (λ v. view v ≡
        named name.now (word k ∷ long lo ∷ word x ∷ long hi ∷ word e ∷ [])) }
{
    let operands = [
        Operand::Word(k),
        Operand::Long(lo),
        Operand::Word(x),
        Operand::Long(hi),
        Operand::Word(e),
    ];
    operation(alloc, name, &operands)
}

/// An operand that is one value.
#[derive(Clone, Copy)]
enum Operand {
    /// A slot, a shared number or a place.
    Word(u16),
    /// A number.
    Long(i64),
    /// A comparison.
    Comparison(Comparison),
}

/// The value of an operand.
fn operand_json(alloc: Global, operand: Operand) -> Result<Value, AllocError>
    ensures { IfOk result (λ v. view v ≡ operand_value operand) }
{
    match operand {
        Operand::Word(n) => Ok(Value::from(n)),
        Operand::Long(n) => Ok(Value::from(n)),
        Operand::Comparison(op) => Value::try_from_str(alloc, comparison(op)),
    }
}

/// An instruction with these operands.
fn operation(alloc: Global, name: &str, operands: &[Operand]) -> Result<Value, AllocError>
    ensures { IfOk result (λ v. view v ≡ named name.now (map operand_value operands.now)) }
{
    let mut values = Vec::new(alloc);
    values.push(Value::try_from_str(alloc, name)?)?;
    for operand in operands {
        values.push(operand_json(alloc, *operand)?)?;
    }
    Ok(Value::from(values))
}

/// An instruction that runs this unit, with the slots of these arguments.
fn run(alloc: Global, name: &str, unit: u16, args: &[u16]) -> Result<Value, AllocError>
    ensures value { IfOk result
        (λ v. view v ≡ named name.now (word unit ∷ array_of (map word args.now) ∷ [])) }
    ensures range { OnOk result (AllByRecursion IsWord args.now) }
{
    let args = array(alloc, args)?;
    json!(in alloc; [name, unit, args])
}

/// The name of a comparison.
fn comparison(op: Comparison) -> &'static str
    ensures { result.now ≡ comparison_name op }
{
    match op {
        Comparison::Eq => "eq",
        Comparison::Ne => "ne",
        Comparison::Lt => "lt",
        Comparison::Le => "le",
        Comparison::Gt => "gt",
        Comparison::Ge => "ge",
    }
}

/// The name of a kind of units.
fn kind(kind: UnitKind) -> &'static str
    ensures { string result.now ≡ kind_value kind }
{
    match kind {
        UnitKind::Main => "main",
        UnitKind::Method => "method",
        UnitKind::Body => "body",
    }
}

/// The letters of parameters, one after another.
fn letters(alloc: Global, params: &[ParamKind]) -> Result<String, AllocError>
    ensures { IfOk result (λ text. string_bytes text ≡ map letter params.now) }
{
    let mut text = String::new(alloc);
    for param in params {
        text.push_str(letter_of(*param))?;
    }
    Ok(text)
}

/// The letter of a parameter.
fn letter_of(param: ParamKind) -> &'static str
    ensures { result.now ≡ letter param ∷ [] }
{
    match param {
        ParamKind::Number => "n",
        ParamKind::Clock => "c",
    }
}
