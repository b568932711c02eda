//! Where else the name that stands at a fault is declared.

ghost use Rattle.std.specs.Prelude.{◌≡◌, [], ◌∷◌, ◌++◌, None, drop, map, option_map, take, IfOk, OnOk};
ghost use Rattle.xk_tree.specs.Program.{tree_value};
ghost use Rattle.xk_tree.specs.Tree.{method_value};
ghost use Rattle.xk_explain_kinds.specs.Declarations.{declared, declared_here};
ghost use Rattle.xk_explain_kinds.specs.Kinds.{last_of};
ghost use Rattle.xk_explain_names.specs.Notes.{block_text, capture_notes, capture_repair, captured_by, clock_block_text};
ghost use Rattle.xk_explain_names.specs.Notes.{front_notes, further_notes, further_text, hand_on_text, is_called, is_meant, is_namesake};
ghost use Rattle.xk_explain_names.specs.Notes.{is_on_names, keep_apart_text, keep_in_text, keep_text, kind_notes, loop_alone_text};
ghost use Rattle.xk_explain_names.specs.Notes.{count_notes, declared_text, may_be, meant_notes, meant_text, method_alone_text};
ghost use Rattle.xk_explain_names.specs.Notes.{named_notes, namesakes, new_method_text, new_number_text, new_text, note_of, notes_on};
ghost use Rattle.xk_explain_names.specs.Notes.{nowhere_note, nowhere_text, other_clock_text, other_param_text, parameters_text};
ghost use Rattle.xk_explain_names.specs.Notes.{repair_of_kind, role_text, uncalled_text, unseen_as, unseen_text};
ghost use Rattle.xk_explain_names.specs.Notes.{share_text, unknown_by, unknown_notes, var_text, word_at};

use crate::lent_clocks::lent_notes;
use std::alloc::{AllocError, Global};
use xk_explain::Note;
use xk_explain_kinds::{
    Declaration, Role, around_name, around_twice, behind, callee, count_repair, declarations,
    free_name, is_assigned, is_method, is_visible, kind_repair, method_named, push_text, val_of,
    visible,
};
use xk_explain_words::{begins, first_word, from_sign, is_near, is_same};
use xk_tree::{FrontFault, FrontRule, Method, Tree};

/// How many declarations are told at most.
const MOST: usize = 8;

/// Whether a rule is on names that are declared, or aren't.
fn is_on_names(rule: FrontRule) -> bool
    ensures { result ≡ is_on_names rule }
{
    match rule {
        FrontRule::DuplicateName | FrontRule::Recursive | FrontRule::SameClockTwice => true,
        FrontRule::Token
        | FrontRule::Syntax
        | FrontRule::TooDeep
        | FrontRule::TooLong
        | FrontRule::UnknownName
        | FrontRule::WrongKind
        | FrontRule::NotCaptured
        | FrontRule::Arity
        | FrontRule::NoMain
        | FrontRule::Literal
        | FrontRule::Table
        | FrontRule::NoHiddenClock => false,
    }
}

/// What a text goes on with from an offset.
fn from(text: &[u8], at: usize) -> &[u8]
    ensures { result.now ≡ drop at text.now }
{
    match text.get(at..) {
        Some(rest) => rest,
        None => b"",
    }
}

/// The name or number at an offset.
fn word_at(text: &[u8], at: usize) -> &[u8]
    ensures { result.now ≡ word_at text.now at }
{
    first_word(from(text, at))
}

/// Whether the same name is declared, elsewhere than at the offset.
fn is_namesake(name: &[u8], at: usize, d: &Declaration<'_>) -> bool
    ensures { result ≡ is_namesake name.now at (declared d.now) }
{
    is_same(d.name.text, name) && d.name.at != at
}

/// The declarations of a name elsewhere than at the offset.
fn namesakes<'t>(
    alloc: Global,
    name: &[u8],
    at: usize,
    all: &[Declaration<'t>],
) -> Result<Vec<Declaration<'t>>, AllocError>
    ensures { IfOk result (λ found. declared_here found.items
        ≡ namesakes name.now at (declared_here all.now)) }
{
    let mut found = Vec::new(alloc);
    for d in all {
        if is_namesake(name, at, d) {
            found.push(*d)?;
        }
    }
    Ok(found)
}

/// Adds how many parameters there are.
fn push_parameters(alloc: Global, out: &mut Vec<u8>, count: usize) -> Result<(), AllocError>
    ensures { OnOk result (out.new.items ≡ out.old.items ++ parameters_text count) }
{
    if count == 0 {
        return push_text(out, "no parameters");
    }
    if count == 1 {
        return push_text(out, "1 parameter");
    }
    push_text(out, format!(in alloc; "{count} parameters")?.as_str())
}

/// Adds as what a name is declared.
fn push_role(alloc: Global, out: &mut Vec<u8>, role: Role) -> Result<(), AllocError>
    ensures { OnOk result (out.new.items ≡ out.old.items ++ role_text role) }
{
    match role {
        Role::Shared => push_text(out, "a shared number"),
        Role::Method(count) => {
            push_text(out, "a method with ")?;
            push_parameters(alloc, out, count)
        }
        Role::NumberParam => push_text(out, "a parameter (a number)"),
        Role::ClockParam => push_text(out, "a parameter (a clock)"),
        Role::Val => push_text(out, "a `val`"),
        Role::Var => push_text(out, "a `var`"),
        Role::Clock => push_text(out, "a clock"),
        Role::Loop => push_text(out, "the number of a loop"),
    }
}

/// What is told of a declaration.
#[tactic(auto, unfolding(crate::specs::Notes::declared_text))]
fn declared_text(alloc: Global, d: &Declaration<'_>) -> Result<Vec<u8>, AllocError>
    ensures { IfOk result (λ v. v.items ≡ declared_text (declared d.now)) }
{
    let mut out = around_name(alloc, "`", d.name.text, "` is declared here, as ")?;
    push_role(alloc, &mut out, d.role)?;
    Ok(out)
}

/// A copy of a repair, if there is one.
fn copy_of(alloc: Global, repair: Option<&[u8]>) -> Result<Option<Vec<u8>>, AllocError>
    ensures { IfOk result (λ o. option_map (λ v. v.items) o
        ≡ option_map (λ r. r.now) repair.entry) }
{
    match repair {
        Some(repair) => Ok(Some(repair.to_vec(alloc)?)),
        None => Ok(None),
    }
}

/// Adds a note on a declaration, with the repair that is called for.
fn push_note(
    alloc: Global,
    notes: &mut Vec<Note>,
    repair: Option<&[u8]>,
    d: &Declaration<'_>,
) -> Result<(), AllocError>
    ensures { OnOk result (notes.new.items ≡ notes.old.items
        ++ note_of (option_map (λ r. r.now) repair.entry) (declared d.now) ∷ []) }
{
    let text = declared_text(alloc, d)?;
    let repair = copy_of(alloc, repair)?;
    notes.push(Note {
        at: Some(d.name.at),
        text,
        repair,
    })?;
    Ok(())
}

/// Adds a note on each of these declarations.
fn push_notes(
    alloc: Global,
    notes: &mut Vec<Note>,
    repair: Option<&[u8]>,
    ds: &[Declaration<'_>],
) -> Result<(), AllocError>
    ensures { OnOk result (notes.new.items ≡ notes.old.items
        ++ map (note_of (option_map (λ r. r.now) repair.entry)) (declared_here ds.now)) }
{
    for d in ds {
        push_note(alloc, notes, repair, d)?;
    }
    Ok(())
}

/// What is told of declarations that aren't told one by one.
#[tactic(auto, unfolding(crate::specs::Notes::further_text))]
fn further_text(alloc: Global, name: &[u8], count: usize) -> Result<Vec<u8>, AllocError>
    ensures { IfOk result (λ v. v.items ≡ further_text name.now count) }
{
    let mut out = around_name(alloc, "further declarations of `", name, "`: ")?;
    push_text(&mut out, format!(in alloc; "{count}")?.as_str())?;
    Ok(out)
}

/// Adds a note on those of so many declarations that aren't told one by one.
fn push_further(
    alloc: Global,
    notes: &mut Vec<Note>,
    name: &[u8],
    count: usize,
) -> Result<(), AllocError>
    ensures { OnOk result (notes.new.items
        ≡ notes.old.items ++ further_notes name.now count) }
{
    if count <= MOST {
        return Ok(());
    }
    let text = further_text(alloc, name, count - MOST)?;
    notes.push(Note {
        at: None,
        text,
        repair: None,
    })?;
    Ok(())
}

/// The notes on the declarations of a name, with the repair that is called for.
fn notes_on(
    alloc: Global,
    repair: Option<&[u8]>,
    name: &[u8],
    ds: &[Declaration<'_>],
) -> Result<Vec<Note>, AllocError>
    ensures { IfOk result (λ notes. notes.items
        ≡ notes_on (option_map (λ r. r.now) repair.entry) name.now (declared_here ds.now)) }
{
    let mut notes = Vec::new(alloc);
    push_notes(alloc, &mut notes, repair, &ds[..ds.len().min(MOST)])?;
    push_further(alloc, &mut notes, name, ds.len())?;
    Ok(notes)
}

/// Whether a name is called.
fn is_called(name: &[u8], rest: &[u8]) -> bool
    ensures { result ≡ is_called name.now rest.now }
{
    begins(from_sign(behind(name, rest)), b"(")
}

/// Whether a declaration may be meant by a name that is called, or isn't.
fn may_be(called: bool, at: usize, d: &Declaration<'_>) -> bool
    ensures { result ≡ may_be called at (declared d.now) }
{
    if called {
        is_method(d.role)
    } else {
        is_visible(at, d)
    }
}

/// The same by its spelling, too.
fn is_meant(called: bool, name: &[u8], at: usize, d: &Declaration<'_>) -> bool
    ensures { result ≡ is_meant called name.now at (declared d.now) }
{
    may_be(called, at, d) && is_near(name, d.name.text)
}

/// The last declaration that may be meant.
fn meant<'t>(
    called: bool,
    name: &[u8],
    at: usize,
    all: &[Declaration<'t>],
) -> Option<Declaration<'t>>
    ensures { option_map (λ d. declared d) result
        ≡ last_of (is_meant called name.now at) None (declared_here all.now) }
{
    let mut found = None;
    for d in all {
        if is_meant(called, name, at, d) {
            found = Some(*d);
        }
    }
    found
}

/// What is meant.
#[tactic(auto, unfolding(crate::specs::Notes::meant_text))]
fn meant_text(alloc: Global, name: &[u8]) -> Result<Vec<u8>, AllocError>
    ensures { IfOk result (λ v. v.items ≡ meant_text name.now) }
{
    around_name(alloc, "perhaps `", name, "` is meant")
}

/// What is declared nowhere.
#[tactic(auto, unfolding(crate::specs::Notes::nowhere_text))]
fn nowhere_text(alloc: Global, name: &[u8]) -> Result<Vec<u8>, AllocError>
    ensures { IfOk result (λ v. v.items ≡ nowhere_text name.now) }
{
    around_name(alloc, "nothing is declared as `", name, "`")
}

/// A method that is to be written.
#[tactic(auto, unfolding(crate::specs::Notes::new_method_text))]
fn new_method_text(alloc: Global, name: &[u8]) -> Result<Vec<u8>, AllocError>
    ensures { IfOk result (λ v. v.items ≡ new_method_text name.now) }
{
    around_name(
        alloc,
        "write a method `def ",
        name,
        "() { .. }`, with as many parameters as it is given, or look for another spelling",
    )
}

/// A number that is to be declared.
#[tactic(auto, unfolding(crate::specs::Notes::new_number_text))]
fn new_number_text(alloc: Global, name: &[u8]) -> Result<Vec<u8>, AllocError>
    ensures { IfOk result (λ v. v.items ≡ new_number_text name.now) }
{
    around_twice(
        alloc,
        "declare it before, by `var ",
        name,
        " = 0;`, or where an `async` writes it by `shared ",
        " = 0;` in front of the methods",
    )
}

/// The repair where nothing is declared by a name.
fn new_text(alloc: Global, called: bool, name: &[u8]) -> Result<Vec<u8>, AllocError>
    ensures { IfOk result (λ v. v.items ≡ new_text called name.now) }
{
    if called {
        new_method_text(alloc, name)
    } else {
        new_number_text(alloc, name)
    }
}

/// The note where nothing is declared by a name, and no near one may be meant.
fn nowhere_note(alloc: Global, called: bool, name: &[u8]) -> Result<Note, AllocError>
    ensures { IfOk result (λ n. n ≡ nowhere_note called name.now) }
{
    let text = nowhere_text(alloc, name)?;
    let repair = new_text(alloc, called, name)?;
    Ok(Note {
        at: None,
        text,
        repair: Some(repair),
    })
}

/// The note on what is meant.
fn meant_notes(
    alloc: Global,
    called: bool,
    name: &[u8],
    d: Option<Declaration<'_>>,
) -> Result<Vec<Note>, AllocError>
    ensures { IfOk result (λ notes. notes.items
        ≡ meant_notes called name.now (option_map (λ d. declared d) d.entry)) }
{
    let mut notes = Vec::new(alloc);
    match d {
        Some(d) => {
            let repair = meant_text(alloc, d.name.text)?;
            push_note(alloc, &mut notes, Some(repair.as_slice()), &d)?;
        }
        None => notes.push(nowhere_note(alloc, called, name)?)?,
    }
    Ok(notes)
}

/// The number of a loop, elsewhere.
#[tactic(auto, unfolding(crate::specs::Notes::loop_alone_text))]
fn loop_alone_text(alloc: Global, name: &[u8]) -> Result<Vec<u8>, AllocError>
    ensures { IfOk result (λ v. v.items ≡ loop_alone_text name.now) }
{
    around_name(
        alloc,
        "`",
        name,
        "` is seen in its loop alone: use it there, or keep it in a `var` that is declared in front of the loop",
    )
}

/// A number that is a parameter of another method.
#[tactic(auto, unfolding(crate::specs::Notes::other_param_text))]
fn other_param_text(alloc: Global, name: &[u8]) -> Result<Vec<u8>, AllocError>
    ensures { IfOk result (λ v. v.items ≡ other_param_text name.now) }
{
    around_name(
        alloc,
        "`",
        name,
        "` is a parameter of another method: take it as one here, too",
    )
}

/// A clock that is one.
#[tactic(auto, unfolding(crate::specs::Notes::other_clock_text))]
fn other_clock_text(alloc: Global, name: &[u8]) -> Result<Vec<u8>, AllocError>
    ensures { IfOk result (λ v. v.items ≡ other_clock_text name.now) }
{
    around_twice(
        alloc,
        "`",
        name,
        "` is a parameter of another method: make a clock here by `val ",
        " = Clock.make();`, in the innermost `finish`, and drop it before that ends",
    )
}

/// What is declared in another block, or further on.
#[tactic(auto, unfolding(crate::specs::Notes::block_text))]
fn block_text(alloc: Global, name: &[u8]) -> Result<Vec<u8>, AllocError>
    ensures { IfOk result (λ v. v.items ≡ block_text name.now) }
{
    around_name(
        alloc,
        "`",
        name,
        "` isn't seen outside of its block, nor before it is declared: declare it further out, and where an `async` writes it as a shared number",
    )
}

/// A clock of another block, or of a method that calls this one.
#[tactic(auto, unfolding(crate::specs::Notes::clock_block_text))]
fn clock_block_text(alloc: Global, name: &[u8]) -> Result<Vec<u8>, AllocError>
    ensures { IfOk result (λ v. v.items ≡ clock_block_text name.now) }
{
    around_twice(
        alloc,
        "`",
        name,
        "` is a clock, and isn't seen here: declare it further out, or in a method take it as a parameter, `",
        ": Clock`",
    )
}

/// A method that isn't called.
#[tactic(auto, unfolding(crate::specs::Notes::method_alone_text))]
fn method_alone_text(alloc: Global, name: &[u8]) -> Result<Vec<u8>, AllocError>
    ensures { IfOk result (λ v. v.items ≡ method_alone_text name.now) }
{
    around_twice(
        alloc,
        "`",
        name,
        "` is a method, which gives nothing back: call it by `",
        "();`, and read the shared number that it writes",
    )
}

/// A name that is called, and is no method's.
#[tactic(auto, unfolding(crate::specs::Notes::uncalled_text))]
fn uncalled_text(alloc: Global, name: &[u8]) -> Result<Vec<u8>, AllocError>
    ensures { IfOk result (λ v. v.items ≡ uncalled_text name.now) }
{
    around_name(
        alloc,
        "`",
        name,
        "` is no method: take its parentheses away, or call a method of another name",
    )
}

/// The repair where a name is declared so, and isn't visible.
fn unseen_text(alloc: Global, name: &[u8], role: Role) -> Result<Option<Vec<u8>>, AllocError>
    ensures { IfOk result
        (λ o. option_map (λ v. v.items) o ≡ unseen_text name.now role) }
{
    match role {
        Role::Loop => Ok(Some(loop_alone_text(alloc, name)?)),
        Role::NumberParam => Ok(Some(other_param_text(alloc, name)?)),
        Role::ClockParam => Ok(Some(other_clock_text(alloc, name)?)),
        Role::Val => Ok(Some(block_text(alloc, name)?)),
        Role::Var => Ok(Some(block_text(alloc, name)?)),
        Role::Clock => Ok(Some(clock_block_text(alloc, name)?)),
        Role::Shared => Ok(None),
        Role::Method(_) => Ok(Some(method_alone_text(alloc, name)?)),
    }
}

/// The same where it is called, or isn't.
fn unseen_as(
    alloc: Global,
    called: bool,
    name: &[u8],
    role: Role,
) -> Result<Option<Vec<u8>>, AllocError>
    ensures { IfOk result
        (λ o. option_map (λ v. v.items) o ≡ unseen_as called name.now role) }
{
    if called {
        return Ok(Some(uncalled_text(alloc, name)?));
    }
    unseen_text(alloc, name, role)
}

/// Beside a name that isn't visible, of which these are declared elsewhere.
fn unknown_by(
    alloc: Global,
    name: &[u8],
    rest: &[u8],
    at: usize,
    same: &[Declaration<'_>],
    all: &[Declaration<'_>],
) -> Result<Vec<Note>, AllocError>
    ensures { IfOk result (λ notes. notes.items
        ≡ unknown_by name.now rest.now at (declared_here same.now) (declared_here all.now)) }
{
    match same {
        [] => {
            let called = is_called(name, rest);
            meant_notes(alloc, called, name, meant(called, name, at, all))
        }
        [first, ..] => {
            let called = is_called(name, rest);
            let repair = unseen_as(alloc, called, first.name.text, first.role)?;
            repair_notes(alloc, repair, name, same)
        }
    }
}

/// Beside a name that isn't visible.
fn unknown_notes(
    alloc: Global,
    name: &[u8],
    rest: &[u8],
    at: usize,
    all: &[Declaration<'_>],
) -> Result<Vec<Note>, AllocError>
    ensures { IfOk result (λ notes. notes.items
        ≡ unknown_notes name.now rest.now at (declared_here all.now)) }
{
    let same = namesakes(alloc, name, at, all)?;
    unknown_by(alloc, name, rest, at, &same, all)
}

/// The notes on the declarations of a name, with this repair, if there is one.
fn repair_notes(
    alloc: Global,
    repair: Option<Vec<u8>>,
    name: &[u8],
    ds: &[Declaration<'_>],
) -> Result<Vec<Note>, AllocError>
    ensures { IfOk result (λ notes. notes.items
        ≡ notes_on (option_map (λ v. v.items) repair) name.now (declared_here ds.now)) }
{
    match repair {
        Some(repair) => notes_on(alloc, Some(repair.as_slice()), name, ds),
        None => notes_on(alloc, None, name, ds),
    }
}

/// What stands before an offset.
fn before(text: &[u8], at: usize) -> &[u8]
    ensures { result.now ≡ take at text.now }
{
    &text[..text.len().min(at)]
}

/// The repair of a name that is used as what it isn't.
fn repair_of_kind(
    alloc: Global,
    name: &[u8],
    text: &[u8],
    at: usize,
    methods: &[Method<'_>],
    all: &[Declaration<'_>],
) -> Result<Option<Vec<u8>>, AllocError>
    ensures { IfOk result (λ o. option_map (λ v. v.items) o
        ≡ repair_of_kind name.now text.now at (map method_value methods.now)
        (declared_here all.now)) }
{
    let before = before(text, at);
    let method = callee(before, methods);
    let seen = visible(name, at, all);
    let new = free_name(all);
    kind_repair(alloc, name, before, from(text, at), method, new, seen)
}

/// Beside a name that is used as what it isn't.
#[tactic(auto, unfolding(crate::specs::Notes::kind_notes))]
fn kind_notes(
    alloc: Global,
    name: &[u8],
    text: &[u8],
    at: usize,
    methods: &[Method<'_>],
    all: &[Declaration<'_>],
) -> Result<Vec<Note>, AllocError>
    ensures { IfOk result (λ notes. notes.items ≡ kind_notes name.now text.now at
        (map method_value methods.now) (declared_here all.now)) }
{
    let same = namesakes(alloc, name, at, all)?;
    let repair = repair_of_kind(alloc, name, text, at, methods, all)?;
    repair_notes(alloc, repair, name, &same)
}

/// A clock that is handed on.
#[tactic(auto, unfolding(crate::specs::Notes::hand_on_text))]
fn hand_on_text(alloc: Global, name: &[u8]) -> Result<Vec<u8>, AllocError>
    ensures { IfOk result (λ v. v.items ≡ hand_on_text name.now) }
{
    around_twice(alloc, "hand `", name, "` on: write `async clocked (", ")`")
}

/// A `var` that an `async` writes.
#[tactic(auto, unfolding(crate::specs::Notes::share_text))]
fn share_text(alloc: Global, name: &[u8]) -> Result<Vec<u8>, AllocError>
    ensures { IfOk result (λ v. v.items ≡ share_text name.now) }
{
    around_twice(
        alloc,
        "an `async` doesn't write `",
        name,
        "`, which is a `var`: declare it as `shared ",
        " = 0;` in front of the methods",
    )
}

/// A `var` that it reads, by a `val` of this name.
#[tactic(auto, unfolding(crate::specs::Notes::keep_in_text))]
fn keep_in_text(alloc: Global, name: &[u8], new: &[u8]) -> Result<Vec<u8>, AllocError>
    ensures { IfOk result (λ v. v.items ≡ keep_in_text name.now new.now) }
{
    let kept = val_of(alloc, new, name)?;
    let unseen = around_name(
        alloc,
        " before the `async`: a `var` as `",
        name,
        "` isn't seen in it",
    )?;
    let mut out = Vec::new(alloc);
    push_text(&mut out, "take a ")?;
    out.extend_from_slice(&kept)?;
    out.extend_from_slice(&unseen)?;
    Ok(out)
}

/// The same by one of a name that is to be found.
#[tactic(auto, unfolding(crate::specs::Notes::keep_apart_text))]
fn keep_apart_text(alloc: Global, name: &[u8]) -> Result<Vec<u8>, AllocError>
    ensures { IfOk result (λ v. v.items ≡ keep_apart_text name.now) }
{
    around_name(
        alloc,
        "keep `",
        name,
        "` in a `val` of another name before the `async`: a `var` isn't seen in it",
    )
}

/// A `var` that it reads, where this name is free.
fn keep_text(alloc: Global, name: &[u8], new: Option<&[u8]>) -> Result<Vec<u8>, AllocError>
    ensures { IfOk result
        (λ v. v.items ≡ keep_text name.now (option_map (λ n. n.now) new.entry)) }
{
    match new {
        Some(new) => keep_in_text(alloc, name, new),
        None => keep_apart_text(alloc, name),
    }
}

/// A `var`.
fn var_text(
    alloc: Global,
    name: &[u8],
    rest: &[u8],
    new: Option<&[u8]>,
) -> Result<Vec<u8>, AllocError>
    ensures { IfOk result (λ v. v.items
        ≡ var_text name.now rest.now (option_map (λ n. n.now) new.entry)) }
{
    if is_assigned(name, rest) {
        return share_text(alloc, name);
    }
    keep_text(alloc, name, new)
}

/// The repair of a name that is declared so, and that an `async` doesn't see.
fn captured_by(
    alloc: Global,
    name: &[u8],
    rest: &[u8],
    new: Option<&[u8]>,
    role: Role,
) -> Result<Option<Vec<u8>>, AllocError>
    ensures { IfOk result (λ o. option_map (λ v. v.items) o
        ≡ captured_by name.now rest.now (option_map (λ n. n.now) new.entry) role) }
{
    match role {
        Role::Clock => Ok(Some(hand_on_text(alloc, name)?)),
        Role::ClockParam => Ok(Some(hand_on_text(alloc, name)?)),
        Role::Var => Ok(Some(var_text(alloc, name, rest, new)?)),
        Role::Shared => Ok(None),
        Role::Method(_) => Ok(None),
        Role::NumberParam => Ok(None),
        Role::Val => Ok(None),
        Role::Loop => Ok(None),
    }
}

/// The same, if the name is declared.
fn capture_repair(
    alloc: Global,
    name: &[u8],
    rest: &[u8],
    new: Option<&[u8]>,
    d: Option<Declaration<'_>>,
) -> Result<Option<Vec<u8>>, AllocError>
    ensures { IfOk result (λ o. option_map (λ v. v.items) o
        ≡ capture_repair name.now rest.now (option_map (λ n. n.now) new.entry)
        (option_map (λ d. declared d) d.entry)) }
{
    match d {
        Some(d) => captured_by(alloc, name, rest, new, d.role),
        None => Ok(None),
    }
}

/// Beside a name that an `async` doesn't see.
#[tactic(auto, unfolding(crate::specs::Notes::capture_notes))]
fn capture_notes(
    alloc: Global,
    name: &[u8],
    rest: &[u8],
    at: usize,
    all: &[Declaration<'_>],
) -> Result<Vec<Note>, AllocError>
    ensures { IfOk result (λ notes. notes.items
        ≡ capture_notes name.now rest.now at (declared_here all.now)) }
{
    let same = namesakes(alloc, name, at, all)?;
    let new = free_name(all);
    let repair = capture_repair(alloc, name, rest, new, visible(name, at, all))?;
    repair_notes(alloc, repair, name, &same)
}

/// Beside a call with more or fewer arguments.
#[tactic(auto, unfolding(crate::specs::Notes::count_notes))]
fn count_notes(
    alloc: Global,
    name: &[u8],
    at: usize,
    methods: &[Method<'_>],
    all: &[Declaration<'_>],
) -> Result<Vec<Note>, AllocError>
    ensures { IfOk result (λ notes. notes.items ≡ count_notes name.now at
        (map method_value methods.now) (declared_here all.now)) }
{
    let same = namesakes(alloc, name, at, all)?;
    let repair = count_repair(alloc, method_named(name, methods))?;
    repair_notes(alloc, repair, name, &same)
}

/// Beside any other fault of a name.
fn named_notes(
    alloc: Global,
    rule: FrontRule,
    name: &[u8],
    at: usize,
    all: &[Declaration<'_>],
) -> Result<Vec<Note>, AllocError>
    ensures { IfOk result (λ notes. notes.items
        ≡ named_notes rule name.now at (declared_here all.now)) }
{
    if !is_on_names(rule) {
        return Ok(Vec::new(alloc));
    }
    let same = namesakes(alloc, name, at, all)?;
    notes_on(alloc, None, name, &same)
}

/// What is told beside a fault of a tree that was read from this text: where else the name that stands there is declared, the first eight
/// places one by one, and the repair that this calls for. Faults that aren't on names have no notes. Err where memory was refused.
pub fn front_notes(
    alloc: Global,
    tree: &Tree<'_>,
    text: &[u8],
    fault: FrontFault,
) -> Result<Vec<Note>, AllocError>
    ensures { IfOk result (λ notes. notes.items
        ≡ front_notes (tree_value tree.now) text.now fault) }
{
    let (rule, at) = (fault.rule, fault.at);
    let name = word_at(text, at);
    let all = declarations(alloc, tree)?;
    match rule {
        FrontRule::UnknownName => unknown_notes(alloc, name, from(text, at), at, &all),
        FrontRule::WrongKind => kind_notes(alloc, name, text, at, &tree.methods, &all),
        FrontRule::NotCaptured => capture_notes(alloc, name, from(text, at), at, &all),
        FrontRule::Arity => count_notes(alloc, name, at, &tree.methods, &all),
        FrontRule::NoHiddenClock => lent_notes(alloc, tree, text, at),
        FrontRule::Token
        | FrontRule::Syntax
        | FrontRule::TooDeep
        | FrontRule::TooLong
        | FrontRule::DuplicateName
        | FrontRule::NoMain
        | FrontRule::Recursive
        | FrontRule::SameClockTwice
        | FrontRule::Literal
        | FrontRule::Table => named_notes(alloc, rule, name, at, &all),
    }
}
