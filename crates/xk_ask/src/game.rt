//! A run whose steps are asked for.

ghost use Rattle.std.specs.Prelude.{◌≡◌, ◌<◌, ◌⊎◌, ◌++◌, [], false, true, drop, map, IfErr, IfNone, IfOk, IfSome, OnErr, OnOk};
ghost use Rattle.std.specs.Io.KnownBytes.{Appends};
ghost use Rattle.xk_types.specs.Device.{Rose};
ghost use Rattle.xk_types.specs.World.{AreArguments};
ghost use Rattle.xk_types.specs.Logs.{one_step_of};
ghost use Rattle.xk_types.specs.Schedule.{all_ended};
ghost use Rattle.xk_io.specs.Writing.{AppendsBeginning};
ghost use Rattle.xk_ask.specs.Answers.{answers, most_bytes};
ghost use Rattle.xk_ask.specs.ProgramTexts.{known_text, no_source};
ghost use Rattle.xk_ask.specs.Play.{IsPlayed, behind, end_words, picked, played, played_log, question, said, taken, told_text};
ghost use Rattle.xk_ask.specs.Play.{unread, unread_from};
ghost use Rattle.xk_ask.specs.Asking.{BeginsByAnswers, BeginsSome, FailsToAsk, FailsToWrite, FollowsSome, IsByAnswers, Leaves, TakesAnswer, TakesLine};
ghost use Rattle.xk_ask.specs.Asking.{said_from, said_on, to_come};

use crate::answers::next_answer;
use crate::fault::AskFault;
use crate::program_text::ProgramText;
use crate::question::{again_line, end_line, question};
use crate::turn::{picked, take_turn};
use std::alloc::Global;
use xk_bounds::Verified;
use xk_core::Core;
use xk_io::{Device, write_all};
use xk_scheduler::Logged;
use xk_types::{Entry, Sink, Source};
use xk_unit_origins::UnitOrigins;

/// What was played.
#[derive(Debug, Drop)]
pub struct Played {
    /// The numbers that were printed, in order.
    pub printed: Vec<i64>,
    /// How many steps were taken.
    pub steps: u64,
    /// Who took a step after whom.
    pub log: Vec<Entry>,
    /// Whether all have ended.
    pub whole: bool,
}

/// Tells how things are, and asks who steps.
fn ask<E: Sink>(
    alloc: Global,
    text: &ProgramText<'_>,
    game: &Logged<'_>,
    err: &mut E,
) -> Result<(), AskFault>
    ensures asked { OnOk result (Appends (E.contents err.old) (E.contents err.new)
        (question text.now game.now.driver.module_run game.now.driver.world game.now.log.items)) }
    ensures begins { AppendsBeginning (E.contents err.old) (E.contents err.new)
        (question text.now game.now.driver.module_run game.now.driver.world game.now.log.items) }
    ensures no_fault { OnOk result (E.fault_count err.new ≡ E.fault_count err.old) }
    ensures failed { IfErr result
        (FailsToWrite (E.fault_count err.old) (E.fault_count err.new)) }
{
    let asked = question(alloc, text, game.driver.core(), &game.printed)?;
    write_all(err, &asked)?;
    Ok(())
}

/// Takes the steps that an answer asks for, and puts the next question; or says that it names nobody who can step.
fn follow<E: Sink>(
    alloc: Global,
    text: &ProgramText<'_>,
    game: &mut Logged<'_>,
    answer: Option<u32>,
    err: &mut E,
) -> Result<(), AskFault>
    ensures same_module { game.new.driver.module_run ≡ game.old.driver.module_run }
    ensures led { let o = picked game.old.driver.module_run game.old.driver.world answer in
        OnOk result (game.new.driver.world
        ≡ behind game.old.driver.module_run game.old.driver.world o) }
    ensures logged { let o = picked game.old.driver.module_run game.old.driver.world answer in
        OnOk result (game.new.log.items ≡ game.old.log.items
        ++ map one_step_of (taken game.old.driver.module_run game.old.driver.world o)) }
    ensures arguments { OnOk result
        (game.new.driver.world.arguments ≡ game.old.driver.world.arguments) }
    ensures told { let o = picked game.old.driver.module_run game.old.driver.world answer in
        OnOk result (Appends (E.contents err.old) (E.contents err.new)
        (said text.now game.old.driver.module_run game.old.driver.world game.old.log.items o)) }
    ensures begins { let o = picked game.old.driver.module_run game.old.driver.world answer in
        AppendsBeginning (E.contents err.old) (E.contents err.new)
        (said text.now game.old.driver.module_run game.old.driver.world game.old.log.items o) }
    ensures no_fault { OnOk result (E.fault_count err.new ≡ E.fault_count err.old) }
    ensures failed { IfErr result
        (FailsToWrite (E.fault_count err.old) (E.fault_count err.new)) }
{
    match picked(game.driver.core(), answer) {
        None => {
            write_all(err, again_line().as_bytes())?;
            Ok(())
        }
        Some(act) => {
            take_turn(game, act)?;
            ask(alloc, text, game, err)
        }
    }
}

/// The next answer, if one is wanted, and comes.
fn awaited<R: Source>(
    core: &Core<'_>,
    input: &mut R,
    left: &mut u64,
) -> Result<Option<Option<u32>>, Device>
    ensures some { IfOk result (λ o. IfSome o (λ x.
        TakesAnswer x (to_come left.old (R.remaining input.old))
        (to_come left.new (R.remaining input.new)))) }
    ensures fewer { IfOk result (λ o. IfSome o (λ _. left.new < left.old)) }
    ensures line { IfOk result (λ o. IfSome o (λ _. TakesLine
        left.old (R.remaining input.old) left.new (R.remaining input.new))) }
    ensures goes_on { IfOk result (λ o. IfSome o (λ _. all_ended core.now.world ≡ false)) }
    ensures none { IfOk result (λ o. IfNone o ((all_ended core.now.world ≡ true)
        ⊎ IfSome (to_come left.old (R.remaining input.old)) (λ text. answers text ≡ []))) }
    ensures unread { all_ended core.now.world ≡ true → input.new ≡ input.old }
    ensures rest { IfOk result (λ o. IfNone o (all_ended core.now.world ≡ false
        → Leaves (drop left.old) (R.remaining input.old) (R.remaining input.new))) }
    ensures no_fault { OnOk result (R.fault_count input.new ≡ R.fault_count input.old) }
    ensures failed { OnErr result (Rose (R.fault_count input.old) (R.fault_count input.new)) }
{
    if core.ended() {
        return Ok(None);
    }
    next_answer(input, left)
}

/// Says that no answer comes, where one is wanted.
fn say_end<E: Sink>(core: &Core<'_>, err: &mut E) -> Result<(), Device>
    ensures told { OnOk result (Appends (E.contents err.old) (E.contents err.new)
        (end_words core.now.world)) }
    ensures begins { AppendsBeginning (E.contents err.old) (E.contents err.new)
        (end_words core.now.world) }
    ensures no_fault { OnOk result (E.fault_count err.new ≡ E.fault_count err.old) }
    ensures failed { OnErr result (Rose (E.fault_count err.old) (E.fault_count err.new)) }
{
    if !core.ended() {
        return write_all(err, end_line().as_bytes());
    }
    Ok(())
}

/// Plays on behind a question, to the end of the run or of the input.
fn play_on<R: Source, E: Sink>(
    alloc: Global,
    text: &ProgramText<'_>,
    game: &mut Logged<'_>,
    input: &mut R,
    err: &mut E,
) -> Result<(), AskFault>
    ensures same_module { game.new.driver.module_run ≡ game.old.driver.module_run }
    ensures arguments { OnOk result
        (game.new.driver.world.arguments ≡ game.old.driver.world.arguments) }
    ensures played { OnOk result (IfSome (to_come most_bytes (R.remaining input.old)) (λ bytes.
        game.new.log.items ≡ game.old.log.items ++ map one_step_of
        (played game.old.driver.module_run (answers bytes) game.old.driver.world))) }
    ensures told { OnOk result (IfSome (to_come most_bytes (R.remaining input.old)) (λ bytes.
        Appends (E.contents err.old) (E.contents err.new)
        (said_on text.now game.old.driver game.old.log.items (answers bytes)))) }
    ensures begins { IfSome (to_come most_bytes (R.remaining input.old)) (λ bytes.
        AppendsBeginning (E.contents err.old) (E.contents err.new)
        (said_on text.now game.old.driver game.old.log.items (answers bytes))) }
    ensures by_some { OnOk result (FollowsSome game.old.driver.module_run game.old.driver.world
        game.old.log.items game.new.log.items (said_on text.now game.old.driver game.old.log.items)
        (E.contents err.old) (E.contents err.new)) }
    ensures begins_some { BeginsSome (said_on text.now game.old.driver game.old.log.items)
        (E.contents err.old) (E.contents err.new) }
    ensures unread { OnOk result (Leaves (unread_from game.old.driver.module_run
        game.old.driver.world (all_ended game.new.driver.world))
        (R.remaining input.old) (R.remaining input.new)) }
    ensures no_fault { OnOk result ((R.fault_count input.new ≡ R.fault_count input.old)
        × (E.fault_count err.new ≡ E.fault_count err.old)) }
    ensures failed { IfErr result (FailsToAsk (R.fault_count input.old) (R.fault_count input.new)
        (E.fault_count err.old) (E.fault_count err.new)) }
{
    let mut left = u64::MAX;
    while let Some(answer) = awaited(game.driver.core(), input, &mut left)? {
        follow(alloc, text, game, answer, err)?;
    }
    say_end(game.driver.core(), err)?;
    Ok(())
}

/// Plays a run from where it stands.
fn play<R: Source, E: Sink>(
    alloc: Global,
    text: &ProgramText<'_>,
    game: &mut Logged<'_>,
    input: &mut R,
    err: &mut E,
) -> Result<(), AskFault>
    ensures same_module { game.new.driver.module_run ≡ game.old.driver.module_run }
    ensures arguments { OnOk result
        (game.new.driver.world.arguments ≡ game.old.driver.world.arguments) }
    ensures played { OnOk result (IfSome (to_come most_bytes (R.remaining input.old)) (λ bytes.
        game.new.log.items ≡ game.old.log.items ++ map one_step_of
        (played game.old.driver.module_run (answers bytes) game.old.driver.world))) }
    ensures told { OnOk result (IfSome (to_come most_bytes (R.remaining input.old)) (λ bytes.
        Appends (E.contents err.old) (E.contents err.new)
        (said_from text.now game.old.driver game.old.log.items (answers bytes)))) }
    ensures begins { IfSome (to_come most_bytes (R.remaining input.old)) (λ bytes.
        AppendsBeginning (E.contents err.old) (E.contents err.new)
        (said_from text.now game.old.driver game.old.log.items (answers bytes))) }
    ensures by_some { OnOk result (FollowsSome game.old.driver.module_run game.old.driver.world
        game.old.log.items game.new.log.items
        (said_from text.now game.old.driver game.old.log.items)
        (E.contents err.old) (E.contents err.new)) }
    ensures begins_some { BeginsSome (said_from text.now game.old.driver game.old.log.items)
        (E.contents err.old) (E.contents err.new) }
    ensures unread { OnOk result (Leaves (unread_from game.old.driver.module_run
        game.old.driver.world (all_ended game.new.driver.world))
        (R.remaining input.old) (R.remaining input.new)) }
    ensures no_fault { OnOk result ((R.fault_count input.new ≡ R.fault_count input.old)
        × (E.fault_count err.new ≡ E.fault_count err.old)) }
    ensures failed { IfErr result (FailsToAsk (R.fault_count input.old) (R.fault_count input.new)
        (E.fault_count err.old) (E.fault_count err.new)) }
{
    ask(alloc, text, game, err)?;
    play_on(alloc, text, game, input, err)
}

/// What is kept of a run.
fn closed(game: Logged<'_>) -> Played
    ensures played { IsPlayed game.entry.driver.module_run game.entry.driver.world.arguments
        result.log.items result.printed.items result.steps result.whole }
    ensures log { result.log.items ≡ game.entry.log.items }
    ensures whole { result.whole ≡ all_ended game.entry.driver.world }
{
    let whole = game.driver.over();
    let core = game.driver.into_core();
    Played {
        printed: game.printed,
        steps: core.steps_done(),
        log: game.log,
        whole,
    }
}

/// Plays a run of the module.
fn play_whole<R: Source, E: Sink>(
    alloc: Global,
    text: &ProgramText<'_>,
    verified: &Verified,
    arguments: &[i64],
    input: &mut R,
    err: &mut E,
) -> Result<Played, AskFault>
    requires { AreArguments verified.now arguments.now }
    ensures legal { IfOk result (λ r. IsPlayed verified.now arguments.now
        r.log.items r.printed.items r.steps r.whole) }
    ensures played { IfOk result (λ r. IfSome (R.remaining input.old) (λ bytes.
        r.log.items ≡ played_log verified.now arguments.now bytes)) }
    ensures told { OnOk result (IfSome (R.remaining input.old) (λ bytes.
        Appends (E.contents err.old) (E.contents err.new)
        (told_text text.now verified.now arguments.now bytes))) }
    ensures begins { IfSome (R.remaining input.old) (λ bytes.
        AppendsBeginning (E.contents err.old) (E.contents err.new)
        (told_text text.now verified.now arguments.now bytes)) }
    ensures by_answers { IfOk result (λ r. IsByAnswers text.now
        verified.now arguments.now (R.remaining input.old) r.log.items
        (E.contents err.old) (E.contents err.new)) }
    ensures begins_by { BeginsByAnswers text.now verified.now arguments.now
        (R.remaining input.old) (E.contents err.old) (E.contents err.new) }
    ensures unread { IfOk result (λ r. Leaves (unread verified.now arguments.now r.whole)
        (R.remaining input.old) (R.remaining input.new)) }
    ensures no_fault { OnOk result ((R.fault_count input.new ≡ R.fault_count input.old)
        × (E.fault_count err.new ≡ E.fault_count err.old)) }
    ensures failed { IfErr result (FailsToAsk (R.fault_count input.old) (R.fault_count input.new)
        (E.fault_count err.old) (E.fault_count err.new)) }
{
    let core = Core::open(alloc, verified, arguments)?;
    let Ok(mut game) = Logged::open(alloc, core) else {
        return Err(AskFault::OutOfMemory);
    };
    match play(alloc, text, &mut game, input, err) {
        Ok(()) => Ok(closed(game)),
        Err(fault) => Err(fault),
    }
}

/// Runs a source text's module, main being given as many numbers as it takes, and asks who takes the next steps: at each point at which somebody can step
/// it is told on `err` how things are, as `where` tells it by names, which numbers were printed, who can step, and before which line of the text; and a line
/// of the input names one of them. Who is named takes steps up to one that others see, and that one, as far as it can take them. So it goes on to the end of
/// the run, or of the input, which is told. A question is written before its answer is read, and, where neither memory nor a device fails, no byte behind the
/// last answer is. Where no origin says the line, a place is told as of a module. Where a device failed or memory was refused, a beginning of what is said
/// was written.
pub fn source_ask<R: Source, E: Sink>(
    alloc: Global,
    text: &[u8],
    origins: &[UnitOrigins<'_>],
    shared: &[&[u8]],
    verified: &Verified,
    arguments: &[i64],
    input: &mut R,
    err: &mut E,
) -> Result<Played, AskFault>
    requires { AreArguments verified.now arguments.now }
    ensures legal { IfOk result (λ r. IsPlayed verified.now arguments.now
        r.log.items r.printed.items r.steps r.whole) }
    ensures played { IfOk result (λ r. IfSome (R.remaining input.old) (λ bytes.
        r.log.items ≡ played_log verified.now arguments.now bytes)) }
    ensures told { let t = known_text text.now origins.now (map (λ x. x.now) shared.now) in
        OnOk result (IfSome (R.remaining input.old) (λ bytes.
        Appends (E.contents err.old) (E.contents err.new)
        (told_text t verified.now arguments.now bytes))) }
    ensures begins { let t = known_text text.now origins.now (map (λ x. x.now) shared.now) in
        IfSome (R.remaining input.old) (λ bytes.
        AppendsBeginning (E.contents err.old) (E.contents err.new)
        (told_text t verified.now arguments.now bytes)) }
    ensures by_answers { let t = known_text text.now origins.now (map (λ x. x.now) shared.now) in
        IfOk result (λ r. IsByAnswers t
        verified.now arguments.now (R.remaining input.old) r.log.items
        (E.contents err.old) (E.contents err.new)) }
    ensures begins_by { let t = known_text text.now origins.now (map (λ x. x.now) shared.now) in
        BeginsByAnswers t verified.now arguments.now
        (R.remaining input.old) (E.contents err.old) (E.contents err.new) }
    ensures unread { IfOk result (λ r. Leaves (unread verified.now arguments.now r.whole)
        (R.remaining input.old) (R.remaining input.new)) }
    ensures no_fault { OnOk result ((R.fault_count input.new ≡ R.fault_count input.old)
        × (E.fault_count err.new ≡ E.fault_count err.old)) }
    ensures failed { IfErr result (FailsToAsk (R.fault_count input.old) (R.fault_count input.new)
        (E.fault_count err.old) (E.fault_count err.new)) }
{
    let known = ProgramText::of_source(alloc, text, origins, shared)?;
    play_whole(alloc, &known, verified, arguments, input, err)
}

/// The same of a module without a text, by numbers, and with units and places of instructions.
pub fn module_ask<R: Source, E: Sink>(
    alloc: Global,
    verified: &Verified,
    arguments: &[i64],
    input: &mut R,
    err: &mut E,
) -> Result<Played, AskFault>
    requires { AreArguments verified.now arguments.now }
    ensures legal { IfOk result (λ r. IsPlayed verified.now arguments.now
        r.log.items r.printed.items r.steps r.whole) }
    ensures played { IfOk result (λ r. IfSome (R.remaining input.old) (λ bytes.
        r.log.items ≡ played_log verified.now arguments.now bytes)) }
    ensures told { OnOk result (IfSome (R.remaining input.old) (λ bytes.
        Appends (E.contents err.old) (E.contents err.new)
        (told_text no_source verified.now arguments.now bytes))) }
    ensures begins { IfSome (R.remaining input.old) (λ bytes.
        AppendsBeginning (E.contents err.old) (E.contents err.new)
        (told_text no_source verified.now arguments.now bytes)) }
    ensures by_answers { IfOk result (λ r. IsByAnswers no_source
        verified.now arguments.now (R.remaining input.old) r.log.items
        (E.contents err.old) (E.contents err.new)) }
    ensures begins_by { BeginsByAnswers no_source verified.now arguments.now
        (R.remaining input.old) (E.contents err.old) (E.contents err.new) }
    ensures unread { IfOk result (λ r. Leaves (unread verified.now arguments.now r.whole)
        (R.remaining input.old) (R.remaining input.new)) }
    ensures no_fault { OnOk result ((R.fault_count input.new ≡ R.fault_count input.old)
        × (E.fault_count err.new ≡ E.fault_count err.old)) }
    ensures failed { IfErr result (FailsToAsk (R.fault_count input.old) (R.fault_count input.new)
        (E.fault_count err.old) (E.fault_count err.new)) }
{
    let unknown = ProgramText::of_module(alloc)?;
    play_whole(alloc, &unknown, verified, arguments, input, err)
}
