//! What faults of the libraries say of themselves, which the program never prints.

use std::alloc::Global;
use std::fmt::Display;
use std::test::Fail;
use xk_bounds::{BoundFault, KindFault, Refusal, ShapeFault};
use xk_cli::{Misfit, WordsFault};
use xk_io::Device;
use xk_log::LogFault;
use xk_module::ModuleFault;
use xk_replay::ReplayFault;
use xk_shape::ShapeError;
use xk_tree::{FrontError, FrontFault, FrontRule};
use xk_types::{Kind, Rule};
use xk_typestate::KindError;
use xk_workers::CommitFault;

const SHAPE: ShapeFault = ShapeFault {
    rule: Rule::Home,
    unit: 3,
    at: 70,
};

const SHAPE_TEXT: &str = "the code breaks rule V8 Home in unit 3 at 70";

const BOUND: BoundFault = BoundFault {
    rule: Rule::Stack,
    limit: 4096,
};

const KIND_TEXT: &str = "slot 5 breaks rule V13 Leak in unit 2 at 90, where it is resumed";

const FRONT: FrontFault = FrontFault {
    rule: FrontRule::Recursive,
    at: 10,
};

const FRONT_TEXT: &str = "the text breaks rule F10 Recursive at 10";

const MEMORY_TEXT: &str = "out of memory";

const DEVICE_TEXT: &str = "a device failed";

const STALE_TEXT: &str =
    "the activity hasn't the frames any more that the steps were computed from";

const EXCLUDED_TEXT: &str = "x10clock: --workers and --order exclude each other\n";

const SEED_TEXT: &str = "x10clock: --seed goes with --order random\n";

const RUNS_TEXT: &str = "x10clock: --runs goes with --order random, and not with --log\n";

fn kind_fault(alloc: Global) -> KindFault {
    KindFault {
        rule: Rule::Leak,
        unit: 2,
        at: 90,
        slot: 5,
        kind: Kind::Resumed,
        walk: Vec::new(alloc),
    }
}

/// Whether this is what a fault says.
fn says<D: Display>(alloc: Global, fault: &D, wanted: &str) -> bool {
    match format!(in alloc; "{fault}") {
        Ok(text) => text.as_str() == wanted,
        Err(_) => false,
    }
}

#[test]
fn refusals_are_told(rt: HostRuntime) {
    let alloc = rt.alloc();
    assert!(rt; says(alloc, &Refusal::Shape(SHAPE), SHAPE_TEXT));
    assert!(rt; says(alloc, &ShapeError::Fault(SHAPE), SHAPE_TEXT));
    assert!(rt; says(alloc, &ShapeError::OutOfMemory, MEMORY_TEXT));
    assert!(rt; says(alloc, &Refusal::Kind(kind_fault(alloc)), KIND_TEXT));
    assert!(rt; says(alloc, &KindError::Fault(kind_fault(alloc)), KIND_TEXT));
    assert!(rt; says(alloc, &KindError::OutOfMemory, MEMORY_TEXT));
    let bound_text = "a run may go over 4096, by rule V17 Stack";
    assert!(rt; says(alloc, &Refusal::Bound(BOUND), bound_text));
    assert!(rt; says(alloc, &Refusal::OutOfMemory, MEMORY_TEXT));
}

#[test]
fn faults_are_told(rt: HostRuntime) {
    let alloc = rt.alloc();
    for (fault, wanted) in [
        (ModuleFault::NotJson, "the bytes are no JSON text"),
        (ModuleFault::NotAModule, "the JSON value names no module"),
        (ModuleFault::Limit, "the module goes beyond a limit"),
        (ModuleFault::OutOfMemory, MEMORY_TEXT),
    ] {
        assert!(rt; says(alloc, &fault, wanted), "{wanted}");
    }
    assert!(rt; says(alloc, &FrontError::Fault(FRONT), FRONT_TEXT));
}

/// Faults of logs and of tickets.
#[test]
fn faults_of_runs_are_told(rt: HostRuntime) {
    let alloc = rt.alloc();
    let truncated = "the text ends before its last line does";
    assert!(rt; says(alloc, &LogFault::Grammar(7), "line 7 doesn't fit its place"));
    assert!(rt; says(alloc, &LogFault::Truncated, truncated));
    assert!(rt; says(alloc, &LogFault::Device, DEVICE_TEXT));
    assert!(rt; says(alloc, &LogFault::OutOfMemory, MEMORY_TEXT));
    assert!(rt; says(alloc, &Device, DEVICE_TEXT));
    let not_enabled = "entry 3 has a step that isn't enabled";
    let not_ended = "the log stops before the run does";
    assert!(rt; says(alloc, &ReplayFault::NotEnabled(3), not_enabled));
    assert!(rt; says(alloc, &ReplayFault::NotEnded, not_ended));
    assert!(rt; says(alloc, &ReplayFault::OutOfMemory, MEMORY_TEXT));
    assert!(rt; says(alloc, &CommitFault::Stale, STALE_TEXT));
    assert!(rt; says(alloc, &CommitFault::OutOfMemory, MEMORY_TEXT));
}

/// Words that are no job are told by a text of their own, or by one that is handed in.
#[test]
fn faults_of_words_are_told(rt: HostRuntime) -> Result<(), Fail> {
    let alloc = rt.alloc();
    let help = WordsFault::Help(String::from_str(alloc, "help")?);
    assert!(rt; says(alloc, &help, "help"));
    let mistake = WordsFault::NotUnderstood(String::from_str(alloc, "mistake")?);
    assert!(rt; says(alloc, &mistake, "mistake"));
    assert!(rt;
        says(
            alloc,
            &WordsFault::Misfit(Misfit::OrderAndWorkers),
            EXCLUDED_TEXT
        )
    );
    assert!(rt; says(alloc, &WordsFault::Misfit(Misfit::SeedAlone), SEED_TEXT));
    assert!(rt; says(alloc, &WordsFault::Misfit(Misfit::MisplacedRuns), RUNS_TEXT));
    assert!(rt; says(alloc, &WordsFault::OutOfMemory, MEMORY_TEXT));
    Ok(())
}
