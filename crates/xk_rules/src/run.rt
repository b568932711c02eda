//! The pages on arguments and logs. (tests/prover/rule_pages.py writes this file, from docs/REFUSALS.md.)

ghost use Rattle.std.specs.Prelude.{◌≡◌};
ghost use Rattle.xk_rules.specs.Run.{run_page, a1, l1, l2, l3, l4, l5, l6};

use crate::page::RulePage;

/// The page on a rule on arguments and logs; of others none is here.
pub(crate) fn run_page(page: RulePage, other: &'static str) -> &'static str
    ensures { result.now ≡ run_page page other.now }
{
    match page {
        RulePage::Arguments => a1(),
        RulePage::Grammar => l1(),
        RulePage::Truncated => l2(),
        RulePage::Device => l3(),
        RulePage::NotEnabled => l4(),
        RulePage::NotEnded => l5(),
        RulePage::NoOutcome => l6(),
        _ => other,
    }
}

/// The page on A1.
#[tactic(auto, unfolding(crate::specs::Run::a1))]
fn a1() -> &'static str
    ensures { result.now ≡ a1 }
{
    r#"A1 Arguments

check: accepted steps 23 activities 1 clocks 0
run: x10clock: A1 Arguments wants 1 has 0
run --arg 3: 1, 2, 3, ended steps 9
run --arg 3 --arg 4: x10clock: A1 Arguments wants 1 has 2

    def main(n: Long) {
        for (i in 1..Math.min(n, 10)) Console.OUT.println(i);
    }

`main` takes more numbers than the call has `--arg`, or fewer: it wants one for
each of its parameters, in their order. `check` takes none, as its answer holds
for all. A1 is reported once the program is accepted, before a step is taken and
before a log is read. A negative number is written `--arg=-5`, since `-5` by
itself looks like an option; one that isn't whole, or has more than 64 bits, is
a word that isn't understood.
"#
}

/// The page on L1.
#[tactic(auto, unfolding(crate::specs::Run::l1))]
fn l1() -> &'static str
    ensures { result.now ≡ l1 }
{
    r#"L1 Grammar

A needless zero; an entry that was taken out by hand, while the last line still
says that there are nineteen; ones without end:

    $ sed 's/^1 1$/1 01/' run.log > changed.log; x10clock replay examples/two-in-step.x10 changed.log
    x10clock: L1 Grammar line 8
    $ sed 5d run.log > changed.log; x10clock chart examples/two-in-step.x10 changed.log
    x10clock: L1 Grammar line 20
    $ tr '\0' 1 < /dev/zero | x10clock replay examples/two-in-step.x10 /dev/stdin
    x10clock: L1 Grammar line 1

The line, counted from 1, is the first that doesn't fit its place. Most often it
is one of these: a space too many, a line end of two bytes, a number of steps
that is 0 or has more than 32 bits, a last line that has another number of
entries than there are, or something after it. A line that goes on for more than
21 bytes is one without a look at the rest.
"#
}

/// The page on L2.
#[tactic(auto, unfolding(crate::specs::Run::l2))]
fn l2() -> &'static str
    ensures { result.now ≡ l2 }
{
    r#"L2 Truncated

    $ sed '$d' run.log > changed.log; x10clock replay examples/two-in-step.x10 changed.log
    x10clock: L2 Truncated

No line is wrong, and the text ends before its last line, or before that line's
line feed. It can't be repaired: nobody knows the later steps. A run that is
refused or runs out of memory leaves an empty file, and one whose log finds no
room a beginning of it.
"#
}

/// The page on L3.
#[tactic(auto, unfolding(crate::specs::Run::l3))]
fn l3() -> &'static str
    ensures { result.now ≡ l3 }
{
    r#"L3 Device

    $ x10clock replay examples/two-in-step.x10 examples
    x10clock: device

The log can't be opened, or a read of it failed. As for any file that fails, the
line has no number, and the status is 5.
"#
}

/// The page on L4.
#[tactic(auto, unfolding(crate::specs::Run::l4))]
fn l4() -> &'static str
    ensures { result.now ≡ l4 }
{
    r#"L4 NotEnabled

Activity 1 would take a fourth step, and has to wait for main at the clock; the
log of another program:

    $ printf 'x10log 1\n0 3\n1 4\nend 2\n' > changed.log; x10clock replay examples/two-in-step.x10 changed.log
    x10clock: L4 NotEnabled entry 1
    $ x10clock replay examples/one-async.x10 run.log
    x10clock: L4 NotEnabled entry 9

The entry, counted from 0, is the first that has a step which can't be taken:
its activity hasn't been started yet, waits at a clock or at the end of a
finish, or has ended. Entry K is line K + 2. A log is that of a module and of
its arguments: where the program's text has changed since, by as little as one
statement, run it anew. Give the command that reads the log the same `--arg` as
the run, since the log has none.
"#
}

/// The page on L5.
#[tactic(auto, unfolding(crate::specs::Run::l5))]
fn l5() -> &'static str
    ensures { result.now ≡ l5 }
{
    r#"L5 NotEnded

    $ printf 'x10log 1\n0 3\n1 3\nend 2\n' > changed.log; x10clock chart examples/two-in-step.x10 changed.log
    x10clock: L5 NotEnded

Each step can be taken, and after the last one somebody hasn't ended: the log is
that of a run's beginning. In a log by hand add entries until nobody is left.
"#
}

/// The page on L6.
#[tactic(auto, unfolding(crate::specs::Run::l6))]
fn l6() -> &'static str
    ensures { result.now ≡ l6 }
{
    r#"L6 NoOutcome

    $ printf 'outcome 1 prints 1 2\n2 1\n' > by-hand.list; x10clock outcomes --expect by-hand.list examples/two-in-step.x10
    x10clock: L6 NoOutcome line 2

A list of outcomes has lines as `outcomes` prints them: `outcome K prints` and
the numbers, with one blank before each and none after the last. This line,
counted from 1, is the first that is no such line, nor an empty one, nor one
that begins with `outcomes `. K may be any number.
"#
}
