//! The pages on programs. (tests/prover/rule_pages.py writes this file, from docs/REFUSALS.md.)

ghost use Rattle.std.specs.Prelude.{◌≡◌};
ghost use Rattle.xk_rules.specs.Verifier.{verifier_page, v1, v2, v3, v4, v5, v6, v7, v8, v9, v10, v11, v12, v13, v14, v15, v16, v17};

use crate::page::RulePage;

/// The page on a rule on programs; of others none is here.
pub(crate) fn verifier_page(page: RulePage, other: &'static str) -> &'static str
    ensures { result.now ≡ verifier_page page other.now }
{
    match page {
        RulePage::Target => v1(),
        RulePage::Block => v2(),
        RulePage::Slot => v3(),
        RulePage::Unit => v4(),
        RulePage::Cell => v5(),
        RulePage::Loop => v6(),
        RulePage::End => v7(),
        RulePage::Home => v8(),
        RulePage::Registers => v9(),
        RulePage::SameClock => v10(),
        RulePage::Use => v11(),
        RulePage::Held => v12(),
        RulePage::Leak => v13(),
        RulePage::Steps => v14(),
        RulePage::Activities => v15(),
        RulePage::Clocks => v16(),
        RulePage::Stack => v17(),
        _ => other,
    }
}

/// The page on V1.
#[tactic(auto, unfolding(crate::specs::Verifier::v1))]
fn v1() -> &'static str
    ensures { result.now ≡ v1 }
{
    r#"V1 Target

check --module: x10clock: V1 Target unit 0 at 0

    {"version":1,"shared":[],"units":[{"kind":"main","params":"","slots":0,"code":[["jump",0],["ret"]]}]}

The targets of jumps, and the ends of loops and finishes, lie ahead and inside
the code; the beginnings lie before. Loops alone come back.

check --module: accepted steps 2 activities 1 clocks 0

    {"version":1,"shared":[],"units":[{"kind":"main","params":"","slots":0,"code":[["jump",1],["ret"]]}]}
"#
}

/// The page on V2.
#[tactic(auto, unfolding(crate::specs::Verifier::v2))]
fn v2() -> &'static str
    ensures { result.now ≡ v2 }
{
    r#"V2 Block

check --module: x10clock: V2 Block unit 0 at 1

    {"version":1,"shared":[],"units":[
      {"kind":"main","params":"","slots":1,"code":[["for",0,1,3,2],["jump",3],["next",0],["ret"]]}]}

A `for` or `forto` and its `next`, a `finish` and its `endfinish`, name each
other, and don't overlap others in part; no jump goes into one or out of it.
From inside, a jump may go to the `next` or the `endfinish`:

check --module: accepted steps 8 activities 1 clocks 0

    {"version":1,"shared":[],"units":[
      {"kind":"main","params":"","slots":1,"code":[["for",0,1,3,2],["jump",2],["next",0],["ret"]]}]}
"#
}

/// The page on V3.
#[tactic(auto, unfolding(crate::specs::Verifier::v3))]
fn v3() -> &'static str
    ensures { result.now ≡ v3 }
{
    r#"V3 Slot

check --module: x10clock: V3 Slot unit 0 at 0

    {"version":1,"shared":[],"units":[{"kind":"main","params":"","slots":1,"code":[["lit",1,5],["ret"]]}]}

The unit has no such slot. Slots are counted from 0.

check --module: accepted steps 2 activities 1 clocks 0

    {"version":1,"shared":[],"units":[{"kind":"main","params":"","slots":1,"code":[["lit",0,5],["ret"]]}]}
"#
}

/// The page on V4.
#[tactic(auto, unfolding(crate::specs::Verifier::v4))]
fn v4() -> &'static str
    ensures { result.now ≡ v4 }
{
    r#"V4 Unit

check --module: x10clock: V4 Unit unit 0 at 0

    {"version":1,"shared":[],"units":[
      {"kind":"main","params":"","slots":0,"code":[["spawn",1,[]],["ret"]]},
      {"kind":"method","params":"","slots":0,"code":[["ret"]]}]}

Unit 0 is the only main, and takes no clock. A `call` names a method, a `spawn`
a body, each of greater number than the own unit, with as many arguments as
parameters.

check --module: accepted steps 3 activities 2 clocks 0

    {"version":1,"shared":[],"units":[
      {"kind":"main","params":"","slots":0,"code":[["spawn",1,[]],["ret"]]},
      {"kind":"body","params":"","slots":0,"code":[["ret"]]}]}
"#
}

/// The page on V5.
#[tactic(auto, unfolding(crate::specs::Verifier::v5))]
fn v5() -> &'static str
    ensures { result.now ≡ v5 }
{
    r#"V5 Cell

check --module: x10clock: V5 Cell unit 0 at 0

    {"version":1,"shared":[7],"units":[{"kind":"main","params":"","slots":1,"code":[["get",0,1],["ret"]]}]}

There is no such shared number. They are counted from 0.

check --module: accepted steps 2 activities 1 clocks 0

    {"version":1,"shared":[7],"units":[{"kind":"main","params":"","slots":1,"code":[["get",0,0],["ret"]]}]}
"#
}

/// The page on V6.
#[tactic(auto, unfolding(crate::specs::Verifier::v6))]
fn v6() -> &'static str
    ensures { result.now ≡ v6 }
{
    r#"V6 Loop

check --module: x10clock: V6 Loop unit 0 at 1

    {"version":1,"shared":[],"units":[
      {"kind":"main","params":"","slots":1,"code":[["for",0,1,3,2],["lit",0,1],["next",0],["ret"]]}]}

A loop's bounds are in order, and nothing in it writes its slot, so that it
ends. The loop of a `forto` goes no further than the number in a slot that isn't
its own, and that nothing in it writes either: here it would be its own.

check --module: x10clock: V6 Loop unit 0 at 0

    {"version":2,"shared":[],"units":[
      {"kind":"main","params":"","slots":1,"code":[["forto",0,1,0,3,1],["next",0],["ret"]]}]}

With a slot of its own, what is written in the loop is free:

check --module: accepted steps 8 activities 1 clocks 0

    {"version":1,"shared":[],"units":[
      {"kind":"main","params":"","slots":2,"code":[["for",0,1,3,2],["lit",1,1],["next",0],["ret"]]}]}
"#
}

/// The page on V7.
#[tactic(auto, unfolding(crate::specs::Verifier::v7))]
fn v7() -> &'static str
    ensures { result.now ≡ v7 }
{
    r#"V7 End

check --module: x10clock: V7 End unit 0 at 0

    {"version":1,"shared":[],"units":[{"kind":"main","params":"","slots":0,"code":[["ret"],["advance"]]}]}

The last instruction of a unit is `ret`, and no other is.

check --module: accepted steps 3 activities 1 clocks 0

    {"version":1,"shared":[],"units":[{"kind":"main","params":"","slots":0,"code":[["advance"],["ret"]]}]}
"#
}

/// The page on V8.
#[tactic(auto, unfolding(crate::specs::Verifier::v8))]
fn v8() -> &'static str
    ensures { result.now ≡ v8 }
{
    r#"V8 Home

check: x10clock: V8 Home unit 1 at 2

    def last(c: Clock) {
        Console.OUT.println(1);
        c.drop();
    }

    def main() {
        val c = Clock.make();
        last(c);
        Clock.advanceAll();
    }

A method drops a clock that it is lent. Its caller goes on with that clock, and
would meet a ClockUseException. Let the caller drop it:

run: 1, ended steps 8

    def last(c: Clock) {
        Console.OUT.println(1);
        c.resume();
    }

    def main() {
        val c = Clock.make();
        last(c);
        c.drop();
    }

In a module V8 also says that a slot takes its clocks in one block, and a
parameter in none. A block is the unit, or the inside of a finish.
"#
}

/// The page on V9.
#[tactic(auto, unfolding(crate::specs::Verifier::v9))]
fn v9() -> &'static str
    ensures { result.now ≡ v9 }
{
    r#"V9 Registers

check: x10clock: V9 Registers unit 0 at 2

    def main() {
        val c = Clock.make();
        finish {
            async clocked (c) Clock.advanceAll();
        }
        Clock.advanceAll();
    }

In a finish a clock from outside is handed on. The activity could wait on the
clock for main, and main at the end of the finish for the activity: for ever.
Make the clock in the finish, and drop it before its end (as `clocked finish`
and `clocked async` do, without a name):

run: ended steps 11

    def main() {
        finish {
            val c = Clock.make();
            async clocked (c) Clock.advanceAll();
            c.drop();
        }
        Clock.advanceAll();
    }

or start the activity outside of the finish. To lend a clock from outside to a
method is refused in a finish too. In a module V9 also says that a clock which
is made in a finish isn't handed on outside of it.
"#
}

/// The page on V10.
#[tactic(auto, unfolding(crate::specs::Verifier::v10))]
fn v10() -> &'static str
    ensures { result.now ≡ v10 }
{
    r#"V10 SameClock

check --module: x10clock: V10 SameClock unit 0 at 1

    {"version":1,"shared":[],"units":[
      {"kind":"main","params":"","slots":1,"code":[["make",0],["spawn",1,[0,0]],["ret"]]},
      {"kind":"body","params":"cc","slots":2,"code":[["ret"]]}]}

One clock is handed on twice at once (a source text gets F12).

check --module: accepted steps 5 activities 2 clocks 2

    {"version":1,"shared":[],"units":[
      {"kind":"main","params":"","slots":2,"code":[["make",0],["make",1],["spawn",1,[0,1]],["ret"]]},
      {"kind":"body","params":"cc","slots":2,"code":[["ret"]]}]}
"#
}

/// The page on V11.
#[tactic(auto, unfolding(crate::specs::Verifier::v11))]
fn v11() -> &'static str
    ensures { result.now ≡ v11 }
{
    r#"V11 Use

check: x10clock: V11 Use unit 0 at 3 slot 0 out walk 0 1 2 3 4 2 3

    def main() {
        val c = Clock.make();
        for (turn in 1..3) {
            Clock.advanceAll();
            c.drop();
        }
    }

A clock is resumed, dropped or handed on by an activity that isn't registered on
it, on some walk: a ClockUseException. Here the walk goes round the loop once
and comes to the `drop` with a clock that is `out`. Drop it after the loop:

run: ended steps 13

    def main() {
        val c = Clock.make();
        for (turn in 1..3) {
            Clock.advanceAll();
        }
        c.drop();
    }

Walks go into both branches, whatever the numbers are: if one branch drops the
clock, nobody may use it after the `if`.

check: x10clock: V11 Use unit 0 at 5 slot 0 out walk 0 1 2 3 4 5

    def main() {
        val c = Clock.make();
        val n = 1;
        if (n == 2) c.drop();
        c.resume();
    }

So a drop in a loop is refused also where its condition holds in the last turn
alone: walks don't count turns. Let the loop have the turns in which the clock
is used, and drop it after the loop. If each activity is on it for another
number of phases, take that number as the loop's bound:

check: x10clock: V11 Use unit 1 at 4 slot 0 out walk 0 1 4 5 1 4

    def main() {
        val c = Clock.make();
        for (me in 1..3) async clocked(c) {
            for (p in 1..3) {
                if (p <= me) Clock.advanceAll(); else c.drop();
            }
        }
    }

run: ended steps 39

    def main() {
        val c = Clock.make();
        for (me in 1..3) async clocked(c) {
            for (p in 1..Math.min(me, 3)) Clock.advanceAll();
            c.drop();
        }
    }
"#
}

/// The page on V12.
#[tactic(auto, unfolding(crate::specs::Verifier::v12))]
fn v12() -> &'static str
    ensures { result.now ≡ v12 }
{
    r#"V12 Held

check: x10clock: V12 Held unit 0 at 3 slot 0 live walk 0 1 2 3

    def main() {
        finish {
            val c = Clock.make();
            async clocked (c) Clock.advanceAll();
        }
        Console.OUT.println(1);
    }

A clock that is made in a finish is still held at its end: main would wait there
for the activity, and the activity on the clock for main. Drop it before the
end, on every walk:

run: 1, ended steps 11

    def main() {
        finish {
            val c = Clock.make();
            async clocked (c) Clock.advanceAll();
            c.drop();
        }
        Console.OUT.println(1);
    }

A `clocked finish` drops its own clock, so that this can't be forgotten:

run: 1, ended steps 11

    def main() {
        clocked finish clocked async Clock.advanceAll();
        Console.OUT.println(1);
    }
"#
}

/// The page on V13.
#[tactic(auto, unfolding(crate::specs::Verifier::v13))]
fn v13() -> &'static str
    ensures { result.now ≡ v13 }
{
    r#"V13 Leak

check: x10clock: V13 Leak unit 0 at 1 slot 1 live walk 0 1 2 3 4 1

    def main() {
        for (day in 1..2) {
            val c = Clock.make();
            async clocked (c) Clock.advanceAll();
            Clock.advanceAll();
        }
    }

The only name of a clock is lost while the activity is registered on it: the
next turn would write over it, or it goes with the end of a method. Nobody could
drop the clock any more, and each `advanceAll` would go on resuming it. Drop it:

run: ended steps 20

    def main() {
        for (day in 1..2) {
            val c = Clock.make();
            async clocked (c) Clock.advanceAll();
            Clock.advanceAll();
            c.drop();
        }
    }

Main and the bodies of `async` need not drop theirs at their own end, with which
they are registered nowhere.
"#
}

/// The page on V14.
#[tactic(auto, unfolding(crate::specs::Verifier::v14))]
fn v14() -> &'static str
    ensures { result.now ≡ v14 }
{
    r#"V14 Steps

check: x10clock: V14 Steps over 1000000000

    def main() {
        for (i in 1..1000) for (j in 1..1000) for (k in 1..1000) ;
    }

A run may take more than 1,000,000,000 steps. Loops in one another multiply
their turns: have fewer, or give the bounds that are wanted.

check: accepted steps 1002002 activities 1 clocks 0

    def main() {
        for (i in 1..1000) for (j in 1..1000) ;
    }
"#
}

/// The page on V15.
#[tactic(auto, unfolding(crate::specs::Verifier::v15))]
fn v15() -> &'static str
    ensures { result.now ≡ v15 }
{
    r#"V15 Activities

check: x10clock: V15 Activities over 100000

    def main() {
        for (i in 1..100000) async { }
    }

There may be more than 100,000 activities, main among them. Start fewer, each
with more to do: an `async` in a loop counts as often as the loop turns.

check: accepted steps 100402 activities 101 clocks 0

    def main() {
        for (i in 1..100) async for (j in 1..1000) ;
    }
"#
}

/// The page on V16.
#[tactic(auto, unfolding(crate::specs::Verifier::v16))]
fn v16() -> &'static str
    ensures { result.now ≡ v16 }
{
    r#"V16 Clocks

check: x10clock: V16 Clocks over 100000

    def main() {
        for (i in 1..100001) {
            val c = Clock.make();
            c.drop();
        }
    }

More than 100,000 clocks may be made. A clock can be used in many phases: make
it outside of the loop.

check: accepted steps 300007 activities 1 clocks 1

    def main() {
        val c = Clock.make();
        for (i in 1..100001) Clock.advanceAll();
        c.drop();
    }
"#
}

/// The page on V17.
#[tactic(auto, unfolding(crate::specs::Verifier::v17))]
fn v17() -> &'static str
    ensures { result.now ≡ v17 }
{
    r#"V17 Stack

    $ seq 65 | awk '{v=""; for(x=0;x<64;)v=v"val x"x++"=0;"; print "def m"$1"(){"v ($1<65?"m"$1+1"();":"")"}"}' > m.x10
    $ echo 'def main() { m1(); }' | cat m.x10 - | x10clock check -
    x10clock: V17 Stack over 4096

Methods that call one another have more than 4,096 slots together: here 65
methods of 64 slots each. A method's slots are given back at its end, so methods
that are called one after the other don't add up:

check: accepted steps 11 activities 1 clocks 0

    def first(n: Long) {
        Console.OUT.println(n);
    }

    def second(n: Long) {
        Console.OUT.println(n + 1);
    }

    def main() {
        first(1);
        second(1);
    }
"#
}
