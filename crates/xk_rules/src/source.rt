//! The pages on source texts. (tests/prover/rule_pages.py writes this file, from docs/REFUSALS.md.)

ghost use Rattle.std.specs.Prelude.{◌≡◌};
ghost use Rattle.xk_rules.specs.Source.{source_page, f1, f2, f3, f4, f5, f6, f7, f8, f9, f10, f11, f12, f13, f14, f15};

use crate::page::RulePage;

/// The page on a rule on source texts; of others none is here.
pub(crate) fn source_page(page: RulePage, other: &'static str) -> &'static str
    ensures { result.now ≡ source_page page other.now }
{
    match page {
        RulePage::Token => f1(),
        RulePage::Syntax => f2(),
        RulePage::TooDeep => f3(),
        RulePage::TooLong => f4(),
        RulePage::UnknownName => f5(),
        RulePage::DuplicateName => f6(),
        RulePage::WrongKind => f7(),
        RulePage::NotCaptured => f8(),
        RulePage::NoMain => f9(),
        RulePage::Recursive => f10(),
        RulePage::Arity => f11(),
        RulePage::SameClockTwice => f12(),
        RulePage::Literal => f13(),
        RulePage::Table => f14(),
        RulePage::NoHiddenClock => f15(),
        _ => other,
    }
}

/// The page on F1.
#[tactic(auto, unfolding(crate::specs::Source::f1))]
fn f1() -> &'static str
    ensures { result.now ≡ f1 }
{
    r#"F1 Token

check: x10clock: F1 Token at 39

    def main() {
        Console.OUT.println(7 % 2);
    }

No token begins with this character, or a `/*` is never closed. Comments may
have any character. Where nothing is to be seen `at 0`, there is a byte order
mark: save as UTF-8 without one, or `tail -c +4 FILE`. There is no remainder and
no division; half of a number is found by a loop:

run --arg 7: 3, ended steps 407

    def main(n: Long) {
        var half = 0;
        for (i in 1..100) if (2 * i <= n) half = i;
        Console.OUT.println(half);
    }
"#
}

/// The page on F2.
#[tactic(auto, unfolding(crate::specs::Source::f2))]
fn f2() -> &'static str
    ensures { result.now ≡ f2 }
{
    r#"F2 Syntax

check: x10clock: F2 Syntax at 31

    def main() {
        val n = 1
        Console.OUT.println(n);
    }

The token at the offset can't be there; look right before it for what is
missing, here a `;` after `1`. Where the text ends too early, mostly for want of
a `}`, the offset is its length. The words
`shared def val var if else for in async clocked finish atomic Clock Long Console`
can't be names; any other word is one. So a word that is misspelt, or that only
other languages have, is reported at the token after it.

- `for (i in 0..4-1)` (reported at the `-`): `for (i in 0..3)`
- `for (i in n..9)` (reported at `n`): `for (i in 1..9) if (i >= n)`: the lower bound is a number
- `1..Math.min(100, n)` (reported at `n`): `1..Math.min(n, 100)`: the number comes last
- `1..Math.max(n, 1)` (reported at `max`): `1..Math.min(n, 100)`
- `break;` (reported at the `;`): an `if` around the rest of the turn, and a `var` that says it is over
- `if (0 < a < 3)` (reported at the second `<`): `if (0 < a) if (a < 3)`
- `a > 0 ? 1 : 2` (reported at the `>`): `var b = 2; if (a > 0) b = 1;`
- `+1` (reported at the `+`): `1`
- `var` outside of a method (reported at it): `shared s = 0;` in front of the methods
- `atomic s = s - 1;` (reported at the `-`): `atomic s = s + -1;`
- `def main(args: Rail[String])` (reported at `Rail`): `def main(n: Long)`: a number for each `--arg`
- `asynk clocked(c) {` (reported at `clocked`): `async clocked(c) {`
- `Console.OUT.println(1, 2)` (reported at the `,`): one number a call: `10 * a + b` puts two into one

With its `;` the program above runs:

run: 1, ended steps 3

    def main() {
        val n = 1;
        Console.OUT.println(n);
    }
"#
}

/// The page on F3.
#[tactic(auto, unfolding(crate::specs::Source::f3))]
fn f3() -> &'static str
    ensures { result.now ≡ f3 }
{
    r#"F3 TooDeep

check: x10clock: F3 TooDeep at 77

    def main() {
    {{{{{{{{{{{{{{{{{{{{{{{{{{{{{{{{{{{{{{{{{{{{{{{{{{{{{{{{{{{{{{{{{
    }}}}}}}}}}}}}}}}}}}}}}}}}}}}}}}}}}}}}}}}}}}}}}}}}}}}}}}}}}}}}}}}}}}
    }

More than 64 statements, parentheses and negations are nested, or an expression
has more than 64 operators. Move a part into a method, or name a part of the
expression by a `val`:

run: 15, ended steps 15

    def inner(n: Long) {
        if (n > 3) Console.OUT.println(n);
    }

    def main() {
        val part = 1 + 2 + 3;
        inner(part + 4 + 5);
    }
"#
}

/// The page on F4.
#[tactic(auto, unfolding(crate::specs::Source::f4))]
fn f4() -> &'static str
    ensures { result.now ≡ f4 }
{
    r#"F4 TooLong

    $ head -c 1048577 /dev/zero | tr '\0' ' ' | x10clock check -
    x10clock: F4 TooLong at 0

A text has at most 1,048,576 bytes. What is written again and again can be a
method, and called in a loop:

run: 1, 2, 3, ended steps 14

    def step(n: Long) {
        Console.OUT.println(n);
    }

    def main() {
        for (i in 1..3) step(i);
    }
"#
}

/// The page on F5.
#[tactic(auto, unfolding(crate::specs::Source::f5))]
fn f5() -> &'static str
    ensures { result.now ≡ f5 }
{
    r#"F5 UnknownName

check: x10clock: F5 UnknownName at 93

    def main() {
        for (i in 1..3) {
            val square = i * i;
        }
        Console.OUT.println(square);
    }

No such name is visible there, or there is no such method: perhaps it is
misspelt. Large letters and small ones differ, to print is
`Console.OUT.println`, with all three words, and to wait `Clock.advanceAll`.
There is no `true`: take 1. A number has a `val` or a `var` where it comes
first. A name is visible from the end of its declaration to the end of the
block, the loop or the single statement that it is in. Declare it further out:

run: 9, ended steps 10

    def main() {
        var square = 0;
        for (i in 1..3) {
            square = i * i;
        }
        Console.OUT.println(square);
    }
"#
}

/// The page on F6.
#[tactic(auto, unfolding(crate::specs::Source::f6))]
fn f6() -> &'static str
    ensures { result.now ≡ f6 }
{
    r#"F6 DuplicateName

check: x10clock: F6 DuplicateName at 54

    def main() {
        val who = 1;
        async {
            val who = 2;
            Console.OUT.println(who);
        }
    }

A name of this spelling is visible there already, perhaps from outside an
`async`, or as a shared number; or a second method has the name, and then the
offset is at the name of the second. Take another name. Names that aren't
visible at the same place may be alike.

run: 2, ended steps 7

    def main() {
        val who = 1;
        async {
            val other = who + 1;
            Console.OUT.println(other);
        }
    }
"#
}

/// The page on F7.
#[tactic(auto, unfolding(crate::specs::Source::f7))]
fn f7() -> &'static str
    ensures { result.now ≡ f7 }
{
    r#"F7 WrongKind

check: x10clock: F7 WrongKind at 40

    shared sum = 0;

    def main() {
        sum = sum + 1;
    }

Something of another kind is wanted here: a clock for a number, a number for a
clock (perhaps the arguments are out of order), or one of the cases below. The
offset is at the name, the type, the `Clock` of a `var`'s make, or the argument.
A shared number is read only alone after the `=` of a `val` or a `var`, or of an
assignment to a `var`, so that one sees where others may come between. Nobody
comes between in an `atomic` addition:

run: 1, ended steps 5

    shared sum = 0;

    def main() {
        atomic sum = sum + 1;
        val now = sum;
        Console.OUT.println(now);
    }

So `if (sum == 1)`, `println(sum)` and `atomic n = n + sum;` are refused at the
`sum`: read it into a `val` in front of them. Where a loop goes up to a shared
number, too, write that `val` into the `Math.min`.

check: x10clock: F7 WrongKind at 50

    def main() {
        val c = Clock.make();
        val d: Clock = c;
        d.resume();
    }

A clock has one name, a `val`. It can be handed to a method or to an `async`,
but not be copied or compared; a `var c = Clock.make();` is refused at the
`Clock`.

check: x10clock: F7 WrongKind at 32

    def main() {
        val n = 1;
        n = 2;
    }

Only a `var` and a shared number are assigned to: write `var n`. A loop's number
and a parameter stay, too.
"#
}

/// The page on F8.
#[tactic(auto, unfolding(crate::specs::Source::f8))]
fn f8() -> &'static str
    ensures { result.now ≡ f8 }
{
    r#"F8 NotCaptured

check: x10clock: F8 NotCaptured at 73

    def main() {
        var n = 1;
        n = n + 1;
        async Console.OUT.println(n);
    }

The body of an `async` has its own activity, which may run when `n` is something
else, or when main has ended. So it sees no `var` from outside; it takes along
the number of a `val`:

run: 2, ended steps 8

    def main() {
        var n = 1;
        n = n + 1;
        val now = n;
        async Console.OUT.println(now);
    }

Activities that add to a number that all of them see need a shared one, and
nobody in between:

check: x10clock: F8 NotCaptured at 65

    def main() {
        var sum = 0;
        finish for (i in 1..3) async { sum = sum + i; }
        Console.OUT.println(sum);
    }

run: 6, ended steps 18

    shared sum = 0;

    def main() {
        finish for (i in 1..3) async atomic sum = sum + i;
        val all = sum;
        Console.OUT.println(all);
    }

check: x10clock: F8 NotCaptured at 79

    def main() {
        val c = Clock.make();
        async Clock.advanceAll();
        async c.drop();
    }

A clock has to be in the list of the `async`, and then the activity is
registered on it: `async clocked (c) c.drop();`. So has one that the activity
hands on: an activity that isn't on a clock can't register others on it.
"#
}

/// The page on F9.
#[tactic(auto, unfolding(crate::specs::Source::f9))]
fn f9() -> &'static str
    ensures { result.now ≡ f9 }
{
    r#"F9 NoMain

check: x10clock: F9 NoMain at 0

    def mian() {
    }

There is no method `main`, in small letters, or one of its parameters is a
clock:

check: x10clock: F9 NoMain at 0

    def main(n: Long, c: Clock) {
        Clock.advanceAll();
    }

`main` is given numbers alone (`--arg`). It makes its clocks by `Clock.make()`:

run --arg 3: 3, ended steps 5

    def main(n: Long) {
        val c = Clock.make();
        Clock.advanceAll();
        Console.OUT.println(n);
    }
"#
}

/// The page on F10.
#[tactic(auto, unfolding(crate::specs::Source::f10))]
fn f10() -> &'static str
    ensures { result.now ≡ f10 }
{
    r#"F10 Recursive

check: x10clock: F10 Recursive at 17

    def down() {
        up();
    }

    def up() {
        async down();
    }

    def main() {
        up();
    }

The method called comes back to the one that calls it, here through an `async`;
or it is `main`. How many steps a program takes has to be known beforehand. Say
by a loop how often something is done. Where calls branch, as in
`fib(n - 1); fib(n - 2);`, write a method for each level of the tree, of which
each calls the next one:

run: 7, 5, 6, 4, ended steps 46

    def leaf(n: Long) {
        Console.OUT.println(n);
    }

    def twig(n: Long) {
        async leaf(2 * n);
        leaf(2 * n + 1);
    }

    def branch(n: Long) {
        finish {
            async twig(2 * n);
            twig(2 * n + 1);
        }
    }

    def main() {
        branch(1);
    }
"#
}

/// The page on F11.
#[tactic(auto, unfolding(crate::specs::Source::f11))]
fn f11() -> &'static str
    ensures { result.now ≡ f11 }
{
    r#"F11 Arity

check: x10clock: F11 Arity at 96

    def show(who: Long, what: Long) {
        Console.OUT.println(10 * who + what);
    }

    def main() {
        show(1);
    }

The method takes more arguments, or fewer: as many as the parameters of its
`def`, clocks among them.

run: 12, ended steps 9

    def show(who: Long, what: Long) {
        Console.OUT.println(10 * who + what);
    }

    def main() {
        show(1, 2);
    }
"#
}

/// The page on F12.
#[tactic(auto, unfolding(crate::specs::Source::f12))]
fn f12() -> &'static str
    ensures { result.now ≡ f12 }
{
    r#"F12 SameClockTwice

check: x10clock: F12 SameClockTwice at 125

    def both(a: Clock, b: Clock) {
        a.resume();
        Clock.advanceAll();
    }

    def main() {
        val c = Clock.make();
        both(c, c);
    }

One clock would have two names there. Hand it on once, or make another one:

run: ended steps 8

    def both(a: Clock, b: Clock) {
        a.resume();
        Clock.advanceAll();
    }

    def main() {
        val c = Clock.make();
        val d = Clock.make();
        both(c, d);
    }
"#
}

/// The page on F13.
#[tactic(auto, unfolding(crate::specs::Source::f13))]
fn f13() -> &'static str
    ensures { result.now ≡ f13 }
{
    r#"F13 Literal

check: x10clock: F13 Literal at 37

    def main() {
        Console.OUT.println(9223372036854775808);
    }

Numbers are whole ones from -9223372036854775808 to 9223372036854775807, without
a needless 0 before them. Sums beyond them wrap:

run: -9223372036854775808, ended steps 5

    def main() {
        Console.OUT.println(9223372036854775807 + 1);
    }
"#
}

/// The page on F14.
#[tactic(auto, unfolding(crate::specs::Source::f14))]
fn f14() -> &'static str
    ensures { result.now ≡ f14 }
{
    r#"F14 Table

    $ { echo 'def main() {'; seq -f 'val x%.0f = 0;' 65; echo '}'; } | x10clock check -
    x10clock: F14 Table at 4

Too many of something: 256 shared numbers, 1,024 units (main, each method that
it reaches, each `async`), and in a unit 64 slots (parameters, what an `async`
takes from outside, each `val`, `var` and loop, and room for the parts of an
expression), 4,096 instructions, or 64 arguments. A loop with `Math.min` has two
slots, a `clocked finish` one. The offset is at the name of the method, at the
`async`, or at the shared number that is one too many. Move a part into a
method, which has slots of its own:

run: 1, 4, 9, ended steps 17

    def part(n: Long) {
        val square = n * n;
        Console.OUT.println(square);
    }

    def main() {
        for (i in 1..3) part(i);
    }
"#
}

/// The page on F15.
#[tactic(auto, unfolding(crate::specs::Source::f15))]
fn f15() -> &'static str
    ensures { result.now ≡ f15 }
{
    r#"F15 NoHiddenClock

check: x10clock: F15 NoHiddenClock at 17

    def main() {
        clocked async {
            Clock.advanceAll();
            Console.OUT.println(2);
        }
        Clock.advanceAll();
        Console.OUT.println(1);
    }

`clocked async` starts an activity on the clock of the `clocked finish` around
it, and here is none. Put it into one, with all that is to be in step:

run: 1, 2, ended steps 15

    def main() {
        clocked finish {
            clocked async {
                Clock.advanceAll();
                Console.OUT.println(2);
            }
            Clock.advanceAll();
            Console.OUT.println(1);
        }
    }

A plain `finish`, a plain `async` and an `async clocked (..)` in between hide
the clock: in there it can't be handed on.

check: x10clock: F15 NoHiddenClock at 62

    def main() {
        clocked finish {
            async {
                clocked async Console.OUT.println(2);
            }
            Clock.advanceAll();
            Console.OUT.println(1);
        }
    }

An activity that isn't on a clock can't start others on it: write
`clocked async` at each step on the way. In a plain `finish` nobody could be
started on a clock from outside, with a name or without (V9): leave the inner
`finish` out, or write `clocked finish`, with a clock of its own.

A method doesn't know from where it is called, and has no hidden clock at its
head:

check: x10clock: F15 NoHiddenClock at 17

    def work() {
        clocked async Clock.advanceAll();
        Clock.advanceAll();
    }

    def main() {
        clocked finish work();
    }

Let the method have a `clocked finish` of its own, or start all activities where
the clock is, and let them call methods: `clocked async part(1);`. Or give the
clock a name, and lend it:

run: ended steps 13

    def work(c: Clock) {
        async clocked (c) Clock.advanceAll();
        Clock.advanceAll();
    }

    def main() {
        finish {
            val c = Clock.make();
            work(c);
            c.drop();
        }
    }
"#
}
