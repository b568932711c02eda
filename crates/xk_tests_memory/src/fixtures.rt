//! Small programs, as source text and as module text, and logs.

/// A sum of two numbers, and a phase of a clock on which main is alone.
const SUM_AND_PHASE: &str =
    r#"{"version":1,"shared":[],"units":[{"kind":"main","params":"","slots":3,"code":[["lit",0,2],["lit",1,3],["add",0,0,1],["make",2],["advance"],["print",0],["ret"]]}]}"#;

/// Two activities on a clock.
const PAIR: &str =
    r#"{"version":1,"shared":[],"units":[{"kind":"main","params":"","slots":2,"code":[["make",0],["spawn",1,[0]],["advance"],["lit",1,1],["print",1],["ret"]]},{"kind":"body","params":"c","slots":2,"code":[["advance"],["lit",1,2],["print",1],["ret"]]}]}"#;

/// Three activities, each on two of three clocks.
const RING: &str =
    r#"{"version":1,"shared":[],"units":[{"kind":"main","params":"","slots":3,"code":[["make",0],["make",1],["make",2],["spawn",1,[0,1]],["spawn",2,[1,2]],["spawn",3,[2,0]],["ret"]]},{"kind":"body","params":"cc","slots":2,"code":[["advance"],["advance"],["ret"]]},{"kind":"body","params":"cc","slots":2,"code":[["advance"],["advance"],["ret"]]},{"kind":"body","params":"cc","slots":2,"code":[["advance"],["advance"],["ret"]]}]}"#;

/// The numbers from 1 to 9.
const NINE: &str =
    r#"{"version":1,"shared":[],"units":[{"kind":"main","params":"","slots":1,"code":[["for",0,1,9,2],["print",0],["next",0],["ret"]]}]}"#;

/// The sum of the numbers up to the square of the one that main is given, and to ten at most.
const SUM_TO_SQUARE: &str =
    r#"{"version":2,"shared":[],"units":[{"kind":"main","params":"n","slots":4,"code":[["lit",1,0],["mul",3,0,0],["forto",2,1,3,10,4],["add",1,1,2],["next",2],["print",1],["ret"]]}]}"#;

/// As many activities on a clock as main is given, and three at most.
const AS_MANY: &str =
    r#"{"version":2,"shared":[],"units":[{"kind":"main","params":"n","slots":4,"code":[["make",1],["copy",3,0],["forto",2,1,3,3,4],["spawn",1,[1]],["next",2],["advance"],["ret"]]},{"kind":"body","params":"c","slots":1,"code":[["advance"],["ret"]]}]}"#;

/// Programs whose main takes numbers, and such numbers: a loop ends early, at its bound, and before it begins.
pub fn given() -> [(&'static str, &'static [i64]); 4] {
    [
        (SUM_TO_SQUARE, &[3]),
        (SUM_TO_SQUARE, &[0]),
        (AS_MANY, &[2]),
        (AS_MANY, &[7]),
    ]
}

/// Programs that the verifier accepts: of one activity, of several, and with shared numbers; fifty activities that a loop starts; and a run of some
/// thousand steps.
pub fn accepted() -> [&'static str; 19] {
    [
        SUM_AND_PHASE,
        r#"{"version":1,"shared":[7,-7],"units":[{"kind":"main","params":"","slots":1,"code":[["make",0],["resume",0],["resume",0],["advance"],["drop",0],["ret"]]}]}"#,
        r#"{"version":1,"shared":[],"units":[{"kind":"main","params":"","slots":1,"code":[["advance"],["lit",0,7],["print",0],["ret"]]}]}"#,
        r#"{"version":1,"shared":[],"units":[{"kind":"main","params":"","slots":2,"code":[["make",0],["make",1],["resume",1],["call",1,[0]],["resume",1],["ret"]]},{"kind":"method","params":"c","slots":1,"code":[["advance"],["ret"]]}]}"#,
        r#"{"version":1,"shared":[],"units":[{"kind":"main","params":"","slots":1,"code":[["lit",0,2],["call",1,[0]],["call",1,[0]],["print",0],["ret"]]},{"kind":"method","params":"n","slots":2,"code":[["add",0,0,0],["call",2,[0]],["print",0],["ret"]]},{"kind":"method","params":"n","slots":60,"code":[["add",59,0,0],["print",59],["ret"]]}]}"#,
        r#"{"version":1,"shared":[],"units":[{"kind":"main","params":"","slots":1,"code":[["for",0,-1,1,2],["call",1,[0]],["next",0],["ret"]]},{"kind":"method","params":"n","slots":2,"code":[["make",1],["print",0],["drop",1],["ret"]]}]}"#,
        r#"{"version":1,"shared":[],"units":[{"kind":"main","params":"","slots":1,"code":[["for",0,1,2,5],["finish",4],["finish",3],["endfinish",2],["endfinish",1],["next",0],["call",1,[]],["print",0],["ret"]]},{"kind":"method","params":"","slots":1,"code":[["finish",3],["make",0],["drop",0],["endfinish",0],["ret"]]}]}"#,
        PAIR,
        r#"{"version":1,"shared":[],"units":[{"kind":"main","params":"","slots":1,"code":[["make",0],["spawn",1,[0]],["resume",0],["spawn",2,[0]],["advance"],["ret"]]},{"kind":"body","params":"c","slots":1,"code":[["advance"],["ret"]]},{"kind":"body","params":"c","slots":2,"code":[["advance"],["lit",1,3],["print",1],["ret"]]}]}"#,
        RING,
        r#"{"version":1,"shared":[],"units":[{"kind":"main","params":"","slots":2,"code":[["lit",0,5],["make",1],["spawn",1,[0,1,0]],["lit",0,7],["print",0],["ret"]]},{"kind":"body","params":"ncn","slots":4,"code":[["add",3,0,2],["drop",1],["print",3],["ret"]]}]}"#,
        r#"{"version":1,"shared":[],"units":[{"kind":"main","params":"","slots":2,"code":[["make",0],["spawn",1,[0]],["for",1,1,2,4],["call",2,[0,1]],["next",2],["call",3,[0]],["advance"],["ret"]]},{"kind":"body","params":"c","slots":2,"code":[["for",1,1,2,2],["call",2,[0,1]],["next",0],["drop",0],["ret"]]},{"kind":"method","params":"cn","slots":2,"code":[["resume",0],["print",1],["advance"],["ret"]]},{"kind":"method","params":"c","slots":1,"code":[["resume",0],["ret"]]}]}"#,
        r#"{"version":1,"shared":[],"units":[{"kind":"main","params":"","slots":1,"code":[["make",0],["call",1,[0]],["call",1,[0]],["advance"],["ret"]]},{"kind":"method","params":"c","slots":3,"code":[["make",1],["spawn",2,[1,0]],["resume",0],["advance"],["lit",2,3],["print",2],["drop",1],["ret"]]},{"kind":"body","params":"cc","slots":2,"code":[["resume",0],["advance"],["drop",1],["advance"],["ret"]]}]}"#,
        r#"{"version":1,"shared":[],"units":[{"kind":"main","params":"","slots":1,"code":[["finish",2],["spawn",1,[]],["endfinish",0],["lit",0,2],["print",0],["ret"]]},{"kind":"body","params":"","slots":0,"code":[["spawn",2,[]],["ret"]]},{"kind":"body","params":"","slots":1,"code":[["lit",0,1],["print",0],["ret"]]}]}"#,
        r#"{"version":1,"shared":[],"units":[{"kind":"main","params":"","slots":1,"code":[["finish",4],["make",0],["spawn",1,[0]],["drop",0],["endfinish",0],["ret"]]},{"kind":"body","params":"c","slots":1,"code":[["advance"],["ret"]]}]}"#,
        r#"{"version":1,"shared":[],"units":[{"kind":"main","params":"","slots":2,"code":[["make",0],["for",1,1,2,3],["call",1,[0,1]],["next",1],["ret"]]},{"kind":"method","params":"cn","slots":3,"code":[["finish",7],["make",2],["spawn",2,[2,1]],["resume",2],["spawn",2,[2,1]],["advance"],["drop",2],["endfinish",0],["resume",0],["ret"]]},{"kind":"body","params":"cn","slots":2,"code":[["advance"],["print",1],["ret"]]}]}"#,
        r#"{"version":1,"shared":[0],"units":[{"kind":"main","params":"","slots":2,"code":[["finish",4],["for",0,1,3,3],["spawn",1,[0]],["next",1],["endfinish",0],["get",1,0],["print",1],["ret"]]},{"kind":"body","params":"n","slots":1,"code":[["addto",0,0],["ret"]]}]}"#,
        r#"{"version":1,"shared":[],"units":[{"kind":"main","params":"","slots":1,"code":[["for",0,1,50,2],["spawn",1,[]],["next",0],["ret"]]},{"kind":"body","params":"","slots":0,"code":[["ret"]]}]}"#,
        r#"{"version":1,"shared":[],"units":[{"kind":"main","params":"","slots":1,"code":[["for",0,1,3000,1],["next",0],["print",0],["ret"]]}]}"#,
    ]
}

/// Programs that the verifier refuses, by rules on shape, on kinds and on bounds.
pub fn refused() -> [&'static str; 16] {
    [
        r#"{"version":1,"shared":[],"units":[{"kind":"main","params":"","slots":1,"code":[["drop",0],["ret"]]}]}"#,
        r#"{"version":1,"shared":[],"units":[{"kind":"main","params":"","slots":1,"code":[["make",0],["lit",0,1],["ret"]]}]}"#,
        r#"{"version":1,"shared":[],"units":[{"kind":"main","params":"","slots":1,"code":[["lit",1,1],["ret"]]}]}"#,
        r#"{"version":1,"shared":[],"units":[{"kind":"main","params":"","slots":1,"code":[["make",0],["spawn",2,[0]],["ret"]]},{"kind":"body","params":"c","slots":1,"code":[["ret"]]}]}"#,
        r#"{"version":1,"shared":[],"units":[{"kind":"main","params":"","slots":1,"code":[["make",0],["spawn",1,[0,0]],["ret"]]},{"kind":"body","params":"cc","slots":2,"code":[["ret"]]}]}"#,
        r#"{"version":1,"shared":[],"units":[{"kind":"main","params":"","slots":1,"code":[["make",0],["drop",0],["spawn",1,[0]],["ret"]]},{"kind":"body","params":"c","slots":1,"code":[["ret"]]}]}"#,
        r#"{"version":1,"shared":[],"units":[{"kind":"main","params":"","slots":0,"code":[["call",1,[]],["ret"]]},{"kind":"method","params":"","slots":1,"code":[["make",0],["ret"]]}]}"#,
        r#"{"version":1,"shared":[],"units":[{"kind":"main","params":"","slots":1,"code":[["make",0],["call",1,[0]],["ret"]]},{"kind":"method","params":"c","slots":1,"code":[["drop",0],["ret"]]}]}"#,
        r#"{"version":1,"shared":[],"units":[{"kind":"main","params":"","slots":1,"code":[["make",0],["drop",0],["call",1,[0]],["ret"]]},{"kind":"method","params":"c","slots":1,"code":[["ret"]]}]}"#,
        r#"{"version":1,"shared":[],"units":[{"kind":"main","params":"","slots":1,"code":[["finish",2],["jump",3],["endfinish",0],["ret"]]}]}"#,
        r#"{"version":1,"shared":[],"units":[{"kind":"main","params":"","slots":1,"code":[["make",0],["drop",0],["finish",5],["make",0],["drop",0],["endfinish",2],["ret"]]}]}"#,
        r#"{"version":1,"shared":[],"units":[{"kind":"main","params":"","slots":1,"code":[["make",0],["finish",3],["spawn",1,[0]],["endfinish",1],["advance"],["ret"]]},{"kind":"body","params":"c","slots":1,"code":[["advance"],["ret"]]}]}"#,
        r#"{"version":1,"shared":[],"units":[{"kind":"main","params":"","slots":1,"code":[["finish",3],["make",0],["spawn",1,[0]],["endfinish",0],["ret"]]},{"kind":"body","params":"c","slots":1,"code":[["advance"],["ret"]]}]}"#,
        r#"{"version":1,"shared":[],"units":[{"kind":"main","params":"","slots":1,"code":[["for",0,1,999999999,1],["next",0],["ret"]]}]}"#,
        r#"{"version":2,"shared":[],"units":[{"kind":"main","params":"","slots":1,"code":[["forto",0,1,0,3,1],["next",0],["ret"]]}]}"#,
        r#"{"version":2,"shared":[],"units":[{"kind":"main","params":"c","slots":1,"code":[["drop",0],["ret"]]}]}"#,
    ]
}

/// Programs, each with what its main is given and a log, and whether that is of a whole run. The others break a rule on logs: on lines, on where the text ends, on who
/// can step, on where a run ends.
pub fn logs() -> [(&'static str, &'static [i64], &'static str, bool); 9] {
    [
        (PAIR, &[], "x10log 1\n0 3\n1 1\n0 4\n1 4\nend 4\n", true),
        (
            RING,
            &[],
            "x10log 1\n0 7\n1 1\n2 1\n3 1\n1 2\n2 2\n3 2\n1 2\n2 2\n3 2\nend 10\n",
            true,
        ),
        (NINE, &[], "x10log 1\n0 20\nend 1\n", true),
        (SUM_TO_SQUARE, &[3], "x10log 1\n0 23\nend 1\n", true),
        (SUM_TO_SQUARE, &[4], "x10log 1\n0 23\nend 1\n", false),
        (PAIR, &[], "x10log 1\n0 3\n0 0\nend 2\n", false),
        (PAIR, &[], "x10log 1\n0 3\n1 1\n", false),
        (PAIR, &[], "x10log 1\n0 3\n0 1\nend 2\n", false),
        (PAIR, &[], "x10log 1\n0 3\nend 1\n", false),
    ]
}

/// Source texts, and whether they have a module. The others break a rule on tokens, on syntax, on names, on recursion, on tables.
pub fn texts() -> [(&'static str, bool); 7] {
    [
        (
            "def main() { val c = Clock.make(); var x: Long = -(1 + 2) * 3; if (x < 4) x = 5; else { c.resume(); } async clocked(c) { Clock.advanceAll(); } c.drop(); }",
            true,
        ),
        (
            "def h(n: Long) { Console.OUT.println(n); } def main(k: Long) { for (i in 1..Math.min(k, 9)) { h(i * 2); finish async { Console.OUT.println(i); } } }",
            true,
        ),
        ("def main() { # }", false),
        ("def main() { val x = ; }", false),
        (
            "def main() { val x = 1; async { val y = x; z = y; } }",
            false,
        ),
        (
            "def f() { g(); } def g() { async { f(); } } def main() { f(); }",
            false,
        ),
        ("def main() { for (i in 1..Math.min(i, 3)) { } }", false),
    ]
}
