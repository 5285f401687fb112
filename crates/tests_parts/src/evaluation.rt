//! Scripts on a second host, also under narrow limits.

use crate::commands::push_text;
use crate::counter::Counter;
use std::alloc::Global;
use tks_eval::{Ended, Host, Plan, eval, eval_plan};
use tks_parse::parse;
use tks_parse_table::ParseTable;
use tks_tcl::Stop;
use tks_text::{Limits, Seq, Txt};
use tks_vars::Vars;

// How a script ends on a host from nothing. A script that can't be held is one that stops for want of memory.
fn ended(alloc: Global, host: &mut Counter, script: &Txt, limits: &Limits) -> Result<Ended, Stop> {
    let script = parse(alloc, script)?;
    let mut parsed = ParseTable::new(alloc);
    eval(
        alloc,
        host,
        &mut Vars::new(alloc),
        &mut parsed,
        script,
        limits,
    )
}

// What a script comes to: its code and its text, or why it stops.
fn end(alloc: Global, script: &str, limits: &Limits) -> Option<String> {
    let script = Txt::from_bytes(alloc, script.as_bytes()).ok()?;
    match ended(alloc, &mut Counter { alloc, count: 0 }, &script, limits) {
        Ok(
            Ended {
                code,
                text,
                fuel: _,
            },
        ) => {
            let mut shown = format!(in alloc; "{code} ").ok()?;
            push_text(&mut shown, &text)?;
            Some(shown)
        }
        Err(stop) => format!(in alloc; "{stop}").ok(),
    }
}

// Whether the script of a row comes to what stands behind its arrow.
fn ends_so(alloc: Global, row: &str, limits: &Limits) -> Option<bool> {
    let (script, want) = row.split_once(" => ")?;
    Some(end(alloc, script, limits)?.as_str() == want)
}

// What tclsh makes of scripts at global level (tools/rows/global_level.tcl).
fn rows_of_tcl() -> &'static str {
    "set n 5; proc f {} {set n 1; top {set n}}; f => 0 5\n\
set n 5; proc f {} {set n 1; top {set n 2}; set n}; list [f] $n => 0 1 2\n\
proc f {} {set n 1; top {info exists n}}; f => 0 0\n\
proc f {} {top {global x; set x 3}; info exists x}; list [f] $x => 0 0 3\n\
proc f {} {top {set a(k) 7}; global a; set a(k)}; f => 0 7\n\
set n 9; proc g {} {set n 1; top {set n}}; proc f {n} {top g}; f 4 => 0 9\n\
proc f {} {set n 1; top {proc g {} {global n; incr n}}; list [g] [g] $n}; set n 6; f => 0 7 8 1\n\
set n 5; proc f {n} {top {top {incr n}}; set n}; list [f 1] $n => 0 1 6\n\
proc f {n} {foreach x {1 2 3} {if {$x == 2} {top break}}; list $x $n}; f 4 => 0 2 4\n\
proc f {} {foreach x {1 2 3} {top continue; lappend r $x}; info exists r}; f => 0 0\n\
proc f {n} {list [catch {top {set n 8; error e}} m] $m $n}; list [f 1] $n => 0 {1 e 1} 8\n\
top {set a 1}; set a => 0 1\n\
top {} => 0 "
}

// What this project's rules make of commands of the host.
fn own_rows() -> &'static str {
    "up; up; zero => 0 \n\
top {return v} => 0 v\n\
proc f {} {top {return v}; list after}; f => 0 after\n\
proc f {n} {set x [top {set n 2; return $n}]; list $x $n}; f 1 => 0 2 1\n\
catch {top {return v}} => 0 0\n\
top break => 3 \n\
top {set q} => 1 E11 q\n\
proc up {} {} => 1 E17 up\n\
proc top {} {} => 1 E17 top\n\
proc nest {n} {set s up; while {$n > 0} {set s [list top $s]; incr n -1}; set s}; eval [nest 30] => 0 \n\
proc nest {n} {set s up; while {$n > 0} {set s [list top $s]; incr n -1}; set s}; eval [nest 31] => scripts too deep in one another\n\
proc f {} {top f}; catch f => scripts too deep in one another\n\
foreach x {1 2} {return $x} => 2 1\n\
for {} 1 {continue} {} => 4 "
}

// What this project's rules make of what waits in the host: each thing runs at global level, whatever it ends with, an error
// joins the faults, and the next one is asked for then.
fn rows_of_updates() -> &'static str {
    "all => 0 \n\
up; all; set n 0 => 0 0\n\
up; up; up; all; set n => 0 2\n\
up; up; up; up; idle; set n => 0 2\n\
up; up; idle; info exists n => 0 0\n\
proc f {} {set n 7; up; up; all; set n}; list [f] $n => 0 7 1\n\
list [all] x => 0 {} x\n\
foreach x {1 2 3 4 5} up; all; info exists n => 0 0\n\
foreach x {1 2 3 4 5 6} up; all; all; up; info exists n => 0 0\n\
foreach x {1 2 3 4 5 6 7 8 9} up; all; set n => 0 1\n\
for {set i 0} {$i < 21} {incr i} {up}; all => too large\n\
for {set i 0} {$i < 21} {incr i} {up}; catch all => too large\n\
for {set i 0} {$i < 1001} {incr i} {up}; all; info exists n => 0 0"
}

#[test]
fn scripts_on_a_second_host(rt: HostRuntime) {
    let limits = Limits::format1();
    for row in rows_of_tcl().lines() {
        assert_eq!(rt; ends_so(rt.alloc(), row, &limits), Some(true), "at {row}");
    }
    for row in own_rows().lines() {
        assert_eq!(rt; ends_so(rt.alloc(), row, &limits), Some(true), "at {row}");
    }
    for row in rows_of_updates().lines() {
        assert_eq!(rt; ends_so(rt.alloc(), row, &limits), Some(true), "at {row}");
    }
}

// What tclsh makes of scripts that come to the same however deep they stand, as a list of code and text
// (tools/rows/nested_scripts.tcl).
fn rows_of_nested() -> &'static str {
    "list a [list b [list c]] => 0 {a {b c}}\n\
set k 2; set a($k) 7; expr {$a([list $k]) + [expr {1 + [list 2]}]} => 0 10\n\
set c(1) x; set b \"<$c([list 1])>\"; list $b$c(1) => 0 <x>x\n\
list {*}[list a b] [lindex {x y} 1] => 0 {a b y}\n\
eval list [list a] {[list b]} => 0 {a b}\n\
if {[list 0]} {list a} elseif {[list 1]} {list [list b]} else {list c} => 0 b\n\
set r {}; foreach x {1 2 3 4} {if {$x == 2} {continue}; if {[expr {$x == 4}]} {break}; lappend r [list $x]}; set r => 0 {1 3}\n\
set r {}; for {set i [list 0]} {[list $i] < 3} {incr i [list 1]} {lappend r [list $i]}; set r => 0 {0 1 2}\n\
for {set i 0} 1 {incr i; if {$i == 2} break} {if {$i > 5} {return no}}; set i => 0 2\n\
set i 0; while {[list $i] < 5} {incr i; if {$i == 3} {return [list $i]}} => 2 3\n\
proc f {x} {if {[list $x] > 2} {return [list big $x]} else {list small [list $x]}}; list [f 1] [f 3] => 0 {{small 1} {big 3}}\n\
proc f {n} {if {$n < 2} {return $n}; expr {[f [expr {$n - 1}]] + [f [expr {$n - 2}]]}}; f 3 => 0 2\n\
list [catch {error [list e]} m] $m [catch {break}] => 0 {1 e 3}\n\
foreach x {1 2} {error [list at $x]} => 1 {at 1}\n\
set x [catch {foreach y {1 2} {return [list $y]}} m]; list $x $m => 0 {2 1}"
}

// The script that makes such a list, where it is the same behind up to 21 `eval` in one another.
const NEST: &str =
    "proc nest {levels script} {for {set level 0} {$level < $levels} {incr level} {set script [list eval $script]}; set script}; set script {";

const TRY: &str =
    "}; set wanted [list [catch $script text] $text]; for {set deep 1} {$deep < 22} {incr deep} {set found [list [catch [nest $deep $script] text] $text]; if {![string equal $found $wanted]} {error [list $deep $found]}}; set wanted";

// Whether the script of a row comes to what stands behind its arrow, however deep it stands.
fn ends_so_nested(alloc: Global, row: &str, limits: &Limits) -> Option<bool> {
    let (script, want) = row.split_once(" => ")?;
    let nested = format!(in alloc; "{NEST}{script}{TRY}").ok()?;
    let want = format!(in alloc; "0 {want}").ok()?;
    Some(end(alloc, nested.as_str(), limits)?.as_str() == want.as_str())
}

// Scripts nest deeper here than they are run where they stand.
#[test]
fn scripts_come_to_the_same_however_deep(rt: HostRuntime) {
    let limits = Limits::format1();
    for row in rows_of_nested().lines() {
        assert_eq!(rt;
            ends_so_nested(rt.alloc(), row, &limits),
            Some(true),
            "at {row}"
        );
    }
    let own = "set n 5; top {set n} => 0 5\n\
proc h {} {set n 1; top {set n 2}; set n}; list [h] $n => 0 {1 2}\n\
proc h {} {top {return [list v]}; list after}; h => 0 after";
    for row in own.lines() {
        assert_eq!(rt;
            ends_so_nested(rt.alloc(), row, &limits),
            Some(true),
            "at {row}"
        );
    }
}

// Scripts under 3 steps, 3 scripts open, texts of 12 bytes and lists of 2 members.
fn rows_of_limits() -> &'static str {
    "up; up; up => 0 \n\
up; up; up; up => out of steps\n\
catch {up; up} => 0 0\n\
catch {up; up; up} => out of steps\n\
foreach x {1} {up} => 0 \n\
foreach x {1} {up; up} => out of steps\n\
list [list [list a]] => 0 a\n\
list [list [list [list a]]] => scripts too deep in one another\n\
list 12345678901[list 2] => 0 123456789012\n\
list 12345678901[list 23] => too large\n\
list 123456789012 => 0 123456789012\n\
list 1234567890123 => too large\n\
list a {1234567890123} => too large\n\
if 1 {list 123456789} => too large\n\
eval list 1234567 => 0 1234567\n\
eval list 12345678 => too large\n\
set a 1; set b 2; set c 3 => too large\n\
proc f {} {}; proc g {} {}; proc h {} {} => too large\n\
proc f {a b c} {}; f 1 2 3 => too large\n\
up; all => 0 \n\
up; up; all => out of steps\n\
catch {up; up; all} => out of steps\n\
top {up; up} => 0 \n\
top {up; up; up} => out of steps\n\
top {top {}} => 0 \n\
top {top {top {}}} => scripts too deep in one another\n\
catch {top {top {}}} => scripts too deep in one another\n\
if 1 {up} => 0 \n\
if 1 {up; up} => out of steps\n\
if 0 {} elseif 1 {} => 0 \n\
if 0 {} elseif 1 {up} => out of steps\n\
up; if + {} => 1 E20\n\
up; up; if + {} => out of steps\n\
for {up} 0 {} {} => 0 \n\
for {up; up} 0 {} {} => out of steps\n\
expr 1234 + 12345 => 0 13579\n\
expr 12345 + 12345 => too large"
}

#[test]
fn limits_stop_scripts(rt: HostRuntime) {
    let limits = Limits {
        fuel: 3,
        depth: 3,
        text: 12,
        items: 2,
        pending: 64,
    };
    for row in rows_of_limits().lines() {
        assert_eq!(rt; ends_so(rt.alloc(), row, &limits), Some(true), "at {row}");
    }
}

// Whether a host keeps what its commands did, and the steps are counted.
fn counts(alloc: Global) -> Option<bool> {
    let mut host = Counter { alloc, count: 0 };
    let script = Txt::from_bytes(alloc, b"up; foreach x {a b} {up}").ok()?;
    let fuel = ended(alloc, &mut host, &script, &Limits::format1())
        .ok()?
        .fuel;
    let is_there = host.alive(4) && !host.alive(3);
    let owned = host.owns(&Txt::from_bytes(alloc, b"up").ok()?);
    Some(fuel == 9_994 && host.count == 3 && is_there && owned)
}

// The count and the steps left behind a script.
fn left_behind(alloc: Global, script: &str) -> Option<(u32, u64)> {
    let mut host = Counter { alloc, count: 0 };
    let script = Txt::from_bytes(alloc, script.as_bytes()).ok()?;
    let ended = ended(alloc, &mut host, &script, &Limits::format1()).ok()?;
    Some((host.count, ended.fuel))
}

// Worked out by hand: each thing is a step before its script runs, which an empty one hasn't; a fault makes the count 1000.
const UPDATES: [(&str, u32, u64); 6] = [
    ("all", 0, 9_999),
    ("up; all", 0, 9_997),
    ("up; up; up; all", 0, 9_991),
    ("up; up; up; idle", 2, 9_994),
    ("foreach x {1 2 3 4 5} up; all", 1000, 9_986),
    ("foreach x {1 2 3 4 5 6 7} up; all", 1000, 9_980),
];

#[test]
fn things_that_wait_take_steps(rt: HostRuntime) {
    for (script, count, left) in UPDATES {
        assert_eq!(rt;
            left_behind(rt.alloc(), script),
            Some((count, left)),
            "at {script}"
        );
    }
}

#[test]
fn steps_and_states_are_counted(rt: HostRuntime) {
    assert_eq!(rt; counts(rt.alloc()), Some(true));
}

// The count and the steps left behind a thing that waited, by its plan, where it ends with code 0 and the empty text.
fn done(alloc: Global, plan: Plan) -> Option<(u32, u64)> {
    let mut host = Counter { alloc, count: 0 };
    let limits = Limits::format1();
    let mut parsed = ParseTable::new(alloc);
    let ended = eval_plan(
        alloc,
        &mut host,
        &mut Vars::new(alloc),
        &mut parsed,
        plan,
        &limits,
    )
    .ok()?;
    if ended.code == 0 && ended.text.is_empty() {
        Some((host.count, ended.fuel))
    } else {
        None
    }
}

// The same of the scripts of an event, ` | ` between them, for the window of a number.
fn dispatched(alloc: Global, window: u64, scripts: &str) -> Option<(u32, u64)> {
    let mut chosen = Seq::new(alloc);
    for script in scripts.split(" | ") {
        chosen
            .push(Txt::from_bytes(alloc, script.as_bytes()).ok()?)
            .ok()?;
    }
    done(alloc, Plan::Dispatch(window, chosen))
}

// The same of a script.
fn run_later(alloc: Global, script: &str) -> Option<(u32, u64)> {
    let script = Txt::from_bytes(alloc, script.as_bytes()).ok()?;
    done(alloc, Plan::Eval(script))
}

// Worked out by hand from the rule: each script is a step, `break` and a window that is gone end them, an error joins
// the faults and ends them, `continue` and `return` go on.
const EVENTS: [(u64, &str, u32, u64); 8] = [
    (9, "up | up", 2, 9_996),
    (9, "up; up | up", 3, 9_995),
    (2, "up | up | up", 2, 9_996),
    (0, "up", 0, 10_000),
    (9, "up | break | up", 1, 9_996),
    (9, "up | continue | up", 2, 9_994),
    (9, "up | return | up", 2, 9_994),
    (9, "up | error e | up", 1000, 9_996),
];

#[test]
fn scripts_of_an_event(rt: HostRuntime) {
    for (window, scripts, count, left) in EVENTS {
        assert_eq!(rt;
            dispatched(rt.alloc(), window, scripts),
            Some((count, left)),
            "at {scripts}"
        );
    }
}

// Worked out by hand from the rule: it ends as a script at top level, and an error joins the faults.
const LATER: [(&str, u32, u64); 5] = [
    ("up", 1, 9_999),
    ("up; return x; up", 1, 9_998),
    ("up; error e", 1000, 9_998),
    ("up; break", 1000, 9_998),
    ("up; continue", 1000, 9_998),
];

#[test]
fn scripts_that_waited(rt: HostRuntime) {
    for (script, count, left) in LATER {
        assert_eq!(rt;
            run_later(rt.alloc(), script),
            Some((count, left)),
            "at {script}"
        );
    }
}
