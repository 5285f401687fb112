//! The commands that run no script, called by themselves, also under narrow limits.

use std::alloc::Global;
use tks_tcl::{ListTable, is_built_in, plain};
use tks_text::{Limits, Seq, Txt};
use tks_vars::Vars;

// Adds the characters of a text.
pub fn push_text(shown: &mut String, text: &Txt) -> Option<()> {
    for byte in text.as_bytes() {
        shown.push(*byte as char).ok()?;
    }
    Some(())
}

// What a command answers, its words with bars between them: its code and its text, `none`, or why it stops.
fn answer(
    alloc: Global,
    lists: &mut ListTable,
    variables: &mut Vars,
    words: &str,
    limits: &Limits,
) -> Option<String> {
    let mut given = Seq::new(alloc);
    for word in words.split('|') {
        given
            .push(Txt::from_bytes(alloc, word.as_bytes()).ok()?)
            .ok()?;
    }
    match plain(alloc, lists, variables, given.as_slice(), limits) {
        Ok(Some((code, text))) => {
            let mut shown = format!(in alloc; "{code} ").ok()?;
            push_text(&mut shown, &text)?;
            Some(shown)
        }
        Ok(None) => String::from_str(alloc, "none").ok(),
        Err(stop) => format!(in alloc; "{stop}").ok(),
    }
}

// Whether the command of a row, before its `=`, answers what stands behind that.
fn answers(
    alloc: Global,
    lists: &mut ListTable,
    variables: &mut Vars,
    row: &str,
    limits: &Limits,
) -> Option<bool> {
    let (words, want) = row.split_once('=')?;
    Some(answer(alloc, lists, variables, words, limits)?.as_str() == want)
}

#[test]
fn limits_are_kept(rt: HostRuntime) {
    let limits = Limits {
        text: 8,
        items: 2,
        ..Limits::format1()
    };
    let mut lists = ListTable::new(rt.alloc());
    let mut variables = Vars::new(rt.alloc());
    let rows =
        "set|a|1234567=0 1234567\nappend|a|8=0 12345678\nappend|a|9=too large\nset|a=0 12345678\n\
         set|a|123456789=too large\nlappend|a|b=too large\nlist|1234|56789=too large\nlist|1234|567=0 1234 567\n\
         error|123456789=too large\nreturn|123456789=too large\nset|nope=1 E11 nope\nset|wrong=too large\n\
         set|missing=too large\nunset|a|missing=too large\nset|b(x)|1=0 1\nset|c|1=too large\nset|b(y)|1=0 1\n\
         set|b(z)|1=too large\nincr|c=too large\nset|b(y)|2=0 2\nglobal|a|b=0 \nexpr|1=none\nfoo=none\n=none";
    for row in rows.lines() {
        assert_eq!(rt;
            answers(rt.alloc(), &mut lists, &mut variables, row, &limits),
            Some(true),
            "at {row}"
        );
    }
    assert!(rt; variables.push_frame().is_ok());
    let rows = "global|a|b|c=too large\nset|a|1=0 1\nglobal|b=0 \nglobal|c=too large\nglobal|b=0 ";
    for row in rows.lines() {
        assert_eq!(rt;
            answers(rt.alloc(), &mut lists, &mut variables, row, &limits),
            Some(true),
            "at {row}"
        );
    }
    assert!(rt;
        matches!(
            &plain(rt.alloc(), &mut lists, &mut variables, &[], &limits),
            Ok(None)
        )
    );
}

// Whether each row answers what it should, with lists that are kept from one row to the next.
fn all_answer(alloc: Global, lists: &mut ListTable, rows: &str) -> Option<bool> {
    let limits = Limits::format1();
    let mut variables = Vars::new(alloc);
    for row in rows.lines() {
        if !answers(alloc, lists, &mut variables, row, &limits)? {
            return Some(false);
        }
    }
    Some(true)
}

// Whether lists that differ in their last element alone, more than are kept, are each read right.
fn many_answer(alloc: Global, lists: &mut ListTable) -> Option<bool> {
    for last in 10..40 {
        let row = format!(in alloc;
            "lindex|alpha beta gamma delta epsilon {last}|end=0 {last}"
        ).ok()?;
        if !all_answer(alloc, lists, row.as_str())? {
            return Some(false);
        }
    }
    Some(true)
}

#[test]
fn lists_are_read_right_again(rt: HostRuntime) {
    let mut lists = ListTable::new(rt.alloc());
    let rows =
        "lindex|alpha beta gamma delta epsilon zeta|5=0 zeta\nlindex|alpha beta gamma delta epsilon zeta|5=0 zeta\n\
         lindex|alpha beta gamma delta epsilon iota|5=0 iota\nlindex|alpha beta gamma delta epsilon zeta|end=0 zeta\n\
         llength|alpha beta gamma delta epsilon iota=0 6\nlrange|alpha beta gamma delta epsilon zeta|1|2=0 beta gamma\n\
         lsearch|-exact|alpha beta gamma delta epsilon iota|iota=0 5\n\
         lsearch|-exact|alpha beta gamma delta epsilon zeta|iota=0 -1\n\
         join|alpha beta gamma delta epsilon iota|+=0 alpha+beta+gamma+delta+epsilon+iota\n\
         llength|alpha beta gamma delta epsilon {zeta=1 E15\nllength|alpha beta gamma delta epsilon {zeta=1 E15";
    assert_eq!(rt; all_answer(rt.alloc(), &mut lists, rows), Some(true));
    assert_eq!(rt; many_answer(rt.alloc(), &mut lists), Some(true));
    assert_eq!(rt; many_answer(rt.alloc(), &mut lists), Some(true));
    assert_eq!(rt; all_answer(rt.alloc(), &mut lists, rows), Some(true));
}

// Whether a name is that of a built-in command.
fn is_taken(alloc: Global, name: &[u8]) -> Option<bool> {
    Some(is_built_in(&Txt::from_bytes(alloc, name).ok()?))
}

#[test]
fn the_root_is_no_built_in_command(rt: HostRuntime) {
    assert_eq!(rt; is_taken(rt.alloc(), b"."), Some(false));
    assert_eq!(rt; is_taken(rt.alloc(), b"tk_focusNext"), Some(true));
}
