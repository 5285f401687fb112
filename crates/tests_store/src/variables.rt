//! Variables that are set, as bytes, and read again.
use crate::spelling::{is, text};
use std::alloc::Global;
use tks_codec_variables::{put_variables, variables_of};
use tks_text::{Seq, Txt};
use tks_vars::{Parameter, Procedure, Vars};

// An array `a` with the elements `k`, `v`, and `l`, empty; a scalar `x`, 5; a procedure `p` with a parameter `a`, a
// parameter `b`, by default 1, and the body `set a`.
const BYTES: &[u8] =
    b"\x00\x00\x00\x02\x00\x00\x00\x01a\x01\x00\x00\x00\x02\x00\x00\x00\x01k\x00\x00\x00\x01v\x00\x00\x00\x01l\x00\x00\x00\x00\x00\x00\x00\x01x\x00\x00\x00\x00\x015\x00\x00\x00\x01\x00\x00\x00\x01p\x00\x00\x00\x02\x00\x00\x00\x01a\x00\x00\x00\x00\x01b\x01\x00\x00\x00\x011\x00\x00\x00\x05set a";

// Nothing at all.
const NOTHING: &[u8] = b"\x00\x00\x00\x00\x00\x00\x00\x00";

// The procedure.
fn procedure(alloc: Global) -> Option<Procedure> {
    let mut params = Seq::new(alloc);
    let first = Parameter {
        name: text(alloc, b"a")?,
        default: None,
    };
    params.push(first).ok()?;
    let one = text(alloc, b"1")?;
    let second = Parameter {
        name: text(alloc, b"b")?,
        default: Some(one),
    };
    params.push(second).ok()?;
    Some(Procedure {
        params,
        body: text(alloc, b"set a")?,
    })
}

// Gives a variable a value.
fn set(alloc: Global, vars: &mut Vars, name: &[u8], value: &[u8]) -> Option<()> {
    vars.set(&text(alloc, name)?, &text(alloc, value)?).ok()
}

// Gives the variables their values and the procedure its own, out of order.
fn set_all(alloc: Global, vars: &mut Vars) -> Option<()> {
    set(alloc, vars, b"x", b"5")?;
    set(alloc, vars, b"a(l)", b"")?;
    set(alloc, vars, b"a(k)", b"v")?;
    vars.set_procedure(&text(alloc, b"p")?, procedure(alloc)?)
        .ok()
}

// Variables as bytes.
fn spelled(alloc: Global, vars: &Vars) -> Option<Vec<u8>> {
    let mut out = Vec::new(alloc);
    put_variables(&mut out, vars).ok()?;
    Some(out)
}

// What is read, as bytes again.
fn again(alloc: Global, bytes: &[u8]) -> Option<Vec<u8>> {
    let (vars, rest) = variables_of(alloc, bytes).ok()?;
    if !rest.is_empty() {
        return None;
    }
    spelled(alloc, &vars)
}

// Whether variables that are set come to these bytes.
fn set_is(alloc: Global, bytes: &[u8]) -> bool {
    let mut vars = Vars::new(alloc);
    set_all(alloc, &mut vars).is_some() && is(spelled(alloc, &vars), bytes)
}

// The value of an element that was read.
fn element(alloc: Global) -> Option<Txt> {
    let (vars, _) = variables_of(alloc, BYTES).ok()?;
    let value = vars.get(&text(alloc, b"a(k)")?).ok()?;
    value.try_clone().ok()
}

// Whether that is `v`.
fn element_is_v(alloc: Global) -> bool {
    match element(alloc) {
        Some(value) => value.as_bytes() == b"v".as_slice(),
        None => false,
    }
}

#[test]
fn set_and_written(rt: HostRuntime) {
    assert!(rt; set_is(rt.alloc(), BYTES));
    assert!(rt; is(spelled(rt.alloc(), &Vars::new(rt.alloc())), NOTHING));
}

#[test]
fn read_and_written(rt: HostRuntime) {
    assert!(rt; is(again(rt.alloc(), BYTES), BYTES));
    assert!(rt; is(again(rt.alloc(), NOTHING), NOTHING));
    assert!(rt; element_is_v(rt.alloc()));
}
