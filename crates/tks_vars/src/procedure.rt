//! Procedures and their parameters, and the arguments of a call.

use tks_text::{Seq, Txt};

/// A parameter of a procedure, and the value that it has where a call gives none.
#[derive(Drop)]
pub struct Parameter {
    pub name: Txt,
    pub default: Option<Txt>,
}

/// A parameter's name, and the value that a call gives it. `Arguments` keeps them as a frame's entries, and contracts see these.
#[derive(Drop)]
pub struct Argument {
    pub name: Txt,
    pub value: Txt,
}

/// A procedure.
#[derive(Drop)]
pub struct Procedure {
    pub params: Seq<Parameter>,
    pub body: Txt,
}
