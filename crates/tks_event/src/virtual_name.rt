//! Names of virtual events.
ghost use Rattle.std.specs.Prelude.{◌≡◌, true};
ghost use Rattle.tks_event.specs.Sequences.{is_name};

use std::marker::Model;
use tks_text::Txt;

/// The name of a virtual event, without its brackets: one or more printing characters other than space, `<` and `>`.
#[derive(Drop)]
pub struct VirtualName {
    name: Txt,
}

impl Model for VirtualName {
    ghost use Rattle.std.specs.Prelude.{◌≡◌, ℕ, List, true};
    ghost use Rattle.tks_event.specs.Sequences.{is_name};

    ghost Value = { List ℕ };

    ghost view = { λ n. n.name };

    ghost invariant = { λ n. is_name n.name ≡ true };
}

impl VirtualName {
    /// A text as a name.
    pub fn new(name: Txt) -> VirtualName
        requires { is_name name ≡ true }
        ensures { result ≡ name }
    {
        VirtualName { name }
    }

    /// The name as a text.
    pub fn text(&self) -> &Txt
        ensures value { result.now ≡ self.now }
        ensures legal { is_name self.now ≡ true }
    {
        &self.name
    }
}
