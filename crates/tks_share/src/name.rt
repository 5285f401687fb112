//! Names, and how they stand to each other.
ghost use Rattle.std.specs.Prelude.{◌≡◌, IfOk};
ghost use Rattle.tks_share.specs.Names.{order, head_of};

use std::alloc::{AllocError, Global};
use std::cmp::Ordering;
use std::marker::Model;

// How many bytes of a name its head has.
const HEAD_LEN: usize = 8;

/// The bytes of a name.
#[derive(Drop)]
pub struct Name {
    // The first of them as a number, by which most names are told apart.
    head: u64,
    bytes: Vec<u8>,
}

impl Model for Name {
    ghost use Rattle.std.specs.Prelude.{◌≡◌, List, ℕ};
    ghost use Rattle.tks_share.specs.Names.{head_of, IsBytes};

    ghost Value = { List ℕ };

    ghost view = { λ n. n.bytes.items };

    ghost invariant = { λ n. (n.head ≡ head_of n.bytes.items) × IsBytes n.bytes.items };
}

/// The bytes of a name that is looked for.
#[derive(Drop)]
pub(crate) struct Sought<'a> {
    head: u64,
    bytes: &'a [u8],
}

impl<'a> Model for Sought<'a> {
    ghost use Rattle.std.specs.Prelude.{◌≡◌, List, ℕ};
    ghost use Rattle.tks_share.specs.Names.{head_of, IsBytes};

    ghost Value = { List ℕ };

    ghost view = { λ s. s.bytes.now };

    ghost invariant = { λ s. (s.head ≡ head_of s.bytes.now) × IsBytes s.bytes.now };
}

impl<'a> Sought<'a> {
    /// What to look for to find a name of these bytes.
    pub(crate) fn new(bytes: &'a [u8]) -> Sought<'a>
        ensures { result ≡ bytes.now }
    {
        Sought {
            head: head_of(bytes),
            bytes,
        }
    }
}

impl Name {
    /// The name that is looked for.
    pub(crate) fn new(alloc: Global, sought: &Sought) -> Result<Name, AllocError>
        ensures { IfOk result (λ n. n ≡ sought.now) }
    {
        Ok(Name {
            head: sought.head,
            bytes: Vec::from_slice(alloc, sought.bytes)?,
        })
    }

    /// The bytes.
    pub fn as_bytes(&self) -> &[u8]
        ensures { result.now ≡ self.now }
    {
        self.bytes.as_slice()
    }

    /// What to look for to find this name.
    pub(crate) fn sought(&self) -> Sought<'_>
        ensures { result ≡ self.now }
    {
        Sought {
            head: self.head,
            bytes: self.bytes.as_slice(),
        }
    }

    /// How the name that is looked for stands to this one in the order of names.
    pub(crate) fn stands(&self, sought: &Sought) -> Ordering
        ensures { result ≡ order sought.now self.now }
    {
        // Two tests tell a fork's side at once; an answer of `cmp` is tested again at each fork.
        if sought.head < self.head {
            return Ordering::Less;
        }
        if sought.head > self.head {
            return Ordering::Greater;
        }
        stands_behind_head(sought.bytes, self.bytes.as_slice())
    }
}

// The first eight bytes as a number, the first of them highest, with zeros for those that are missing. Names whose numbers
// differ stand to each other as those do.
fn head_of(bytes: &[u8]) -> u64
    ensures { result ≡ head_of bytes.now }
{
    match bytes {
        [a, b, c, d, e, f, g, h, ..] => u64::from_be_bytes([*a, *b, *c, *d, *e, *f, *g, *h]),
        [a, b, c, d, e, f, g] => u64::from_be_bytes([*a, *b, *c, *d, *e, *f, *g, 0]),
        [a, b, c, d, e, f] => u64::from_be_bytes([*a, *b, *c, *d, *e, *f, 0, 0]),
        [a, b, c, d, e] => u64::from_be_bytes([*a, *b, *c, *d, *e, 0, 0, 0]),
        [a, b, c, d] => u64::from_be_bytes([*a, *b, *c, *d, 0, 0, 0, 0]),
        [a, b, c] => u64::from_be_bytes([*a, *b, *c, 0, 0, 0, 0, 0]),
        [a, b] => u64::from_be_bytes([*a, *b, 0, 0, 0, 0, 0, 0]),
        [a] => u64::from_be_bytes([*a, 0, 0, 0, 0, 0, 0, 0]),
        [] => 0,
    }
}

// How names with the same head stand to each other. Never inlined, so that `stands` is: most forks that a look-up comes by have
// another head.
#[inline(never)]
fn stands_behind_head(sought: &[u8], name: &[u8]) -> Ordering
    requires { head_of sought.now ≡ head_of name.now }
    ensures { result ≡ order sought.now name.now }
{
    // Where one of them ends within the head, the longer begins with the shorter and goes on with zeros.
    if sought.len() <= HEAD_LEN || name.len() <= HEAD_LEN {
        return sought.len().cmp(&name.len());
    }
    // Most names that are looked up are there, and to be equal costs less to find than an order.
    if sought == name {
        return Ordering::Equal;
    }
    sought.cmp(name)
}
