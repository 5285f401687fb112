//! Texts: lists of the bytes that may stand in one.
ghost use Rattle.std.specs.Prelude.{◌≡◌, ℕ, ◌↔◌, ◌++◌, [], ◌∷◌, ◌==◌, take, drop, Some, position, length, IfOk, OnOk, OnErr, not, true, false};
ghost use Rattle.tks_text.specs.Short.{IsShort};
ghost use Rattle.tks_text.specs.Text.{is_text_byte, is_text, begins_dot, IsText};

use crate::bytes::Bytes;
use crate::list::Seq;
use std::alloc::{AllocError, Global};
use std::hash::{Hash, Hasher};
use std::marker::Model;
use thiserror::Error;

/// A text: fewer than 2^32 bytes, each of which is a tab, a newline or a printing character of ASCII (32 to 126). What would
/// be longer is refused as memory is. Copies share their bytes, so that to make one takes no memory; a change copies them
/// first, where others hold them too. Contracts see the list of its bytes.
#[derive(Debug)]
pub struct Txt {
    bytes: Bytes,
}

// Written out, so that to let go of it is one step for whoever owns it.
impl Drop for Txt {
    fn drop(self) {
        let Txt { bytes: _ } = self;
    }
}

impl Model for Txt {
    ghost use Rattle.std.specs.Prelude.{List, ℕ};
    ghost use Rattle.tks_text.specs.Short.{IsShort};
    ghost use Rattle.tks_text.specs.Text.{IsText};

    ghost Value = { List ℕ };

    ghost view = { λ t. t.bytes };

    ghost invariant = { λ t. IsText t.bytes × IsShort t.bytes };
}

/// Why bytes make no text.
#[derive(Debug, Drop, Error)]
pub enum TxtFault {
    /// An allocation was refused.
    #[error("out of memory")]
    NoMemory,
    /// The byte at this position, counted from 0, stands in no text.
    #[error("the byte at position {0} stands in no text")]
    Byte(usize),
}

/// Whether a byte may stand in a text.
pub fn is_text_byte(byte: u8) -> bool
    ensures { result ≡ is_text_byte byte }
{
    byte == b'\t' || byte == b'\n' || (32 <= byte && byte <= 126)
}

/// Whether a text begins with a dot, as paths of windows do.
pub fn begins_dot(text: &[u8]) -> bool
    ensures { result ≡ begins_dot text.now }
{
    matches!(text, [b'.', ..])
}

/// Whether each of the bytes may stand in a text, so that they are one.
#[tactic(auto, using(crate::proofs::Texts::text_from_all))]
pub fn is_text(bytes: &[u8]) -> bool
    ensures value { result ≡ is_text bytes.now }
    ensures text { result ≡ true → IsText bytes.now }
{
    bytes.iter().all(|byte| is_text_byte(*byte))
}

// The position of the first byte that stands in no text.
fn first_bad(bytes: &[u8]) -> Option<usize>
    ensures { result ≡ position (λ b. not (is_text_byte b)) bytes.now }
{
    bytes.iter().position(|byte| !is_text_byte(*byte))
}

impl Txt {
    /// The empty text.
    pub fn new(alloc: Global) -> Txt
        ensures { result ≡ [] }
    {
        Txt {
            bytes: Bytes::new(alloc),
        }
    }

    /// The text that these bytes are.
    pub(crate) fn of(bytes: Bytes) -> Txt
        requires text { IsText bytes }
        requires short { IsShort bytes }
        ensures { result ≡ bytes }
    {
        Txt { bytes }
    }

    /// The text of these bytes. `Byte` names the first that stands in no text.
    #[tactic(auto, using(crate::proofs::Texts::text_from_none))]
    pub fn from_bytes(alloc: Global, bytes: &[u8]) -> Result<Txt, TxtFault>
        ensures ok { IfOk result (λ t. t ≡ bytes.now) }
        ensures text { OnOk result (IsText bytes.now) }
        ensures byte { (p : ℕ) → (result ≡ Err (TxtFault.Byte p)) ↔ (position (λ b. not (is_text_byte b)) bytes.now ≡ Some p) }
    {
        if let Some(place) = first_bad(bytes) {
            return Err(TxtFault::Byte(place));
        }
        match Txt::from_text(alloc, bytes) {
            Ok(text) => Ok(text),
            Err(_) => Err(TxtFault::NoMemory),
        }
    }

    /// The text of bytes that the caller knows to be one.
    pub fn from_text(alloc: Global, bytes: &[u8]) -> Result<Txt, AllocError>
        requires { IsText bytes.now }
        ensures { IfOk result (λ t. t ≡ bytes.now) }
    {
        Ok(Txt {
            bytes: Bytes::of(alloc, bytes)?,
        })
    }

    /// Adds a byte at the end. `Byte` has the position that it would have had.
    #[tactic(auto, using(crate::proofs::Texts::text_push))]
    pub fn push(&mut self, byte: u8) -> Result<(), TxtFault>
        ensures ok { OnOk result (self.new ≡ self.old ++ byte ∷ []) }
        ensures err { OnErr result (self.new ≡ self.old) }
        ensures byte { (p : ℕ) → (result ≡ Err (TxtFault.Byte p)) ↔ ((p ≡ length self.old) × (is_text_byte byte ≡ false)) }
    {
        if !is_text_byte(byte) {
            return Err(TxtFault::Byte(self.bytes.len()));
        }
        match self.push_byte(byte) {
            Ok(()) => Ok(()),
            Err(_) => Err(TxtFault::NoMemory),
        }
    }

    /// Adds a byte that the caller knows to stand in texts.
    #[tactic(auto, using(crate::proofs::Texts::text_push))]
    pub fn push_byte(&mut self, byte: u8) -> Result<(), AllocError>
        requires { is_text_byte byte ≡ true }
        ensures ok { OnOk result (self.new ≡ self.old ++ byte ∷ []) }
        ensures err { OnErr result (self.new ≡ self.old) }
    {
        self.bytes.push(byte)
    }

    /// Adds bytes, which are a text, at the end.
    #[tactic(auto, using(crate::proofs::Texts::text_append))]
    pub fn push_bytes(&mut self, bytes: &[u8]) -> Result<(), AllocError>
        requires { IsText bytes.now }
        ensures ok { OnOk result (self.new ≡ self.old ++ bytes.now) }
        ensures err { OnErr result (self.new ≡ self.old) }
    {
        self.bytes.append(bytes)
    }

    /// Adds a text at the end.
    pub fn append(&mut self, more: &Txt) -> Result<(), AllocError>
        ensures ok { OnOk result (self.new ≡ self.old ++ more.now) }
        ensures err { OnErr result (self.new ≡ self.old) }
    {
        self.push_bytes(more.as_bytes())
    }

    /// Adds the first `count` bytes of a text at the end, or all where there are fewer.
    #[tactic(auto, using(crate::proofs::Texts::text_append_take))]
    pub fn append_front(&mut self, more: &Txt, count: usize) -> Result<(), AllocError>
        ensures ok { OnOk result (self.new ≡ self.old ++ take count more.now) }
        ensures err { OnErr result (self.new ≡ self.old) }
    {
        let bytes = more.as_bytes();
        let count = count.min(bytes.len());
        self.bytes.append(&bytes[..count])
    }

    /// Adds what is behind the first `count` bytes of a text at the end, or nothing where there are fewer.
    #[tactic(auto, using(crate::proofs::Texts::text_append_drop))]
    pub fn append_behind(&mut self, more: &Txt, count: usize) -> Result<(), AllocError>
        ensures ok { OnOk result (self.new ≡ self.old ++ drop count more.now) }
        ensures err { OnErr result (self.new ≡ self.old) }
    {
        let bytes = more.as_bytes();
        let bytes = &bytes[count.min(bytes.len())..];
        self.bytes.append(bytes)
    }

    /// The bytes.
    pub fn as_bytes(&self) -> &[u8]
        ensures value { result.now ≡ self.now }
        ensures text { IsText self.now }
        ensures short { IsShort self.now }
    {
        self.bytes.as_slice()
    }

    /// How many bytes there are.
    pub fn len(&self) -> usize
        ensures { result ≡ length self.now }
    {
        self.bytes.len()
    }

    /// Whether there is no byte.
    pub fn is_empty(&self) -> bool
        ensures { result ≡ (length self.now == 0) }
    {
        self.len() == 0
    }

    /// An equal text.
    pub fn try_clone(&self) -> Result<Txt, AllocError>
        ensures { IfOk result (λ t. t ≡ self.now) }
    {
        Ok(Txt {
            bytes: self.bytes.share()?,
        })
    }
}

impl Clone for Txt {
    ghost use Rattle.std.specs.Prelude.{◌≡◌};

    ghost is_clone = { λ t copy. copy ≡ t };

    fn clone(&self) -> Result<Txt, AllocError> {
        let copy = self.try_clone()?;
        Ok(copy)
    }
}

impl PartialEq for Txt {
    ghost use Rattle.tks_text.specs.Text.{same_text};
    ghost use Rattle.std.specs.Cmp.{partial_equiv_from_equiv};
    ghost use Rattle.std.specs.Cmp.Lexicographic.{nat_list_eq_equiv};

    ghost eq = { same_text };

    ghost laws = { partial_equiv_from_equiv nat_list_eq_equiv };

    fn eq(&self, other: &Txt) -> bool {
        self.as_bytes() == other.as_bytes()
    }
}

impl Eq for Txt {
    ghost use Rattle.std.specs.Cmp.Lexicographic.{nat_list_eq_equiv};

    ghost laws = { nat_list_eq_equiv };
}

impl Hash for Txt {
    ghost use Rattle.std.proofs.Common.{rules};
    ghost use Rattle.std.specs.Cmp.Rules.{hashing};
    ghost use Rattle.std.specs.Hash.{slice, u8};

    ghost hash_input = { slice u8 };

    ghost respects_eq = { Prim.search (hashing, rules) };

    fn hash<H: Hasher>(&self, state: &mut H) {
        self.as_bytes().hash(state);
    }
}

/// Equal texts.
pub fn texts_again(alloc: Global, texts: &[Txt]) -> Result<Seq<Txt>, AllocError>
    ensures { IfOk result (λ copies. copies ≡ texts.now) }
{
    let mut copies = Seq::new(alloc);
    for text in texts {
        copies.push(text.try_clone()?)?;
    }
    Ok(copies)
}
