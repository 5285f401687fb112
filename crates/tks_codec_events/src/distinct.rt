//! Lists whose members differ, told by keys.
ghost use Rattle.std.specs.Prelude.{◌≡◌, ℕ, ◌||◌, not, List, IfOk, OnOk};
ghost use Rattle.tks_text.specs.Text.{same_text};
ghost use Rattle.tks_bind.specs.Distinct.{all_differ};
ghost use Rattle.tks_codec_events.specs.Keys.{Tells, has_key};

use std::alloc::{AllocError, Global};
use std::collections::BTreeSet;

/// A key of a list's members: bytes by which they are told apart.
pub trait Key<T> {
    ghost use Rattle.std.specs.Prelude.{ℕ, Bool, List, OnOk};
    ghost use Rattle.tks_spelling.specs.Writing.{PutsSo};

    // whether two may stand in one list
    ghost differ: { Self → T → T → Bool };

    ghost bytes: { Self → T → List ℕ };

    // which members are told by it
    ghost IsTold: { Self → T → Type 0 };

    /// Adds the key of one.
    fn put(&self, out: &mut Vec<u8>, member: &T) -> Result<(), AllocError>
        ensures puts { PutsSo result out.old.items out.new.items (bytes self.now member.now) }
        ensures told { OnOk result (IsTold self.now member.now) };
}

// Keeps a member's key with those that were seen, and says whether it is new there.
fn add_key<T, K: Key<T>>(
    alloc: Global,
    seen: &mut BTreeSet<Vec<u8>>,
    key: &K,
    member: &T,
) -> Result<bool, AllocError>
    ensures told { OnOk result (K.IsTold key.now member.now) }
    ensures is_new { IfOk result (λ is_new. is_new ≡ not (has_key seen.old (K.bytes key.now member.now))) }
    ensures kept { OnOk result ((k : List ℕ) → has_key seen.new k ≡ (same_text (K.bytes key.now member.now) k || has_key seen.old k)) }
{
    let mut bytes = Vec::new(alloc);
    key.put(&mut bytes, member)?;
    let is_new = seen.insert(bytes)?;
    Ok(is_new)
}

/// Whether each differs from those behind it, as their keys do. It costs a look-up among the keys seen so far for each
/// member, and the memory of its key until it returns.
pub fn all_differ<T, K: Key<T>>(alloc: Global, key: &K, members: &[T]) -> Result<bool, AllocError>
    requires { Tells (K.differ key.now) (K.bytes key.now) (K.IsTold key.now) }
    ensures { IfOk result (λ b. b ≡ all_differ (K.differ key.now) members.now) }
{
    let mut seen = BTreeSet::new(alloc);
    for member in members {
        if !add_key(alloc, &mut seen, key, member)? {
            return Ok(false);
        }
    }
    Ok(true)
}
