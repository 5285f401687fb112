//! What commands answer of a list that was read, without the text that splits into it.
ghost use Rattle.std.specs.Prelude.{◌≡◌, List, ℕ, [], ◌∷◌, codes, IfSome, Some};
ghost use Rattle.tks_list.specs.Reading.{list_of};
ghost use Rattle.tks_vars.specs.Variables.{Variables};
ghost use Rattle.tks_tcl.specs.Plain.{Answers, plain};

use crate::elements::{lindex_of, llength_of, lrange_of};
use std::alloc::Global;
use tks_list::Elements;
use tks_text::{Limits, Txt, fits};

/// What `lindex` answers of any text that splits into this list, and an index. None where that is an error or passes the limit,
/// or where memory is refused.
#[tactic(auto, using(crate::proofs::Answering::lindex_answers))]
pub fn lindex_answer(alloc: Global, list: &Elements, index: &Txt, limits: &Limits) -> Option<Txt>
    ensures { IfSome result (λ t. (text : List ℕ) → (variables : Variables) → list_of text ≡ Some list.now → plain limits.now (codes "lindex" ∷ text ∷ index.now ∷ []) variables ≡ Some (Answers 0 t variables)) }
{
    let Ok(text) = lindex_of(alloc, list, index) else {
        return None;
    };
    if fits(&text, limits) {
        Some(text)
    } else {
        None
    }
}

/// The same of `llength`.
#[tactic(auto, using(crate::proofs::Answering::llength_answers))]
pub fn llength_answer(alloc: Global, list: &Elements, limits: &Limits) -> Option<Txt>
    ensures { IfSome result (λ t. (text : List ℕ) → (variables : Variables) → list_of text ≡ Some list.now → plain limits.now (codes "llength" ∷ text ∷ []) variables ≡ Some (Answers 0 t variables)) }
{
    let Ok(text) = llength_of(alloc, list) else {
        return None;
    };
    if fits(&text, limits) {
        Some(text)
    } else {
        None
    }
}

/// The same of `lrange`, and two indices.
#[tactic(auto, using(crate::proofs::Answering::lrange_answers))]
pub fn lrange_answer(
    alloc: Global,
    list: &Elements,
    first: &Txt,
    last: &Txt,
    limits: &Limits,
) -> Option<Txt>
    ensures { IfSome result (λ t. (text : List ℕ) → (variables : Variables) → list_of text ≡ Some list.now → plain limits.now (codes "lrange" ∷ text ∷ first.now ∷ last.now ∷ []) variables ≡ Some (Answers 0 t variables)) }
{
    let Ok(text) = lrange_of(alloc, list, first, last) else {
        return None;
    };
    if fits(&text, limits) {
        Some(text)
    } else {
        None
    }
}

/// The text that a `return` of this text ends with, by code 2. None where it passes the limit, or where memory is refused.
#[tactic(auto, using(crate::proofs::Answering::return_answers))]
pub fn return_answer(text: &Txt, limits: &Limits) -> Option<Txt>
    ensures { IfSome result (λ t. (variables : Variables) → plain limits.now (codes "return" ∷ text.now ∷ []) variables ≡ Some (Answers 2 t variables)) }
{
    if !fits(text, limits) {
        return None;
    }
    match text.try_clone() {
        Ok(text) => Some(text),
        Err(_) => None,
    }
}
