//! Laws of the choice among bindings.
ghost use Rattle.std.specs.Prelude.{List, ℕ, true, [], ◌∷◌, ◌≡◌, ◌↔◌};
ghost use Rattle.tks_list.specs.ListText.{Splits};
ghost use Rattle.tks_event.specs.Event.{Event};
ghost use Rattle.tks_event.specs.declared.pattern.Pattern.{Pattern};
ghost use Rattle.tks_bind.specs.Binding.{Content, bound};
ghost use Rattle.tks_bind.specs.Others.{other_bindings, other_events};
ghost use Rattle.tks_bind.specs.Percents.{has_field, field_text, value, percents};
ghost use Rattle.tks_bind.specs.Pieces.{Replaced};
ghost use Rattle.tks_bind.specs.VirtualEvents.{added, deleted, deleted_sequence};
ghost use Rattle.tks_bind.specs.declared.virtual_event.VirtualEvent.{VirtualEvent};
ghost use Rattle.tks_bind.specs.declared.field.Field.{Field};
ghost use Rattle.tks_bind.specs.Choice.{Way, Beats, Unbeaten};
ghost use Rattle.tks_bind.specs.Chosen.{Scene, ChosenSo};
ghost use Rattle.tks_bind.specs.Choosing.{chosen};

/// No way to meet a binding beats itself, and one that beats another beats all that this one beats.
#[tactic(auto, using(crate::proofs::Order::never_itself, crate::proofs::Order::beats_along))]
pub fn beating_is_an_order()
    ensures irreflexive { (a : Way) → ¬ Beats a a }
    ensures transitive { (a b c : Way) → Beats a b → Beats b c → Beats a c }
{}

/// Of ways to meet bindings, where there is one, there is one that none of them beats.
#[tactic(auto, using(crate::proofs::Winner::one_wins))]
pub fn some_way_is_unbeaten()
    ensures { (first : Way) (ways : List Way) → (w : Way) × Unbeaten w (first ∷ ways) }
{}

/// What is put into a script for a field of an event is one element of a list, and the element is the field's value.
#[tactic(auto, using(crate::proofs::Values::value_splits))]
pub fn values_stand_for_themselves()
    ensures { (e : Event) (path : List ℕ) (f : Field) → has_field e.kind f ≡ true → Splits (value e path f) (field_text e path f ∷ []) }
{}

/// A script is replaced from left to right: each percent sign with the character behind it gives way to what they stand for,
/// and all else stays as it is.
#[tactic(auto, using(crate::proofs::Pieces::replaced_so))]
pub fn forms_are_found_from_left_to_right()
    ensures { (e : Event) (path script made : List ℕ) → Replaced e path script made ↔ (percents e path script ≡ made) }
{}

/// Binding a script changes the binding of its tag and sequence alone: the others stay, in their order.
#[tactic(auto, using(crate::proofs::Others::bound_stays))]
pub fn other_bindings_stay()
    ensures { (tag : List ℕ) (sequence : List Pattern) (script : List ℕ) (c : Content) → other_bindings tag sequence (bound tag sequence script c).bindings ≡ other_bindings tag sequence c.bindings }
{}

/// Adding a sequence to a virtual event, and taking one or all away, changes the one of its name alone: the others stay, in
/// their order.
#[tactic(auto, using(crate::proofs::Others::added_stays, crate::proofs::Others::deleted_stays, crate::proofs::Others::sequence_stays))]
pub fn other_virtual_events_stay()
    ensures added { (name : List ℕ) (sequence : List Pattern) (vs : List VirtualEvent) → other_events name (added name sequence vs) ≡ other_events name vs }
    ensures deleted { (name : List ℕ) (vs : List VirtualEvent) → other_events name (deleted name vs) ≡ other_events name vs }
    ensures deleted_sequence { (name : List ℕ) (sequence : List Pattern) (vs : List VirtualEvent) → other_events name (deleted_sequence name sequence vs) ≡ other_events name vs }
{}

/// The binding that an event fires is, of those that it meets by a way that none beats, the one that was set last; and
/// none is fired only where it meets none.
pub fn chosen_is_the_choice()
    ensures { (s : Scene) → ChosenSo s (chosen s) }
{}
