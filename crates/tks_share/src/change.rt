//! What changes a value where it stands.
/// A change of a value where it stands.
pub trait Change<V> {
    /// What is told of it.
    type Answer;

    // what the value before becomes, and what is told
    ghost gives: { Self → V → V → Self.Answer → Type 0 };

    /// Changes the value. It is asked for once.
    fn change(&mut self, value: &mut V) -> Self::Answer
        ensures { gives self.old value.old value.new result };
}
