// What lies behind a turnstile, and what is done in one turn.
ghost use Rattle.std.specs.Prelude.{◌≡◌, ℕ, List, length, Option};
ghost use Rattle.turnstile.specs.Records.{followed};

/// A value that stands for a base and a list of records.
pub trait Held {
    /// What the value was made from.
    type Base;

    /// What one turn adds.
    type Record;

    ghost stands_for: { Self → Self.Base → List Self.Record → Type 0 };

    // The number of its records.
    ghost record_count: { Self → ℕ };

    ghost counted: { (x : Self) (base : Self.Base) (records : List Self.Record)
        → stands_for x base records → length records ≡ record_count x };
}

/// What is done in one turn.
pub trait Job<T: Held> {
    type Out;

    // What a run did: by the job, the value that it found, its answer and the value that it left.
    ghost ran: { Self → T → Self.Out → T → Type 0 };

    // The record that a run made, or none: by the job, its answer and the value that it left.
    ghost made: { Self → Self.Out → T → Option T.Record };

    /// The value then stands for the records that it stood for, followed by the record that this run made.
    fn run(self, state: &mut T) -> Self::Out
        ensures ran { ran self state.old result state.new }
        ensures stands { (base : T.Base) (records : List T.Record) → T.stands_for state.old base records
            → T.stands_for state.new base (followed records (made self result state.new)) };
}
