/// A value that keeps a log: a ground, which no call on the value changes, and entries, each of one seat.
pub trait Logged {
    ghost use Rattle.std.specs.Prelude.{◌≡◌, ℕ, List, length};

    /// What the ground is, in plain form. No value of it need be made.
    type Ground;

    /// What an entry is, in plain form. No value of it need be made.
    type Entry;

    ghost ground_of: { Self → Self.Ground };

    ghost entries: { Self → List Self.Entry };

    ghost seat_of: { Self.Entry → ℕ };

    /// The number of entries.
    fn length(&self) -> u64
        ensures { result ≡ length (entries self.now) };
}
