// What every key kind is.
ghost use Rattle.std.specs.Prelude.{◌≡◌, Bool};
ghost use Rattle.keys.specs.Sameness.{Lawful};

// A lawful key kind: every impl owes that its sameness is reflexive, symmetric and transitive.
pub trait Key: Copy {
    ghost same: { Self → Self → Bool };

    // Whether the two keys are the same.
    fn same_as(&self, other: &Self) -> bool
        ensures { result ≡ same self.now other.now };

    ghost lawful: { Lawful same };
}
