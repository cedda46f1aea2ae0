ghost use Rattle.std.specs.Prelude.{◌≡◌, ℕ};

/// An item with two lengths and a number.
pub trait Measured: Drop {
    ghost before: { Self → ℕ };

    ghost after: { Self → ℕ };

    ghost first: { Self → ℕ };

    /// Its length before.
    fn before(&self) -> u32
        ensures { result ≡ before self.now };

    /// Its length after.
    fn after(&self) -> u32
        ensures { result ≡ after self.now };

    /// Its number.
    fn first(&self) -> u64
        ensures { result ≡ first self.now };
}

/// What is added up of the items in front of a place: one each, or one of their lengths.
#[derive(Clone, Copy)]
pub(crate) enum Measure {
    Places,
    Before,
    After,
}
