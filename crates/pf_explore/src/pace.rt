//! Whether an exploration goes on.

/// Says whether an exploration goes on.
pub trait Pace {
    ghost use Rattle.std.specs.Prelude.{◌≡◌, Bool, false, true};

    /// Whether it may end an exploration.
    ghost may_stop: { Self → Bool };

    /// Whether one run more is made.
    fn goes_on(&mut self) -> bool
        ensures stops { result ≡ false → may_stop self.old ≡ true }
        ensures same { may_stop self.new ≡ may_stop self.old };
}
