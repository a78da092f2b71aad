use std::marker::Model;

/// A fault's place in the order of faults: ten numbers, compared one by one from the first on.
/// Of two faults the one with the lesser place is reported.
#[derive(Clone, Copy, Debug, PartialEq, Eq, PartialOrd, Ord)]
pub struct Place {
    numbers: [usize; 10],
}

impl Model for Place {
    ghost use Rattle.std.specs.Prelude.{List, ℕ};

    ghost Value = { List ℕ };

    ghost view = { λ place. place.numbers };

    ghost inverse = { λ numbers. record { numbers = numbers } };
}

impl Place {
    ghost use Rattle.std.specs.Prelude.{◌≡◌};

    pub(crate) fn new(numbers: [usize; 10]) -> Place
        ensures { result ≡ numbers }
    {
        Place { numbers }
    }
}
