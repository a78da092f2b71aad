use std::marker::Model;

/// What is counted of the work of a sweep over edges. Each number stays at the greatest `u64` once
/// it is there.
#[derive(Clone, Copy, Debug, PartialEq, Eq)]
pub struct Count {
    tests: u64,
    probes: u64,
    visits: u64,
}

impl Model for Count {
    ghost use Rattle.mvt_plane.specs.Counted.{Counted};

    ghost Value = { Counted };

    ghost view = { λ count. record {
      tests = count.tests;
      probes = count.probes;
      visits =
          count.visits;
    } };

    ghost inverse = { λ counted.
        record { tests = counted.tests; probes = counted.probes; visits = counted.visits } };
}

impl Count {
    ghost use Rattle.std.specs.Prelude.{◌≡◌, ◌+◌, ◌-◌, ◌^◌, ◌≤◌, min};
    ghost use Rattle.mvt_plane.specs.Counted.{Counted, ticked};

    /// Nothing is counted yet.
    pub fn new() -> Count
        ensures { result ≡ record { tests = 0; probes = 0; visits = 0 } }
    {
        Count {
            tests: 0,
            probes: 0,
            visits: 0,
        }
    }

    /// How often two edges were tested for a common point.
    pub fn tests(&self) -> u64
        ensures { result ≡ self.now.tests }
    {
        self.tests
    }

    /// How often an edge was held against a position, as to find a place in the status, or against
    /// up to four other edges at once.
    pub fn probes(&self) -> u64
        ensures { result ≡ self.now.probes }
    {
        self.probes
    }

    /// How many nodes of the status were visited.
    pub fn visits(&self) -> u64
        ensures { result ≡ self.now.visits }
    {
        self.visits
    }

    /// Counts a test of two edges.
    pub fn tick_test(&mut self)
        ensures tests { self.new.tests ≡ ticked self.old.tests }
        ensures no_fewer { self.old.tests ≤ self.new.tests }
        ensures probes { self.new.probes ≡ self.old.probes }
        ensures visits { self.new.visits ≡ self.old.visits }
    {
        self.tests = self.tests.saturating_add(1);
    }

    /// Counts a comparison of an edge with a position.
    pub fn tick_probe(&mut self)
        ensures tests { self.new.tests ≡ self.old.tests }
        ensures probes { self.new.probes ≡ ticked self.old.probes }
        ensures no_fewer { self.old.probes ≤ self.new.probes }
        ensures visits { self.new.visits ≡ self.old.visits }
    {
        self.probes = self.probes.saturating_add(1);
    }

    /// Counts so many comparisons of an edge with a position, or with up to four other edges at once.
    pub fn tick_probes(&mut self, many: u64)
        ensures tests { self.new.tests ≡ self.old.tests }
        ensures probes { self.new.probes ≡ min (self.old.probes + many) (2 ^ 64 - 1) }
        ensures no_fewer { self.old.probes ≤ self.new.probes }
        ensures visits { self.new.visits ≡ self.old.visits }
    {
        self.probes = self.probes.saturating_add(many);
    }

    /// Counts a visit of a node.
    pub fn tick_visit(&mut self)
        ensures tests { self.new.tests ≡ self.old.tests }
        ensures probes { self.new.probes ≡ self.old.probes }
        ensures visits { self.new.visits ≡ ticked self.old.visits }
        ensures no_fewer { self.old.visits ≤ self.new.visits }
    {
        self.visits = self.visits.saturating_add(1);
    }

    /// Counts so many visits of nodes.
    pub fn tick_visits(&mut self, many: u64)
        ensures tests { self.new.tests ≡ self.old.tests }
        ensures probes { self.new.probes ≡ self.old.probes }
        ensures visits { self.new.visits ≡ min (self.old.visits + many) (2 ^ 64 - 1) }
        ensures no_fewer { self.old.visits ≤ self.new.visits }
    {
        self.visits = self.visits.saturating_add(many);
    }
}
