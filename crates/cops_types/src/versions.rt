ghost use Rattle.std.specs.Prelude.{◌≡◌, ◌+◌, ◌*◌, ◌<◌, ◌≤◌, ◌^◌, Some, ok_or};
ghost use Rattle.std.proofs.Common.{rules, refl};
ghost use Rattle.std.specs.Cmp.Rules.{comparing};
ghost use Rattle.std.specs.Ordering.{as_partial_cmp};
ghost use Rattle.cops_types.specs.Layout.{NODES, number_of_version, version_of_number};
ghost use Rattle.cops_types.specs.Words.{version_text};
ghost use Rattle.cops_types.specs.Version.{version_eq, version_cmp, version_max, no_version, next_version, last_clock};

use crate::faults::Fault;
use std::cmp::Ordering;
use std::fmt;
use std::marker::Model;

/// A version is a Lamport timestamp: a clock, and the node that issued it. Contracts see that pair.
#[derive(Clone, Copy, Debug)]
pub struct Version {
    bits: u64,
}

impl Model for Version {
    ghost use Rattle.cops_types.specs.Version.{Timestamp};

    ghost Value = { Timestamp };

    ghost use Rattle.std.specs.Prelude.{◌+◌, ◌*◌, ◌/◌, ◌%◌};
    ghost use Rattle.cops_types.specs.Layout.{NODES, bits_of-unpacked};

    ghost view = { λ v. record { clock = v.bits / NODES; node = v.bits % NODES } };

    ghost inverse = { λ t. record { bits = NODES * t.clock + t.node } };

    ghost inverse_ok = { λ v h. bits_of-unpacked v.bits };
}

impl Version {
    /// The number of node numbers: a node has the last 16 bits of a version.
    pub const NODES: u64 = 1 << 16;

    /// The greatest clock: it has the other 48 bits.
    pub const LAST_CLOCK: u64 = (1 << 48) - 1;

    /// Returns the version 0.0, which stands for none.
    pub fn none() -> Self
        ensures { result ≡ no_version }
    {
        Version { bits: 0 }
    }

    /// Returns the version of a clock and a node.
    pub fn of(clock: u64, node: u64) -> Self
        requires clock_fits { clock ≤ last_clock }
        requires node_fits { node < NODES }
        ensures { result ≡ record { clock = clock; node = node } }
    {
        Version {
            bits: clock * Self::NODES + node,
        }
    }

    pub fn clock(self) -> u64
        ensures value { result ≡ self.clock }
        ensures fits { result ≤ last_clock }
    {
        self.bits / Self::NODES
    }

    pub fn node(self) -> u64
        ensures { result ≡ self.node }
    {
        self.bits % Self::NODES
    }

    /// Returns the node, as an index into a list of all nodes.
    pub fn place(self) -> usize
        ensures value { result ≡ self.node }
        ensures small { result < NODES }
    {
        (self.bits % Self::NODES) as usize
    }

    /// Returns the version as one number, as frames write it.
    pub fn to_u64(self) -> u64
        ensures { result ≡ number_of_version self }
    {
        self.bits
    }

    /// Returns the version that a number represents.
    pub fn from_u64(bits: u64) -> Self
        ensures { result ≡ version_of_number bits }
    {
        Version { bits }
    }

    /// Returns the greater of two versions.
    pub fn greater(self, other: Version) -> Self
        ensures { result ≡ version_max self other }
    {
        if self <= other { other } else { self }
    }

    /// Returns the version that a node issues after two clocks. Fails with a `Fault` if the clock
    /// is exhausted.
    pub fn next(clock: u64, deps_clock: u64, node: u64) -> Result<Self, Fault>
        requires clock_fits { clock ≤ last_clock }
        requires deps_clock_fits { deps_clock ≤ last_clock }
        requires node_fits { node < NODES }
        ensures { result ≡ ok_or (next_version clock deps_clock node) Fault.ClockFull }
    {
        let greatest = clock.max(deps_clock);
        if greatest < Self::LAST_CLOCK {
            Ok(Version::of(greatest + 1, node))
        } else {
            Err(Fault::ClockFull)
        }
    }
}

impl PartialEq for Version {
    ghost eq = { version_eq };

    ghost laws = { Prim.search (comparing, rules) };

    fn eq(&self, other: &Version) -> bool {
        self.bits == other.bits
    }
}

impl Eq for Version {
    ghost laws = { Prim.search (comparing, rules) };
}

impl Ord for Version {
    ghost cmp = { version_cmp };

    ghost total = { Prim.search (comparing, rules) };

    ghost matches_partial_cmp = { Prim.search (comparing, rules) };

    ghost matches_eq = { Prim.search (comparing, rules) };

    fn cmp(&self, other: &Version) -> Ordering {
        self.bits.cmp(&other.bits)
    }
}

impl PartialOrd for Version {
    ghost partial_cmp = { as_partial_cmp version_cmp };

    ghost laws = { Prim.search (comparing, rules) };

    fn partial_cmp(&self, other: &Version) -> Option<Ordering> {
        Some(self.cmp(other))
    }
}

impl fmt::Display for Version {
    ghost output = { λ version. Some (version_text version) };

    fn fmt<W: fmt::Write>(&self, f: &mut fmt::Formatter<W>) -> fmt::Result {
        let clock = self.clock();
        let node = self.node();
        write!(f, "{clock}.{node}")
    }
}
