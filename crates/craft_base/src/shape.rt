ghost use Rattle.std.specs.Prelude.{◌≡◌, ◌≤◌, ◌+◌};
ghost use Rattle.craft_base.specs.Shape.{IsShape, members_of, majority_of, coded_quorum_of};

use std::error::Error;
use std::fmt;
use std::marker::Model;

/// The most failures that a cluster can be made to survive.
pub const MAX_FAULTS: u8 = 7;

/// The shape of a cluster, after CRaft: it survives the loss of F members, it has 2F+1, and k fragments of a value rebuild
/// it.
#[derive(Clone, Copy, Debug, PartialEq, Eq)]
pub struct Shape {
    faults: u8,
    need: u8,
}

impl Model for Shape {
    ghost use Rattle.craft_base.specs.Shape.{Shape, IsShape};

    ghost Value = { Shape };

    ghost view = { λ shape. record { faults = shape.faults; need = shape.need } };

    ghost invariant = { λ shape. IsShape (record { faults = shape.faults; need = shape.need }) };

    ghost inverse = { λ shape. record { faults = shape.faults; need = shape.need } };
}

/// Why two numbers make no shape.
#[derive(Clone, Copy, Debug, PartialEq, Eq)]
pub enum ShapeError {
    /// F isn't 1 to 7.
    BadFaults,
    /// k isn't 1 to F+1.
    BadNeed,
}

impl fmt::Display for ShapeError {
    fn fmt<W: fmt::Write>(&self, f: &mut fmt::Formatter<W>) -> fmt::Result {
        match self {
            ShapeError::BadFaults => write!(f, "a group survives 1 to 7 failures"),
            ShapeError::BadNeed => write!(f, "a value needs 1 to F+1 fragments"),
        }
    }
}

impl Error for ShapeError {}

impl Shape {
    ghost use Rattle.craft_base.specs.Shapes.{shape_from};

    /// The shape of a cluster that survives `f` failures and rebuilds a value from `k` fragments. `BadFaults` exactly where `f` isn't
    /// 1 to 7; `BadNeed` exactly where `f` is and `k` isn't 1 to `f + 1`.
    pub fn new(f: u8, k: u8) -> Result<Shape, ShapeError>
        ensures { result ≡ shape_from f k }
    {
        if !(1..=MAX_FAULTS).contains(&f) {
            return Err(ShapeError::BadFaults);
        }
        if !(1..=f + 1).contains(&k) {
            return Err(ShapeError::BadNeed);
        }
        Ok(Shape { faults: f, need: k })
    }

    /// The law of shapes, for a caller that asks for none of its numbers: 1 to 7 failures, and 1 to one more fragments.
    pub fn law(&self)
        ensures { IsShape self.now }
    {
        let _ = &self.faults;
    }

    /// How many failures the cluster survives: 1 to 7.
    pub fn faults(&self) -> u8
        ensures value { result ≡ self.now.faults }
        ensures range { (1 ≤ result) × (result ≤ 7) }
        ensures law { IsShape self.now }
    {
        self.faults
    }

    /// How many fragments rebuild a value: 1 to F+1.
    pub fn need(&self) -> u8
        ensures value { result ≡ self.now.need }
        ensures range { (1 ≤ result) × (result ≤ self.now.faults + 1) }
        ensures law { IsShape self.now }
    {
        self.need
    }

    /// How many members the cluster has: 2F+1, which is 3 to 15.
    pub fn members(&self) -> u8
        ensures value { result ≡ members_of self.now }
        ensures range { (3 ≤ result) × (result ≤ 15) }
        ensures law { IsShape self.now }
    {
        2 * self.faults + 1
    }

    /// How many members are more than half of them: F+1.
    pub fn majority(&self) -> u8
        ensures value { result ≡ majority_of self.now }
        ensures range { (2 ≤ result) × (result ≤ 8) }
        ensures law { IsShape self.now }
    {
        self.faults + 1
    }

    /// How many members have to hold an entry in some form before it is committed: F+k.
    pub fn coded_quorum(&self) -> u8
        ensures value { result ≡ coded_quorum_of self.now }
        ensures range { (2 ≤ result) × (result ≤ members_of self.now) }
        ensures law { IsShape self.now }
    {
        self.faults + self.need
    }
}
