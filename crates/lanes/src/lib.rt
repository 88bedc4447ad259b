// A frame's lane in the work list of a group: where its numbers stand.
#![tactic(auto)]

ghost use Rattle.std.specs.Prelude.{◌≡◌, ◌*◌, ◌≤◌};
ghost use Rattle.model.specs.Limits.{most_triples, most_variables};
ghost use Rattle.lanes.specs.Lanes.{values_at, sums_at, weighed_at, lane_size};

// Up to so many triples a sum has no high part, and its divisor is narrow (specs/Lanes.antt).
pub const MOST_NARROW: usize = 8;

// How many lanes the work list has, and the sizes of the code: triples, variables and bits.
#[derive(Clone, Copy)]
pub struct Plan {
    pub lanes: usize,
    pub triples: usize,
    pub variables: usize,
    pub bits: usize,
}

// Where the parts of all lanes begin. The bounds on the sizes are no ghost fields: definitions name the plan of any code, whose sizes may be out of range
// (group/specs/Ends.antt).
impl Plan {
    pub fn values_at(self) -> usize
        requires { (self.lanes ≤ 8) × (self.triples ≤ most_triples) }
        ensures { result ≡ self.lanes * values_at self }
    {
        self.lanes * (4 * self.triples)
    }

    // Of list i of the two lists of sums; the high parts begin behind `variables` of them.
    pub fn sums_at(self, i: usize) -> usize
        requires { (self.lanes ≤ 8) × (self.triples ≤ most_triples) × (self.variables ≤ most_variables) × (self.bits ≤ self.variables) × (i ≤ 2) }
        ensures { result ≡ self.lanes * sums_at self i }
    {
        self.lanes * (4 * self.triples + self.variables + i * (self.variables + self.bits))
    }

    pub fn weighed_at(self) -> usize
        requires { (self.lanes ≤ 8) × (self.triples ≤ most_triples) × (self.variables ≤ most_variables) × (self.bits ≤ self.variables) }
        ensures { result ≡ self.lanes * weighed_at self }
    {
        self.sums_at(2)
    }

    // How many entries all lanes have.
    pub fn size(self) -> usize
        requires { (self.lanes ≤ 8) × (self.triples ≤ most_triples) × (self.variables ≤ most_variables) × (self.bits ≤ self.variables) }
        ensures { result ≡ self.lanes * lane_size self }
    {
        self.lanes * (4 * self.triples + 3 * self.variables + 3 * self.bits)
    }
}
