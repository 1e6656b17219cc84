// What the labels of every place cost, by coset: a list for each, so that a loop over the places takes several at a time.
ghost use Rattle.std.specs.Prelude.{ℕ, ◌≤◌, get_or};

use cosets::Costs;
use g9932::{MOST_TONES, Place};

// Costs that can be added stand in all of them. That a place is one of theirs is a clause: a `Place` knows no list.
#[derive(Drop)]
pub struct CostLists {
    c0: [u32; MOST_TONES],
    c1: [u32; MOST_TONES],
    c2: [u32; MOST_TONES],
    c3: [u32; MOST_TONES],
    ghost small0: { (i : ℕ) → get_or c0 i 0 ≤ 8_388_608 },
    ghost small1: { (i : ℕ) → get_or c1 i 0 ≤ 8_388_608 },
    ghost small2: { (i : ℕ) → get_or c2 i 0 ≤ 8_388_608 },
    ghost small3: { (i : ℕ) → get_or c3 i 0 ≤ 8_388_608 },
}

impl CostLists {
    ghost use Rattle.std.specs.Prelude.{◌≡◌, ◌<◌};
    ghost use Rattle.cosets.specs.Nearest.{SmallCosts};
    ghost use Rattle.decisions.specs.CostLists.{costs_of, EmptyCosts, PutsCosts, PutsLeast, CosetsKept};

    pub fn new() -> Self
        ensures { EmptyCosts result }
    {
        CostLists {
            c0: [0; MOST_TONES],
            c1: [0; MOST_TONES],
            c2: [0; MOST_TONES],
            c3: [0; MOST_TONES],
        }
    }

    // The costs of a place.
    pub(crate) fn at(&self, p: Place) -> Costs
        requires { p.0 < MOST_TONES }
        ensures { (result ≡ costs_of self.now p.0) × SmallCosts result }
    {
        let i = p.0;
        Costs {
            c0: self.c0[i],
            c1: self.c1[i],
            c2: self.c2[i],
            c3: self.c3[i],
        }
    }

    // Puts the costs of a place.
    pub(crate) fn put(&mut self, p: Place, costs: Costs)
        requires { (p.0 < MOST_TONES) × SmallCosts costs }
        ensures { PutsCosts self.old p.0 costs self.new }
    {
        let i = p.0;
        self.c0[i] = costs.c0;
        self.c1[i] = costs.c1;
        self.c2[i] = costs.c2;
        self.c3[i] = costs.c3;
    }

    // Puts what the nearest label of a place costs, over the cost of its first coset. Every other cost stays.
    pub(crate) fn put_least(&mut self, p: Place, cost: u32)
        requires { (p.0 < MOST_TONES) × (cost ≤ 8388608) }
        ensures least { PutsLeast self.old p.0 cost self.new }
        ensures cosets { CosetsKept self.old self.new }
    {
        let i = p.0;
        self.c0[i] = cost;
    }

    // What the nearest label of a place costs, where it has been put.
    pub(crate) fn least_at(&self, p: Place) -> u32
        requires { p.0 < MOST_TONES }
        ensures { result ≡ get_or self.now.c0 p.0 0 }
    {
        let i = p.0;
        self.c0[i]
    }
}
