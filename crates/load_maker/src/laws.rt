//! Laws of the load's definition. Each function here does nothing: its contract is the law.
ghost use Rattle.std.specs.Prelude.{◌≡◌, ◌≤◌, ◌+◌, ◌/◌, ◌^◌, ℕ, [], ◌∷◌, ◌++◌, codes, length, take, All};
ghost use Rattle.load_maker.specs.Load.{creating, load, setting};
ghost use Rattle.resp_wire.specs.Request.{IsCommand};

/// The first three commands of seed 7, as another implementation of PCG draws them.
pub fn first_commands()
    ensures { (docs : ℕ) → 2 ≤ docs → take 3 (load 7 docs) ≡ creating
        ∷ setting 1 (codes "w10 w30 w32 w31 w21 w51 w23 w15") 7 96
        ∷ setting 2 (codes "w19 w27 w28 w61 w23 w35 w38 w23") 5 25 ∷ [] }
{}

/// How many commands a load has.
pub fn number_of_commands()
    ensures { (seed docs : ℕ) → length (load seed docs) ≡ docs + docs / 10 + 6 }
{}

/// Each command of a load is one that the wire can carry.
pub fn load_is_commands()
    ensures { (seed docs : ℕ) → docs ≤ 100000 → All IsCommand (load seed docs) }
{}
