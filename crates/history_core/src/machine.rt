//! What a run asks of a machine.
ghost use Rattle.std.specs.Prelude.{◌≡◌, ◌<◌, ◌≤◌, ℕ, List, length, vec_capacity, IfOk, IfSome};
ghost use Rattle.std.specs.List.{All};
ghost use Rattle.ft_base.specs.Words.{KeepsLimits};
ghost use Rattle.history_core.specs.Entries.{Scanned};
ghost use Rattle.history_core.specs.Running.{Repairs, Takes};

use ft_base::{ListOf, NoMemory, Words};

/// A state that events change.
///
/// A scan takes a snapshot of an index, and gives a picture of each list in it. A picture is repaired beside the events,
/// and its repair is spliced in a later one. That this does no harm is what `good` says of the picture, which each event keeps.
pub trait Machine {
    /// What a scan takes of an index. Only contracts speak of it.
    type Snapshot;
    /// What a list is called in a history.
    type Name;
    /// A list, as a scan pictured it.
    type Picture: Drop;
    /// What is laid over a list.
    type Repair: Drop;
    /// What became of a repair.
    type Answer: Drop;

    /// One step: the state before, the moment, the words, the reply and the state after.
    ghost step: { Self → ℕ → List (List ℕ) → List ℕ → Self → Type 0 };

    /// A scan: the state before, the index's name, what was taken and the state after.
    ghost scans: { Self → List ℕ → Scanned Self.Snapshot → Self → Type 0 };

    /// A splice: the state before, the picture that was repaired, the answer and the state after.
    ghost splices: { Self → Self.Picture → Self.Answer → Self → Type 0 };

    /// What holds between steps.
    ghost ready: { Self → Type 0 };

    /// The lists that a snapshot pictures.
    ghost pictures: { Self.Snapshot → List Self.Picture };

    /// The name of a pictured list.
    ghost name: { Self.Picture → Self.Name };

    /// A picture has no entry that was dead at its scan.
    ghost clean: { Self.Picture → Type 0 };

    /// A repair is that of a picture.
    ghost repairs: { Self.Picture → Self.Repair → Type 0 };

    /// The repair of a picture may be spliced now.
    ghost good: { Self.Picture → Self → Type 0 };

    /// Executes a command at a moment, in milliseconds, and writes its reply to `out`, which keeps its room.
    fn exec(&mut self, now: u64, words: Words<'_>, out: &mut Vec<u8>)
        requires some { 0 < length words }
        requires limits { KeepsLimits words }
        requires room { 64 ≤ vec_capacity out.old }
        requires ready { ready self.old }
        ensures step { step self.old now words.entry out.new.items self.new }
        ensures keeps { (picture : Self.Picture) → good picture self.old → good picture self.new }
        ensures ready { ready self.new }
        ensures room { vec_capacity out.old ≤ vec_capacity out.new };

    /// Pictures the lists of the index of a name. None where there is no such index.
    fn scan(&mut self, index: &[u8]) -> Result<Option<ListOf<Self::Picture>>, NoMemory>
        requires ready { ready self.old }
        ensures takes { Takes pictures (λ taken. scans self.old index.now taken self.new) result }
        // What is pictured is good, and what was stays so.
        ensures good { IfOk result (λ taken. IfSome taken (All (λ picture. good picture self.new))) }
        ensures keeps { (picture : Self.Picture) → good picture self.old → good picture self.new }
        ensures ready { ready self.new };

    /// The repair of a picture. None exactly where the picture is clean.
    fn repair(&self, picture: &Self::Picture) -> Result<Option<Self::Repair>, NoMemory>
        ensures { Repairs clean repairs picture.now result };

    /// Splices the repair of a picture.
    fn splice(&mut self, picture: &Self::Picture, repair: Self::Repair) -> Self::Answer
        requires good { good picture.now self.old }
        requires repairs { repairs picture.now repair }
        requires ready { ready self.old }
        ensures splices { splices self.old picture.now result self.new }
        ensures keeps { (other : Self.Picture) → good other self.old → good other self.new }
        ensures ready { ready self.new };
}
