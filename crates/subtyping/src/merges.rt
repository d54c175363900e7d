ghost use Rattle.graphs.specs.Paths.{Leads};
ghost use Rattle.std.specs.Prelude.{◌≡◌, ℕ, Bool, false, List};
ghost use Rattle.known_classes.specs.Known.{KnownClasses};
ghost use Rattle.known_classes.specs.Merging.{merged};
ghost use Rattle.subtyping.specs.Steps.{IsSuperStep};
ghost use Rattle.subtyping.specs.Alike.{SupersAlike, Unraised, IsClear, IsRowKept, IsRaisedSet};

/// What a change of classes leaves as it was: the ancestors of a class from which no changed supers are reached by
/// recorded supers, those of `java/lang/Object` included. A row of ancestors tells it where Object has no supers
/// and no other class reaches itself.
pub fn merges_of_supers()
    ensures above { (old new : KnownClasses) (a b : List ℕ) → SupersAlike old new a → Leads (IsSuperStep new) a b → Leads (IsSuperStep old) a b }
    ensures still { (old new : KnownClasses) (a b : List ℕ) → SupersAlike old new a → Leads (IsSuperStep old) a b → Leads (IsSuperStep new) a b }
    ensures set { (old new : KnownClasses) (touched : List ℕ → Bool) (name : List ℕ) → IsRaisedSet old new touched → touched name ≡ false → SupersAlike old new name }
    ensures merged { (base extra : KnownClasses) (a : List ℕ) → Unraised base extra a → SupersAlike base (merged base extra) a }
    ensures rows { (base extra : KnownClasses) (a : List ℕ) → IsClear base → IsRowKept base extra a → Unraised base extra a }
{}
