ghost use Rattle.std.specs.Prelude.{◌≡◌, ◌⊎◌, List, ℕ};
ghost use Rattle.code_walk.specs.declared.walk.Instr.{Instr};
ghost use Rattle.code_walk.specs.declared.fault.WalkFault.{WalkFault};
ghost use Rattle.code_walk.specs.Walk.{AreInstructions, IsFirstFault};

/// No two lists tile the same code.
pub fn one_list()
    ensures one { (start : ℕ) (code : List ℕ) (list other : List Instr) → AreInstructions start code list → AreInstructions start code other → list ≡ other }
{}

/// No code has two first faults.
pub fn one_fault()
    ensures one { (start : ℕ) (code : List ℕ) (fault other : WalkFault) → IsFirstFault start code fault → IsFirstFault start code other → fault ≡ other }
{}

/// Code that some list tiles has no first fault, and all other code has one.
pub fn list_or_fault()
    ensures either { (start : ℕ) (code : List ℕ) → ((list : List Instr) × AreInstructions start code list) ⊎ ((fault : WalkFault) × IsFirstFault start code fault) }
    ensures not_both { (start : ℕ) (code : List ℕ) (list : List Instr) (fault : WalkFault) → AreInstructions start code list → ¬ (IsFirstFault start code fault) }
{}
