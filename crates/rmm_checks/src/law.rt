//! Theorems about the names of failure conditions.
ghost use Rattle.std.specs.Prelude.{◌≡◌, Some};
ghost use Rattle.rmm_model.specs.declared.condition.Condition.{Condition};
ghost use Rattle.rmm_checks.specs.Names.{name_of, condition_named};

/// Proves that `condition_named` returns each failure condition for its own name. So different conditions have
/// different names.
pub fn names_come_back()
    ensures { (c : Condition) → condition_named (name_of c) ≡ Some c }
{}
