//! Theorems that this crate's constants and the table of names agree with the definitions, and that a refused RMI call
//! leaves the machine unchanged.
ghost use Rattle.std.specs.Prelude.{◌≡◌, ◌+◌, ◌++◌, true, codes};
ghost use Rattle.rmi_abi.specs.declared.registers.Registers.{Registers};
ghost use Rattle.rmm_checks.specs.Names.{name_of};
ghost use Rattle.rmm_model.specs.declared.condition.Condition.{Condition};
ghost use Rattle.rmm_model.specs.Allowed.{condition_number};
ghost use Rattle.rmm_model.specs.Call.{rmi};
ghost use Rattle.rmm_model.specs.Machine.{Machine};
ghost use Rattle.rmm_answers.specs.Call.{is_refused};
ghost use Rattle.rmm_answers.specs.Places.{has_name, are_answer_places_named, are_operands_named, are_outputs_named};
ghost use Rattle.rmm_answers.specs.Places.{are_fields_named, are_steps_named};
ghost use Rattle.rmm_answers.specs.declared.page.TheConstants.{NUM_AUX};

/// Proves that each constant of the module `place` is the index of its name in the table of names.
pub fn answer_places_are_of_their_names()
    ensures { are_answer_places_named ≡ true }
{}

/// Proves that this crate's tables agree with their definitions in `specs/Places.antt`: the names of outputs, page
/// fields and guest steps, the offsets of fields, and the notations of operands. The operands and outputs are those of
/// commands.
pub fn tables_are_of_their_names()
    ensures operands { are_operands_named ≡ true }
    ensures outputs { are_outputs_named ≡ true }
    ensures fields { are_fields_named ≡ true }
    ensures num_aux { NUM_AUX ≡ 0x800 }
    ensures steps { are_steps_named ≡ true }
{}

/// Proves that the table of names has each check's name in parentheses, at the index 179 plus the number of the check's
/// condition.
pub fn checks_are_of_their_names()
    ensures { (c : Condition) → has_name (179 + condition_number c) (codes "(" ++ (name_of c ++ codes ")")) ≡ true }
{}

/// Proves that a refused RMI call leaves the machine unchanged. So the checks of the call are the same before and after
/// it.
pub fn refusals_change_nothing()
    ensures { (r : Registers) (m : Machine) → is_refused (rmi r m).0.x0 ≡ true → (rmi r m).1 ≡ m }
{}
