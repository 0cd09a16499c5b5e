//! Laws of the definitions. Each is the contract of a function that does nothing.
ghost use Rattle.std.specs.Prelude.{◌≡◌, Ok};
ghost use Rattle.ix_types.specs.declared.format.Format.{Format};
ghost use Rattle.ix_plan.specs.declared.plan.Script.{Script};
ghost use Rattle.ix_plan.specs.Keeps.{IsAccepted, IsScriptOf};
ghost use Rattle.ix_plan.specs.Reading.{script_of_json};
ghost use Rattle.ix_plan_text.specs.Printed.{script_data};

/// The value of a script reads back as the script, for each script that keeps what every accepted script keeps.
#[tactic(auto, using(crate::proofs::StepsBack::script_back))]
pub fn values_read_back()
    ensures { (format : Format) (script : Script) → IsAccepted script → IsScriptOf format script → script_of_json (script_data format script) ≡ Ok script }
{}
