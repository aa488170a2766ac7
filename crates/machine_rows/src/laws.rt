// What the machine does where nothing is armed.
ghost use Rattle.std.specs.Prelude.{◌≡◌, List};
ghost use Rattle.script_text.specs.Script.{Input};
ghost use Rattle.machine_model.specs.Machine.{Machine};
ghost use Rattle.machine_model.specs.Performing.{perform};
ghost use Rattle.machine_model.specs.Run.{Run, Transcript};
ghost use Rattle.machine_model.specs.Unarmed.{ArmNothing, IsUnarmed};

/// Law: where nothing is armed, and no line arms anything, a run is what the machine performs, given what each restart left: the power
/// goes by `cut` alone, and no call fails.
pub fn unarmed_runs_are_performed()
    ensures { (h : Machine) (inputs : List Input) (said : Transcript) (end : Machine) → IsUnarmed h → ArmNothing inputs → Run h inputs said end
        → perform h inputs said.starts ≡ record { said = said; state = end } }
{}
