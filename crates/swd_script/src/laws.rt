//! Laws of scripts and plans. The functions do nothing: their contracts are the laws.
ghost use Rattle.std.specs.Prelude.{◌≡◌, ℕ, List, All, Ok};
ghost use Rattle.swd_port.specs.declared.mark.Mark.{Mark};
ghost use Rattle.swd_port.specs.Choices.{IsPortMark};
ghost use Rattle.swd_script.specs.Laws.{IsScriptRunnable};
ghost use Rattle.swd_script.specs.Plans.{plan_of};
ghost use Rattle.swd_script.specs.Scripts.{ScriptMeaning, script_of};

/// States that every valid script can be run: its memory can be made, and a host takes its accesses.
pub fn scripts_are_runnable()
    ensures { (text : List ℕ) (m : ScriptMeaning) → script_of text ≡ Ok m → IsScriptRunnable m }
{}

/// States that the marks of every valid plan are legal.
pub fn plans_are_legal()
    ensures { (text : List ℕ) (marks : List Mark) → plan_of text ≡ Ok marks → All IsPortMark marks }
{}
