//! Laws of agents, each as the contract of a function without a body.
ghost use Rattle.std.specs.Prelude.{◌≡◌, ◌++◌, true, List, Option};
ghost use Rattle.iso_conduct.specs.Conduct.{AreOthers, Conduct};
ghost use Rattle.iso_conduct.specs.Points.{Point};
ghost use Rattle.iso_history.specs.Legal.{Ground};
ghost use Rattle.iso_history.specs.declared.entry.Entry.{Entry};
ghost use Rattle.iso_script.specs.declared.script.Script.{Script};
ghost use Rattle.iso_types.specs.declared.value.Conn.{Conn};
ghost use Rattle.iso_agent.specs.Fits.{Fits, HasSettled, IsRested, is_settled};
ghost use Rattle.iso_agent.specs.declared.agent.Kept.{Kept};

/// An agent that fits a history and then settles is one between two turns; and it stays one while others make entries.
pub fn agents_rest()
    ensures settled { (script : Script) (es : List Entry) (c : Conn) (task after : Option Point) (kept last : Kept)
        → Fits script.head script.lines es c task kept → Conduct script.head script.lines es c → HasSettled task kept after last
        → is_settled last ≡ true → IsRested script es c after last }
    ensures others { (script : Script) (es fs : List Entry) (c : Conn) (task : Option Point) (kept : Kept)
        → IsRested script es c task kept → Ground script.head (es ++ fs) → AreOthers c fs → IsRested script (es ++ fs) c task kept }
{}
