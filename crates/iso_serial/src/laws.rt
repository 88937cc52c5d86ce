//! Laws of serial runs, each as the contract of a function without a body.
ghost use Rattle.std.specs.List.{list_any};
ghost use Rattle.std.specs.Prelude.{◌≡◌, ℕ, false, List, Option};
ghost use Rattle.iso_conduct.specs.Conduct.{stops_for_memory};
ghost use Rattle.iso_conduct.specs.Legal.{IsFinished, IsLegal};
ghost use Rattle.iso_conduct.specs.Schedule.{Scheduled};
ghost use Rattle.iso_history.specs.declared.entry.Entry.{Entry};
ghost use Rattle.iso_script.specs.declared.script.Script.{Script};
ghost use Rattle.iso_serial.specs.Seeds.{IsScheduled};

/// A script has one serial run, and with each list of a generator's words one: two histories of it that are legal, that end with
/// Finish, that are scheduled so, and in which nobody stops for want of memory, are the same.
pub fn one_history_is_scheduled()
    ensures { (script : Script) (words : Option (List ℕ)) (es fs : List Entry) → IsLegal script es → IsLegal script fs
        → IsFinished es → IsFinished fs → Scheduled script.head script.lines words es → Scheduled script.head script.lines words fs
        → list_any (λ (e : Entry). stops_for_memory e.act) es ≡ false → list_any (λ (e : Entry). stops_for_memory e.act) fs ≡ false
        → es ≡ fs }
{}

/// A script and a seed have one serial run, and so has a script without one: two histories of it that are legal, that end with
/// Finish, that are the run of this seed, and in which nobody stops for want of memory, are the same.
pub fn one_history_is_seeded()
    ensures { (script : Script) (seed : Option ℕ) (es fs : List Entry) → IsLegal script es → IsLegal script fs
        → IsFinished es → IsFinished fs → IsScheduled script.head script.lines seed es → IsScheduled script.head script.lines seed fs
        → list_any (λ (e : Entry). stops_for_memory e.act) es ≡ false → list_any (λ (e : Entry). stops_for_memory e.act) fs ≡ false
        → es ≡ fs }
{}
