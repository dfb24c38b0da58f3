//! Laws of the reading relation.
ghost use Rattle.std.specs.Prelude.{◌≡◌, List, ℕ, Option};
ghost use Rattle.versions.specs.declared.version.Version.{Version};
ghost use Rattle.qscript.specs.declared.command.Command.{Command};
ghost use Rattle.qscript.specs.Reads.{Ending, ReadsScript};
ghost use Rattle.qscript.specs.Run.{reading_of};

/// Each text has exactly one reading as a script, which is what is computed word by word.
pub fn each_script_has_one_reading()
    ensures some { (text : List ℕ) → (version : Option Version) × (cs : List Command) × (e : Ending) ×
        ReadsScript text version cs e }
    ensures one { (text : List ℕ) (v w : Option Version) (cs ds : List Command) (e f : Ending) →
        ReadsScript text v cs e → ReadsScript text w ds f → (v ≡ w) × (cs ≡ ds) × (e ≡ f) }
    ensures computed { (text : List ℕ) → ReadsScript text (reading_of text).version (reading_of text).script.0
        (reading_of text).script.1 }
    ensures complete { (text : List ℕ) (version : Option Version) (cs : List Command) (e : Ending) →
        ReadsScript text version cs e → reading_of text ≡ record { version = version; script = (cs, e) } }
{}
