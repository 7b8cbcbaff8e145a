//! What holds of the texts of handovers.
ghost use Rattle.std.specs.Prelude.{◌≡◌, ◌++◌, ◌∷◌, [], ℕ, List, Ok, Err, IfOk};
ghost use Rattle.definitions.specs.Calls.{Handover as Told};
ghost use Rattle.handover_text.specs.Spelling.{HandoverVersion as Version, spelled};
ghost use Rattle.handover_text.specs.Reading.{reading};
ghost use Rattle.vocabulary.specs.declared.handover.HandoverRefusal.{HandoverRefusal};
ghost use Rattle.handover_text.specs.Ranges.{IsHandover, IsTold, IsSpelling};
ghost use Rattle.handover_text.specs.Faults.{BeginsNone, IsFaultless, lines_before, lines_to};

/// A handover has one text in each version that can tell it, and no such text begins another one, of either version. Where
/// a line is refused, no such text begins with the lines up to it, and none of those before it is faulty.
pub fn handovers_have_one_text()
    ensures in_range { (text : List ℕ) → IfOk (reading text) IsHandover }
    ensures spelled { (text : List ℕ) (told : Told) → reading text ≡ Ok told → IsSpelling text told }
    ensures read_back { (version : Version) (told : Told) → IsHandover told → IsTold version told → reading (spelled version told) ≡ Ok told }
    ensures trailing { (version : Version) (told : Told) (byte : ℕ) (more : List ℕ) → IsHandover told → IsTold version told → reading (spelled version told ++ byte ∷ more) ≡ Err HandoverRefusal.Trailing }
    ensures cut { (version : Version) (told : Told) (start : List ℕ) (byte : ℕ) (more : List ℕ) → IsHandover told → IsTold version told → start ++ byte ∷ more ≡ spelled version told → reading start ≡ Err HandoverRefusal.Cut }
    ensures apart { (version : Version) (told : Told) (other_version : Version) (other : Told) (more : List ℕ)
        → IsHandover told → IsTold version told → IsHandover other → IsTold other_version other
        → spelled version told ++ more ≡ spelled other_version other → (more ≡ []) × (told ≡ other) × (version ≡ other_version) }
    ensures line { (text : List ℕ) (n : ℕ) → reading text ≡ Err (HandoverRefusal.Line n) → IsFaultless (lines_before n text) × BeginsNone (lines_to n text) }
    ensures order { (text : List ℕ) (n : ℕ) → reading text ≡ Err (HandoverRefusal.OutOfOrder n) → IsFaultless (lines_before n text) × BeginsNone (lines_to n text) }
{}
