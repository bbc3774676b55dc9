// What a log file stands for is one thing.
ghost use Rattle.std.specs.Prelude.{◌≡◌, ℕ, List};
ghost use Rattle.sea_log.specs.Records.{IsLog};

/// A file holds at most one list of payloads, and one gate ends it.
pub fn one_list_at_most()
    ensures { (bytes : List ℕ) (one other : List (List ℕ)) (end place : ℕ) → IsLog bytes one end → IsLog bytes other place → (one ≡ other) × (end ≡ place) }
{}
