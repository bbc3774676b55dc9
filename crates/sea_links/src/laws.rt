// What holds of pairs and their changes.
ghost use Rattle.std.specs.Prelude.{◌≡◌, ℕ, List, true, false};
ghost use Rattle.sea_cell.specs.declared.keys.RowId.{RowId};
ghost use Rattle.sea_links.specs.declared.pair.LinkPair.{LinkPair};
ghost use Rattle.sea_links.specs.Pairs.{has_pair, is_id_among, others_of, with_pair, without_pair};

/// A pair that was added is there, and one that was removed isn't. A link joins two rows exactly where each of them is
/// among the rows that it joins to the other.
pub fn both_sides_tell_the_same()
    ensures added { (pairs : List LinkPair) (link : ℕ) (first second : RowId) → has_pair (with_pair pairs link first second) link first second ≡ true }
    ensures removed { (pairs : List LinkPair) (link : ℕ) (first second : RowId) → has_pair (without_pair pairs link first second) link first second ≡ false }
    ensures from_first { (pairs : List LinkPair) (link : ℕ) (first second : RowId) → is_id_among (others_of link true first pairs) second ≡ has_pair pairs link first second }
    ensures from_second { (pairs : List LinkPair) (link : ℕ) (first second : RowId) → is_id_among (others_of link false second pairs) first ≡ has_pair pairs link first second }
{}
