// What was written is read again, whatever stands before it and follows.
ghost use Rattle.std.specs.Prelude.{◌≡◌, ◌+◌, ◌^◌, ◌<◌, ◌≤◌, ◌++◌, ◌∷◌, [], ℕ, List, length, take, drop, Ok};
ghost use Rattle.std.specs.Int.{w8, w32, w64, to_be_bytes};
ghost use Rattle.sea_fields.specs.Fields.{led, number_at, row_at};

/// A number that a `put` call wrote is the one that the `take` call of its width reads there, whatever stands before
/// it and follows.
pub fn numbers_are_read_again()
    ensures one { (front rest : List ℕ) (n : ℕ) → n < 2 ^ 8 → number_at w8 (front ++ (n ∷ [] ++ rest)) (length front) ≡ Ok (n, length front + 1) }
    ensures four { (front rest : List ℕ) (n : ℕ) → n < 2 ^ 32 → number_at w32 (front ++ (to_be_bytes w32 n ++ rest)) (length front) ≡ Ok (n, length front + 4) }
    ensures eight { (front rest : List ℕ) (n : ℕ) → n < 2 ^ 64 → number_at w64 (front ++ (to_be_bytes w64 n ++ rest)) (length front) ≡ Ok (n, length front + 8) }
{}

/// The same of a byte row of at most `most` bytes: the span that is read has its bytes.
pub fn byte_rows_are_read_again()
    ensures span { (front value rest : List ℕ) (most : ℕ) → length value < 2 ^ 32 → length value ≤ most
        → row_at (front ++ (led value ++ rest)) (length front) most ≡ Ok (record { from = length front + 4; to = length front + 4 + length value }, length front + 4 + length value) }
    ensures bytes { (front value rest : List ℕ) → take (length value) (drop (length front + 4) (front ++ (led value ++ rest))) ≡ value }
{}
