// What holds of bases and their schemas, and of what is told as the first.
ghost use Rattle.std.specs.Prelude.{◌≡◌, ◌+◌, ◌++◌, ℕ, Bool, true, List, [], ◌∷◌, length, option_map, slice_get, Some, None, Ok, Err};
ghost use Rattle.std.specs.List.{list_all};
ghost use Rattle.sea_cell.specs.declared.keys.Moment.{Moment};
ghost use Rattle.sea_cell.specs.declared.column.Column.{Column};
ghost use Rattle.sea_operation.specs.declared.base.Plain.{Plain};
ghost use Rattle.sea_operation.specs.declared.operation.Entry.{Entry};
ghost use Rattle.sea_operation.specs.declared.operation.NewFilter.{NewFilter};
ghost use Rattle.sea_operation.specs.declared.operation.Op.{Op};
ghost use Rattle.sea_operation.specs.declared.operation.OpRow.{OpRow};
ghost use Rattle.sea_operation.specs.declared.refusal.OpRefusal.{OpRefusal};
ghost use Rattle.sea_operation.specs.Apply.{after, applied};
ghost use Rattle.sea_operation.specs.Firsts.{AreFresh, IsFirstRepeat, fits, IsFirstBad, IsFirstRefused, IsLastTaken};
ghost use Rattle.sea_operation.specs.Names.{first_repeat};
ghost use Rattle.sea_operation.specs.Refusal.{bad_filter_from};
ghost use Rattle.sea_operation.specs.RowsOf.{id_of, ids_of, row_of, rows_of};
ghost use Rattle.sea_operation.specs.Schemas.{schema_of, schema_after};

/// An operation changes the schema of a base as the changing calls of a schema do.
pub fn schemas_change_alike()
    ensures { (base : Plain) (moment : Moment) (op : Op) → schema_of (applied base moment op) ≡ schema_after op (schema_of base) }
{}

/// The new row in each place has the number that lies so many behind the first one's, and so its id, if none is given.
pub fn new_rows_have_their_numbers()
    ensures rows { (columns : List Column) (moment : Moment) (number : ℕ) (rows : List OpRow) (at : ℕ) → slice_get (rows_of columns moment number rows) at ≡ option_map (row_of columns moment (number + at)) (slice_get rows at) }
    ensures ids { (number : ℕ) (rows : List OpRow) (at : ℕ) → slice_get (ids_of number rows) at ≡ option_map (id_of (number + at)) (slice_get rows at) }
{}

/// A text that is told as a repeat is in use or stands among those before it, which aren't in use and all differ. Where
/// none is told, no text is in use and all differ.
pub fn a_repeat_is_the_first()
    ensures told { (used : List ℕ → Bool) (texts : List (List ℕ)) (text : List ℕ) → first_repeat used [] texts ≡ Some text → IsFirstRepeat used texts text }
    ensures none { (used : List ℕ → Bool) (texts : List (List ℕ)) → first_repeat used [] texts ≡ None → AreFresh used texts }
{}

/// The filter whose place is told doesn't fit, and those before it do. Where none is told, all fit.
pub fn a_bad_filter_is_the_first()
    ensures told { (columns : List Column) (filters : List NewFilter) (place : ℕ) → bad_filter_from 0 columns filters ≡ Some (OpRefusal.BadFilter place) → IsFirstBad columns filters place }
    ensures none { (columns : List Column) (filters : List NewFilter) → bad_filter_from 0 columns filters ≡ None → list_all (fits columns) filters ≡ true }
{}

/// Entries are taken one after another, each by the base that those before it make. So the refused one is the first, and
/// each that is taken makes one version.
pub fn entries_are_taken_in_turn()
    ensures refused { (base : Plain) (entries : List Entry) (place : ℕ) (refusal : OpRefusal) → after base entries ≡ Err (place, refusal) → IsFirstRefused base entries place refusal }
    ensures taken { (base : Plain) (before : List Entry) (entry : Entry) (final : Plain) → after base (before ++ entry ∷ []) ≡ Ok final → IsLastTaken base before entry final }
    ensures counted { (base : Plain) (entries : List Entry) (final : Plain) → after base entries ≡ Ok final → final.version ≡ base.version + length entries }
{}
