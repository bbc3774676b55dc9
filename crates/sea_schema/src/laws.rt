// What holds of keys, and of links and their changes.
ghost use Rattle.std.specs.Prelude.{◌≡◌, ◌+◌, ℕ, ◌∷◌, [], List, true, false, option_map, slice_get};
ghost use Rattle.std.specs.List.{list_any};
ghost use Rattle.sea_cell.specs.declared.column.NewColumn.{NewColumn};
ghost use Rattle.sea_cell.specs.declared.column.NewEnd.{NewEnd};
ghost use Rattle.sea_schema.specs.Layout.{Layout, with_link, links_of_column, links_of_table, without_column_of, without_table_of};
ghost use Rattle.sea_schema.specs.Tables.{column_of, columns_of};
ghost use Rattle.sea_schema.specs.Ends.{is_named, count_named, have_ends, count_ends, have_column, have_filters};

/// A link of a new number has as many first ends as there are tables of the one name, and as many other ends as there are
/// tables of the other name: one of each, where no two tables have the same name. Of the links of a column or a table that
/// goes no end is left. A link that is added and whose column goes again leaves the tables as they were.
pub fn links_have_two_ends()
    ensures first { (layout : Layout) (table name : List ℕ) (other : NewEnd) → have_ends (layout.next_link ∷ []) layout.tables ≡ false → count_ends layout.next_link true (with_link table name other layout).tables ≡ count_named table layout.tables }
    ensures second { (layout : Layout) (table name : List ℕ) (other : NewEnd) → have_ends (layout.next_link ∷ []) layout.tables ≡ false → count_ends layout.next_link false (with_link table name other layout).tables ≡ count_named other.table layout.tables }
    ensures gone_with_column { (layout : Layout) (table column : List ℕ) → have_ends (links_of_column table column layout.tables) (without_column_of table column layout).tables ≡ false }
    ensures gone_with_table { (layout : Layout) (table : List ℕ) → have_ends (links_of_table table layout.tables) (without_table_of table layout).tables ≡ false }
    ensures taken_back { (layout : Layout) (table name : List ℕ) (other : NewEnd) → list_any (is_named table) layout.tables ≡ true → have_column table name layout.tables ≡ false → have_ends (layout.next_link ∷ []) layout.tables ≡ false → have_filters layout.next_column layout.tables ≡ false → (without_column_of table name (with_link table name other layout)).tables ≡ layout.tables }
{}

/// The new column in each place has the key that lies so many behind the first one's.
pub fn new_columns_have_their_keys()
    ensures { (key : ℕ) (columns : List NewColumn) (at : ℕ) → slice_get (columns_of key columns) at ≡ option_map (column_of (key + at)) (slice_get columns at) }
{}
