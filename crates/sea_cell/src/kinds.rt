// The types of columns by their words.
ghost use Rattle.std.specs.Prelude.{◌≡◌, Some};
ghost use Rattle.sea_cell.specs.declared.column.ColKind.{ColKind};
ghost use Rattle.sea_cell.specs.Kinds.{word_of_kind, kind_of, sort_of_kind, has_options as has_options_of};

use crate::column::ColKind;

/// What the values of a column are, whatever its type: as which a statement compares and orders them.
#[derive(Clone, Copy)]
pub enum Sort {
    /// Texts, and options of a single-select column.
    Text,
    /// Whole numbers.
    Number,
    /// Checkboxes.
    Check,
    /// Dates, and the times of making and of change.
    Moment,
    /// Lists of options, of names or of ids.
    List,
}

/// The word that names a type in an operation: text, long-text, number, checkbox, date, single-select,
/// multiple-select, collaborator, link, ctime or mtime.
pub fn type_word(kind: ColKind) -> &'static str
    ensures { result.now ≡ word_of_kind kind }
{
    match kind {
        ColKind::Text => "text",
        ColKind::LongText => "long-text",
        ColKind::Number => "number",
        ColKind::Check => "checkbox",
        ColKind::Date => "date",
        ColKind::Select => "single-select",
        ColKind::Multi => "multiple-select",
        ColKind::People => "collaborator",
        ColKind::Link => "link",
        ColKind::Made => "ctime",
        ColKind::Changed => "mtime",
    }
}

/// The type that a word names. None for any other text; words are compared by bytes.
pub fn kind_of_word(word: &str) -> Option<ColKind>
    ensures { result ≡ kind_of word.now }
{
    let kinds = [
        ColKind::Text,
        ColKind::LongText,
        ColKind::Number,
        ColKind::Check,
        ColKind::Date,
        ColKind::Select,
        ColKind::Multi,
        ColKind::People,
        ColKind::Link,
        ColKind::Made,
        ColKind::Changed,
    ];
    kinds.iter().copied().find(|kind| type_word(*kind) == word)
}

/// No two types have the same word: the word of a type names that type.
pub fn words_name_kinds()
    ensures { (kind : ColKind) → kind_of (word_of_kind kind) ≡ Some kind }
{}

/// The sort of a type's values.
pub fn sort_of(kind: ColKind) -> Sort
    ensures { result ≡ sort_of_kind kind }
{
    match kind {
        ColKind::Text | ColKind::LongText | ColKind::Select => Sort::Text,
        ColKind::Number => Sort::Number,
        ColKind::Check => Sort::Check,
        ColKind::Date | ColKind::Made | ColKind::Changed => Sort::Moment,
        ColKind::Multi | ColKind::People | ColKind::Link => Sort::List,
    }
}

/// Whether the cells of a type are options of their column.
pub fn has_options(kind: ColKind) -> bool
    ensures { result ≡ has_options_of kind }
{
    matches!(kind, ColKind::Select | ColKind::Multi)
}
