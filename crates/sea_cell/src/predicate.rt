// Which filters a column takes.
ghost use Rattle.std.specs.Prelude.{◌≡◌, Option, Some, Result, IfOk};
ghost use Rattle.sea_cell.specs.Answers.{Answers};
ghost use Rattle.sea_cell.specs.Predicates.{word_of_test, test_of, sort_takes as sort_takes_of, takes_test as takes_test_of, some_value as some_value_of, some_text as some_text_of, value_of_term as value_of_term_of, no_term as no_term_of, part_term as part_term_of, items_term as items_term_of, value_term as value_term_of, term_for as term_for_of, term_of};
ghost use Rattle.sea_cell.specs.declared.conversion.CellFault.{CellFault};
ghost use Rattle.sea_cell.specs.declared.view.Test.{Test};
ghost use Rattle.sea_cell.specs.declared.values.CellValue.{CellValue};

use crate::column::ColKind;
use crate::conversion::{CellFault, check_of, date_of, number_of, text_of};
use crate::kinds::{Sort, sort_of};
use crate::values::CellValue;
use crate::view::{Term, Test};
use crate::words::CellWord;
use sea_text::{Duplicate, Text};
use std::alloc::{AllocError, Global};

/// The word that names a test in a filter: is, is_not, contains, does_not_contain, less, less_or_equal, greater,
/// greater_or_equal, has_any_of, has_all_of, has_none_of, is_exactly, is_empty or is_not_empty.
pub fn test_word(test: Test) -> &'static str
    ensures { result.now ≡ word_of_test test }
{
    match test {
        Test::Is => "is",
        Test::IsNot => "is_not",
        Test::Contains => "contains",
        Test::DoesNotContain => "does_not_contain",
        Test::Less => "less",
        Test::LessOrEqual => "less_or_equal",
        Test::Greater => "greater",
        Test::GreaterOrEqual => "greater_or_equal",
        Test::HasAnyOf => "has_any_of",
        Test::HasAllOf => "has_all_of",
        Test::HasNoneOf => "has_none_of",
        Test::IsExactly => "is_exactly",
        Test::IsEmpty => "is_empty",
        Test::IsNotEmpty => "is_not_empty",
    }
}

/// The test that a word names. None for any other text; words are compared by bytes.
pub fn test_of_word(word: &str) -> Option<Test>
    ensures { result ≡ test_of word.now }
{
    let tests = [
        Test::Is,
        Test::IsNot,
        Test::Contains,
        Test::DoesNotContain,
        Test::Less,
        Test::LessOrEqual,
        Test::Greater,
        Test::GreaterOrEqual,
        Test::HasAnyOf,
        Test::HasAllOf,
        Test::HasNoneOf,
        Test::IsExactly,
        Test::IsEmpty,
        Test::IsNotEmpty,
    ];
    tests.iter().copied().find(|test| test_word(*test) == word)
}

/// No two tests have the same word: the word of a test names that test.
pub fn words_name_tests()
    ensures { (test : Test) → test_of (word_of_test test) ≡ Some test }
{}

/// What a filter compares cells with, where a column of this type takes the test and the word fits it: a value that such
/// a cell could have and that isn't empty for the tests that compare values, a text that isn't empty for the parts of
/// texts, texts for lists, and null where nothing is compared. A single-select column takes any text that isn't empty,
/// and the times of making and of change what a date takes. None says that the filter doesn't fit.
pub fn term_of_word(
    alloc: Global,
    kind: ColKind,
    test: Test,
    word: &CellWord,
) -> Result<Option<Term>, AllocError>
    ensures { IfOk result (λ term. term ≡ term_of kind test word.now) }
{
    if takes_test(kind, test) {
        return term_for(alloc, kind, test, word);
    }
    Ok(None)
}

// Whether a column of this type takes the test.
fn takes_test(kind: ColKind, test: Test) -> bool
    ensures { result ≡ takes_test_of kind test }
{
    match kind {
        ColKind::Link => false,
        _ => sort_takes(sort_of(kind), test),
    }
}

// Whether values of a sort take the test.
fn sort_takes(sort: Sort, test: Test) -> bool
    ensures { result ≡ sort_takes_of sort test }
{
    match test {
        Test::Is => matches!(sort, Sort::Text | Sort::Number | Sort::Check | Sort::Moment),
        Test::IsNot => matches!(sort, Sort::Text | Sort::Number | Sort::Moment),
        Test::Contains | Test::DoesNotContain => matches!(sort, Sort::Text),
        Test::Less | Test::LessOrEqual | Test::Greater | Test::GreaterOrEqual => {
            matches!(sort, Sort::Number | Sort::Moment)
        }
        Test::HasAnyOf | Test::HasAllOf | Test::HasNoneOf | Test::IsExactly => {
            matches!(sort, Sort::List)
        }
        Test::IsEmpty | Test::IsNotEmpty => true,
    }
}

// The term of a test that a column of this type takes.
#[tactic(auto, unfolding(crate::specs::Predicates::term_for))]
fn term_for(
    alloc: Global,
    kind: ColKind,
    test: Test,
    word: &CellWord,
) -> Result<Option<Term>, AllocError>
    ensures { IfOk result (λ term. term ≡ term_for_of kind test word.now) }
{
    match test {
        Test::IsEmpty | Test::IsNotEmpty => Ok(no_term(word)),
        Test::Contains | Test::DoesNotContain => part_term(alloc, word),
        Test::HasAnyOf | Test::HasAllOf | Test::HasNoneOf | Test::IsExactly => {
            items_term(alloc, word)
        }
        _ => value_term(alloc, kind, word),
    }
}

// Nothing, of which null is the word.
fn no_term(word: &CellWord) -> Option<Term>
    ensures { result ≡ no_term_of word.now }
{
    match word {
        CellWord::Null => Some(Term::Nothing),
        _ => None,
    }
}

// A part of a text.
fn part_term(alloc: Global, word: &CellWord) -> Result<Option<Term>, AllocError>
    ensures { IfOk result (λ term. term ≡ part_term_of word.now) }
{
    match some_text(alloc, word)? {
        Some(text) => Ok(Some(Term::Cell(CellValue::Text(text)))),
        None => Ok(None),
    }
}

// Texts.
fn items_term(alloc: Global, word: &CellWord) -> Result<Option<Term>, AllocError>
    ensures { IfOk result (λ term. term ≡ items_term_of word.now) }
{
    match word {
        CellWord::List(texts) => Ok(Some(Term::Items(texts.duplicate(alloc)?))),
        _ => Ok(None),
    }
}

// A value.
fn value_term(alloc: Global, kind: ColKind, word: &CellWord) -> Result<Option<Term>, AllocError>
    ensures { IfOk result (λ term. term ≡ value_term_of kind word.now) }
{
    match value_of_term(alloc, kind, word)? {
        Some(value) => Ok(Some(Term::Cell(value))),
        None => Ok(None),
    }
}

// The value that a cell of this type is compared with.
fn value_of_term(
    alloc: Global,
    kind: ColKind,
    word: &CellWord,
) -> Result<Option<CellValue>, AllocError>
    ensures { IfOk result (λ value. value ≡ value_of_term_of kind word.now) }
{
    match kind {
        ColKind::Text => some_value(text_of(alloc, 1000, word)),
        ColKind::LongText => some_value(text_of(alloc, 8192, word)),
        ColKind::Number => some_value(number_of(word)),
        ColKind::Check => some_value(check_of(word)),
        ColKind::Date => some_value(date_of(word)),
        ColKind::Made => some_value(date_of(word)),
        ColKind::Changed => some_value(date_of(word)),
        ColKind::Select => some_option(alloc, word),
        _ => Ok(None),
    }
}

// Any text that isn't empty, as an option.
fn some_option(alloc: Global, word: &CellWord) -> Result<Option<CellValue>, AllocError>
    ensures { IfOk result (λ value. value ≡ value_of_term_of ColKind.Select word.now) }
{
    match some_text(alloc, word)? {
        Some(option) => Ok(Some(CellValue::Choice(option))),
        None => Ok(None),
    }
}

// A cell that isn't empty.
fn some_value(cell: Result<CellValue, CellFault>) -> Result<Option<CellValue>, AllocError>
    ensures { (wanted : Result CellValue CellFault) → Answers CellFault.Memory cell wanted → IfOk result (λ value. value ≡ some_value_of wanted) }
{
    match cell {
        Ok(CellValue::Empty) => Ok(None),
        Ok(value) => Ok(Some(value)),
        Err(CellFault::Memory) => Err(AllocError),
        Err(_) => Ok(None),
    }
}

// A text that isn't empty.
fn some_text(alloc: Global, word: &CellWord) -> Result<Option<Text>, AllocError>
    ensures { IfOk result (λ text. text ≡ some_text_of word.now) }
{
    let CellWord::Text(text) = word else {
        return Ok(None);
    };
    if text.as_str().is_empty() {
        return Ok(None);
    }
    Ok(Some(text.duplicate(alloc)?))
}
