// When a cell meets a filter.
ghost use Rattle.std.specs.Prelude.{◌≡◌};
ghost use Rattle.std.specs.Option.{option_copied};
ghost use Rattle.std.specs.List.{list_all, list_any};
ghost use Rattle.sea_text.specs.Distinct.{is_among as is_among_of};
ghost use Rattle.sea_filter.specs.Comparison.{is_empty as is_empty_of, is_same as is_same_of, is_less as is_less_of, text_in as text_in_of, has_part as has_part_of, contains as contains_of, texts_in as texts_in_of, met_alone as met_alone_of, met_by_value as met_by_value_of, met_by_texts as met_by_texts_of, met as met_of};

use sea_cell::{CellValue, Term, Test, Text, is_among};

/// Whether a cell meets a test with a term. It takes no memory.
pub fn met(test: Test, value: &CellValue, term: &Term) -> bool
    ensures { result ≡ met_of test value.now term.now }
{
    match term {
        Term::Nothing => met_alone(test, value),
        Term::Cell(term) => met_by_value(test, value, term),
        Term::Items(texts) => met_by_texts(test, texts_in(value), texts.as_slice()),
    }
}

// The tests that compare with nothing.
fn met_alone(test: Test, value: &CellValue) -> bool
    ensures { result ≡ met_alone_of test value.now }
{
    match test {
        Test::IsEmpty => is_empty(value),
        Test::IsNotEmpty => !is_empty(value),
        _ => false,
    }
}

// Nothing stands in the cell.
fn is_empty(value: &CellValue) -> bool
    ensures { result ≡ is_empty_of value.now }
{
    matches!(value, CellValue::Empty)
}

// The tests that compare with a value.
fn met_by_value(test: Test, value: &CellValue, term: &CellValue) -> bool
    ensures { result ≡ met_by_value_of test value.now term.now }
{
    match test {
        Test::Is => is_same(value, term),
        Test::IsNot => !is_same(value, term),
        Test::Contains => contains(value, term),
        Test::DoesNotContain => !contains(value, term),
        Test::Less => is_less(value, term),
        Test::LessOrEqual => is_less(value, term) || is_same(value, term),
        Test::Greater => is_less(term, value),
        Test::GreaterOrEqual => is_less(term, value) || is_same(value, term),
        _ => false,
    }
}

// Two values of one kind that are the same.
fn is_same(one: &CellValue, other: &CellValue) -> bool
    ensures { result ≡ is_same_of one.now other.now }
{
    match (one, other) {
        (CellValue::Text(one), CellValue::Text(other)) => one.as_str() == other.as_str(),
        (CellValue::Choice(one), CellValue::Choice(other)) => one.as_str() == other.as_str(),
        (CellValue::Number(one), CellValue::Number(other)) => *one == *other,
        (CellValue::Check(one), CellValue::Check(other)) => *one == *other,
        (CellValue::Moment(one), CellValue::Moment(other)) => one.0 == other.0,
        _ => false,
    }
}

// Two numbers or moments of which the first is less.
fn is_less(one: &CellValue, other: &CellValue) -> bool
    ensures { result ≡ is_less_of one.now other.now }
{
    match (one, other) {
        (CellValue::Number(one), CellValue::Number(other)) => *one < *other,
        (CellValue::Moment(one), CellValue::Moment(other)) => one.0 < other.0,
        _ => false,
    }
}

// The second cell's text stands in the first one's.
fn contains(value: &CellValue, part: &CellValue) -> bool
    ensures { result ≡ contains_of value.now part.now }
{
    let Some(text) = text_in(value) else {
        return false;
    };
    let Some(part) = text_in(part) else {
        return false;
    };
    has_part(part.as_str().as_bytes(), text.as_str().as_bytes())
}

// The text of a text cell or of a single option.
fn text_in(value: &CellValue) -> Option<&Text>
    ensures { option_copied result ≡ text_in_of value.now }
{
    match value {
        CellValue::Text(text) => Some(text),
        CellValue::Choice(option) => Some(option),
        _ => None,
    }
}

// A part stands somewhere in a text.
#[tactic(auto, unfolding(crate::specs::Comparison::has_part))]
fn has_part(part: &[u8], text: &[u8]) -> bool
    ensures { result ≡ has_part_of part.now text.now }
{
    for at in 0..text.len() {
        if text[at..].starts_with(part) {
            return true;
        }
    }
    part.is_empty()
}

// The texts of a list cell.
fn texts_in(value: &CellValue) -> &[Text]
    ensures { result.now ≡ texts_in_of value.now }
{
    match value {
        CellValue::Choices(options) => options.as_slice(),
        CellValue::Names(names) => names.as_slice(),
        _ => &[],
    }
}

// The tests that compare a list with texts.
fn met_by_texts(test: Test, items: &[Text], texts: &[Text]) -> bool
    ensures { result ≡ met_by_texts_of test items.now texts.now }
{
    match test {
        Test::HasAnyOf => has_any(items, texts),
        Test::HasAllOf => has_all(items, texts),
        Test::HasNoneOf => !has_any(items, texts),
        Test::IsExactly => has_all(items, texts) && has_all(texts, items),
        _ => false,
    }
}

// One of the texts is among the items.
fn has_any(items: &[Text], texts: &[Text]) -> bool
    ensures { result ≡ list_any (is_among_of items.now) texts.now }
{
    texts.iter().any(|text| is_among(items, text.as_str()))
}

// All of the texts are among the items.
fn has_all(items: &[Text], texts: &[Text]) -> bool
    ensures { result ≡ list_all (is_among_of items.now) texts.now }
{
    texts.iter().all(|text| is_among(items, text.as_str()))
}
