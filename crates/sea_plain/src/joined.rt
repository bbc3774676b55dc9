// The pairs of linked rows after an operation.
ghost use Rattle.std.specs.Prelude.{◌≡◌, ◌&&◌, ◌==◌, ℕ, List, not, filter, IfOk};
ghost use Rattle.std.specs.BTreeSet.{contains_text};
ghost use Rattle.std.specs.List.{filter_map, list_any};
ghost use Rattle.sea_text.specs.Distinct.{is_among};
ghost use Rattle.sea_links.specs.Pairs.{is_of as is_of_row, side as side_of};
ghost use Rattle.sea_schema.specs.Tables.{is_link_among as is_link_among_of};
ghost use Rattle.sea_text.specs.Named.{listed};
ghost use Rattle.sea_operation.specs.Joined.{texts_of_ids, joined as joined_of, with_joined as with_joined_of, joins_none as joins_none_of, without_joined as without_joined_of, has_row_at as has_row_at_of, has_no_row as has_no_row_of, ends_of as ends_of_columns, is_of_others as is_of_others_of, pairs_after as pairs_after_of};

use sea_cell::{Column, Columns, Duplicate, LinkEnd, RowId, Shared, items_in};
use sea_links::{LinkPair, is_of, side};
use sea_operation::{Op, PlainPairs, end_named, set_of};
use sea_schema::is_link_among;
use sqlite_items::Items;
use std::alloc::{AllocError, Global};
use std::collections::BTreeSet;

/// The pairs after an operation on a table with these columns, with which these links go.
pub fn pairs_after(
    alloc: Global,
    columns: Option<&Columns>,
    links: &[u32],
    op: &Op,
    pairs: &PlainPairs,
) -> Result<PlainPairs, AllocError>
    ensures { IfOk result (λ new. new ≡ pairs_after_of (listed columns.entry) links.now op.now pairs.now) }
{
    match op {
        Op::AddLink {
            table: _,
            column,
            row,
            others,
        } => match end_named(columns, column.as_str()) {
            Some(end) => with_joined(alloc, pairs, row, others.as_slice(), end),
            None => pairs.duplicate(alloc),
        },
        Op::RemoveLink {
            table: _,
            column,
            row,
            others,
        } => match end_named(columns, column.as_str()) {
            Some(end) => without_joined(alloc, pairs.as_slice(), row, others.as_slice(), end),
            None => pairs.duplicate(alloc),
        },
        Op::DeleteRows { table: _, ids } => {
            let ends = ends_of(alloc, items_in(columns))?;
            without_rows(alloc, pairs.as_slice(), &ends, ids.as_slice())
        }
        Op::DeleteColumn {
            table: _,
            column: _,
        } => without_links(alloc, pairs.as_slice(), links),
        Op::DeleteTable { table: _ } => without_links(alloc, pairs.as_slice(), links),
        _ => pairs.duplicate(alloc),
    }
}

// The pairs with those of a row at this end and other rows.
fn with_joined(
    alloc: Global,
    pairs: &PlainPairs,
    row: &RowId,
    others: &[RowId],
    end: LinkEnd,
) -> Result<PlainPairs, AllocError>
    ensures { IfOk result (λ new. new ≡ with_joined_of pairs.now row.now others.now end) }
{
    let mut new = pairs.duplicate(alloc)?;
    for other in others {
        new.push(Shared::new(alloc, joined(alloc, end, row, other)?)?)?;
    }
    Ok(new)
}

// The pair of a row at this end of a link with another row.
fn joined(alloc: Global, end: LinkEnd, row: &RowId, other: &RowId) -> Result<LinkPair, AllocError>
    ensures { IfOk result (λ pair. pair ≡ joined_of end row.now other.now) }
{
    let row = row.duplicate(alloc)?;
    let other = other.duplicate(alloc)?;
    if end.first {
        return Ok(LinkPair {
            link: end.link,
            first: row,
            second: other,
        });
    }
    Ok(LinkPair {
        link: end.link,
        first: other,
        second: row,
    })
}

// The pairs without those of a row at this end and other rows.
fn without_joined(
    alloc: Global,
    pairs: &[Shared<LinkPair>],
    row: &RowId,
    others: &[RowId],
    end: LinkEnd,
) -> Result<PlainPairs, AllocError>
    ensures { IfOk result (λ kept. kept ≡ without_joined_of pairs.now row.now others.now end) }
{
    let gone = set_of(alloc, others)?;
    let mut kept = Items::new(alloc);
    for pair in pairs {
        if joins_none(end, row, &gone, pair.get()) {
            kept.push(pair.duplicate(alloc)?)?;
        }
    }
    Ok(kept)
}

// The pair doesn't join a row at this end with one of these.
fn joins_none(end: LinkEnd, row: &RowId, others: &BTreeSet<String>, pair: &LinkPair) -> bool
    ensures { result ≡ not (is_of_row end.link end.first row.now pair.now && contains_text others.now (side_of (not end.first) pair.now).0) }
{
    !(is_of(end.link, end.first, row, pair) && others.contains(side(!end.first, pair).0.as_str()))
}

// The ends of links that columns are.
fn ends_of(alloc: Global, columns: &[Column]) -> Result<Vec<LinkEnd>, AllocError>
    ensures { IfOk result (λ ends. ends.items ≡ ends_of_columns columns.now) }
{
    columns
        .iter()
        .filter_map(|column| column.other)
        .collect(alloc)
}

// The pairs without those that have rows of a table whose link columns are these ends.
fn without_rows(
    alloc: Global,
    pairs: &[Shared<LinkPair>],
    ends: &[LinkEnd],
    ids: &[RowId],
) -> Result<PlainPairs, AllocError>
    ensures { IfOk result (λ kept. kept ≡ filter (has_no_row_of ends.now (texts_of_ids ids.now)) pairs.now) }
{
    let gone = set_of(alloc, ids)?;
    let mut kept = Items::new(alloc);
    for pair in pairs {
        if has_no_row(ends, &gone, pair.get()) {
            kept.push(pair.duplicate(alloc)?)?;
        }
    }
    Ok(kept)
}

// The pair has none of these rows at one of these ends.
fn has_no_row(ends: &[LinkEnd], ids: &BTreeSet<String>, pair: &LinkPair) -> bool
    ensures { (texts : List (List ℕ)) → ((id : List ℕ) → contains_text ids.now id ≡ is_among texts id) → result ≡ has_no_row_of ends.now texts pair.now }
{
    !has_row(ends, ids, pair)
}

// The pair has one of these rows at one of these ends.
fn has_row(ends: &[LinkEnd], ids: &BTreeSet<String>, pair: &LinkPair) -> bool
    ensures { result ≡ list_any (λ end. (pair.now.link == end.link) && contains_text ids.now (side_of end.first pair.now).0) ends.now }
{
    ends.iter().any(|end| has_row_at(ids, pair, *end))
}

// The pair has one of these rows at this end.
fn has_row_at(ids: &BTreeSet<String>, pair: &LinkPair, end: LinkEnd) -> bool
    ensures { result ≡ ((pair.now.link == end.link) && contains_text ids.now (side_of end.first pair.now).0) }
{
    pair.link == end.link && ids.contains(side(end.first, pair).0.as_str())
}

// The pairs of other links than these.
fn without_links(
    alloc: Global,
    pairs: &[Shared<LinkPair>],
    links: &[u32],
) -> Result<PlainPairs, AllocError>
    ensures { IfOk result (λ kept. kept ≡ filter (is_of_others_of links.now) pairs.now) }
{
    let mut kept = Items::new(alloc);
    for pair in pairs {
        if is_of_others(links, pair.get()) {
            kept.push(pair.duplicate(alloc)?)?;
        }
    }
    Ok(kept)
}

// The pair is of another link than these.
fn is_of_others(links: &[u32], pair: &LinkPair) -> bool
    ensures { result ≡ is_of_others_of links.now pair.now }
{
    !is_link_among(links, pair.link)
}
