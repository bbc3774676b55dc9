// Names and ids, and texts that come twice.
ghost use Rattle.std.specs.Prelude.{◌≡◌, ◌||◌, ℕ, List, [], map, IfOk, OnOk};
ghost use Rattle.std.specs.List.{list_all};
ghost use Rattle.std.specs.Str.{bytes_eq};
ghost use Rattle.std.specs.BTreeSet.{contains_text};
ghost use Rattle.sea_text.specs.Distinct.{is_among};
ghost use Rattle.sea_operation.specs.Names.{is_name as is_name_of, is_name_byte as is_name_byte_of, is_id as is_id_of, is_id_byte as is_id_byte_of, is_option as is_option_of, first_repeat as first_repeat_of};

use sea_cell::{Named, Text, insert_text};
use std::alloc::{AllocError, Global};
use std::collections::BTreeSet;

/// Whether a text is a name of a table, a column or a view: 1 to 64 bytes, no control character, DEL or backquote
/// among them, and no underscore in front.
pub fn is_name(name: &str) -> bool
    ensures { result ≡ is_name_of name.now }
{
    let bytes = name.as_bytes();
    !bytes.is_empty() && bytes.len() <= 64 && bytes[0] != b'_' && are_name_bytes(bytes)
}

fn are_name_bytes(bytes: &[u8]) -> bool
    ensures { result ≡ list_all is_name_byte_of bytes.now }
{
    bytes.iter().all(|byte| is_name_byte(*byte))
}

fn is_name_byte(byte: u8) -> bool
    ensures { result ≡ is_name_byte_of byte }
{
    32 <= byte && byte != 127 && byte != b'`'
}

/// Whether a text is an id that a row may be given: 1 to 22 letters, digits, `_` and `-`.
pub fn is_id(id: &str) -> bool
    ensures { result ≡ is_id_of id.now }
{
    let bytes = id.as_bytes();
    !bytes.is_empty() && bytes.len() <= 22 && are_id_bytes(bytes)
}

fn are_id_bytes(bytes: &[u8]) -> bool
    ensures { result ≡ list_all is_id_byte_of bytes.now }
{
    bytes.iter().all(|byte| is_id_byte(*byte))
}

fn is_id_byte(byte: u8) -> bool
    ensures { result ≡ is_id_byte_of byte }
{
    matches!(byte, b'A'..=b'Z' | b'a'..=b'z' | b'0'..=b'9' | b'_' | b'-')
}

/// Whether a text is an option that a column may have: 1 to 64 bytes.
pub fn is_option(option: &str) -> bool
    ensures { result ≡ is_option_of option.now }
{
    !option.is_empty() && option.len() <= 64
}

/// The first name that is one of those in use or stands among those before it.
pub fn first_repeat<T: Named>(
    alloc: Global,
    used: &BTreeSet<String>,
    items: &[T],
) -> Result<Option<Text>, AllocError>
    ensures { IfOk result (λ repeat. repeat ≡ first_repeat_of (contains_text used.now) [] (map T.name items.now)) }
{
    let mut seen = BTreeSet::new(alloc);
    for item in items {
        if is_repeat(alloc, used, &mut seen, item.name())? {
            return Ok(Some(Text::copy_of(alloc, item.name())?));
        }
    }
    Ok(None)
}

// A name is one of those in use or has been seen; now it has been.
fn is_repeat(
    alloc: Global,
    used: &BTreeSet<String>,
    seen: &mut BTreeSet<String>,
    name: &str,
) -> Result<bool, AllocError>
    ensures repeat { IfOk result (λ repeat. repeat ≡ (contains_text used.now name.now || contains_text seen.old name.now)) }
    ensures after { OnOk result ((other : List ℕ) → contains_text seen.new other ≡ (contains_text seen.old other || bytes_eq name.now other)) }
{
    let new = insert_text(alloc, seen, name)?;
    Ok(used.contains(name) || !new)
}

/// The set of some names.
pub fn set_of<T: Named>(alloc: Global, items: &[T]) -> Result<BTreeSet<String>, AllocError>
    ensures { IfOk result (λ seen. (name : List ℕ) → contains_text seen name ≡ is_among (map T.name items.now) name) }
{
    let mut seen = BTreeSet::new(alloc);
    for item in items {
        insert_text(alloc, &mut seen, item.name())?;
    }
    Ok(seen)
}
