// The record of an entry in a log.
ghost use Rattle.std.specs.Prelude.{◌≡◌, ◌-◌, ◌<◌, ◌^◌, ◌↔◌, ℕ, ℤ, List, Some, length, min, IsTrue, IsNone, IfOk, IfSome, MatchOption};
ghost use Rattle.sea_moment.specs.Moment.{IsMoment};
ghost use Rattle.sea_record.specs.Record.{minutes_of as minutes_from_first, record_bytes, record_of, IsTooLong, IsRecord, HasPlaces, IsReadable, AreFieldsOf, IsWritten};

use sea_cell::{Moment, Text};
use sea_fields::{Bytes, put_bytes, put_u8, put_u64, take_bytes, take_u8, take_u64};
use sea_moment::{FIRST, LAST};
use sea_operation::Entry;
use sea_ops::{op_of_bytes, op_text, texts_are_forms};
use std::alloc::{AllocError, Global};

/// The kind of a record that holds an entry.
const ENTRY_KIND: u8 = 1;

/// How many bytes a record has beside its user and the text of its operation.
const BESIDE_TEXTS: u64 = 25;

/// The record of an entry under a number, or None where the user or the canonical text of the operation has 2^32 bytes
/// or more. docs/formats.md has its fields.
pub fn record_of_entry(alloc: Global, lsn: u64, entry: &Entry) -> Result<Option<Bytes>, AllocError>
    requires { IsMoment entry.now.moment.0 }
    ensures none { IfOk result (λ found. IsNone found ↔ IsTooLong entry.now) }
    ensures some { IfOk result (λ found. IfSome found (λ bytes. bytes ≡ record_of lsn entry.now)) }
{
    let text = op_text(alloc, &entry.op)?;
    let user = entry.user.as_str().as_bytes();
    if !(fits(user) && fits(text.as_slice())) {
        return Ok(None);
    }
    let minutes = minutes_of(entry.moment);
    Ok(Some(bytes_of_fields(alloc, lsn, minutes, user, text.as_slice())?))
}

/// How many bytes the record of an entry has, under whatever number; a number past the last one stands there. It says so
/// of entries too whose fields are too long for a record.
pub fn record_length(alloc: Global, entry: &Entry) -> Result<u64, AllocError>
    ensures { IfOk result (λ bytes. (lsn : ℕ) → bytes ≡ min (length (record_of lsn entry.now)) (2 ^ 64 - 1)) }
{
    let user = entry.user.as_str().len() as u64;
    let text = op_text(alloc, &entry.op)?.len() as u64;
    Ok(BESIDE_TEXTS.saturating_add(user).saturating_add(text))
}

// Fewer bytes than the length of a byte row can say.
fn fits(bytes: &[u8]) -> bool
    ensures { IsTrue result ↔ (length bytes.now < 2 ^ 32) }
{
    (bytes.len() as u64) < 1 << 32
}

// The minutes from the first moment to this one.
fn minutes_of(moment: Moment) -> u64
    requires { IsMoment moment.0 }
    ensures { result ≡ minutes_from_first moment.0 }
{
    (moment.0 - FIRST) as u64
}

// The fields of a record in a row.
fn bytes_of_fields(
    alloc: Global,
    lsn: u64,
    minutes: u64,
    user: &[u8],
    text: &[u8],
) -> Result<Bytes, AllocError>
    requires user { length user.now < 2 ^ 32 }
    requires text { length text.now < 2 ^ 32 }
    ensures { IfOk result (λ bytes. bytes ≡ record_bytes lsn minutes user.now text.now) }
{
    let mut out = Bytes::new(alloc);
    put_u64(&mut out, lsn)?;
    put_u8(&mut out, ENTRY_KIND)?;
    put_u64(&mut out, minutes)?;
    put_bytes(&mut out, user)?;
    put_bytes(&mut out, text)?;
    Ok(out)
}

/// The entry whose record the bytes are, and its number. None says that they are the record of none: a field is cut
/// off, something follows the last one, the kind is another, the minutes are no moment, the user is no UTF-8, or the
/// text is no operation or not the canonical text of it.
pub fn entry_of_record(alloc: Global, payload: &[u8]) -> Result<Option<(u64, Entry)>, AllocError>
    ensures some { IfOk result (λ found. IfSome found (λ pair. IsRecord payload.now pair.0 pair.1)) }
    ensures none { IfOk result (λ found. IsNone found → (lsn : ℕ) (entry : Entry) → ¬ IsRecord payload.now lsn entry) }
{
    let Some(fields) = fields_of(payload) else {
        return Ok(None);
    };
    let Some(entry) = entry_of_fields(alloc, fields.minutes, fields.user, fields.text)? else {
        return Ok(None);
    };
    // The record written anew shows whether the kind and the text are as they have to be, and that nothing follows.
    if !is_record(alloc, payload, fields.lsn, &entry)? {
        return Ok(None);
    }
    Ok(Some((fields.lsn, entry)))
}

// The fields of a record but for its kind.
#[derive(Drop)]
struct Fields<'a> {
    lsn: u64,
    minutes: u64,
    user: &'a [u8],
    text: &'a [u8],
}

// The fields at their places. Where the bytes are a record, they are its fields.
fn fields_of(payload: &[u8]) -> Option<Fields<'_>>
    ensures { (lsn minutes : ℕ) (user text : List ℕ) → HasPlaces lsn minutes user text → payload.now ≡ record_bytes lsn minutes user text
        → MatchOption result ⊥ (λ found. (found.lsn ≡ lsn) × (found.minutes ≡ minutes) × (found.user.now ≡ user) × (found.text.now ≡ text)) }
{
    let Ok((lsn, at)) = take_u64(payload, 0) else {
        return None;
    };
    let Ok((_, at)) = take_u8(payload, at) else {
        return None;
    };
    let Ok((minutes, at)) = take_u64(payload, at) else {
        return None;
    };
    let Ok((user, at)) = take_bytes(payload, at, u32::MAX) else {
        return None;
    };
    let Ok((text, _)) = take_bytes(payload, at, u32::MAX) else {
        return None;
    };
    Some(Fields {
        lsn,
        minutes,
        user: &payload[user.from..user.to],
        text: &payload[text.from..text.to],
    })
}

// The entry that has these fields.
fn entry_of_fields(
    alloc: Global,
    minutes: u64,
    user: &[u8],
    text: &[u8],
) -> Result<Option<Entry>, AllocError>
    ensures some { IfOk result (λ found. IfSome found IsReadable) }
    ensures all { IfOk result (λ found. (entry : Entry) → IsReadable entry → AreFieldsOf entry minutes user.now text.now → found ≡ Some entry) }
{
    let Some(moment) = moment_of(minutes) else {
        return Ok(None);
    };
    let Ok(user) = str::from_utf8(user) else {
        return Ok(None);
    };
    let Some(op) = op_of_bytes(alloc, text)? else {
        return Ok(None);
    };
    texts_are_forms(); // law
    let user = Text::copy_of(alloc, user)?;
    Ok(Some(Entry { op, moment, user }))
}

// The moment that lies so many minutes after the first one.
fn moment_of(minutes: u64) -> Option<Moment>
    ensures some { IfSome result (λ moment. IsMoment moment.0) }
    ensures all { (moment : ℤ) → IsMoment moment → minutes_from_first moment ≡ minutes → result ≡ Some (record { 0 = moment }) }
{
    if minutes > (LAST - FIRST) as u64 {
        return None;
    }
    Some(Moment(minutes as i64 + FIRST))
}

// Whether the bytes are what is written for the entry.
fn is_record(alloc: Global, payload: &[u8], lsn: u64, entry: &Entry) -> Result<bool, AllocError>
    requires { IsMoment entry.now.moment.0 }
    ensures { IfOk result (λ same. IsTrue same ↔ IsWritten payload.now lsn entry.now) }
{
    match record_of_entry(alloc, lsn, entry)? {
        Some(bytes) => Ok(bytes.as_slice() == payload),
        None => Ok(false),
    }
}
