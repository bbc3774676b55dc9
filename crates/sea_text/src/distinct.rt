// Lists of texts in which each counts once.
ghost use Rattle.std.specs.Prelude.{◌≡◌, ◌≤◌, ◌||◌, not, ℕ, List, count_by, IfOk, OnOk};
ghost use Rattle.std.specs.Str.{bytes_eq};
ghost use Rattle.std.specs.BTreeSet.{contains_text};
ghost use Rattle.sea_text.specs.Distinct.{is_among as is_among_of, once};

use crate::duplicate::Duplicate;
use crate::text_type::{Text, Texts};
use std::alloc::{AllocError, Global};
use std::collections::BTreeSet;

/// Whether a text is one of some texts. Texts are compared by bytes.
pub fn is_among(texts: &[Text], text: &str) -> bool
    ensures { result ≡ is_among_of texts.now text.now }
{
    texts.iter().any(|one| one.as_str() == text)
}

/// The texts in their order, each of them once, at its first place. It takes some n log n comparisons for n texts.
pub fn without_repeats(alloc: Global, texts: &[Text]) -> Result<Texts, AllocError>
    ensures { IfOk result (λ kept. kept ≡ once texts.now) }
{
    let mut seen = BTreeSet::new(alloc);
    let mut kept = Texts::new(alloc);
    for text in texts {
        if insert_text(alloc, &mut seen, text.as_str())? {
            kept.push(text.duplicate(alloc)?)?;
        }
    }
    Ok(kept)
}

/// Of texts of which each counts once, the same texts are left, and none of them twice.
pub fn no_text_goes_or_stays_twice()
    ensures same { (texts : List (List ℕ)) (text : List ℕ) → is_among_of (once texts) text ≡ is_among_of texts text }
    ensures single { (texts : List (List ℕ)) (text : List ℕ) → count_by (bytes_eq text) (once texts) ≤ 1 }
{}

/// Puts a text into a set, and answers whether it is new there.
pub fn insert_text(
    alloc: Global,
    seen: &mut BTreeSet<String>,
    text: &str,
) -> Result<bool, AllocError>
    ensures new { IfOk result (λ new. new ≡ not (contains_text seen.old text.now)) }
    ensures after { OnOk result ((other : List ℕ) → contains_text seen.new other ≡ (contains_text seen.old other || bytes_eq text.now other)) }
{
    Ok(seen.insert(String::from_str(alloc, text)?)?)
}
