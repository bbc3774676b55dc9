// Fronts and ends of texts.
ghost use Rattle.std.specs.Prelude.{◌≡◌, ◌==◌, option_map};
ghost use Rattle.std.specs.List.{before_first, after_first};
ghost use Rattle.sea_drive.specs.Texts.{stripped as stripped_of, without_return as without_return_of};

/// What stands behind a front of a text, or None where the text lacks it.
pub fn stripped<'a>(text: &'a str, front: &str) -> Option<&'a str>
    ensures { option_map (λ rest. rest.now) result ≡ stripped_of front.now text.now }
{
    text.strip_prefix(front)
}

/// A line without a carriage return at its end.
pub fn without_return(line: &[u8]) -> &[u8]
    ensures { result.now ≡ without_return_of line.now }
{
    if !line.is_empty() && line[line.len() - 1] == b'\r' {
        return &line[..line.len() - 1];
    }
    line
}

/// The first word of a text, and what stands behind the space after it.
pub fn split_word(text: &str) -> (&str, &str)
    ensures word { result.0.now ≡ before_first (λ byte. byte == 32) text.now }
    ensures rest { result.1.now ≡ after_first (λ byte. byte == 32) text.now }
{
    match text.split_once(' ') {
        Some(parts) => parts,
        None => (text, ""),
    }
}
