// The versions that replies tell.
use crate::lines::number;

/// The version that the reply to an accepted operation or to a reopening tells.
pub fn version_of(reply: &str) -> Option<u64> {
    let rest = match reply.strip_prefix("{\"version\":") {
        Some(rest) => rest,
        None => reply.strip_prefix("{\"reopened\":")?,
    };
    number(rest.strip_suffix('}')?)
}

/// The version that replies tell last, or the one before them.
pub fn last_version(replies: &str, before: u64) -> u64 {
    let mut version = before;
    for reply in replies.split('\n') {
        if let Some(told) = version_of(reply) {
            version = told;
        }
    }
    version
}
