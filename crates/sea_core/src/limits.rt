// Limits of a base.
ghost use Rattle.std.specs.Prelude.{◌≤◌};

/// The limits of a base that may be made smaller than the standard ones. Those of the log are kept to; the others are for
/// what isn't built yet.
#[derive(Clone, Copy)]
pub struct Limits {
    /// The most live rows.
    pub live_rows: u32,
    /// The most bytes of all live rows.
    pub live_bytes: u64,
    /// The most archived rows.
    pub archived_rows: u32,
    /// The most slots of the archive.
    pub slots: u32,
    /// The most bytes of a log file.
    pub log_bytes: u64,
    /// The most entries of a session's history.
    pub session_entries: u64,
    /// The most bytes of the canonical texts of these entries' operations.
    pub session_bytes: u64,
    pub ghost within_live_rows: { live_rows ≤ 100000 },
    pub ghost within_live_bytes: { live_bytes ≤ 134217728 },
    pub ghost within_archived_rows: { archived_rows ≤ 1000000 },
    pub ghost within_slots: { slots ≤ 16384 },
    pub ghost within: { log_bytes ≤ 268435456 },
    pub ghost within_session_entries: { session_entries ≤ 4000000 },
    pub ghost within_session_bytes: { session_bytes ≤ 536870912 },
}
