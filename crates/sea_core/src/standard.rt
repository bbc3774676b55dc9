// The standard limits.
ghost use Rattle.std.specs.Prelude.{◌≡◌, ◌≤◌};
ghost use Rattle.sea_core.specs.Limits.{IsStandard};

use crate::limits::Limits;

impl Limits {
    /// The standard limits, which no limit passes: 100,000 live rows and 134,217,728 bytes of them, 1,000,000 archived rows,
    /// 16,384 slots, 268,435,456 bytes of a log file, and 4,000,000 entries and 536,870,912 bytes of a session.
    pub fn standard() -> Limits
        ensures { IsStandard result }
    {
        Limits {
            live_rows: 100_000,
            live_bytes: 134_217_728,
            archived_rows: 1_000_000,
            slots: 16_384,
            log_bytes: 268_435_456,
            session_entries: 4_000_000,
            session_bytes: 536_870_912,
        }
    }

    /// These limits with so many bytes of a log file.
    pub fn with_log_bytes(self, log_bytes: u64) -> Limits
        requires { log_bytes ≤ 268435456 }
        ensures { result.log_bytes ≡ log_bytes }
    {
        Limits {
            live_rows: self.live_rows,
            live_bytes: self.live_bytes,
            archived_rows: self.archived_rows,
            slots: self.slots,
            log_bytes,
            session_entries: self.session_entries,
            session_bytes: self.session_bytes,
        }
    }
}
