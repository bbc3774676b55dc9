// Moments at the ends of their range and beyond them.
use sea_moment::{is_moment, nearest, text_of_moment};
use std::test::Fail;

// Numbers of minutes: whether each is a moment, the nearest one, and how it is shown. 0001-01-01 lies 719,162 days before
// 1970-01-01, and 10000-01-01 lies 2,932,897 days behind it.
const ENDS: &str = "-9223372036854775808 -> false -1035593280 0001-01-01
-1035593281 -> false -1035593280 0001-01-01
-1035593280 -> true -1035593280 0001-01-01
0 -> true 0 1970-01-01
28401120 -> true 28401120 2024-01-01
4223371679 -> true 4223371679 9999-12-31 23:59
4223371680 -> false 4223371679 9999-12-31 23:59
9223372036854775807 -> false 4223371679 9999-12-31 23:59";

#[test]
fn minutes_beyond_the_range_are_shown_as_its_ends(rt: HostRuntime) -> Result<(), Fail> {
    let alloc = rt.alloc();
    for line in ENDS.lines() {
        let (minutes, wanted) = line.split_once(" -> ").unwrap_or((line, ""));
        let minutes = minutes.parse::<i64>().ok().ok_or("no number")?;
        let (inside, end) = (is_moment(minutes), nearest(minutes));
        let text = text_of_moment(alloc, minutes)?;
        let found = format!(in alloc; "{inside} {end} {}", text.as_str())?;
        assert_eq!(rt; found.as_str(), wanted, "{line}");
    }
    Ok(())
}
