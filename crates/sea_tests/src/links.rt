// Pairs of linked rows: what each call answers, and the index against a walk over all pairs.
use sea_cell::{Duplicate, Ids, RowId, Text};
use sea_links::{LinkFault, Links};
use std::alloc::{AllocError, Global};
use std::test::Fail;

fn id_of(alloc: Global, id: &str) -> Result<RowId, AllocError> {
    Ok(RowId(Text::copy_of(alloc, id)?))
}

// All pairs, each as its link and the ids of its rows.
fn all_of(alloc: Global, links: &Links) -> Result<String, AllocError> {
    let mut text = String::new(alloc);
    for pair in links.all()?.as_slice() {
        let (first, second) = (pair.first.0.as_str(), pair.second.0.as_str());
        text.push_str(format!(in alloc; "{}{first}{second} ", pair.link)?.as_str())?;
    }
    Ok(text)
}

fn ids_shown(alloc: Global, ids: &Ids) -> Result<String, AllocError> {
    let mut text = String::new(alloc);
    for id in ids.as_slice() {
        text.push_str(id.0.as_str())?;
    }
    Ok(text)
}

// A word of a line, or the empty one behind its last.
fn word<'a>(line: &'a str, at: usize) -> &'a str {
    line.split(' ').nth(at).unwrap_or("")
}

// What comes of an addition.
fn added(answer: Result<(), LinkFault>) -> &'static str {
    match answer {
        Ok(()) => "ok",
        Err(LinkFault::LinkExists) => "exists",
        Err(LinkFault::Memory) => "no memory",
    }
}

// Plays a line on links: the call, the number of a link, and two ids, or a side and an id. Its answer is what the call gives.
fn answer(alloc: Global, links: &mut Links, line: &str) -> Result<String, AllocError> {
    let link = word(line, 1).parse::<u32>().unwrap_or(0);
    let (side, second) = (word(line, 2), id_of(alloc, word(line, 3))?);
    let first = id_of(alloc, side)?;
    let is_first = side == "first";
    let text = match word(line, 0) {
        "add" => added(links.add(link, &first, &second)),
        "remove" if links.remove(link, &first, &second).is_ok() => "ok",
        "remove" => "none",
        "linked" if links.linked(link, &first, &second) => "yes",
        "linked" => "no",
        "of" => return ids_shown(alloc, &links.of(link, is_first, &second)?),
        "row" => {
            links.remove_row(link, is_first, &second);
            "ok"
        }
        "link" => {
            links.remove_link(link);
            "ok"
        }
        _ => return all_of(alloc, links),
    };
    String::from_str(alloc, text)
}

// Calls on links, and what each answers.
const CALLS: &str = "all -> 
add 1 a x -> ok
add 2 a x -> ok
add 1 a y -> ok
add 1 b x -> ok
add 1 b z -> ok
remove 1 a y -> ok
all -> 1ax 2ax 1bx 1bz 
add 1 a y -> ok
all -> 1ax 2ax 1bx 1bz 1ay 
linked 1 a x -> yes
linked 1 x a -> no
linked 3 a x -> no
add 1 a x -> exists
remove 1 x a -> none
remove 3 a x -> none
of 1 first a -> xy
of 1 second x -> ab
of 2 first a -> x
of 3 first a -> 
of 1 second a -> 
add 1 x a -> ok
add 1 a a -> ok
of 1 first a -> xya
of 1 second a -> xa
row 1 first a -> ok
all -> 2ax 1bx 1bz 1xa 
row 1 second a -> ok
all -> 2ax 1bx 1bz 
link 1 -> ok
all -> 2ax 
of 1 first b -> 
remove 2 a x -> ok
remove 2 a x -> none
all -> 
";

#[test]
fn links_answer_call_by_call(rt: HostRuntime) -> Result<(), Fail> {
    let alloc = rt.alloc();
    let mut links = Links::new(alloc);
    for line in CALLS.lines() {
        let (call, wanted) = line.split_once(" -> ").unwrap_or((line, ""));
        let copy = links.duplicate(alloc)?;
        let before = all_of(alloc, &links)?;
        assert_eq!(rt; answer(alloc, &mut links, call)?.as_str(), wanted, "{line}");
        assert_eq!(rt; all_of(alloc, &copy)?.as_str(), before.as_str(), "{line}");
        assert_eq!(rt; links.len(), links.all()?.len(), "{line}");
    }
    Ok(())
}

// A pair told by the number of its link and the places of its rows among the letters.
type Told = (u32, usize, usize);

const LETTERS: [&str; 4] = ["a", "b", "c", "d"];

fn letter(at: usize) -> &'static str {
    LETTERS[at % 4]
}

// The row on a side of a pair.
fn side(first: bool, pair: &Told) -> usize {
    if first { pair.1 } else { pair.2 }
}

fn is_told(one: &Told, other: &Told) -> bool {
    one.0 == other.0 && one.1 == other.1 && one.2 == other.2
}

// All pairs of a list, as those of links are shown.
fn all_told(alloc: Global, pairs: &[Told]) -> Result<String, AllocError> {
    let mut text = String::new(alloc);
    for pair in pairs {
        let (first, second) = (letter(pair.1), letter(pair.2));
        text.push_str(format!(in alloc; "{}{first}{second} ", pair.0)?.as_str())?;
    }
    Ok(text)
}

// The rows that a link joins to a row, by a walk over a list of pairs.
fn walked(
    alloc: Global,
    pairs: &[Told],
    link: u32,
    first: bool,
    at: usize,
) -> Result<String, AllocError> {
    let mut text = String::new(alloc);
    for pair in pairs {
        if pair.0 == link && side(first, pair) == at {
            text.push_str(letter(side(!first, pair)))?;
        }
    }
    Ok(text)
}

// The call of a step of a fixed pattern, as a line.
fn line_of(alloc: Global, at: usize, pair: &Told) -> Result<String, AllocError> {
    let (link, first, second) = (pair.0, letter(pair.1), letter(pair.2));
    if at % 31 == 30 {
        return format!(in alloc; "link {link}");
    }
    if at % 11 == 10 && at % 2 == 0 {
        return format!(in alloc; "row {link} first {first}");
    }
    if at % 11 == 10 {
        return format!(in alloc; "row {link} second {second}");
    }
    let call = if at % 4 == 3 { "remove" } else { "add" };
    format!(in alloc; "{call} {link} {first} {second}")
}

// The same step on a list of pairs.
fn step(pairs: &mut Vec<Told>, at: usize, pair: Told) -> Result<(), AllocError> {
    if at % 31 == 30 {
        pairs.retain(|one| one.0 != pair.0);
        return Ok(());
    }
    if at % 11 == 10 {
        let first = at % 2 == 0;
        pairs.retain(|one| one.0 != pair.0 || side(first, one) != side(first, &pair));
        return Ok(());
    }
    if at % 4 == 3 {
        pairs.retain(|one| !is_told(one, &pair));
        return Ok(());
    }
    if !pairs.iter().any(|one| is_told(one, &pair)) {
        pairs.push(pair)?;
    }
    Ok(())
}

// The rows of a row on a side of a link are those of a walk.
fn are_same(
    alloc: Global,
    links: &Links,
    pairs: &[Told],
    link: u32,
    first: bool,
    at: usize,
) -> Result<bool, AllocError> {
    let others = links.of(link, first, &id_of(alloc, letter(at))?)?;
    let told = walked(alloc, pairs, link, first, at)?;
    Ok(ids_shown(alloc, &others)?.as_str() == told.as_str())
}

#[test]
fn the_index_tells_what_a_walk_tells(rt: HostRuntime) -> Result<(), Fail> {
    let alloc = rt.alloc();
    let mut links = Links::new(alloc);
    let mut pairs: Vec<Told> = Vec::new(alloc);
    for at in 0u8..70 {
        let at = usize::from(at);
        let link = if at / 5 % 2 == 0 { 1u32 } else { 2 };
        let pair = (link, at * 3 / 2 % 4, at * 5 / 3 % 4);
        answer(alloc, &mut links, line_of(alloc, at, &pair)?.as_str())?;
        step(&mut pairs, at, pair)?;
        assert_eq!(rt;
            all_of(alloc, &links)?.as_str(),
            all_told(alloc, &pairs)?.as_str()
        );
        for row in 0..4 {
            assert!(rt; are_same(alloc, &links, &pairs, 1, true, row)?);
            assert!(rt; are_same(alloc, &links, &pairs, 2, false, row)?);
        }
    }
    Ok(())
}
