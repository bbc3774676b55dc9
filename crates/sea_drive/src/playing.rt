// Playing one line.
ghost use Rattle.std.specs.Prelude.{◌≡◌, ◌⊎◌, ℤ, ℕ, List, Option, Some, None, IsUtf8, IfOk};
ghost use Rattle.sea_edge.specs.Minutes.{Tells};
ghost use Rattle.sea_moment.specs.Moment.{IsMoment};
ghost use Rattle.sea_ops.specs.Operations.{op_of};
ghost use Rattle.sea_core.specs.Events.{IsTaken};
ghost use Rattle.sea_core.specs.State.{known};
ghost use Rattle.sea_core.specs.declared.event.Event.TheVariants as event;
ghost use Rattle.sea_drive.specs.Feeds.{feed_words as feed_words_of};
ghost use Rattle.sea_drive.specs.Outcome.{event_outcome as event_outcome_of, refused_outcome as refused_outcome_of, select_outcome};
ghost use Rattle.sea_drive.specs.Select.{select_of};
ghost use Rattle.sea_drive.specs.Setting.{setting};
ghost use Rattle.sea_drive.specs.Steps.{LineStep, VerbStep, Stays, MakesEvent, MakesEdit, MakesFeed};

use crate::feed::feed_words;
use crate::line::Played;
use crate::outcome::LineOutcome;
use crate::select::{answer_of, table_of_select};
use crate::texts::without_return;
use crate::verb::{Verb, asked_by};
use sea_cell::{Moment, Text};
use sea_core::{Core, CoreFault, Event, Outcome, one_base_at_most};
use sea_disk::Disk;
use sea_edge::Clock;
use sea_operation::{Entry, OpRefusal, Plain, plain_named};
use sea_ops::{OpFault, op_of_json};
use std::alloc::{AllocError, Global};

/// Plays a line on a core.
#[tactic(auto, unfolding(crate::specs::Steps::LineStep))]
pub fn play_line<D: Disk, C: Clock>(
    alloc: Global,
    core: Core<D>,
    clock: &mut C,
    line: &[u8],
) -> Played<D>
    ensures step { LineStep (setting (C.told clock.old) D.told D.shows D.faults D.failed) core line.now result }
    ensures clock { C.told clock.new ≡ C.told clock.old }
{
    let (verb, rest) = asked_by(without_return(line));
    play_verb(alloc, core, clock, verb, rest)
}

// Plays a line that asks for this.
fn play_verb<D: Disk, C: Clock>(
    alloc: Global,
    core: Core<D>,
    clock: &mut C,
    verb: Verb,
    rest: &str,
) -> Played<D>
    ensures step { VerbStep (setting (C.told clock.old) D.told D.shows D.faults D.failed) core verb rest.now result }
    ensures clock { C.told clock.new ≡ C.told clock.old }
{
    match verb {
        Verb::Nothing => Played::On(Some(LineOutcome::Silent), core),
        Verb::Unknown => Played::On(Some(LineOutcome::BadLine), core),
        Verb::Later => Played::On(Some(LineOutcome::NotYet), core),
        Verb::Edit => {
            let mut core = core;
            let outcome = play_edit(alloc, &mut core, clock, rest);
            Played::On(outcome, core)
        }
        Verb::Select => {
            let outcome = play_select(alloc, core.content(), rest);
            Played::On(outcome, core)
        }
        Verb::Feed => {
            let mut core = core;
            let outcome = play_feed(&mut core, rest);
            Played::On(outcome, core)
        }
        Verb::Reopen => reopen(alloc, core),
    }
}

// The line `op`.
fn play_edit<D: Disk, C: Clock>(
    alloc: Global,
    core: &mut Core<D>,
    clock: &mut C,
    text: &str,
) -> Option<LineOutcome>
    ensures step { Stays core.old None result core.new ⊎ MakesEdit (setting (C.told clock.old) D.told D.shows D.faults D.failed) core.old (op_of text.now) result core.new }
    ensures clock { C.told clock.new ≡ C.told clock.old }
{
    let op = match op_of_json(alloc, text.as_bytes()) {
        Ok(op) => op,
        Err(OpFault::Memory) => return None,
        Err(OpFault::BadOperation) => {
            return Some(LineOutcome::Refused(CoreFault::Op(OpRefusal::BadOperation)));
        }
    };
    let moment = now(clock);
    let Ok(user) = Text::copy_of(alloc, "play") else {
        return None;
    };
    edit(core, Entry { op, moment, user })
}

// The moment at which an operation is made.
fn now<C: Clock>(clock: &mut C) -> Moment
    ensures answer { Tells (C.told clock.old) result.0 }
    ensures moment { IsMoment result.0 }
    ensures same { C.told clock.new ≡ C.told clock.old }
{
    Moment(clock.minutes())
}

// Edits an entry.
fn edit<D: Disk>(core: &mut Core<D>, entry: Entry) -> Option<LineOutcome>
    requires moment { IsMoment entry.moment.0 }
    requires user { IsUtf8 entry.user }
    requires form { (text : List ℕ) × (op_of text ≡ Some entry.op) }
    ensures { MakesEvent (known D.told D.shows D.faults D.failed) core.old (event.Edit entry) result core.new }
{
    make(core, Event::Edit(entry))
}

// The line `feed`.
fn play_feed<D: Disk>(core: &mut Core<D>, text: &str) -> Option<LineOutcome>
    ensures { MakesFeed (known D.told D.shows D.faults D.failed) core.old (feed_words_of text.now) result core.new }
{
    let Some((from, most)) = feed_words(text) else {
        return Some(LineOutcome::BadLine);
    };
    make(core, Event::Feed { from, most })
}

// Makes an event.
fn make<D: Disk>(core: &mut Core<D>, event: Event) -> Option<LineOutcome>
    requires { IsTaken event }
    ensures { MakesEvent (known D.told D.shows D.faults D.failed) core.old event result core.new }
{
    event_outcome(core.step(event))
}

// What comes of an event.
fn event_outcome(came: Outcome) -> Option<LineOutcome>
    ensures { result ≡ event_outcome_of came }
{
    match came {
        Outcome::Edit(Ok(version)) => Some(LineOutcome::Version(version)),
        Outcome::Edit(Err(fault)) => refused_outcome(fault),
        Outcome::Feed(Ok(feed)) => Some(LineOutcome::Fed(feed)),
        Outcome::Feed(Err(fault)) => refused_outcome(fault),
    }
}

// What comes of a fault of the core.
fn refused_outcome(fault: CoreFault) -> Option<LineOutcome>
    ensures { result ≡ refused_outcome_of fault }
{
    match fault {
        CoreFault::Memory => None,
        fault => Some(LineOutcome::Refused(fault)),
    }
}

// The line `sql`.
fn play_select(alloc: Global, base: &Plain, text: &str) -> Option<LineOutcome>
    ensures { (result ≡ None) ⊎ (result ≡ Some (select_outcome base.now (select_of text.now))) }
{
    match select(alloc, base, text) {
        Ok(outcome) => Some(outcome),
        Err(_) => None,
    }
}

// The answer of a select.
fn select(alloc: Global, base: &Plain, text: &str) -> Result<LineOutcome, AllocError>
    ensures { IfOk result (λ outcome. outcome ≡ select_outcome base.now (select_of text.now)) }
{
    let Some(name) = table_of_select(text) else {
        return Ok(LineOutcome::NotYet);
    };
    match plain_named(base.tables.as_slice(), name) {
        Some(plain) => Ok(LineOutcome::Rows(answer_of(alloc, base.pairs.as_slice(), plain)?)),
        None => Ok(no_table(Text::copy_of(alloc, name)?)),
    }
}

// A select names no table.
fn no_table(name: Text) -> LineOutcome
    ensures { result ≡ LineOutcome.Refused (CoreFault.Op (OpRefusal.NoTable name)) }
{
    LineOutcome::Refused(CoreFault::Op(OpRefusal::NoTable { name }))
}

// The line `reopen`: the base is found again from its files.
fn reopen<D: Disk>(alloc: Global, core: Core<D>) -> Played<D>
    ensures { (clock : Option ℤ) (rest : List ℕ) → VerbStep (setting clock D.told D.shows D.faults D.failed) core Verb.Reopen rest result }
{
    one_base_at_most(); // law
    let limits = core.limits();
    match Core::start(alloc, core.finish(), limits) {
        Ok(core) => {
            let version = core.content().version;
            Played::On(Some(LineOutcome::Reopened(version)), core)
        }
        Err((fault, disk)) => Played::Refused(fault, disk),
    }
}
