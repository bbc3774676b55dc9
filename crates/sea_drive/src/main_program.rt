// The program: which folder its words name, and the run on that folder's disk.
ghost use Rattle.std.specs.Prelude.{◌≡◌, ◌==◌, [], Some, None, false};
ghost use Rattle.sea_faults.specs.Counts.{IsCaused};
ghost use Rattle.sea_drive.specs.Program.{EndsProgram, given};
ghost use Rattle.sea_drive.specs.Setting.{setting, tape};
ghost use Rattle.sea_drive.specs.Words.{command_in, folder_in, is_play};

use crate::command::{Word, folder_of, run, usage};
use sea_disk::{Disk, Folders};
use sea_edge::{Clock, Sink, Source};
use std::alloc::Global;

/// The exit status where a folder can't be made or opened, or has no name.
const NO_FOLDER: u8 = 1;

/// How the program ended: with this exit status, and the disk, where one was opened.
pub struct Ended<D> {
    pub code: u8,
    pub disk: Option<D>,
}

/// Does what the words say, which don't include the program's own name, on the disk of the folder that they name. Words
/// that are no command's write the usage line, and no folder is opened for them.
///
/// The exit status is that of `run`, or 1 where the folder has no name or gives no disk: then nothing is read or written,
/// and nothing is made for a folder without a name.
pub fn program<S: Source, K: Sink, D: Disk, F: Folders<D>, C: Clock>(
    alloc: Global,
    words: &[Word],
    source: &mut S,
    sink: &mut K,
    folders: &mut F,
    clock: &mut C,
) -> Ended<D>
    ensures ends { EndsProgram (command_in words.now) (folder_in words.now) (given (F.gives folders.old) (F.refuses folders.old))
        (setting (C.told clock.old) D.told D.shows D.faults D.failed) result.code result.disk
        (tape (S.left source.old) (S.left source.new) (K.taken sink.old) (K.taken sink.new)) }
    // Only a fault of the source is told by 3, and one of the sink by 4.
    ensures source { IsCaused (result.code == 3) (S.faults source.old) (S.faults source.new) }
    ensures sink { IsCaused (result.code == 4) (K.faults sink.old) (K.faults sink.new) }
    // Words that play no script take nothing from the source, and those without a folder's name open none.
    ensures untouched { is_play (command_in words.now) ≡ false → source.new ≡ source.old }
    ensures unopened { folder_in words.now ≡ None → folders.new ≡ folders.old }
    ensures unnamed { folder_in words.now ≡ Some [] → (result.code ≡ 1) × (result.disk ≡ None) × (folders.new ≡ folders.old) × (source.new ≡ source.old) × (sink.new ≡ sink.old) }
{
    let Some(folder) = folder_of(words) else {
        let code = usage(sink).code();
        return Ended { code, disk: None };
    };
    if folder.is_empty() {
        return no_disk();
    }
    match folders.open(alloc, folder) {
        Ok(disk) => {
            let (status, disk) = run(alloc, words, source, sink, disk, clock);
            Ended {
                code: status.code(),
                disk: Some(disk),
            }
        }
        Err(_) => no_disk(),
    }
}

// The program has no disk.
fn no_disk<D>() -> Ended<D>
    ensures { (result.code ≡ 1) × (result.disk ≡ None) }
{
    Ended {
        code: NO_FOLDER,
        disk: None,
    }
}
