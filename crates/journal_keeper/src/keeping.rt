//! What the thread does that keeps a journal.

ghost use Rattle.std.specs.Prelude.{OnErr, OnOk};
ghost use Rattle.journal_keeper.specs.Following.{KeepsFile, KeepsOn, PutsAll};

use crate::followed::Followed;
use crate::keep_fault::KeepFault;
use crate::kept::Kept;
use journal_file::{JournalFile, Writing};
use std::sync::Wait;

/// What a fold is answered: how many entries it folded, or why it was refused.
type FoldAnswer<J> = Result<u64, <J as Followed>::Refusal>;

/// A fold that was made: up to which number folds were asked for, where they were, and the answer.
type Made<J> = Option<(u64, FoldAnswer<J>)>;

/// What the thread has of its own.
#[derive(Drop)]
pub struct Keeper<F: Drop> {
    pub writing: Writing,
    pub file: F,
}

/// Puts the next entries, and folds where that is asked for.
#[tactic(auto, using(crate::proofs::FollowingLemmas::puts_next, crate::proofs::FollowingLemmas::puts_folded))]
fn put<J: Followed, R: Wait>(
    rt: &R,
    journal: &J,
    wanted: Option<u64>,
    writing: &mut Writing,
) -> Result<Made<J>, KeepFault>
    ensures { OnOk result (PutsAll (J.gives journal.now) writing.old writing.new) }
{
    journal.put_entries(rt, writing)?;
    match wanted {
        Some(number) => Ok(Some((number, journal.put_fold(rt, writing)?))),
        None => Ok(None),
    }
}

/// Puts what there is, writes and syncs it, and then tells those who wait.
#[tactic(auto, using(crate::proofs::FollowingLemmas::turn_kept, crate::proofs::FollowingLemmas::turn_broke, crate::proofs::FollowingLemmas::keeps_file_nothing))]
fn turn<J: Followed, F: JournalFile + Drop, R: Wait>(
    rt: &R,
    journal: &J,
    kept: &Kept<FoldAnswer<J>>,
    wanted: Option<u64>,
    keeper: &mut Keeper<F>,
) -> Result<(), KeepFault>
    ensures ok { OnOk result (KeepsOn (J.gives journal.now) keeper.old.writing (F.state keeper.old.file) keeper.new.writing (F.state keeper.new.file)) }
    ensures err { OnErr result (KeepsFile (J.gives journal.now) keeper.old.writing (F.state keeper.old.file) (F.state keeper.new.file)) }
{
    let made = put(rt, journal, wanted, &mut keeper.writing)?;
    let Ok(synced) = keeper.writing.keep(&mut keeper.file) else {
        return Err(KeepFault::File);
    };
    kept.publish(rt, synced, made);
    Ok(())
}

/// Keeps entries as they come, until it is to end and all are kept.
#[tactic(auto, using(crate::proofs::FollowingLemmas::keeps_both, crate::proofs::FollowingLemmas::keeps_file_after))]
fn keep_on<J: Followed, F: JournalFile + Drop, R: Wait>(
    rt: &R,
    journal: &J,
    kept: &Kept<FoldAnswer<J>>,
    keeper: &mut Keeper<F>,
) -> Result<(), KeepFault>
    ensures ok { OnOk result (KeepsOn (J.gives journal.now) keeper.old.writing (F.state keeper.old.file) keeper.new.writing (F.state keeper.new.file)) }
    ensures err { OnErr result (KeepsFile (J.gives journal.now) keeper.old.writing (F.state keeper.old.file) (F.state keeper.new.file)) }
{
    let mut interrupts = 0;
    turn(rt, journal, kept, None, keeper)?;
    for _ in rt.forever() {
        let seen = journal.wait_entries(rt, keeper.writing.taken(), interrupts);
        interrupts = seen.interrupts;
        let (wanted, is_ending) = kept.wanted(rt);
        turn(rt, journal, kept, wanted, keeper)?;
        if is_ending && keeper.writing.taken() >= seen.position {
            break;
        }
    }
    Ok(())
}

/// Keeps the entries of a journal in the file as they come, and folds the journal where that is asked for. Nobody else folds it. What
/// comes in during one sync goes with the next. It ends once it is told to end and all entries are kept, or at a fault:
/// then nothing is kept any more, and all who wait go on.
///
/// The thread is to be interrupted after `Kept::ask_fold` and `Kept::end`.
pub fn keep_journal<J: Followed, F: JournalFile + Drop, R: Wait>(
    rt: &R,
    journal: &J,
    kept: &Kept<FoldAnswer<J>>,
    keeper: &mut Keeper<F>,
) -> Result<(), KeepFault>
    ensures ok { OnOk result (KeepsOn (J.gives journal.now) keeper.old.writing (F.state keeper.old.file) keeper.new.writing (F.state keeper.new.file)) }
    ensures err { OnErr result (KeepsFile (J.gives journal.now) keeper.old.writing (F.state keeper.old.file) (F.state keeper.new.file)) }
{
    let result = keep_on(rt, journal, kept, keeper);
    kept.close(rt, result.is_err());
    result
}
