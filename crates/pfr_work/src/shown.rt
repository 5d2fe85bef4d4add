//! What a batch did to the table, as it is published.
ghost use Rattle.std.specs.Prelude.{◌≡◌, ◌++◌, true, false, MatchResult};
ghost use Rattle.pfr_commit.specs.Emissions.{are_kept, listed};
ghost use Rattle.pfr_published.specs.Ends.{is_shown, list_of};

use pfr_commit::Changes;
use pfr_history::History;
use pfr_published::{Published, StoreWriter, TableNaming, known};
use pfr_states::Change;
use std::alloc::{AllocError, Global};
use std::sync::Wait;

/// Hides the table after what a batch did to it.
fn hide<J: TableNaming, R: Wait>(
    rt: &R,
    alloc: Global,
    history: &History<J, Change>,
    published: Published<StoreWriter<J>>,
    changes: &[Change],
) -> (Published<StoreWriter<J>>, Result<(), AllocError>)
    ensures list { MatchResult result.1 (λ _. list_of result.0 ≡ list_of published ++ changes.now) (λ _. list_of result.0 ≡ list_of published) }
{
    match known(alloc, changes) {
        Ok(known) => published.publish_hidden(rt, history, known.as_slice()),
        Err(refused) => (published, Err(refused)),
    }
}

/// Shows what a batch did to the table. Once workers are given up, nobody is shown the table any more.
pub(crate) fn show<J: TableNaming, R: Wait>(
    rt: &R,
    alloc: Global,
    history: &History<J, Change>,
    published: Published<StoreWriter<J>>,
    changes: Changes,
    gave_up: bool,
) -> (Published<StoreWriter<J>>, Result<(), AllocError>)
    ensures list { MatchResult result.1 (λ _. list_of result.0 ≡ list_of published ++ listed changes) (λ _. list_of result.0 ≡ list_of published) }
    ensures shown { gave_up ≡ false → are_kept changes ≡ true → is_shown result.0 ≡ is_shown published }
{
    match changes {
        Changes::Kept(list) if gave_up => hide(rt, alloc, history, published, list.as_slice()),
        Changes::Kept(list) => published.publish(rt, history, list),
        Changes::Known(list) => published.publish_hidden(rt, history, list.as_slice()),
    }
}
