//! A run by the calling thread alone.
ghost use Rattle.std.specs.Prelude.{◌≡◌, ◌≤◌, ◌<◌, ◌-◌, ◌^◌, OnOk, OnErr};
ghost use Rattle.pfr_commit.specs.Books.{StandsAt, job_of};
ghost use Rattle.pfr_commit.specs.World.{opening};
ghost use Rattle.pfr_feed.specs.declared.turn.Turn.TheVariants.{GoesOn};
ghost use Rattle.pfr_feed.specs.Runs.{EndsRefused, EndsWell};
ghost use Rattle.pfr_feed.specs.Turns.{IsTurn};

use crate::feed::Feed;
use crate::packets::viewed;
use crate::room::Room;
use crate::turn::Turn;
use pfr_commit::{Book, Gate};
use std::alloc::{AllocError, Global};

/// Asks a feed for a batch, has a book take it, and hands the feed what the batch adds. The new piece has the room of
/// the one before.
fn take_turn<F: Feed, G: Gate>(
    alloc: Global,
    book: &mut Book,
    feed: &mut F,
    gate: &G,
    room: &mut Room,
) -> Turn
    requires few { book.old.count ≤ F.given feed.old }
    ensures told { F.told feed.new ≡ F.told feed.old }
    ensures names { F.names feed.new ≡ F.names feed.old }
    ensures job { book.new.job ≡ book.old.job }
    ensures few { result ≡ GoesOn → book.new.count ≤ F.given feed.new }
    ensures comes { IsTurn F.transitions result book.old book.new feed.old feed.new }
    ensures nearer { result ≡ GoesOn → 2 ^ 43 - F.given feed.new < 2 ^ 43 - F.given feed.old }
{
    let Some(records) = feed.batch() else {
        return Turn::IsOver;
    };
    let Ok(packets) = viewed(alloc, records) else {
        return Turn::IsRefused;
    };
    let mut piece = room.piece(alloc);
    let Ok(()) = book.commit_batch_alone(packets.as_slice(), gate, &mut piece) else {
        return Turn::IsRefused;
    };
    *room = Room::of(&piece);
    if !feed.take(piece) {
        return Turn::IsOver;
    }
    feed.give_back(packets);
    Turn::GoesOn
}

/// Takes the batches of a feed one after the other, and hands the feed what each adds before it asks for the next. A
/// gate is told what each packet came to.
pub fn run_alone<F: Feed, G: Gate>(
    alloc: Global,
    mut book: Book,
    mut feed: F,
    gate: &G,
) -> (Book, F, Result<(), AllocError>)
    requires start { StandsAt book (opening (job_of book)) }
    ensures job { result.0.job ≡ book.job }
    ensures told { F.told result.1 ≡ F.told feed }
    ensures names { F.names result.1 ≡ F.names feed }
    ensures ok { OnOk result.2 (EndsWell F.transitions (job_of book) feed result.0 result.1) }
    ensures err { OnErr result.2 (EndsRefused F.transitions (job_of book) feed result.0 result.1) }
{
    let mut room = Room::first();
    'turns: loop {
        match take_turn(alloc, &mut book, &mut feed, gate, &mut room) {
            Turn::GoesOn => {}
            Turn::IsOver => return (book, feed, Ok(())),
            Turn::IsRefused => return (book, feed, Err(AllocError)),
        }
    }
}
