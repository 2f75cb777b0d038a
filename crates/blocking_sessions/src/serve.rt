//! A worker serves one connection.
ghost use Rattle.std.specs.Prelude.{◌≡◌, ◌≤◌, length, true};
ghost use Rattle.line_inlet.specs.Reading.{to_come};
ghost use Rattle.vault_sessions.specs.Sights.{seen_by};
ghost use Rattle.vault_sessions.specs.Serving.{AreSeen, most_lines, HeardAll, SpeaksFor, CountsAll, WritesAll, QuitsBy};

use crate::joined::{Ear, Joined};
use line_inlet::Connection;
use std::alloc::{Allocator, Global};
use std::io::{Read, Write};
use std::sync::Wait;
use vault_device::Device;
use vault_sessions::{
    Dialogue, Ended, Finished, Gate, Out, Share, Shared, Sight, Step, Tally, Worker,
};

/// A conversation that ended.
#[derive(Drop)]
pub struct Report<S: Tally, T: Tally, A: Allocator = Global> {
    /// The answers to its lines, in order.
    pub outs: Vec<Out<A>, A>,
    /// The worker's share.
    pub share: Share<S, T>,
    /// What was seen of the vault.
    pub sight: Option<Sight<S>>,
    /// Why it ended.
    pub ended: Ended,
}

/// Answers the lines of one connection, one at a time, until it ends. If a session is open then, it gets a last `Leave`. Waits for the
/// lock, and for each reply until it is durable.
pub fn serve_one<
    D: Device,
    S: Tally,
    T: Tally,
    A: Allocator + Copy,
    G: Gate,
    R: Read,
    W: Write,
    H: Wait,
>(
    rt: &H,
    alloc: A,
    shared: &Shared<D, S, T, A>,
    gate: &G,
    connection: u32,
    reader: &mut R,
    writer: &mut W,
    share: Share<S, T>,
) -> Report<S, T, A>
    ensures heard { HeardAll (to_come (R.remaining reader.old)) (to_come (R.remaining reader.new)) result.outs.items result.ended }
    ensures few { length result.outs.items ≤ most_lines }
    ensures spoken { SpeaksFor 0 result.outs.items }
    ensures told { AreSeen (seen_by result.sight) result.outs.items }
    ensures written { WritesAll result.ended (W.contents writer.old) (W.contents writer.new) result.outs.items }
    ensures quit { QuitsBy result.ended result.outs.items }
    ensures counted { CountsAll share result.outs.items result.ended result.share }
{
    let worker = Worker {
        rt,
        alloc,
        shared,
        gate,
        most_waits: 0,
    };
    let ear = Ear { reader };
    let (ear, report) = serve_heard(&worker, connection, ear, writer, share);
    let Ear { reader } = ear;
    // This lets the proof know what the reader holds. With two such lines in one function, it would know that of the last one only.
    let _ = &*reader;
    report
}

// The same, with the reader handed back.
fn serve_heard<
    'x,
    'y,
    D: Device,
    S: Tally,
    T: Tally,
    A: Allocator + Copy,
    G: Gate,
    R: Read,
    W: Write,
    H: Wait,
>(
    worker: &Worker<'_, D, S, T, A, G, H>,
    number: u32,
    ear: Ear<'x, R>,
    writer: &'y mut W,
    share: Share<S, T>,
) -> (Ear<'x, R>, Report<S, T, A>)
    ensures back { result.0.reader.ghost_name ≡ ear.entry.reader.ghost_name }
    ensures heard { HeardAll (to_come (R.remaining ear.entry.reader.now)) (to_come (R.remaining result.0.reader.now)) result.1.outs.items result.1.ended }
    ensures few { length result.1.outs.items ≤ most_lines }
    ensures spoken { SpeaksFor 0 result.1.outs.items }
    ensures told { AreSeen (seen_by result.1.sight) result.1.outs.items }
    ensures written { WritesAll result.1.ended (W.contents writer.old) (W.contents writer.new) result.1.outs.items }
    ensures quit { QuitsBy result.1.ended result.1.outs.items }
    ensures counted { CountsAll share result.1.outs.items result.1.ended result.1.share }
{
    let joined = Joined { ear, writer };
    let mut dialogue = match Dialogue::new(worker.alloc, number, joined, share, true) {
        Ok(dialogue) => dialogue,
        Err(back) => {
            let (joined, share) = back;
            let Joined { ear, writer } = joined;
            let _ = &*writer;
            let report = Report {
                outs: Vec::new(worker.alloc),
                share,
                sight: None,
                ended: Ended::NoMemory,
            };
            return (ear, report);
        }
    };
    converse(worker, &mut dialogue);
    let (joined, finished) = dialogue.finish();
    let report = report_of(finished);
    let Joined { ear, writer } = joined;
    let _ = &*writer;
    (ear, report)
}

// The report of a conversation whose answers are kept.
fn report_of<S: Tally, T: Tally, A: Allocator + Copy>(
    finished: Finished<S, T, A>,
) -> Report<S, T, A>
    requires { finished.answers.is_kept ≡ true }
    ensures { (result.outs.items ≡ finished.answers.outs) × (result.share ≡ finished.share) × (result.ended ≡ finished.ended)
        × (result.sight ≡ finished.sight) }
{
    let Finished {
        answers,
        share,
        sight,
        ended,
        left: _,
    } = finished;
    match answers.into_values() {
        Some(outs) => Report {
            outs,
            share,
            sight,
            ended,
        },
        None => unreachable!(),
    }
}

// Takes steps until it is over, and waits where a step would. A reader that has no whole line for now counts as failed, and so does a
// writer that takes no more for now.
fn converse<D: Device, S: Tally, T: Tally, A: Allocator + Copy, G: Gate, H: Wait, C: Connection>(
    worker: &Worker<'_, D, S, T, A, G, H>,
    dialogue: &mut Dialogue<C, S, T, A>,
)
    ensures began { dialogue.new.began ≡ dialogue.old.began }
    ensures over { (dialogue.new.is_over ≡ true) × (dialogue.new.has_ended ≡ true) }
{
    for _ in worker.rt.forever() {
        let seen = worker.shared.settlings(worker.rt);
        match dialogue.step(worker) {
            Step::Went => {}
            Step::Waits => worker.shared.wait(worker.rt, seen),
            Step::Dry | Step::Full => dialogue.give_up(worker),
            Step::Over => return,
        }
    }
}
