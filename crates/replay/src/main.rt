// Replays recordings: lines of side information come from the files that are named, or from standard
// input, and a table of what the decoder does on each goes to standard output. The listing itself is
// the library's; this program moves bytes.
#![tactic(auto)]

mod progress;

use crate::progress::Progress;
use arguments::inputs::{Event, Source, run};
use arguments::options::is_to_run;
use listing_stream::{begin, end, pump};
use outcome::Outcome;
use replay_listing::machine::Listing;
use std::process::ExitCode;

// The replay of the input that is open, and how far it is.
#[derive(Clone, Copy)]
struct Replayed {
    listing: Listing,
    progress: Progress,
}

fn replay_piece(
    rt: &HostRuntime,
    outcome: &mut Outcome,
    from: Replayed,
    piece: &[u8],
) -> Option<Replayed> {
    let mut out = [0u8; 65536];
    let out_of_the_way = from.progress.make_way(rt);
    let pumped = pump(rt, outcome, from.listing, piece, &mut out);
    let progress = out_of_the_way.show(rt, piece.len());
    Some(Replayed {
        listing: pumped.ok()?,
        progress,
    })
}

// What an event makes of the replay; source is the input that is open. It gives none where standard output takes no
// more.
fn after(
    rt: &HostRuntime,
    outcome: &mut Outcome,
    from: Replayed,
    event: Event,
    source: Option<&Source>,
    piece: &[u8],
) -> Option<Replayed> {
    match event {
        Event::Begun => {
            let progress = Progress::begin(rt, source);
            let listing = begin(rt, outcome).ok()?;
            Some(Replayed { listing, progress })
        }
        Event::Piece(_) => replay_piece(rt, outcome, from, piece),
        Event::Ended => {
            let progress = from.progress.clear(rt);
            let listing = end(rt, outcome, from.listing).ok()?;
            Some(Replayed { listing, progress })
        }
        Event::Failed | Event::Over => Some(Replayed {
            progress: from.progress.clear(rt),
            ..from
        }),
    }
}

fn main(rt: HostRuntime) -> ExitCode {
    let mut outcome = Outcome::new();
    if is_to_run(
        &rt,
        &mut outcome,
        b"usage: replay [FILE]..\n",
        b"replays lines of frame number, pitch index or a dash, active 0 or 1, nbits, separated by tabs, or of frame\nnumber and the word lost; from standard input for a dash, and where no file is named.\n",
        usize::MAX,
    ) {
        let start = Replayed {
            listing: Listing::begin(),
            progress: Progress::none(),
        };
        run(
            &rt,
            &mut outcome,
            start,
            |outcome, from, event, source, piece| after(&rt, outcome, from, event, source, piece),
        );
    }
    outcome.status()
}
