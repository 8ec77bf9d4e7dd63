// Lists lags: lines of rate, tab, pitch index come from the files that are named, or from standard
// input, and a table for each goes to standard output. The listing itself is the library's; this
// program moves bytes.
#![tactic(auto)]

use arguments::inputs::{Event, run};
use arguments::options::is_to_run;
use listing::machine::Listing;
use listing_stream::{begin, end, pump};
use outcome::Outcome;
use std::process::ExitCode;

// What an event makes of the listing of the input that is open. It gives none where standard output takes no more. A match, since
// each event asks for another thing with other arguments.
fn after(
    rt: &HostRuntime,
    outcome: &mut Outcome,
    listing: Listing,
    event: Event,
    piece: &[u8],
) -> Option<Listing> {
    match event {
        Event::Begun => begin(rt, outcome).ok(),
        Event::Piece(_) => {
            let mut out = [0u8; 65536];
            pump(rt, outcome, listing, piece, &mut out).ok()
        }
        Event::Ended => end(rt, outcome, listing).ok(),
        Event::Failed | Event::Over => Some(listing),
    }
}

fn main(rt: HostRuntime) -> ExitCode {
    let mut outcome = Outcome::new();
    if is_to_run(
        &rt,
        &mut outcome,
        b"usage: lags [FILE]..\n",
        b"lists lines of rate, tab, pitch index; from standard input for a dash, and where no file is named.\nA dash for the rate means 48000, a dash for the index no pitch.\n",
        usize::MAX,
    ) {
        run(
            &rt,
            &mut outcome,
            Listing::begin(),
            |outcome, listing, event, _source, piece| after(&rt, outcome, listing, event, piece),
        );
    }
    outcome.status()
}
