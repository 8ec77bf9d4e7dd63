// A listing over standard output: what every program that lists has in common. No contract can say what was
// written. Each function gives back the listing after it, as an error where standard output took no more or the
// buffer has no space for a row, and why is said.
#![tactic(auto)]

ghost use Rattle.std.specs.Prelude.{◌≡◌, IfOk, IfErr};
ghost use Rattle.lines.specs.Listings.{rules_of};
ghost use Rattle.lines.specs.Calls.{first, after};

use lines::machine::{Listing, State};
use outcome::{Outcome, say, write_out};

// The listing, by whether standard output took all of it.
fn taken<S: State>(all: bool, listing: Listing<S>) -> Result<Listing<S>, Listing<S>>
    ensures taken { IfOk result (λ m. m ≡ listing) }
    ensures not_taken { IfErr result (λ m. m ≡ listing) }
{
    if all { Ok(listing) } else { Err(listing) }
}

// A listing with its header written.
pub fn begin<S: State>(rt: &HostRuntime, outcome: &mut Outcome) -> Result<Listing<S>, Listing<S>>
    ensures begun { IfOk result (λ m. m ≡ first (rules_of S.rows)) }
    ensures stopped { IfErr result (λ m. m ≡ first (rules_of S.rows)) }
{
    let mut text = [0u8; 256];
    let begun = Listing::start(&mut text);
    let all = write_out(rt, outcome, &text[..begun.written]);
    taken(all, begun.listing)
}

// Feeds a piece of the input to the listing, and writes the rows that it makes by way of out.
pub fn pump<S: State>(
    rt: &HostRuntime,
    outcome: &mut Outcome,
    from: Listing<S>,
    input: &[u8],
    out: &mut [u8],
) -> Result<Listing<S>, Listing<S>>
    ensures { IfOk result (λ m. m ≡ after (rules_of S.rows) from input.now) }
{
    let mut listing = from;
    let mut rest = input;
    // a piece is as long as the listing takes, so no iterator knows it
    while !rest.is_empty() {
        let fed = listing.feed(rest, out);
        if fed.used == 0 {
            say(rt, outcome, b"the listing's buffer has no space for a row");
            return Err(fed.listing);
        }
        if !write_out(rt, outcome, &out[..fed.written]) {
            return Err(fed.listing);
        }
        listing = fed.listing;
        rest = &rest[fed.used..];
    }
    Ok(listing)
}

// Writes what is left at the end of the input.
pub fn end<S: State>(
    rt: &HostRuntime,
    outcome: &mut Outcome,
    listing: Listing<S>,
) -> Result<Listing<S>, Listing<S>>
    ensures ended { IfOk result (λ m. m ≡ listing) }
    ensures stopped { IfErr result (λ m. m ≡ listing) }
{
    let mut text = [0u8; 256];
    let length = listing.finish(&mut text);
    let all = write_out(rt, outcome, &text[..length]);
    taken(all, listing)
}
