// How much work a frame is: the products with a coefficient that its case takes.
ghost use Rattle.std.specs.Prelude.{◌≡◌, ◌<◌};
ghost use Rattle.filter.specs.Counted.{evaluations_of};
ghost use Rattle.judging.specs.Products.{small, plan_products};

use crate::plan::Plan;
use filter::transition::Transition;

// A number of a configuration, in few bits, so that no product can wrap. No number of the table has more, so a conversion
// that can fail would have a failure that no call meets.
fn small(n: usize) -> u32
    ensures { (result ≡ small n) × (result < 4096) }
{
    (n % 4096) as u32
}

// How many times a filter is evaluated in a frame of nf samples.
fn evaluations(transition: Transition, nf: u32, fade: u32) -> u32
    requires { (nf < 4096) × (fade < 4096) }
    ensures { result ≡ evaluations_of transition nf fade }
{
    match transition {
        Transition::Inactive => 0,
        Transition::Activated => nf,
        Transition::Deactivated => fade,
        Transition::ActiveNoPitchChange => nf,
        Transition::ActivePitchChanged => nf + fade,
    }
}

// The products of a frame with this plan: 2·l_den for each evaluation. Those of a fade's factors, and those that make the
// rows, do not count.
pub fn products_of(plan: Plan) -> u32
    ensures { result ≡ plan_products plan }
{
    let config = plan.config;
    let transition = plan.transition;
    let nf = small(config.nf);
    let fade = small(config.fs.fade);
    2 * small(config.fs.l_den) * evaluations(transition, nf, fade)
}
