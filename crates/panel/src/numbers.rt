// The root, the distance and the nearness.
ghost use Rattle.std.specs.Prelude.{◌≡◌};
ghost use Rattle.single.specs.Root.{root_answer};
ghost use Rattle.metric.specs.Distance.{distance_of};
ghost use Rattle.colour.specs.Nearness.{nearness_of};

use picture::refusal::number;

// The root of x; +0.0 beside a refusal.
#[tactic(auto, using(single::proofs::Constants::zero_is))]
#[unsafe(no_mangle)]
pub extern "C" fn panel_root(x: f32, root: &mut f32) -> u32
    ensures { record { refusal = result; root = root.new } ≡ root_answer x }
{
    let answer = single::root(x);
    *root = answer.unwrap_or(0.0);
    number(&answer)
}

// How different two colours are, from 0 to 1.
#[unsafe(no_mangle)]
pub extern "C" fn panel_distance(p: u32, q: u32) -> f32
    ensures { result ≡ distance_of p q }
{
    metric::color_distance(p, q)
}

// How near two colours are, by which a palette's nearest entry is chosen: the smaller, the nearer.
#[unsafe(no_mangle)]
pub extern "C" fn panel_nearness(p: u32, q: u32) -> u32
    ensures { result ≡ nearness_of p q }
{
    colour::nearness(p, q)
}
