// A panel type's clarity: how strong an edge may be before it is left as it is. `specs/Clarity.antt` says which settings are lawful and
// what the numbers of a C caller stand for; `weight/specs/Weight.antt` says what a setting does.
#![tactic(auto)]

ghost use Rattle.std.specs.Prelude.{◌≡◌};
ghost use Rattle.clarity.specs.Clarity.{lawful_single, lawful_of, setting_of, clarity_of, kind_of};

// The source's threshold, another in its place, or another behind a gate.
#[derive(Clone, Copy)]
pub enum Clarity {
    Standard,
    Threshold(f32),
    Gated(f32),
}

// Above 0 and at most 1: what is not a number fails both tests.
fn lawful_single(t: f32) -> bool
    ensures { result ≡ lawful_single t }
{
    (t > 0.0) & (t <= 1.0)
}

// The setting is not refused.
pub fn lawful(clarity: Clarity) -> bool
    ensures { result ≡ lawful_of clarity }
{
    match clarity {
        Clarity::Standard => true,
        Clarity::Threshold(t) | Clarity::Gated(t) => lawful_single(t),
    }
}

// The setting that a kind and a single stand for, as a C caller gives them. With kind 0 the single is not looked at; a kind above 2 gives
// a setting that is not lawful, as the definition `setting_of` says: who refuses it, and after which other conditions, is the caller's.
pub fn setting_of(kind: u32, threshold: f32) -> Clarity
    ensures { result ≡ setting_of kind threshold }
{
    match kind {
        0 => Clarity::Standard,
        1 => Clarity::Threshold(threshold),
        2 => Clarity::Gated(threshold),
        _ => Clarity::Threshold(0.0),
    }
}

// The setting that a kind and a single's pattern stand for, as a header of a C caller has them. Nobody vouches for a header: the pattern is
// tested as a whole number before it is made a single, which that of a NaN can not be. Those from 1 to that of 1.0 are the patterns of the
// singles above 0 and at most 1; all others count as 0, which is not lawful.
pub fn clarity_of(kind: u32, bits: u32) -> Clarity
    ensures { result ≡ clarity_of kind bits }
{
    if (bits == 0) | (bits > 0x3f80_0000) {
        return setting_of(kind, 0.0);
    }
    setting_of(kind, f32::from_bits(bits))
}

// A setting's kind, as a C caller is given it.
pub fn kind_of(clarity: Clarity) -> u32
    ensures { result ≡ kind_of clarity }
{
    match clarity {
        Clarity::Standard => 0,
        Clarity::Threshold(_) => 1,
        Clarity::Gated(_) => 2,
    }
}
