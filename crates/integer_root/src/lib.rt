// The whole number nearest the root of a whole number w from 2 ^ 46 to 2 ^ 48 - 2 ^ 24: guessed, and certified by comparing squares.
#![tactic(auto)]

ghost use Rattle.std.specs.Prelude.{◌+◌, ◌-◌, ◌*◌, ◌/◌, ◌%◌, ◌^◌, ◌≤◌, ◌<◌};
ghost use Rattle.integer_root.specs.Near.{Near};

// The whole number nearest w's root, whatever the guess is worth.
fn slow_root(w: u64) -> u64
    requires { (2 ^ 46 ≤ w) × (w ≤ 2 ^ 48 - 2 ^ 24) }
    ensures { Near w result }
{
    let q = w.isqrt();
    if q * q + q < w { q + 1 } else { q }
}

// Where w goes from i * 2 ^ 43 to (i + 1) * 2 ^ 43, and t with it from 0 to 1, c0 - c1 * t + c2 * t * t is a little below 2 ^ 47 / root(w).
// The upper 24 bits are c0, the next 20 c1 and the last 20 c2: the quadratic of least error, lowered by that error.
// A match, and no array: compiled code reads it from a table, where an array would be made anew at each call.
fn coefficients(i: u64) -> u64
    ensures { result / 2 ^ 20 % 2 ^ 20 ≤ result / 2 ^ 40 }
{
    match i {
        8 => 0xfffdf7_fed14_14b0a,
        9 => 0xf15a8e_d5be6_0fa86,
        10 => 0xe4f835_b69e6_0c2fa,
        11 => 0xda5094_9e5ed_09b43,
        12 => 0xd10564_8b0bd_07e03,
        13 => 0xc8d243_7b5a5_067f0,
        14 => 0xc1843e_6e670_056eb,
        15 => 0xbaf479_63917_0498f,
        16 => 0xb504bf_5a656_03ee9,
        17 => 0xaf9d28_528cb_0364c,
        18 => 0xaaaa87_4bc6a_02f40,
        19 => 0xa61d41_45e14_0296c,
        20 => 0xa1e882_40b5e_0248d,
        21 => 0x9e019d_3c25f_02072,
        22 => 0x9a5f9f_38190_01cf6,
        23 => 0x96faf6_347b7_019fa,
        24 => 0x93cd2c_313d3_01768,
        25 => 0x90d0b6_2e510_0152d,
        26 => 0x8e00ca_2bac0_0133c,
        27 => 0x8b593e_29450_01188,
        28 => 0x88d66e_27147_01009,
        29 => 0x867529_2513c_00eb6,
        30 => 0x84329e_233d6_00d89,
        31 => 0x820c4b_218c9_00c7c,
        _ => 0,
    }
}

// a * t / 2 ^ 20: the part t of a, for a t that counts 2 ^ 20ths.
fn part(a: u64, t: u64) -> u64
    requires { (a < 2 ^ 20) × (t < 2 ^ 20) }
    ensures { result ≤ a }
{
    a * t >> 20
}

// A little below 2 ^ 47 / root(w). Only its size is proved.
fn inverse_root(w: u64) -> u64
    ensures { result < 2 ^ 25 }
{
    let c = coefficients(w >> 43);
    let t = (w >> 23) % 0x10_0000;
    (c >> 40) + part(c % 0x10_0000, part(t, t)) - part((c >> 20) % 0x10_0000, t)
}

// The whole number nearest w's root, nearly always. Only its size is proved.
fn guess(w: u64) -> u64
    requires { w < 2 ^ 48 }
    ensures { result < 2 ^ 28 }
{
    let y = inverse_root(w);
    // s is a little below 64 * root(w), and one step of Newton's method mends it
    let s = (w >> 18) * y >> 23;
    let q = s * s;
    let n = w << 12;
    if n < q {
        return 0;
    }
    (s + ((n - q >> 21) * y >> 33) + 32) / 64
}

// The whole number nearest w's root: the guess, where its square shows that it is, and else the slow way.
pub fn near_root(w: u64) -> u64
    requires { (2 ^ 46 ≤ w) × (w ≤ 2 ^ 48 - 2 ^ 24) }
    ensures { Near w result }
{
    let r = guess(w);
    let q = r * r;
    if q < w + r {
        if w <= q + r {
            return r;
        }
    }
    slow_root(w)
}
