//! The lots of a run by a seed.
ghost use Rattle.std.specs.Prelude.{◌≡◌};
ghost use Rattle.nd_machine.specs.Seeds.{BeginsAsKnown, mix as mix_of};

// Returns the lot of a seed at a position of the cursor: output `cursor` of SplitMix64 with this seed, counted from 0.
pub(crate) fn mix(seed: u64, cursor: u64) -> u64
    ensures value { result ≡ mix_of seed cursor }
    ensures known { BeginsAsKnown }
{
    let steps = cursor.wrapping_add(1).wrapping_mul(0x9e37_79b9_7f4a_7c15);
    let spread = seed.wrapping_add(steps);
    let stirred = (spread ^ (spread >> 30)).wrapping_mul(0xbf58_476d_1ce4_e5b9);
    let again = (stirred ^ (stirred >> 27)).wrapping_mul(0x94d0_49bb_1331_11eb);
    again ^ (again >> 31)
}
