// Numbers that look like random ones.
ghost use Rattle.std.specs.Prelude.{◌≡◌, ◌<◌, ◌^◌};
ghost use Rattle.traffic_gen.specs.Traffic.{draw, drawn};

/// The next state is the state times this ..
const FACTOR: u64 = 6_364_136_223_846_793_005;

/// .. and this more, modulo 2^64.
const STEP: u64 = 1_442_695_040_888_963_407;

/// The next state.
pub fn draw(state: u64) -> u64
    ensures { result ≡ draw state }
{
    state.wrapping_mul(FACTOR).wrapping_add(STEP)
}

/// What a draw that made this state gives: its high 31 bits.
pub fn drawn(state: u64) -> u32
    ensures value { result ≡ drawn state }
    ensures fits { result < 2 ^ 31 }
{
    (state / 8_589_934_592) as u32
}
