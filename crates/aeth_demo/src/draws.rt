// The draws of the generator.
ghost use Rattle.aeth_demo.specs.Draws.{generator_modulus, next_number, part_of};
ghost use Rattle.std.specs.Prelude.{◌≡◌, ◌<◌};

/// The numbers of the generator are below this.
const GENERATOR_MODULUS: u64 = 2_147_483_648;

/// The number behind a number below 2,147,483,648.
#[tactic(auto, unfolding(crate::specs::Draws::next_number))]
pub(crate) fn next_number(x: u32) -> u32
    requires { x < generator_modulus }
    ensures next { result ≡ next_number x }
    ensures below { result < generator_modulus }
{
    ((1_103_515_245 * x as u64 + 12_345) % GENERATOR_MODULUS) as u32
}

/// What a number gives below a bound.
#[tactic(auto, unfolding(crate::specs::Draws::part_of))]
pub(crate) fn part_of(bound: u32, x: u32) -> u32
    requires { 0 < bound }
    ensures part { result ≡ part_of bound x }
    ensures below { result < bound }
{
    (x / 65_536) % bound
}
