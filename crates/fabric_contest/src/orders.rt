//! Whose turns a number stands for.
ghost use Rattle.std.specs.Prelude.{◌≡◌, ◌<◌, ◌%◌};
ghost use Rattle.fabric_script.specs.Soak.{next_number as number_behind};
ghost use Rattle.fabric_contest.specs.Orders.{side_by};

use link_watch::Side;

/// One more than the greatest number of the generator.
const MODULUS: u32 = 2_147_483_648;

/// The number of the generator with which a seed begins.
pub(crate) fn first_number(seed: u32) -> u32
    ensures first { result ≡ seed % 2147483648 }
    ensures small { result < 2147483648 }
{
    seed % MODULUS
}

/// The number of the generator behind this one, as `soak_script` has it.
pub(crate) fn next_number(number: u32) -> u32
    requires { number < 2147483648 }
    ensures next { result ≡ number_behind number }
    ensures small { result < 2147483648 }
{
    ((1_103_515_245 * u64::from(number) + 12_345) % u64::from(MODULUS)) as u32
}

/// Whose turn a number stands for: the first host's if its upper half is even.
pub(crate) fn side_by(number: u32) -> Side
    ensures { result ≡ side_by number }
{
    if number / 65_536 % 2 == 0 {
        Side::A
    } else {
        Side::B
    }
}
