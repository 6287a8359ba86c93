// The fans side by side: what happens to those that the part has, which are the first ones, and their status bits. What is asked of the fans goes over
// all five places with a test for each, which takes less time than a loop over the part's (docs/PERFORMANCE.md). Fans and part are handed on as the definitions
// take them, by themselves.
ghost use Rattle.std.specs.Prelude.{◌≡◌};
ghost use Rattle.laws.specs.Lists.{first_moved};
ghost use Rattle.emc2305_fan.specs.Registers.{power_on};
ghost use Rattle.emc2305_parts.specs.Parts.{fans_of, reset_of};
ghost use Rattle.emc2305_fan.specs.declared.Fan.{Fan};
ghost use Rattle.emc2305_chip.specs.Fans.{bits_of, interrupting, any_busy};

use emc2305_fan::{Bit, Fan};
use emc2305_parts::Part;

// What happens to the part's fans alike, fan by fan; the others stay. Not inlined, so that the run's loop keeps its registers (docs/PERFORMANCE.md).
#[inline(never)]
#[tactic(auto, using(emc2305_parts::proofs::Counts::few_fans))]
pub(crate) fn each<F: Fn(Fan) -> Fan>(mut fans: [Fan; 5], part: Part, change: F) -> [Fan; 5]
    requires { F.IsAlwaysCallable change }
    ensures { (m : Fan → Fan) → ((x y : Fan) → F.post change x y → y ≡ m x) → result ≡ first_moved (fans_of part) m fans }
{
    for i in 0..part.fans() {
        fans[i] = change(fans[i]);
    }
    fans
}

// A fan of the part at power-on.
pub(crate) fn powered_on(part: Part) -> Fan
    ensures { result ≡ power_on (reset_of part).fan }
{
    Fan::power_on(part.reset().fan)
}

// Whether one of the part's fans has something to do in a tick.
pub(crate) fn any_busy(fans: [Fan; 5], part: Part) -> bool
    ensures { result ≡ any_busy fans (fans_of part) }
{
    let n = part.fans();
    let mut on = false;
    for (i, fan) in fans.iter().enumerate() {
        on |= (i < n) & fan.is_busy();
    }
    on
}

// 25h or 26h: bit i - 1 for fan i of the part.
pub(crate) fn bits_of(fans: [Fan; 5], part: Part, bit: Bit) -> u8
    ensures { result ≡ bits_of bit fans (fans_of part) }
{
    let n = part.fans();
    let mut byte = 0;
    for (i, fan) in fans.iter().enumerate() {
        byte += u8::from((i < n) & fan.stands(bit)) << i;
    }
    byte
}

// A loop of its own and not one with a closure: so that the test for each place stays as it was measured.
// Whether a 25h or 26h bit of one of the part's fans stands, with the fan's bit 1 in the byte of 29h.
pub(crate) fn interrupting(fans: [Fan; 5], part: Part, enable: u8) -> bool
    ensures { result ≡ interrupting enable fans (fans_of part) }
{
    let n = part.fans();
    let mut on = false;
    for (i, fan) in fans.iter().enumerate() {
        let enabled = (enable >> i) % 2 == 1;
        on |= (i < n) & (enabled & (fan.stalled | fan.failed));
    }
    on
}
