// Whole RPM of a tach sample, and by the reading's high byte (document 02, CR 2).
#![tactic(auto)]

mod table;

ghost use Rattle.std.specs.Prelude.{◌≡◌, ◌≤◌};
ghost use Rattle.emc2305_speed.specs.Speed.{multiplier, edges, poles_right, rpm, rpm_shown};

pub use table::rpm_by_high_byte;

// 60 seconds of 32768 clocks.
const CLOCKS: u32 = 1966080;

// m, by Configuration 1 bits 5..6.
const MULTIPLIERS: [u32; 4] = [1, 2, 4, 8];

// Edges, by Configuration 1 bits 3..4.
const EDGES: [u32; 4] = [3, 5, 7, 9];

// Poles are 1 to 4.
pub fn poles_right(poles: u64) -> bool
    ensures { result ≡ poles_right poles }
{
    (1..=4).contains(&poles)
}

// The RPM of a sample that met a Configuration 1 byte; 0 for count 0, and for poles out of range: a number and no Option, since C is answered it as it stands.
pub fn rpm(poles: u64, configuration: u8, count: u16) -> u32
    ensures { result ≡ rpm_shown poles configuration count }
{
    if !poles_right(poles) {
        return 0;
    }
    if count == 0 {
        return 0;
    }
    // Poles are 4 at most, so that nothing of them is cut off.
    rpm_of(poles as u32, configuration, u32::from(count))
}

// One division, so that it is rounded once.
#[tactic(auto, unfolding(crate::specs::Speed::rpm))]
fn rpm_of(poles: u32, configuration: u8, count: u32) -> u32
    requires { (1 ≤ poles) × (poles ≤ 4) × (1 ≤ count) × (count ≤ 65535) }
    ensures { result ≡ rpm poles configuration count }
{
    let clocks = CLOCKS * (edges(configuration) - 1) * multiplier(configuration);
    clocks / (poles * count)
}

// m = 1, 2, 4, 8.
fn multiplier(configuration: u8) -> u32
    ensures { result ≡ multiplier configuration }
{
    MULTIPLIERS[usize::from(configuration / 32 % 4)]
}

// The edges that are counted: 3, 5, 7, 9.
fn edges(configuration: u8) -> u32
    ensures { result ≡ edges configuration }
{
    EDGES[usize::from(configuration / 8 % 4)]
}
