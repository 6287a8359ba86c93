// One output: what it is asked for, by mode and zones.
ghost use Rattle.std.specs.Prelude.{◌≡◌, max, filter, fold};
ghost use Rattle.std.specs.List.{enumerate_from};
ghost use Rattle.emc2300_duty.specs.Zones.{zone_asks};
ghost use Rattle.emc2300_duty.specs.Duty.{mode_of, is_linked, limit_reached, linked_fault, automatic, by_mode, asked, goal_of};

use crate::{Asked, Registers, Zone};

impl Asked {
    // The duty that the output is to have.
    pub fn goal(self) -> u8
        ensures { result ≡ goal_of self }
    {
        match self {
            Asked::Full => 255,
            Asked::Off => 0,
            Asked::Duty(duty) => duty,
        }
    }
}

impl Registers {
    // What the output is asked for, with START, OVRID and the three zones.
    #[tactic(auto, unfolding(crate::specs::Duty::asked))]
    pub fn asked(self, start: bool, overridden: bool, zones: [Zone; 3]) -> Asked
        ensures { result ≡ asked start overridden self zones }
    {
        if !start || overridden {
            Asked::Full
        } else {
            self.by_mode(zones)
        }
    }

    #[tactic(auto, unfolding(crate::specs::Duty::by_mode))]
    fn by_mode(self, zones: [Zone; 3]) -> Asked
        ensures { result ≡ by_mode (mode_of self) self zones }
    {
        // A number and no enum: it is a field of three bits that the match decodes, and `by_mode` and `is_linked` take the number.
        let mode = self.configuration / 32;
        match mode {
            3 => Asked::Full,
            4 => Asked::Off,
            7 => Asked::Duty(self.setting),
            _ => automatic(mode, self.minimum, zones),
        }
    }
}

// By mode, minimum and zones, as the definitions take them, one by one.
#[tactic(auto, unfolding(crate::specs::Duty::automatic))]
fn automatic(mode: u8, minimum: u8, zones: [Zone; 3]) -> Asked
    ensures { result ≡ automatic mode minimum zones }
{
    if limit_reached(zones) {
        return Asked::Full;
    }
    if linked_fault(mode, zones) {
        return Asked::Full;
    }
    Asked::Duty(linked_duty(mode, minimum, zones))
}

// Whether any of the three zones, linked or not, is at its absolute limit.
#[tactic(auto, unfolding(crate::specs::Duty::limit_reached))]
fn limit_reached(zones: [Zone; 3]) -> bool
    ensures { result ≡ limit_reached zones }
{
    zones.iter().any(|zone| zone.at_limit())
}

// Whether a linked zone is at 80h.
#[tactic(auto, unfolding(crate::specs::Duty::linked_fault))]
fn linked_fault(mode: u8, zones: [Zone; 3]) -> bool
    ensures { result ≡ linked_fault mode zones }
{
    zones
        .iter()
        .enumerate()
        .any(|(place, zone)| is_linked(mode, place) && zone.is_faulty())
}

// The largest duty that a linked zone asks: the hottest zone is the one that asks most. Over three zones that fold is the definition's
// `linked_duty` (proofs/Linked.antt).
fn linked_duty(mode: u8, minimum: u8, zones: [Zone; 3]) -> u8
    ensures { result ≡ fold (λ most x. max most (zone_asks minimum x.1)) 0 (filter (λ x. is_linked mode x.0) (enumerate_from 0 zones)) }
{
    zones
        .iter()
        .enumerate()
        .filter(|(place, _)| is_linked(mode, *place))
        .fold(0, |most: u8, (_, zone)| most.max(zone.asks(minimum)))
}

// Whether the mode links the zone, by its place from 0.
#[tactic(auto, unfolding(crate::specs::Duty::is_linked))]
fn is_linked(mode: u8, place: usize) -> bool
    ensures { result ≡ is_linked mode place }
{
    match mode {
        5 => 1 <= place,
        6 => place <= 2,
        _ => mode as usize == place,
    }
}
