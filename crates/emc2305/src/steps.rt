// A step: any event, in any state of the chip.
ghost use Rattle.std.specs.Prelude.{◌≡◌, ◌≤◌, length};
ghost use Rattle.laws.specs.Buffer.{laid_over};
ghost use Rattle.eventlog.specs.Kinds.{reply_length};
ghost use Rattle.eventlog.specs.Numbers.{number_given};
ghost use Rattle.emc2305.specs.Step.{before_power, absent, elsewhere, step_number, taken, reply_to, stepped, answer_of, reply_after};

use crate::transfers;
use emc2305_chip::Chip;
use emc2305_parts::Part;
use eventlog::{Event, InRange, Refusal};
use walks::Taken;

// One event. The reply of a read is laid at the front of the buffer. A refusal leaves the buffer as it was, and the chip is the one that was handed in.
#[tactic(auto, unfolding(crate::specs::Step::stepped, crate::specs::Step::reply_after, crate::specs::Step::step_number))]
pub fn step(chip: Chip, log: &[u8], event: Event, reply: &mut [u8]) -> Result<Taken<Chip>, Refusal>
    ensures value { answer_of chip result ≡ stepped chip log.now event (length reply.old) }
    ensures reply_after { reply.new ≡ reply_after chip log.now event reply.old }
{
    let checked = InRange::new(event, log)?;
    let part = chip.part;
    check(part, chip.powered, chip.address, checked, reply.len())?;
    let laid = reply_length(checked);
    let state = taken(chip, checked, laid, reply);
    Ok(Taken { laid, state })
}

// What is asked of an event in range: 6, 21, 7, 8, in this order. Of the chip it takes what it asks for, which is faster (DECISIONS 146).
#[tactic(auto, unfolding(crate::specs::Step::step_number))]
fn check(
    part: Part,
    powered: bool,
    address: u8,
    checked: InRange,
    room: usize,
) -> Result<(), Refusal>
    ensures { number_given result ≡ step_number part powered address checked.entry.log.now checked.entry.event room }
{
    if before_power(powered, checked.event) {
        return Err(Refusal::NoPower);
    }
    if absent(part, checked.event) {
        return Err(Refusal::AbsentFan);
    }
    if elsewhere(address, checked.event) {
        return Err(Refusal::Elsewhere);
    }
    if room < reply_length(checked) {
        return Err(Refusal::NoRoom);
    }
    Ok(())
}

// 6: an event other than power-on before any power-on.
fn before_power(powered: bool, event: Event) -> bool
    ensures { result ≡ before_power powered event }
{
    !powered && !matches!(event, Event::PowerOn(_) | Event::PowerOnPart { .. })
}

// 21: a sample or a wish for a fan that is absent.
fn absent(part: Part, event: Event) -> bool
    ensures { result ≡ absent part event }
{
    match event {
        Event::Sample { fan, .. } | Event::Wish { fan, .. } => part.fans() < usize::from(fan),
        _ => false,
    }
}

// 7: a transfer to another address.
fn elsewhere(address: u8, event: Event) -> bool
    ensures { result ≡ elsewhere address event }
{
    match event {
        Event::Transfer { address: to, .. } => to != address,
        _ => false,
    }
}

// How many bytes the reply has: of a read, as many as the host clocks.
fn reply_length(checked: InRange) -> usize
    ensures { result ≡ reply_length checked.entry.log.now checked.entry.event }
{
    match checked.event {
        Event::Transfer { reads, place, .. } if reads => usize::from(checked.log[place]),
        _ => 0,
    }
}

// The chip after an event that is taken, with its reply of n bytes laid.
#[tactic(auto, unfolding(crate::specs::Step::taken, crate::specs::Step::reply_to, crate::specs::Transfers::reply_of))]
fn taken(chip: Chip, checked: InRange, n: usize, reply: &mut [u8]) -> Chip
    requires n_value { n ≡ reply_length checked.log.now checked.event }
    requires n_in_bounds { n ≤ length reply.old }
    ensures value { result ≡ taken checked.entry.log.now checked.entry.event chip }
    ensures reply_after { reply.new ≡ laid_over (reply_to checked.entry.log.now checked.entry.event chip) reply.old }
{
    match checked.event {
        Event::PowerOn(address) => Chip::power_on(Part::Emc2305, address),
        Event::Ticks(count) => chip.ticks(count),
        Event::Sample { fan, count } => chip.sample(usize::from(fan - 1), count),
        Event::Wish { fan, drive } => chip.wish(usize::from(fan - 1), drive),
        Event::Transfer { reads: true, .. } => transfers::read_out(chip.fed(), n, reply),
        Event::Transfer { place, len, .. } => transfers::sent(
            chip.fed(),
            &checked.log[place..place + len],
        ),
        Event::PowerOnPart { address, fans } => Chip::power_on(Part::with_fans(fans), address),
    }
}
