// A device on its bus, as a run knows it: what has a step, and keeps the laws of specs/Device.antt.
ghost use Rattle.std.specs.Prelude.{◌≡◌};
ghost use Rattle.eventlog.specs.Numbers.{number_given};
ghost use Rattle.walks.specs.Device.{Lawful, Steps, device_of, Answered, laid_given, state_given};

use eventlog::{Event, Refusal};

// What a step gives that is taken: how many reply bytes were laid, and the state after it.
#[derive(Clone, Copy)]
pub struct Taken<S> {
    pub laid: usize,
    pub state: S,
}

// A device has a type of its own, which no value need be of; what it keeps is a `State`.
pub trait Device {
    type State: Copy;

    // The state before any power-on; of each step its number, the state after it and its reply.
    ghost steps: { Steps Self.State };

    // The laws that it keeps.
    ghost lawful: { Lawful (device_of steps) };

    // The device before any power-on.
    fn unpowered() -> Self::State
        ensures { result ≡ steps.begun };

    // One event. The reply is laid at the front of the buffer; a refusal leaves the buffer as it was, and the state is the one that was handed in.
    fn step(
        state: Self::State,
        log: &[u8],
        event: Event,
        reply: &mut [u8],
    ) -> Result<Taken<Self::State>, Refusal>
        ensures { Answered (device_of steps) state log.now event reply.old (number_given result) (laid_given result) (state_given state result) reply.new };
}
