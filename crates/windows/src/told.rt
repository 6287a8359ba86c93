// What a call of a teller gives, whatever the state is that it hands on.
use crate::Wants;

// The state and the place after what was told, how many bytes of the window that is, how many bytes of text were laid, and what is wanted before it can go on.
#[derive(Clone, Copy, Debug, PartialEq, Eq)]
pub struct Told<S> {
    pub state: S,
    pub place: u64,
    pub used: usize,
    pub laid: usize,
    pub wants: Wants,
}
