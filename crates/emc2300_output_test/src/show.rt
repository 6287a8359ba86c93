// What the lines show: the state of an output, what the zones ask.
use crate::fields::Bench;
use emc2300_duty::Asked;
use std::{fmt, io};
use test_commands::word_if;

// A line of words, which need not be text: so no format prints them. Each program has its own, since a library that they share may not print.
pub fn title(rt: &impl Print, words: &[u8]) -> io::Result<()> {
    print!(rt; "# ")?;
    rt.write_all(words)?;
    println!(rt)
}

// A state: seven numbers, then a word for each thing that holds.
#[derive(Clone, Copy)]
pub struct State(pub Bench);

impl fmt::Display for State {
    fn fmt<W: fmt::Write>(&self, f: &mut fmt::Formatter<W>) -> fmt::Result {
        let bench = self.0;
        let output = bench.output;
        let request = bench.request();
        let rate = emc2300_output::rate(request.registers);
        let length = emc2300_output::spin_length(request.registers);
        let asked = match request.asked {
            Asked::Full => "full",
            Asked::Off => "off",
            Asked::Duty(_) => "asked",
        };
        write!(f, ": {} {} {},", output.duty, output.clock, output.left)?;
        write!(f, " {} {}", output.shown(), request.asked.goal())?;
        write!(f, " {rate} {length} {asked}")?;
        f.write_str(word_if(request.under_ramp(), " ramp"))?;
        f.write_str(word_if(output.in_spin_up(), " spin-up"))
    }
}

// What each zone asks of the output, and whether it is at its absolute limit or at fault.
pub fn zones(rt: &impl Print, bench: Bench) -> io::Result<()> {
    let minimum = bench.registers().minimum;
    print!(rt; "zones")?;
    for zone in bench.zones() {
        let limit = word_if(zone.at_limit(), " limit");
        let fault = word_if(zone.is_faulty(), " fault");
        print!(rt; " {}{limit}{fault}", zone.asks(minimum))?;
    }
    println!(rt)
}
