// What the lines show: the state of a fan, its registers.
use emc2305_fan::{Bit, Fan};
use std::{fmt, io};
use test_commands::word_if;

// How many offsets are asked for: two past the last register.
const ASKED: usize = 18;

// A line of words, which need not be text: so no format prints them. Each program has its own, since a library that they share may not print.
pub fn title(rt: &impl Print, words: &[u8]) -> io::Result<()> {
    print!(rt; "# ")?;
    rt.write_all(words)?;
    println!(rt)
}

// A state: nine numbers, then a word for each thing that holds.
#[derive(Clone, Copy)]
pub struct State(pub Fan);

impl fmt::Display for State {
    fn fmt<W: fmt::Write>(&self, f: &mut fmt::Formatter<W>) -> fmt::Result {
        let fan = self.0;
        let spin = fan.spin;
        write!(f, ": {} {} {},", fan.drive, fan.wish, fan.clock)?;
        write!(f, " {} {} {},", spin.ticks, spin.length, spin.level)?;
        write!(f, " {} {} {}", fan.goal(), fan.step(), fan.period())?;
        let words = [
            (spin.running, " running"),
            (spin.kick, " kick"),
            (fan.stands(Bit::Stall), " stalled"),
            (fan.stands(Bit::Spin), " failed"),
            (fan.is_stuck(), " stuck"),
            (fan.in_spin_up(), " spin-up"),
            (fan.under_ramp(), " ramp"),
            (fan.closed_loop(), " loop"),
            (fan.driver_off(), " off"),
        ];
        for (holds, word) in words {
            f.write_str(word_if(holds, word))?;
        }
        Ok(())
    }
}

// What a read of each offset shows, and what the registers hold.
pub fn registers(rt: &impl Print, fan: Fan) -> io::Result<()> {
    print!(rt; "shows")?;
    for offset in 0..ASKED {
        print!(rt; " {:02X}", fan.register(offset))?;
    }
    print!(rt; " holds")?;
    for byte in fan.registers {
        print!(rt; " {byte:02X}")?;
    }
    println!(rt)
}

// Which offsets are locked, and which store now.
pub fn offsets(rt: &impl Print, fan: Fan) -> io::Result<()> {
    print!(rt; "locked")?;
    for offset in (0..ASKED).filter(|&offset| emc2305_fan::is_locked(offset)) {
        print!(rt; " {offset}")?;
    }
    print!(rt; " stores")?;
    for offset in (0..ASKED).filter(|&offset| fan.stores(offset)) {
        print!(rt; " {offset}")?;
    }
    println!(rt)
}
