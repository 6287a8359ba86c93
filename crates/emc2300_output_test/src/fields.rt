// What the commands act on: what an output is asked by, as 19 bytes, and the output.
use emc2300_duty::{Asked, Registers, Zone};
use emc2300_output::{Output, Request};
use std::array;
use test_commands::Command;

// Those of output 1 at power-on: START, OVRID; setting, configuration, ramp, minimum, options; of each zone temperature, configuration, low limit,
// absolute limit.
const POWER_ON: [u8; 19] = [
    0, 0, 0xFF, 0x62, 0x00, 0x80, 0x0C, 0x80, 0xC3, 0x80, 0x64, 0x80, 0xC3, 0x80, 0x64, 0x80, 0xC3,
    0x80, 0x64,
];

#[derive(Clone, Copy)]
pub struct Bench {
    pub fields: [u8; 19],
    pub output: Output,
}

pub fn fresh() -> Bench {
    Bench {
        fields: POWER_ON,
        output: Output::power_on(),
    }
}

// A state set whole, also one that no run reaches.
pub fn loaded(command: Command<'_>) -> Bench {
    let fields = array::from_fn(|k| command.byte(k));
    let output = Output {
        duty: command.byte(19),
        clock: command.byte(20),
        left: command.word(21),
    };
    Bench { fields, output }
}

impl Bench {
    pub fn registers(self) -> Registers {
        let [_, _, setting, configuration, ramp, minimum, options, ..] = self.fields;
        Registers {
            setting,
            configuration,
            ramp,
            minimum,
            options,
        }
    }

    pub fn zones(self) -> [Zone; 3] {
        let fields = self.fields;
        array::from_fn(|k| Zone {
            temperature: fields[7 + 4 * k],
            configuration: fields[8 + 4 * k],
            low: fields[9 + 4 * k],
            absolute: fields[10 + 4 * k],
        })
    }

    pub fn asked(self) -> Asked {
        let zones = self.zones();
        let [start, overridden, ..] = self.fields;
        self.registers().asked(start != 0, overridden != 0, zones)
    }

    // What the output goes by.
    pub fn request(self) -> Request {
        Request {
            registers: self.registers(),
            asked: self.asked(),
        }
    }

    pub fn with_output(self, output: Output) -> Bench {
        Bench { output, ..self }
    }
}
