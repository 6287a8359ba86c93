// The register map: what stands at an address of a part with so many fans. Registers lie in rows of 16, so that address / 16 and address % 16 decide.
// An offset below 16 is asked for by the three rows, and given by a remainder: a type of its own for it would be no plainer.
ghost use Rattle.std.specs.Prelude.{◌≡◌, ℕ, ◌+◌, ◌<◌};
ghost use Rattle.emc2305_chip.specs.Map.{of_fan, register_of};

use crate::{Own, Register};

// What stands at a register address, where there are so many fans.
pub fn register_of(fans: usize, address: u8) -> Register
    ensures { result ≡ register_of fans address }
{
    let row = usize::from(address / 0x10);
    let offset = usize::from(address % 0x10);
    match row {
        0x2 => in_row_2(offset),
        0x3..=0x7 => of_fan(fans, row - 0x3, offset),
        0xE => in_row_e(offset),
        0xF => in_row_f(offset),
        _ => Register::Undefined,
    }
}

// 30h to 7Fh: the registers of fan i + 1, where there is one.
fn of_fan(fans: usize, i: usize, offset: usize) -> Register
    ensures { result ≡ of_fan fans i offset }
{
    if i < fans {
        Register::OfFan(i, offset)
    } else {
        Register::Undefined
    }
}

// 20h to 2Fh: configuration, status, interrupt enable, outputs.
fn in_row_2(offset: usize) -> Register
    requires { offset < 16 }
    ensures { (fans : ℕ) → result ≡ register_of fans (0x20 + offset) }
{
    match offset {
        0x0 => Register::OfChip(Own::Configuration),
        0x4 => Register::OfChip(Own::Status),
        0x5 => Register::OfChip(Own::StallStatus),
        0x6 => Register::OfChip(Own::SpinStatus),
        0x7 => Register::OfChip(Own::DriveFailStatus),
        0x9 => Register::OfChip(Own::Enable),
        0xA..=0xD => Register::OfChip(Own::Output(offset - 0xA)),
        _ => Register::Undefined,
    }
}

// E0h to EFh: the lock.
fn in_row_e(offset: usize) -> Register
    requires { offset < 16 }
    ensures { (fans : ℕ) → result ≡ register_of fans (0xE0 + offset) }
{
    match offset {
        0xF => Register::OfChip(Own::Lock),
        _ => Register::Undefined,
    }
}

// F0h to FFh: the identity bytes.
fn in_row_f(offset: usize) -> Register
    requires { offset < 16 }
    ensures { (fans : ℕ) → result ≡ register_of fans (0xF0 + offset) }
{
    match offset {
        0xC..=0xF => Register::OfChip(Own::Identity(offset - 0xC)),
        _ => Register::Undefined,
    }
}
