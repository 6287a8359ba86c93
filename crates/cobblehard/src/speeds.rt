// The speed of one sample in whole RPM, for a host written in C.
ghost use Rattle.std.specs.Prelude.{◌≡◌};
ghost use Rattle.emc2305_speed.specs.Speed.{rpm_shown, rpm_by_high_byte};

// The RPM of one sample.
#[unsafe(no_mangle)]
pub extern "C" fn emc2305_rpm(poles: u64, configuration: u8, count: u16) -> u32
    ensures { result ≡ rpm_shown poles configuration count }
{
    emc2305_speed::rpm(poles, configuration, count)
}

// The RPM by the reading's high byte, in the plain case.
#[unsafe(no_mangle)]
pub extern "C" fn emc2305_rpm_by_high_byte(byte: u8) -> u32
    ensures { result ≡ rpm_by_high_byte byte }
{
    emc2305_speed::rpm_by_high_byte(byte)
}
