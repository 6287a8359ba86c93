// A run over a whole log, for a host written in C.
ghost use Rattle.std.specs.Prelude.{◌≡◌, length};
ghost use Rattle.walks.specs.Run.{outcome_of, run_of, replies_after};
ghost use Rattle.emc2305.specs.Device.{emc2305};

use walks::Outcome;

// The number of a run: 0 where it came to the end of the log.
fn number(outcome: Outcome) -> u8
    ensures { result ≡ (outcome_of outcome).number }
{
    outcome.stop.map_or(0, u8::from)
}

// The run, with its number as the answer and its other numbers set.
#[unsafe(no_mangle)]
pub extern "C" fn emc2305_run(
    log: &[u8],
    replies: &mut [u8],
    place: &mut u64,
    records: &mut u64,
    reply_bytes: &mut u64,
) -> u8
    ensures value { result ≡ (run_of emc2305 log.now (length replies.old)).number }
    ensures place_after { place.new ≡ (run_of emc2305 log.now (length replies.old)).place }
    ensures records_after { records.new ≡ (run_of emc2305 log.now (length replies.old)).records }
    ensures reply_bytes_after { reply_bytes.new ≡ (run_of emc2305 log.now (length replies.old)).laid }
    ensures replies_after { replies.new ≡ replies_after emc2305 log.now replies.old }
{
    let outcome = emc2305_run::run(log, replies);
    *place = outcome.place as u64;
    *records = outcome.records as u64;
    *reply_bytes = outcome.laid as u64;
    number(outcome)
}

// The same run, of which each function from here on answers one number: C knows them by these names.
#[unsafe(no_mangle)]
pub extern "C" fn emc2305_run_number(log: &[u8], replies: &mut [u8]) -> u8
    ensures number { result ≡ (run_of emc2305 log.now (length replies.old)).number }
    ensures replies_after { replies.new ≡ replies_after emc2305 log.now replies.old }
{
    number(emc2305_run::run(log, replies))
}

#[unsafe(no_mangle)]
pub extern "C" fn emc2305_run_place(log: &[u8], replies: &mut [u8]) -> u64
    ensures place { result ≡ (run_of emc2305 log.now (length replies.old)).place }
    ensures replies_after { replies.new ≡ replies_after emc2305 log.now replies.old }
{
    emc2305_run::run(log, replies).place as u64
}

#[unsafe(no_mangle)]
pub extern "C" fn emc2305_run_records(log: &[u8], replies: &mut [u8]) -> u64
    ensures records { result ≡ (run_of emc2305 log.now (length replies.old)).records }
    ensures replies_after { replies.new ≡ replies_after emc2305 log.now replies.old }
{
    emc2305_run::run(log, replies).records as u64
}

#[unsafe(no_mangle)]
pub extern "C" fn emc2305_run_reply_bytes(log: &[u8], replies: &mut [u8]) -> u64
    ensures reply_bytes { result ≡ (run_of emc2305 log.now (length replies.old)).laid }
    ensures replies_after { replies.new ≡ replies_after emc2305 log.now replies.old }
{
    emc2305_run::run(log, replies).laid as u64
}
