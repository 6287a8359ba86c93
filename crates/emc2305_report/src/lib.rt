// The EMC2305's report of speeds over a log (document 02, CR 2): over a whole log, and over one that may be longer than any buffer, a window at a time.
#![tactic(auto)]

mod walk;

ghost use Rattle.std.specs.Prelude.{◌≡◌, [], ◌∷◌};
ghost use Rattle.windows.specs.Window.{Called};
ghost use Rattle.reports.specs.Adding.{report};
ghost use Rattle.reports.specs.Lines.{no_figures};
ghost use Rattle.reports.specs.Report.{report_given};
ghost use Rattle.emc2305_report.specs.Speeds.{gauge, speeds_of};

use emc2305_chip::Chip;
use eventlog::{Reading, Refusal};
use reports::{Figures, Report, Reported};
use windows::{Told, Wants};

// The figures of five fans without samples.
pub fn no_fans() -> [Figures; 5]
    ensures { result ≡ (no_figures ∷ no_figures ∷ no_figures ∷ no_figures ∷ no_figures ∷ []) }
{
    [Figures::none(); 5]
}

// The report over a whole log.
pub fn speeds(log: &[u8], poles: u64) -> Report
    ensures { report_given result ≡ speeds_of poles log.now }
{
    let fans = no_fans();
    if !emc2305_speed::poles_right(poles) {
        return Report {
            stop: Some(Refusal::WrongPoles),
            place: 0,
            records: 0,
            fans,
        };
    }
    let begun = Reported {
        state: Chip::unpowered(),
        fans,
    };
    let walked = walk::walk(poles, begun, log);
    let fans = walked.fans;
    Report {
        stop: walked.stop,
        place: walked.place,
        records: walked.records,
        fans,
    }
}

// Reports the records that a window holds, from the chip and the figures before it on. The first byte of the window stands at `place` of the log. The text is
// laid at the report's end, where it fits; with `ended` nothing follows the window.
pub fn tell(
    poles: u64,
    reported: Reported<Chip>,
    place: u64,
    window: &[u8],
    ended: bool,
    out: &mut [u8],
) -> Told<Reported<Chip>>
    ensures { Called (report (gauge poles)) reported place window.now ended out.old result.state result.place result.used result.laid result.wants out.new }
{
    let walked = walk::walk(poles, reported, window);
    let fans = walked.fans;
    let state = Reported {
        state: walked.chip,
        fans,
    };
    let used = walked.place;
    let here = place.wrapping_add(used as u64);
    let reading = Reading::from(eventlog::read(window, used));
    if windows::waits(ended, reading) {
        return Told {
            state,
            place: here,
            used,
            laid: 0,
            wants: Wants::Input,
        };
    }
    let number = walked.stop.map_or(0, u8::from);
    let text = reports::lay(state.fans, here, number, out);
    Told {
        state,
        place: here,
        used,
        laid: text.unwrap_or(0),
        wants: windows::wants_last(text.is_some()),
    }
}
