// The C face of the report of speeds (include/cobblehard.h), with no rule of its own. It is a library apart from `cobblehard`: a second caller of the chip's
// step would keep it from being compiled into the run's loop (docs/PERFORMANCE.md).
#![tactic(auto)]

ghost use Rattle.std.specs.Prelude.{◌≡◌, ◌<◌, get_or};
ghost use Rattle.reports.specs.Lines.{all_figures};
ghost use Rattle.emc2305_report.specs.Speeds.{speeds_of};
ghost use Rattle.cobblehard_speeds.specs.Face.{figures_laid};

use reports::Figures;

// Five figures for each of five fans.
const FIGURES: usize = 25;

// The report, with its number as the answer and its other numbers set; as many of the figures are laid as there is room for.
#[unsafe(no_mangle)]
pub extern "C" fn emc2305_speeds(
    log: &[u8],
    poles: u64,
    figures: &mut [u64],
    place: &mut u64,
    records: &mut u64,
) -> u8
    ensures value { result ≡ (speeds_of poles log.now).number }
    ensures figures_after { figures.new ≡ figures_laid (speeds_of poles log.now).fans figures.old }
    ensures place_after { place.new ≡ (speeds_of poles log.now).place }
    ensures records_after { records.new ≡ (speeds_of poles log.now).records }
{
    let report = emc2305_report::speeds(log, poles);
    let fans = report.fans;
    lay_figures(fans, figures);
    *place = report.place as u64;
    *records = report.records as u64;
    report.stop.map_or(0, u8::from)
}

// Lays the figures one behind the other, up to the end of the buffer.
fn lay_figures(fans: [Figures; 5], out: &mut [u64])
    ensures { out.new ≡ figures_laid fans out.old }
{
    for i in 0..out.len().min(FIGURES) {
        out[i] = figure_at(fans, i);
    }
}

// A figure by its place among the 25.
fn figure_at(fans: [Figures; 5], i: usize) -> u64
    requires { i < 25 }
    ensures { result ≡ get_or (all_figures fans) i 0 }
{
    let row = fans[i / 5].row();
    row[i % 5]
}
