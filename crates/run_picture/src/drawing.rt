//! The picture of what a log tells of a window.
ghost use Rattle.std.specs.Prelude.{◌≡◌, ◌≤◌, ◌<◌, ◌+◌, ◌++◌, IfOk, OnOk, None, length};
ghost use Rattle.std.specs.List.{AllByRecursion};
ghost use Rattle.mac_parameters.specs.Parameters.{most_half_bits};
ghost use Rattle.layout.specs.Sound.{IsSound};
ghost use Rattle.log_meter.specs.Lines.{IsLogLine};
ghost use Rattle.run_picture.specs.Axis.{axis};
ghost use Rattle.run_picture.specs.Bands.{bands_text};
ghost use Rattle.run_picture.specs.Head.{head};
ghost use Rattle.run_picture.specs.Legend.{legend};
ghost use Rattle.run_picture.specs.Pictures.{picture_of};
ghost use Rattle.run_picture.specs.Sizes.{longest_window};
ghost use Rattle.run_picture.specs.Strangers.{first_stranger};
ghost use Rattle.run_picture.specs.Times.{IsWindow};

use crate::axis::add_axis;
use crate::bands::add_bands;
use crate::head::add_head;
use crate::lanes::{Band, page_of};
use crate::legend::add_legend;
use crate::marks::add_marks;
use crate::window::Window;
use layout::Layout;
use lists::{List, OutOfMemory};
use log_meter::{LogLine, LogLines};
use std::alloc::Global;

/// Puts all that stands before the marks at the end of a text: the head, the legend, the axis and the bands.
fn add_front(
    text: &mut List<u8>,
    window: Window,
    layout: &Layout,
    height: u64,
    bands: &[Band],
    lines: &[LogLine],
) -> Result<(), OutOfMemory>
    requires window { IsWindow window }
    requires bands { length layout.now.segments ≡ length bands.now }
    requires lines { AllByRecursion IsLogLine lines.now }
    ensures { OnOk result (text.new ≡ text.old ++ (head height ++ legend window lines.now ++ axis window height ++ bands_text layout.now layout.now.segments bands.now)) }
{
    add_head(text, height)?;
    add_legend(text, window, lines)?;
    add_axis(text, window, height)?;
    add_bands(text, layout, layout.segments.as_slice(), bands)
}

/// A space-time diagram, as SVG 1.1, of what the lines of a log tell of the half bits from `from` to below `to`, from
/// 0: each segment has a band with a lane for each tap, and each line that meets the window has a mark, whose title is
/// the line. A sending is a bar on its station's lane, with the fronts of its waves over the lanes of its segment; what
/// else happens is a sign on a lane. The legend explains the kinds of shapes that there are. The one refusal is want of
/// memory.
pub fn picture(
    alloc: Global,
    layout: &Layout,
    lines: &LogLines,
    from: u64,
    to: u64,
) -> Result<List<u8>, OutOfMemory>
    requires sound { IsSound layout.now }
    requires known { first_stranger layout.now lines.now ≡ None }
    requires lines { AllByRecursion IsLogLine lines.now }
    requires order { from < to }
    requires most { to ≤ most_half_bits }
    requires few { to ≤ from + longest_window }
    ensures text { IfOk result (λ text. text ≡ picture_of layout.now lines.now from to) }
{
    let window = Window { from, to };
    let page = page_of(alloc, layout)?;
    let bands = page.bands.as_slice();
    let mut text = List::new(alloc);
    let rows = lines.as_slice();
    add_front(&mut text, window, layout, page.height, bands, rows)?;
    add_marks(alloc, &mut text, window, layout, bands, rows)?;
    text.extend(b"</svg>\n")?;
    Ok(text)
}
