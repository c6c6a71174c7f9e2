//! Laws of pictures: calls without a body, whose contracts are the laws.
ghost use Rattle.run_picture.specs.Elements.{EntriesHaveShapes, HitsHaveSigns, PortsHaveLanes, PortsHaveSigns, ReceptionsHaveSigns, SendingsHaveBars, ShapesHaveEntries, StationsHaveLanes};
ghost use Rattle.run_picture.specs.PictureLaws.{IsAMicrosecond, IsATenth, LinesAreFew, LinesAreTitles, PicturesAreClosed, TitlesAreLines};

/// The titles of a picture are the lines of the log that meet its window, without their line feeds, in their order,
/// each once.
pub fn titles_are_lines()
    ensures titles { TitlesAreLines }
    ensures lines { LinesAreTitles }
{}

/// A picture is closed: each element that is opened is closed, in order. Nothing that means something in XML stands in
/// it unescaped.
pub fn pictures_are_closed()
    ensures { PicturesAreClosed }
{}

/// A log has no more lines than octets, so that the lines of a log that was read are few enough for `find_stranger`.
pub fn lines_are_few()
    ensures { LinesAreFew }
{}

/// A picture's times are those of the standard's half bits of 50 ns.
pub fn times_are_microseconds()
    ensures microsecond { IsAMicrosecond }
    ensures tenth { IsATenth }
{}

/// In the mark of a sending that meets the window stands its bar, on its station's lane, from the half bit in which it
/// began to that in which it ended, cut at the window's edges; and the sign of its hit, where that is in the window.
pub fn sendings_have_bars()
    ensures bars { SendingsHaveBars }
    ensures hits { HitsHaveSigns }
{}

/// In the mark of each other line that meets the window stands its sign at its half bit: of a reception on its station's
/// lane, of what a repeater tells on the lane of each port that it concerns.
pub fn lines_have_signs()
    ensures receptions { ReceptionsHaveSigns }
    ensures ports { PortsHaveSigns }
{}

/// The legend of a picture has an entry for each kind of shape that its marks have, and for no other.
pub fn legends_are_whole()
    ensures shapes { ShapesHaveEntries }
    ensures entries { EntriesHaveShapes }
{}

/// Each station, and each port of a repeater, has its lane among those of its segment, with its place.
pub fn taps_have_lanes()
    ensures stations { StationsHaveLanes }
    ensures ports { PortsHaveLanes }
{}
