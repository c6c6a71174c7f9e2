//! Laws of pages: calls without a body, whose contracts are the laws.
ghost use Rattle.run_page.specs.PageLaws.{NothingIsEscaped, OnePage, RowsAreAsInPictures};

/// A plan has at most one page of a window: two texts that are it are equal.
pub fn one_page()
    ensures { OnePage }
{}

/// In the data lines of a page no octet means something in HTML, whatever signals and rows they tell, so that nothing
/// of them has to be escaped.
pub fn nothing_is_escaped()
    ensures { NothingIsEscaped }
{}

/// The rows that a page shows are those whose lines have a mark in a picture of the same half bits.
pub fn rows_are_as_in_pictures()
    ensures { RowsAreAsInPictures }
{}
