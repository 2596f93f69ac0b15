//! Laws of report lines. A call does nothing: what it ensures is the law.
ghost use Rattle.um_reports.specs.Laws.{LinesAgree, ColumnsAgree, PlacesArePrinted};

/// The place of a report line, which is counted on bytes, is the line and the column that
/// `um_syntax::line_column` counts on characters, wherever the bytes before the place are UTF-8.
pub fn places_are_lines_and_columns()
    ensures line { LinesAgree }
    ensures column { ColumnsAgree }
    ensures printed { PlacesArePrinted }
{}
