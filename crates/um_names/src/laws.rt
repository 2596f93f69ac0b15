//! Laws of names, as contracts of functions that do nothing.

ghost use Rattle.um_names.specs.RecordLaws.{RecordHasTheseFields, RecordIsFound};

/// A record text is of the record of which these are, in order, all the fields.
pub fn records_by_their_fields()
    ensures fields { RecordHasTheseFields }
    ensures found { RecordIsFound }
{}
