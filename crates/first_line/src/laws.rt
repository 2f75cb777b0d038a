//! Laws of a connection's own bytes.
ghost use Rattle.first_line.specs.Own.{OwnBytesAreNotForeign};

/// A connection's own bytes aren't another protocol's. They are all that came, or with the next one they are.
pub fn own_bytes_are_not_foreign()
    ensures { OwnBytesAreNotForeign }
{}
