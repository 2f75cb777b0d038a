//! Laws of the spelling, on which the program's theorems rest.
ghost use Rattle.vault_journal.specs.Laws.{FieldsAreSpelled, EffectsAreSpelled, RecordsAreShort, OneRecordAtTheFront, OneRow, NoFaultInARow, OneFirstFault};

/// Each field is read exactly where its one spelling stands, whatever follows it.
pub fn fields_are_spelled()
    ensures { FieldsAreSpelled }
{}

/// An effect is read exactly where its record stands, whatever follows it.
pub fn effects_are_spelled()
    ensures { EffectsAreSpelled }
{}

/// No record has more than 1,035 bytes.
pub fn records_are_short()
    ensures { RecordsAreShort }
{}

/// If the same bytes begin with the records of two effects, the effects are equal, and so is what follows.
pub fn one_record_at_the_front()
    ensures { OneRecordAtTheFront }
{}

/// Bytes are the records of at most one list of effects.
pub fn one_row()
    ensures { OneRow }
{}

/// Bytes that are records have no fault.
pub fn no_fault_in_a_row()
    ensures { NoFaultInARow }
{}

/// Bytes have at most one first fault.
pub fn one_first_fault()
    ensures { OneFirstFault }
{}
