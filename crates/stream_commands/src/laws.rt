//! Laws of the sentences that options write, and of the records that replies are read as.
ghost use Rattle.stream_commands.specs.Entries.{some_fields, entries};
ghost use Rattle.stream_commands.specs.Examples.{XaddWrites, XtrimWrites, XreadWrites, XrangeWrites, XclaimWrites, XautoclaimWrites, XpendingWrites, XinfoWrites, XdelexWrites};
ghost use Rattle.stream_commands.specs.Laws.{XaddTellsAll};
ghost use Rattle.stream_commands.specs.RecordLaws.{ReadAlike, RespelledFailAlike, RespelledReadAlike};
ghost use Rattle.stream_commands.specs.Respelled.{SameFields, Respelled, range};
ghost use Rattle.stream_commands.specs.RespelledExamples.{of_arrays_alone};

/// What XADD is asked to do can be told from its arguments.
///
/// Where no id is a word of an option and no number of a trim exceeds `usize`, two lists of
/// arguments are equal exactly where key, settings, id and fields are.
pub fn xadd_tells_all()
    ensures { XaddTellsAll }
{}

/// Whole commands and their arguments, each beside another order that is not written.
///
/// Source: the Redis documentation of each command.
#[tactic(auto, using(crate::proofs::ExampleCommands::xadd_writes, crate::proofs::ExampleCommands::xtrim_writes, crate::proofs::ExampleCommands::xread_writes, crate::proofs::ExampleCommands::xrange_writes, crate::proofs::ExampleCommands::xclaim_writes, crate::proofs::ExampleCommands::xautoclaim_writes, crate::proofs::ExampleCommands::xpending_writes, crate::proofs::ExampleCommands::xinfo_writes, crate::proofs::ExampleCommands::xdelex_writes))]
pub fn examples()
    ensures xadd { XaddWrites }
    ensures xtrim { XtrimWrites }
    ensures xread { XreadWrites }
    ensures xrange { XrangeWrites }
    ensures xclaim { XclaimWrites }
    ensures xautoclaim { XautoclaimWrites }
    ensures xpending { XpendingWrites }
    ensures xinfo { XinfoWrites }
    ensures xdelex { XdelexWrites }
{}

/// Replies that say the same in other shapes are read as one record, or both are refused.
pub fn respelled_read_alike()
    ensures { RespelledReadAlike }
{}

/// Replies that say the same are the same error or none, and hold the same first error or none.
pub fn respelled_fail_alike()
    ensures { RespelledFailAlike }
{}

/// A reading of arrays alone does not read alike what says the same.
pub fn arrays_alone_are_too_few()
    ensures fields { ReadAlike SameFields (of_arrays_alone some_fields) → ⊥ }
    ensures entries { ReadAlike (Respelled range) (of_arrays_alone entries) → ⊥ }
{}
