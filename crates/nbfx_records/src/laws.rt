//! What holds of records by their definitions alone. Each function does nothing: its contract is a
//! law, which a caller has where it calls the function.

ghost use Rattle.unit_streams.specs.Front.{ReadsFront};
ghost use Rattle.nbfx_records.specs.declared.nodes.NodePlace.{NodePlace};
ghost use Rattle.nbfx_records.specs.RecordAtFront.{node_at};
ghost use Rattle.nbfx_records.specs.WritingLaws.{MeaningsStay, RecordsJoin, RecordsStay, SaidMayBeWritten, StringsAreOnce, WrittenAreRecords, WrittenAreStrings, WrittenIsTable};
ghost use Rattle.nbfx_records.specs.Laws.{NothingIsBegun, RecordsAreRead, NoRecordGoesOn, RecordsAreValid, WrongByPart, WrongByText, WrongByValue, ChosenIsRecord, ChosenIsRead, ChosenIsShortest, MeaningsAreFound, NothingWithoutNames, MeansOnce, MeaningsAreValid};

/// A record depends only on its own bytes: it is wrong or complete at the byte that shows it,
/// whatever follows, and has only begun before that.
pub fn record_fronts()
    ensures reads { (place : NodePlace) → ReadsFront (node_at place) }
    ensures nothing { NothingIsBegun }
{}

/// What is read as a record is one by the table of records, and the other way round, where it may
/// stand. No record is the beginning of a longer one, wherever they stand, and no bytes are two
/// records. A record that is read is one of a valid node.
pub fn records()
    ensures read { RecordsAreRead }
    ensures none_goes_on { NoRecordGoesOn }
    ensures valid { RecordsAreValid }
{}

/// Bytes are refused as a record by a type byte, a number or a length, each of which shows what is
/// wrong where it comes; or by a text of the complete record that isn't UTF-8; or, where all its
/// texts are, by a value that isn't one of its kind.
pub fn faults()
    ensures by_part { WrongByPart }
    ensures bad_utf8 { WrongByText }
    ensures bad_value { WrongByValue }
{}

/// What `put_node` writes of a node is a record of it, and reading gives the node back where it may
/// stand. No record of it is shorter, unless that has a text in UTF-16.
pub fn written()
    ensures is_record { ChosenIsRecord }
    ensures read_back { ChosenIsRead }
    ensures shortest { ChosenIsShortest }
{}

/// Where a string table is given, a node means at most one list of items, and none exactly where
/// one of its identifiers names no string. If the table's strings are UTF-8, the items of a valid
/// node are valid. What a node means stays the same when strings are appended. A node that means
/// valid items may be written where their content and its identifiers have 31 bits, and it has an
/// identifier for each QName.
pub fn meanings()
    ensures found { MeaningsAreFound }
    ensures unnamed { NothingWithoutNames }
    ensures one { MeansOnce }
    ensures valid { MeaningsAreValid }
    ensures stay { MeaningsStay }
    ensures writable { SaidMayBeWritten }
{}

/// Records one after the other are records of the items of all, also where strings are appended. So
/// are those that are written of nodes.
pub fn joined_records()
    ensures join { RecordsJoin }
    ensures stay { RecordsStay }
    ensures written { WrittenAreRecords }
{}

/// Strings one after the other are strings of one list of texts. Those that are written of texts
/// are strings of them, and after the number of their bytes a payload's table of them.
pub fn joined_strings()
    ensures once { StringsAreOnce }
    ensures written { WrittenAreStrings }
    ensures table { WrittenIsTable }
{}
