//! What holds of records by their definitions alone. Each function does nothing: its contract is a
//! law, which a caller has where it calls the function.

ghost use Rattle.unit_streams.specs.Front.{ReadsFront};
ghost use Rattle.nmf_records.specs.declared.frame.Expect.{Expect};
ghost use Rattle.nmf_records.specs.RecordFronts.{content_type, frame_at, TextLimits, via_or_fault};
ghost use Rattle.nmf_records.specs.Writing.{WrittenAreRecords, WrittenAreRead};
ghost use Rattle.nmf_records.specs.Laws.{RecordsAreRead, NoRecordGoesOn, BegunIsShort, WholeIsShort, WrongIsShort, UnknownByType, UnexpectedByType, BadByInteger, BadByLength, BadByText, ScriptsLeadToEnd, NoScriptGoesOn};

/// A record depends only on its own bytes: it is wrong or complete at the byte that shows it,
/// whatever follows, and has only begun before that.
pub fn record_fronts()
    ensures { (limits : TextLimits) (expect : Expect)
        → ReadsFront (frame_at limits expect) }
{}

/// What a reader answers as a record is one by the table of records, and the other way round. No
/// record is the beginning of a longer one.
pub fn records()
    ensures read { RecordsAreRead }
    ensures none_goes_on { NoRecordGoesOn }
{}

/// The beginning of a record that isn't complete has at most five bytes more than the longest text
/// may have, a complete record at most six more. What is wrong with a record shows within as many.
pub fn record_lengths()
    ensures begun { BegunIsShort }
    ensures whole { WholeIsShort }
    ensures wrong { WrongIsShort }
{}

/// Bytes are refused as a record for six causes, one for each fault: a type byte above 0x0C, the
/// type byte of a record that may not come, an integer whose fifth byte is above 0x07, the text of
/// a Via or a Fault or a content type that is longer than its limit, and a text that isn't UTF-8.
pub fn faults()
    ensures unknown_record { UnknownByType }
    ensures unexpected { UnexpectedByType }
    ensures bad_int { BadByInteger }
    ensures text_too_long { BadByLength via_or_fault }
    ensures type_too_long { BadByLength content_type }
    ensures text_not_utf8 { BadByText }
{}

/// What is written of a record is that record, and is read back as it, whatever follows.
pub fn writers()
    ensures written { WrittenAreRecords }
    ensures read { WrittenAreRead }
{}

/// The scripts of the grammar are the lists of records of which each may come where those before it
/// lead, and which lead to where a stream may end. No script goes on to a longer one, but for a
/// receiver's Ack alone in simplex mode.
pub fn scripts()
    ensures ways { ScriptsLeadToEnd }
    ensures none_goes_on { NoScriptGoesOn }
{}
