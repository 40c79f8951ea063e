//! The command `build`, which writes documents as an initiator's session.

ghost use Rattle.std.specs.Prelude.{◌≡◌, ◌≤◌, length, vec_len, IfOk};
ghost use Rattle.io_edges.specs.Puts.{Puts};
ghost use Rattle.nbfx_values.specs.QuotasOf.{limits_of};
ghost use Rattle.stream_loop.specs.Edges.{input_at};
ghost use Rattle.command_words.specs.Asking.{opening_of};
ghost use Rattle.dump_replay.specs.Building.{Builds, preamble_of, status_of_building};

use command_words::Opening;
use document_lines::{DocumentReader, Envelope, InputFault};
use initiator_machine::opening;
use io_edges::{GatheringSink, Sink, SinkFault, Source, gathering_room};
use nbfx_values::Quotas;
use nmf_records::record_types::END;
use static_dictionary::StaticTable;
use std::alloc::Global;
use stream_loop::{ReportEnding, Reporter, report_stream};
use unit_streams::Memory;

/// Writes envelopes as they are, and an End record at last.
#[derive(Drop)]
struct EnvelopeWriter;

impl Reporter<Envelope, InputFault> for EnvelopeWriter {
    ghost use Rattle.std.specs.Prelude.{⊤};
    ghost use Rattle.document_lines.specs.Input.{envelopes_and_end};

    ghost State = { ⊤ };

    ghost rules = { λ _. envelopes_and_end };

    ghost state = { λ _. tt };

    fn put_event<K: Sink>(&mut self, event: &Envelope, output: &mut K) -> Result<(), SinkFault> {
        output.put(event.as_slice())
    }

    fn put_ending<K: Sink>(
        &mut self,
        refusal: &Option<InputFault>,
        output: &mut K,
    ) -> Result<(), SinkFault> {
        match refusal {
            None => output.put(&[END]),
            Some(_) => Ok(()),
        }
    }
}

// The preamble of a session, which is shorter than the buffer that it is gathered in.
fn preamble(alloc: Global, wanted: Opening<'_>) -> Result<Vec<u8>, Memory>
    requires { length wanted.via.now ≤ 2048 }
    ensures bytes { IfOk result (λ bytes. bytes.items ≡ preamble_of (opening_of wanted.entry)) }
    ensures short { IfOk result (λ bytes. length bytes.items ≤ 65536) }
{
    let mut bytes = Vec::new(alloc);
    opening(wanted.mode, wanted.encoding, wanted.via, &mut bytes)?;
    Ok(bytes)
}

// A sink that has gathered these bytes, for which its buffer has place.
fn holding<O: Sink>(bytes: &[u8], room: Vec<u8>, output: O) -> GatheringSink<O>
    requires { length bytes.now ≤ vec_len room }
    ensures sink { result.sink ≡ output }
    ensures gathered { result.gathered ≡ bytes.now }
{
    let mut gathered = GatheringSink::new(room, output);
    let _ = gathered.put(bytes);
    gathered
}

/// Reads the documents that the input gives in lines, and writes an initiator's session of them.
/// Answers how that ended, with the output.
pub fn build_input<I: Source, O: Sink>(
    alloc: Global,
    wanted: Opening<'_>,
    statics: &StaticTable,
    quotas: Quotas,
    input: &mut I,
    output: O,
) -> (ReportEnding<InputFault>, O)
    requires { length wanted.via.now ≤ 2048 }
    ensures { Builds (opening_of wanted.entry) statics.now (limits_of quotas)
        (input_at I.left I.taken I.faults I.empty_takes input.old)
        (input_at I.left I.taken I.faults I.empty_takes input.new) (O.view output) (O.view result.1)
        result.0 }
{
    let Ok(bytes) = preamble(alloc, wanted) else {
        return (ReportEnding::Memory, output);
    };
    let Ok(room) = gathering_room(alloc) else {
        return (ReportEnding::Memory, output);
    };
    let mut reader = DocumentReader::new(
        alloc,
        statics,
        quotas,
        wanted.encoding.kind(),
        wanted.mode,
    );
    let mut gathered = holding(&bytes, room, output);
    let ending = report_stream(
        alloc,
        &mut reader,
        &mut EnvelopeWriter,
        input,
        &mut gathered,
    );
    (ending, gathered.into_sink())
}

/// The status of a run that ends so.
pub fn build_status(ending: ReportEnding<InputFault>) -> u8
    ensures { result ≡ status_of_building ending }
{
    match ending {
        ReportEnding::Judged(None) => 0,
        ReportEnding::Judged(Some(InputFault::Line { .. })) => 6,
        ReportEnding::Judged(Some(InputFault::Unfit { .. })) => 7,
        ReportEnding::Judged(Some(InputFault::TooLong)) => 10,
        ReportEnding::ReadFault => 3,
        ReportEnding::WriteFault => 4,
        ReportEnding::Memory => 5,
    }
}
