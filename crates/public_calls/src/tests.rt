// A module for each crate that is called. Its checks are functions, which few tests go over, since
// each test is a program of its own.
mod answers;
mod called;
mod carried;
mod edges;
mod envelopes;
mod lanes;
mod lists;
mod pooled;
mod records;
mod senders;
mod sequences;
mod served;
mod statics;
mod strings;
mod wires;

use std::process;
use std::test::Fail;

#[test]
fn records_and_documents_are_read_answered_and_sent(rt: HostRuntime) -> Result<(), Fail> {
    answers::a_request_that_is_kept_is_answered(&rt)?;
    answers::services_that_echo_reply(&rt)?;
    envelopes::a_reply_is_made(&rt)?;
    envelopes::a_body_is_copied(&rt)?;
    carried::a_document_is_carried(&rt)?;
    records::nodes_are_written(&rt)?;
    records::an_array_is_read_and_copied(&rt)?;
    senders::one_message_and_its_end(&rt)?;
    senders::end_without_a_message(&rt)?;
    strings::a_string_that_comes_twice_has_its_first_identifier(&rt);
    lists::a_line_of_a_megabyte_is_read_in_pieces(&rt)
}

#[test]
fn documents_go_to_a_peer_and_through_a_sequence(rt: HostRuntime) -> Result<(), Fail> {
    called::documents_are_sent_to_a_peer_that_accepts(&rt)?;
    lanes::documents_of_both_lists_are_sent(&rt)?;
    lanes::the_first_list_may_be_empty(&rt)?;
    lanes::a_failed_write_ends_the_writing_alone(&rt)?;
    served::a_fault_goes_in_place_of_an_answer_that_does_not_fit(&rt)?;
    served::two_threads_write_what_one_does(&rt)?;
    pooled::connections_are_served_at_once(&rt)?;
    sequences::what_comes_is_taken_or_refused(&rt)?;
    sequences::bodies_are_submitted_or_refused(&rt)?;
    sequences::a_body_goes_through_a_world(&rt)
}

// Finding each of them by a search through all would take minutes.
#[test]
fn many_texts_are_found(rt: HostRuntime) -> Result<(), Fail> {
    statics::many_texts(&rt)?;
    strings::many_strings(&rt)
}

#[test]
fn readers_and_writers_move_bytes_once(rt: HostRuntime) -> Result<(), Fail> {
    edges::a_write_that_takes_nothing_fails_the_put(&rt);
    edges::a_read_that_fails_is_one_take(&rt);
    edges::a_write_that_fails_ends_the_put(&rt);
    edges::a_flush_reaches_the_writer(&rt);
    edges::puts_behind_the_end_fail(&rt);
    edges::sure_ends_move_all(&rt)?;
    edges::a_real_file_is_written_and_read(rt, process::id(rt.process()))?;
    edges::a_folder_and_a_full_device_fail(rt)
}
