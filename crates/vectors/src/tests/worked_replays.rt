// Worked sessions, and what a server answers to them, in one piece and byte by byte.
use super::replays::{ANSWER, BY_ACTION, FAULTS, HI, REPLAY};
use super::*;

const WORKED: Row = Row {
    pieces: ANY,
    ..REPLAY
};

// An answer that brings the name `x`, up to its document.
const ANSWERED: &[u8] = b"\x06\x44\x02\x01x";

// A document up to the text of its Action, its MessageID, and the RelatesTo of an answer to it.
pub const HEADER: &[u8] = b"V\x02\x0B\x01s\x04\x0B\x01a\x06V\x08D\x0A\x1E\x00\x82";

const MESSAGE: &[u8] = b"D\x1A\xAD3\x22\x11\x00UDwf\x88\x99\xAA\xBB\xCC\xDD\xEE\xFF";

pub const RELATED: &[u8] = b"D\x12\xAD3\x22\x11\x00UDwf\x88\x99\xAA\xBB\xCC\xDD\xEE\xFF";

// The actions of a call and of a fault.
const ECHO: &[u8] = b"\x99\x08urn:echo";

const SOAP_FAULT: &[u8] = b"\x99/http://www.w3.org/2005/08/addressing/soap/fault";

// The strings of an envelope with a header block that must be understood, and that block up to the
// last word of its role.
const ROLE_STRINGS: &[u8] = b"\x06\x8A\x01\x11\x03Sec\x05urn:t\x04role\x01x";

const BLOCK: &[u8] =
    b"W\x01\x0B\x01t\x03\x1E\x00\x82\x1E\x05\x981http://www.w3.org/2003/05/soap-envelope/role/";

// What answers a call in one chunk.
pub const IN_ONE_CHUNK: Parts = &[
    ACK,
    b"\x05\x42",
    HEADER,
    b"\x99\x10urn:echoResponse",
    RELATED,
    b"\x01V\x0E\x40\x01x\x99\x02hi\x01\x01\x00",
    END,
];

// What answers a call of an action that the file of actions hasn't.
const NO_SUCH_ACTION: Parts = &[
    ACK,
    b"\x06\xDA\x01\x2A\x05Fault\x04Code\x05Value\x07Subcode\x06Reason\x04Text\x04lang",
    HEADER,
    b"\x99\x2Ahttp://www.w3.org/2005/08/addressing/fault",
    RELATED,
    b"\x01V\x0EV\x01V\x03V\x05\x99\x08s:SenderV\x07V\x05\x99\x14a:ActionNotSupported\x01\x01",
    b"V\x09V\x0B\x07\x03xml\x0D\x98\x02en\x99\x1CThe action is not supported.\x01\x01\x01\x01",
    END,
];

const SESSIONS: &[Row] = &[
    Row {
        name: "strings of the session, and an anonymous ReplyTo",
        input: &[
            PREAMBLE,
            b"\x06Y\x19\x08urn:echo\x0Dnet.tcp://h/e\x01x",
            HEADER,
            b"\xAB\x01",
            MESSAGE,
            b"D\x2CD\x2A\xAB\x14\x01D\x0C\x1E\x00\x82\xAB\x03\x01V\x0EB\x05\x99\x02hi\x01\x01",
            END,
        ],
        output: &[ACK, ANSWERED, ANSWER, HI, END],
        ..WORKED
    },
    Row {
        name: "an upgrade where the preamble would end",
        input: &[b"\x00\x01\x00\x01\x02\x02\x0Dnet.tcp://h/e\x03\x08\x09"],
        status: 1,
        output: &[b"\x08\x45", FAULTS, b"UpgradeInvalid"],
        note: "offence frame 22 10 UpgradeRefused\n",
        ..WORKED
    },
    Row {
        name: "a call in simplex mode, which has no answer",
        input: &[
            b"\x00\x01\x00\x01\x03\x02\x0Dnet.tcp://h/e\x03\x08\x0C",
            CALL,
            DOCUMENT,
            END,
        ],
        output: &[ACK, END],
        ..WORKED
    },
    Row {
        name: "a call in one chunk, whose answer is one chunk too",
        input: &[
            b"\x00\x01\x00\x01\x01\x02\x0Dnet.tcp://h/e\x03\x07\x0C\x05\x3A",
            HEADER,
            ECHO,
            MESSAGE,
            b"\x01V\x0E\x40\x01x\x99\x02hi\x01\x01\x00",
            END,
        ],
        output: IN_ONE_CHUNK,
        ..WORKED
    },
];

const SESSIONS_2: &[Row] = &[
    Row {
        name: "a header block that must be understood, for the next node",
        input: &[
            PREAMBLE,
            ROLE_STRINGS,
            HEADER,
            ECHO,
            BLOCK,
            b"next\x01",
            MESSAGE,
            b"\x01V\x0EB\x07\x99\x02hi\x01\x01",
            END,
        ],
        output: &[
            ACK,
            b"\x06\xF4\x01\x3C\x0DNotUnderstood\x05urn:t\x05qname\x05Fault\x04Code\x05Value",
            b"\x06Reason\x04Text\x04lang",
            HEADER,
            SOAP_FAULT,
            RELATED,
            b"V\x01\x0B\x01n\x03\x06\x05\x98\x05n:Sec\x01\x01V\x0E",
            b"V\x07V\x09V\x0B\x99\x10s:MustUnderstand\x01V\x0DV\x0F\x07\x03xml\x11\x98\x02en",
            b"\x99\x22A header block was not understood.\x01\x01\x01\x01",
            END,
        ],
        ..WORKED
    },
    Row {
        name: "a header block that must be understood, for no node",
        input: &[
            PREAMBLE,
            ROLE_STRINGS,
            HEADER,
            ECHO,
            BLOCK,
            b"none\x01",
            MESSAGE,
            b"\x01V\x0EB\x07\x99\x02hi\x01\x01",
            END,
        ],
        output: &[ACK, ANSWERED, ANSWER, HI, END],
        ..WORKED
    },
    Row {
        name: "an Action that comes twice",
        input: &[
            PREAMBLE,
            b"\x06K\x02\x01x",
            HEADER,
            ECHO,
            b"D\x0A\x1E\x00\x82",
            ECHO,
            MESSAGE,
            b"\x01V\x0EB\x01\x99\x02hi\x01\x01",
            END,
        ],
        output: &[
            ACK,
            b"\x06\xEC\x01\x2A\x05Fault\x04Code\x05Value\x07Subcode\x06Reason\x04Text\x04lang",
            HEADER,
            b"\x99\x2Ahttp://www.w3.org/2005/08/addressing/fault",
            b"\x01V\x0EV\x01V\x03V\x05\x99\x08s:SenderV\x07V\x05\x99\x19a:InvalidAddressingHeader",
            b"V\x07V\x05\x99\x14a:InvalidCardinality\x01\x01\x01",
            b"V\x09V\x0B\x07\x03xml\x0D\x98\x02en",
            b"\x99\x21An addressing header is repeated.\x01\x01\x01\x01",
            END,
        ],
        ..WORKED
    },
];

const SESSIONS_3: &[Row] = &[
    Row {
        name: "a root that is no envelope",
        input: &[
            PREAMBLE,
            b"\x06B\x08\x05Other\x01xV\x01\x0B\x01s\x04\x0B\x01a\x06V\x08D\x0A\x1E\x00\x82",
            ECHO,
            MESSAGE,
            b"\x01V\x0EB\x03\x99\x02hi\x01\x01",
            END,
        ],
        output: &[
            ACK,
            b"\x06\xBA\x01\x22\x05Fault\x04Code\x05Value\x06Reason\x04Text\x04lang",
            HEADER,
            SOAP_FAULT,
            b"\x01V\x0EV\x01V\x03V\x05\x99\x11s:VersionMismatch\x01",
            b"V\x07V\x09\x07\x03xml\x0B\x98\x02en",
            b"\x99\x24The root is not a SOAP 1.2 envelope.\x01\x01\x01\x01",
            END,
        ],
        ..WORKED
    },
    Row {
        name: "a message beyond the payload quota, behind a call that is answered",
        input: &[PREAMBLE, CALL, DOCUMENT, b"\x06\x81\x80\x04"],
        status: 1,
        output: &[
            ACK,
            ANSWERED,
            ANSWER,
            HI,
            b"\x08\x52",
            FAULTS,
            b"MaxMessageSizeExceededFault",
        ],
        note: "offence frame 85 11 MessageTooLarge\n",
        ..WORKED
    },
    Row {
        name: "an answer that never fits is left out, as is the fault in its place",
        options: "--depth=4",
        input: &[ONE_ENVELOPE],
        ..WORKED
    },
    Row {
        name: "an action that is not in the file",
        files: &[("A", b"action,text\nurn:other,ok\n")],
        input: ONE_CALL,
        pieces: ANY,
        status: 0,
        output: NO_SUCH_ACTION,
        ..BY_ACTION
    },
];

fn sessions_rows() -> &'static [Row] {
    SESSIONS
}

fn sessions_rows_2() -> &'static [Row] {
    SESSIONS_2
}

fn sessions_rows_3() -> &'static [Row] {
    SESSIONS_3
}

pub fn assert_all(
    rt: &(impl Abort + AllocGlobal + Threads + Wait + Sync),
) -> Result<(), AllocError> {
    assert_rows(rt, sessions_rows())?;
    assert_rows(rt, sessions_rows_2())?;
    assert_rows(rt, sessions_rows_3())
}
