// Requests of both versions of WS-Addressing, each answered in its own.
use super::replays::{HI, REPLAY};
use super::*;

const ADDRESSED: Row = Row {
    pieces: ANY,
    ..REPLAY
};

// The strings of an envelope of August 2004: its namespace, and `x`.
const STRINGS: &[u8] = b"\x330http://schemas.xmlsoap.org/ws/2004/08/addressing\x01x";

// A document of August 2004 up to the text of its Action, and one of version 1.0.
const HEADER: &[u8] = b"V\x02\x0B\x01s\x04\x0B\x01a\x01V\x08D\x0A\x1E\x00\x82";

const HEADER_1: &[u8] = b"V\x02\x0B\x01s\x04\x0B\x01a\x06V\x08D\x0A\x1E\x00\x82";

// The action and the MessageID of a call, and the RelatesTo of its answer.
const ECHO: &[u8] = b"\x99\x08urn:echoD\x1A\xAD3\x22\x11\x00UDwf\x88\x99\xAA\xBB\xCC\xDD\xEE\xFF";

const RELATED: &[u8] = b"D\x12\xAD3\x22\x11\x00UDwf\x88\x99\xAA\xBB\xCC\xDD\xEE\xFF";

// The end of Header, and Body up to the text of `x`.
const BODY: &[u8] = b"\x01V\x0EB\x03\x99\x02";

// What answers a call of August 2004.
const ECHOED: Parts = &[
    ACK,
    b"\x06\x75",
    STRINGS,
    HEADER,
    b"\x99\x10urn:echoResponse",
    RELATED,
    BODY,
    HI,
    END,
];

const ONE_ECHO: Parts = &[PREAMBLE, b"\x06\x6D", STRINGS, HEADER, ECHO, BODY, HI, END];

// The namespace of August 2004 in an answer that names no prefix `x`.
const OLDER: &[u8] = b"0http://schemas.xmlsoap.org/ws/2004/08/addressing";

const VERSIONS: &[Row] = &[
    Row {
        name: "a request of August 2004 is answered in its version",
        input: ONE_ECHO,
        output: ECHOED,
        ..ADDRESSED
    },
    Row {
        name: "its ReplyTo is the anonymous address of its version",
        input: &[
            PREAMBLE,
            b"\x06\xB3\x01",
            STRINGS,
            HEADER,
            ECHO,
            b"D\x2CD\x2A\x99?http://schemas.xmlsoap.org/ws/2004/08/addressing/role/anonymous\x01",
            BODY,
            HI,
            END,
        ],
        output: ECHOED,
        ..ADDRESSED
    },
    Row {
        name: "its ReplyTo is the anonymous address of version 1.0",
        input: &[
            PREAMBLE,
            b"\x06\x74",
            STRINGS,
            HEADER,
            ECHO,
            b"D\x2CD\x2A\xAB\x14\x01",
            BODY,
            HI,
            END,
        ],
        output: &[
            ACK,
            b"\x06\xD4\x02\x5B",
            OLDER,
            b"\x05Fault\x04Code\x05Value\x07Subcode\x06Reason\x04Text\x04lang",
            HEADER,
            b"\x996http://schemas.xmlsoap.org/ws/2004/08/addressing/fault",
            RELATED,
            b"\x01V\x0EV\x03V\x05V\x07\x99\x08s:SenderV\x09V\x07\x99\x19a:InvalidAddressingHeader",
            b"V\x09V\x07\x99\x1Fa:OnlyAnonymousAddressSupported\x01\x01\x01",
            b"V\x0BV\x0D\x07\x03xml\x0F\x98\x02en",
            b"\x99.Only the anonymous reply address is supported.\x01\x01\x01\x01",
            END,
        ],
        ..ADDRESSED
    },
    Row {
        name: "a ReplyTo of August 2004 in a request of version 1.0, which must be understood",
        input: &[
            PREAMBLE,
            b"\x06\x77",
            STRINGS,
            HEADER_1,
            ECHO,
            b"E\x2C\x0B\x01b\x01\x1E\x00\x82\x01",
            BODY,
            HI,
            END,
        ],
        output: &[
            ACK,
            b"\x06\xA3\x02\x67\x0DNotUnderstood",
            OLDER,
            b"\x05qname\x05Fault\x04Code\x05Value\x06Reason\x04Text\x04lang",
            HEADER_1,
            b"\x99/http://www.w3.org/2005/08/addressing/soap/fault",
            RELATED,
            b"V\x01\x0B\x01n\x03\x06\x05\x98\x09n:ReplyTo\x01\x01V\x0EV\x07V\x09V\x0B",
            b"\x99\x10s:MustUnderstand\x01V\x0DV\x0F\x07\x03xml\x11\x98\x02en",
            b"\x99\x22A header block was not understood.\x01\x01\x01\x01",
            END,
        ],
        ..ADDRESSED
    },
];

// Over a wire, where replies may be written by a thread of their own.
const SERVED: &[Row] = &[Row {
    name: "a request of August 2004 is answered in its version over a wire",
    words: "nettcp serve --static=S --listen=h:808",
    options: "--connections=1",
    pieces: UNREAD,
    peers: &[Peer {
        sends: ONE_ECHO,
        read: None,
        write: None,
        got: Some(ECHOED),
    }],
    output: &[b"connection 0 messages 1 answers 1 in ended out done\n"],
    ..CHECK
}];

fn versions_rows() -> &'static [Row] {
    VERSIONS
}

fn served_rows() -> &'static [Row] {
    SERVED
}

pub fn assert_all(
    rt: &(impl Abort + AllocGlobal + Threads + Wait + Sync),
) -> Result<(), AllocError> {
    assert_rows(rt, versions_rows())?;
    assert_rows(rt, served_rows())
}
