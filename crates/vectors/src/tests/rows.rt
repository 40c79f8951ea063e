// What a row says, and what is the same in many of them.
use super::*;

// Some bytes in parts, which stand one behind the other.
pub type Parts = &'static [&'static [u8]];

// The part that stands for a row's long text.
pub const LONG: &[u8] = b"LONG";

pub const NO_TEXT: (usize, &[u8]) = (0, b"");

// A run of the program: what it is asked, what comes in and what fails, and what it leaves.
#[derive(Clone, Copy)]
pub struct Row {
    pub name: &'static str,
    pub words: &'static str,
    // More words, behind these; both with a space between two words.
    pub options: &'static str,
    // The files of the shelf beside S, which has the static strings, or in its place.
    pub files: &'static [(&'static str, &'static [u8])],
    pub input: Parts,
    // How many times the long text of the row has which bytes.
    pub long: (usize, &'static [u8]),
    // At most how many bytes come at a take, and how many are left of the input then: a run each.
    pub pieces: &'static [(usize, usize)],
    // The fetch, the take, and the put of the output that fail, by their numbers.
    pub fetch: Option<u64>,
    pub take: Option<u64>,
    pub put: Option<u64>,
    // How many bytes a failing put keeps, and one of a note where it fails.
    pub kept: usize,
    pub noted: Option<usize>,
    pub peers: &'static [Peer],
    // The accept or the connect that fails.
    pub connect: Option<u64>,
    pub status: u8,
    pub output: Parts,
    pub note: &'static str,
}

// In one piece; in this and byte by byte.
pub const WHOLE: &[(usize, usize)] = &[(65_536, 0)];

pub const ANY: &[(usize, usize)] = &[(65_536, 0), (1, 0)];

// None of a session is taken.
pub const UNREAD: &[(usize, usize)] = &[(65_536, 24)];

// The report of a session.
pub const CHECK: Row = Row {
    name: "",
    words: "nettcp check --static S",
    options: "",
    files: &[],
    input: &[SESSION],
    long: NO_TEXT,
    pieces: ANY,
    fetch: None,
    take: None,
    put: None,
    kept: 0,
    noted: None,
    peers: &[],
    connect: None,
    status: 0,
    output: &[OPEN, b"ended 24\n"],
    note: "",
};

pub const CHECK_ONE: &str = "nettcp check --static=S";

pub const DUMP: &str = "nettcp dump --static S";

pub const DUMP_ONE: &str = "nettcp dump --static=S";

pub const REFUSED_WORDS: Row = Row {
    pieces: UNREAD,
    status: 2,
    output: &[],
    note: "words not understood\n",
    ..CHECK
};

pub const REFUSED: Row = Row { status: 1, ..CHECK };

pub const READ_FAULT: Row = Row {
    status: 3,
    output: &[],
    note: "read fault\n",
    ..CHECK
};

pub const WRITE_FAULT: Row = Row {
    put: Some(0),
    pieces: WHOLE,
    status: 4,
    note: "write fault\n",
    ..CHECK
};

pub const SESSION: &[u8] = b"\x00\x01\x00\x01\x02\x02\x0Dnet.tcp://h/e\x03\x08\x0C\x07";

pub const PREAMBLE: &[u8] = b"\x00\x01\x00\x01\x02\x02\x0Dnet.tcp://h/e\x03\x08\x0C";

// Of payloads that are documents alone.
pub const PLAIN_PREAMBLE: &[u8] = b"\x00\x01\x00\x01\x02\x02\x0Dnet.tcp://h/e\x03\x07\x0C";

pub const ACK: &[u8] = b"\x0B";

pub const END: &[u8] = b"\x07";

// An element `x`, whose name is a string of the session.
pub const ONE_ENVELOPE: &[u8] =
    b"\x00\x01\x00\x01\x02\x02\x0Dnet.tcp://h/e\x03\x08\x0C\x06\x06\x02\x01x\x42\x01\x01\x07";

pub const TOO_LARGE: &[u8] =
    b"\x00\x01\x00\x01\x02\x02\x0Dnet.tcp://h/e\x03\x08\x0C\x06\x81\x80\x04";

pub const BAD_MODE: &[u8] = b"\x00\x01\x00\x01\x04";

pub const OPEN: &[u8] = b"open duplex 8 \"net.tcp://h/e\"\n";

pub const PLAIN_OPEN: &[u8] = b"open duplex 7 \"net.tcp://h/e\"\n";

// The line of the one envelope.
pub const MESSAGE: &[u8] = b"message 0 payload 6 items 2 depth 1 content 1 strings 1 used 1\n";

// A call with a string, and the next one, which names it.
pub const ONE_CALL: Parts = &[PREAMBLE, CALL, DOCUMENT, END];

pub const TWO_CALLS: Parts = &[PREAMBLE, CALL, DOCUMENT, NEXT_CALL, DOCUMENT, END];

// An envelope that brings the name `x`, up to its document, and one behind it.
pub const CALL: &[u8] = b"\x06\x3C\x02\x01x";

pub const NEXT_CALL: &[u8] = b"\x06\x3A\x00";

// An addressed document.
pub const DOCUMENT: &[u8] =
    b"V\x02\x0B\x01s\x04\x0B\x01a\x06V\x08D\x0A\x1E\x00\x82\x99\x08urn:echoD\x1A\xAD3\x22\x11\
\x00UDwf\x88\x99\xAA\xBB\xCC\xDD\xEE\xFF\x01V\x0EB\x01\x99\x02hi\x01\x01";

// Its lines.
pub const LINES: &[u8] = b"start \"s\" \"Envelope\"\n\
ns \"s\" \"http://www.w3.org/2003/05/soap-envelope\"\n\
ns \"a\" \"http://www.w3.org/2005/08/addressing\"\n\
start \"s\" \"Header\"\n\
start \"a\" \"Action\"\n\
attr \"s\" \"mustUnderstand\" number 1\n\
text string \"urn:echo\"\n\
close\n\
start \"a\" \"MessageID\"\n\
text id 00112233-4455-6677-8899-aabbccddeeff\n\
close\n\
close\n\
start \"s\" \"Body\"\n\
start \"\" \"x\"\n\
text string \"hi\"\n\
close\n\
close\n\
close\n";

// A document of one element.
pub const X: &[u8] = b"start \"\" \"x\"\nclose\n";

// Static strings of an addressed envelope.
pub const STATICS: &[u8] =
    b"id,string\n0,mustUnderstand\n2,Envelope\n4,http://www.w3.org/2003/05/soap-envelope\n\
6,http://www.w3.org/2005/08/addressing\n8,Header\n10,Action\n\
12,To\n14,Body\n18,RelatesTo\n20,http://www.w3.org/2005/08/addressing/anonymous\n\
26,MessageID\n42,Address\n44,ReplyTo\n";
