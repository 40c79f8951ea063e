// Runs of the program, each of which is given what the one before it wrote.
use super::*;

struct Chain {
    name: &'static str,
    // The first run's input: texts, and how many times each stands there.
    input: &'static [(usize, &'static [u8])],
    runs: &'static [Run],
    // What the last run writes.
    output: Parts,
}

struct Run {
    words: &'static str,
    status: u8,
    // How many bytes it writes.
    written: usize,
}

// The bytes of a text that is large.
const LARGE: &[(usize, &[u8])] = &[
    (1, b"start \"\" \"x\"\ntext string \""),
    (65_536, b"y"),
    (1, b"\"\nclose\n"),
];

// The lines of an addressed document up to its text, and behind it.
const BEFORE: &[u8] = b"start \"s\" \"Envelope\"\n\
ns \"s\" \"http://www.w3.org/2003/05/soap-envelope\"\n\
ns \"a\" \"http://www.w3.org/2005/08/addressing\"\n\
start \"s\" \"Header\"\n\
start \"a\" \"Action\"\n\
attr \"s\" \"mustUnderstand\" number 1\n\
text string \"urn:echo\"\n\
close\n\
start \"a\" \"MessageID\"\n\
text id 00112233-4455-6677-8899-aabbccddeeff\n\
close\n\
close\n\
start \"s\" \"Body\"\n\
start \"\" \"x\"\n\
text string \"";

const BEHIND: &[u8] = b"\"\nclose\nclose\nclose\n";

const LARGE_CALL: &[(usize, &[u8])] = &[(1, BEFORE), (5_000, b"y"), (1, BEHIND)];

// The lines of the fault that an answer is replaced by.
const UNFIT_ANSWER: &[u8] = b"start \"s\" \"Envelope\"\n\
ns \"s\" \"http://www.w3.org/2003/05/soap-envelope\"\n\
ns \"a\" \"http://www.w3.org/2005/08/addressing\"\n\
start \"s\" \"Header\"\n\
start \"a\" \"Action\"\n\
attr \"s\" \"mustUnderstand\" number 1\n\
text string \"http://www.w3.org/2005/08/addressing/soap/fault\"\n\
close\n\
start \"a\" \"RelatesTo\"\n\
text id 00112233-4455-6677-8899-aabbccddeeff\n\
close\n\
close\n\
start \"s\" \"Body\"\n\
start \"s\" \"Fault\"\n\
start \"s\" \"Code\"\n\
start \"s\" \"Value\"\n\
text string \"s:Receiver\"\n\
close\n\
close\n\
start \"s\" \"Reason\"\n\
start \"s\" \"Text\"\n\
attr \"xml\" \"lang\" string \"en\"\n\
text string \"The reply does not fit.\"\n\
close\nclose\nclose\nclose\nclose\n";

const BUILD_CALL: Run = Run {
    words: "nettcp build --static=S --via=net.tcp://h/e",
    status: 0,
    written: 5_086,
};

const CHAINS: &[Chain] = &[
    Chain {
        name: "a payload that only the writer's quota admits",
        input: LARGE,
        runs: &[
            Run {
                words: "nettcp build --static=S --via=net.tcp://h/e --payload=131072",
                status: 0,
                written: 65_574,
            },
            Run {
                words: "nettcp check --static=S",
                status: 1,
                written: 66,
            },
        ],
        output: &[OPEN, b"offence frame 23 11 MessageTooLarge\n"],
    },
    Chain {
        name: "a payload that both quotas admit",
        input: LARGE,
        runs: &[
            Run {
                words: "nettcp build --static=S --via=net.tcp://h/e --payload=131072",
                status: 0,
                written: 65_574,
            },
            Run {
                words: "nettcp check --static=S --payload=131072",
                status: 0,
                written: 113,
            },
        ],
        output: &[
            OPEN,
            b"message 0 payload 65546 items 3 depth 1 content 65537 strings 1 used 1\n",
            b"ended 65574\n",
        ],
    },
    Chain {
        name: "elements at the greatest depth",
        input: &[(1_024, b"start \"\" \"x\"\n"), (1_024, b"close\n")],
        runs: &[
            Run {
                words: "nettcp build --static=S --via=net.tcp://h/e --depth=1024",
                status: 0,
                written: 3_102,
            },
            Run {
                words: "nettcp check --static=S --depth=1024",
                status: 0,
                written: 116,
            },
        ],
        output: &[
            OPEN,
            b"message 0 payload 3075 items 2048 depth 1024 content 1024 strings 1 used 1\n",
            b"ended 3102\n",
        ],
    },
    Chain {
        name: "content at the greatest quota",
        input: &[
            (1, PREAMBLE),
            (1, b"\x06\x86\x98\x04\x83\x80\x04\x80\x80\x04"),
            (65_536, b"a"),
            (1_024, b"\x42\x01"),
            (1_024, b"\x01"),
            (1, END),
        ],
        runs: &[Run {
            words: "nettcp check --static=S --payload=131072 --dictionary=65536 --depth=1024 \
--content=67108864",
            status: 0,
            written: 126,
        }],
        output: &[
            OPEN,
            b"message 0 payload 68614 items 2048 depth 1024 content 67108864 strings 1 \
used 65536\n",
            b"ended 68642\n",
        ],
    },
];

const ANSWERED: &[Chain] = &[Chain {
    name: "an answer that only the forward quota admits",
    input: LARGE_CALL,
    runs: &[
        BUILD_CALL,
        Run {
            words: "nettcp replay --static=S --reply-payload=4096",
            status: 0,
            written: 190,
        },
        Run {
            words: "nettcp dump --static=S --replies=duplex",
            status: 0,
            written: 665,
        },
    ],
    output: &[
        b"accepted\n",
        b"message 0 payload 185 items 28 depth 5 content 272 strings 6 used 28\n",
        UNFIT_ANSWER,
        b"ended 190\n",
    ],
}];

fn chains() -> &'static [Chain] {
    CHAINS
}

fn answered_chains() -> &'static [Chain] {
    ANSWERED
}

fn repeated(alloc: Global, texts: &[(usize, &[u8])]) -> Result<Vec<u8>, AllocError> {
    let mut bytes = Vec::new(alloc);
    for &(times, text) in texts {
        for _ in 0..times {
            bytes.extend_from_slice(text)?;
        }
    }
    Ok(bytes)
}

// What a run writes of this input.
fn written(
    rt: &(impl Abort + AllocGlobal + Threads + Wait + Sync),
    name: &'static str,
    one: &Run,
    input: &[u8],
) -> Result<Vec<u8>, AllocError> {
    let alloc = rt.alloc();
    let row = Row { name, ..CHECK };
    let words = listed(alloc, one.words, "")?;
    let source = source_of(alloc, input, 65_536, None)?;
    let mut notes = notes_of(alloc, &row)?;
    let mut wire = wire_of(alloc, &row)?;
    let ran = run_on_fakes(rt, alloc, &row, &words, source, &mut notes, &mut wire)?;
    assert_eq!(rt; ran.status, one.status, "{name}");
    assert_eq!(rt; ran.output.bytes().len(), one.written, "{name}");
    ran.output.bytes().to_vec(alloc)
}

fn assert_chain(
    rt: &(impl Abort + AllocGlobal + Threads + Wait + Sync),
    chain: &Chain,
) -> Result<(), AllocError> {
    let alloc = rt.alloc();
    let mut bytes = repeated(alloc, chain.input)?;
    for one in chain.runs {
        bytes = written(rt, chain.name, one, &bytes)?;
    }
    let row = Row {
        name: chain.name,
        ..CHECK
    };
    assert_bytes(rt, &row, &bytes, &joined(alloc, chain.output, NO_TEXT)?);
    Ok(())
}

pub fn assert_all(
    rt: &(impl Abort + AllocGlobal + Threads + Wait + Sync),
) -> Result<(), AllocError> {
    for table in [chains(), answered_chains()] {
        for chain in table {
            assert_chain(rt, chain)?;
        }
    }
    Ok(())
}
