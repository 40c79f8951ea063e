// Words in each form of the commands, through the whole program.
use super::*;

// The words that stand for an option, for its value, and for both as one word.
pub const OPTION: &str = "OPTION";

pub const VALUE: &str = "VALUE";

pub const BOTH: &str = "BOTH";

// Forms of words, each with every option and each of its values, and what a session leaves.
pub struct Asked {
    pub forms: &'static [&'static str],
    // Options, each with its values, between which there is a bar each.
    pub settings: &'static [(&'static str, &'static str)],
    pub row: Row,
}

// Of forms that have no option to fill in.
pub const NO_SETTING: &[(&str, &str)] = &[("", "")];

fn one_word(alloc: Global, option: &str, value: &str) -> Result<String, AllocError> {
    let mut word = String::from_str(alloc, option)?;
    word.push_str("=")?;
    word.push_str(value)?;
    Ok(word)
}

fn filled_word(alloc: Global, word: &str, option: &str, value: &str) -> Result<String, AllocError> {
    if word == OPTION {
        return String::from_str(alloc, option);
    }
    if word == VALUE {
        return String::from_str(alloc, value);
    }
    if word == BOTH {
        return one_word(alloc, option, value);
    }
    String::from_str(alloc, word)
}

fn filled(alloc: Global, form: &str, option: &str, value: &str) -> Result<Vec<String>, AllocError> {
    let mut words = Vec::new(alloc);
    if form.is_empty() {
        return Ok(words);
    }
    for word in form.split(' ') {
        words.push(filled_word(alloc, word, option, value)?)?;
    }
    Ok(words)
}

// Asserts what each form leaves with this option and value.
fn assert_forms(
    rt: &(impl Abort + AllocGlobal + Threads + Wait + Sync),
    asked: &Asked,
    option: &str,
    value: &str,
) -> Result<(), AllocError> {
    for form in asked.forms {
        let words = filled(rt.alloc(), form, option, value)?;
        assert_asked(rt, &asked.row, &words)?;
    }
    Ok(())
}

fn assert_settings(
    rt: &(impl Abort + AllocGlobal + Threads + Wait + Sync),
    asked: &Asked,
) -> Result<(), AllocError> {
    for (option, values) in asked.settings {
        for value in values.split('|') {
            assert_forms(rt, asked, option, value)?;
        }
    }
    Ok(())
}

pub fn assert_table(
    rt: &(impl Abort + AllocGlobal + Threads + Wait + Sync),
    table: &[Asked],
) -> Result<(), AllocError> {
    for asked in table {
        assert_settings(rt, asked)?;
    }
    Ok(())
}

const TAKEN: Row = Row {
    pieces: WHOLE,
    ..CHECK
};

const UNDERSTOOD: &[Asked] = &[
    Asked {
        forms: &[
            "nettcp check --static S OPTION VALUE",
            "nettcp dump OPTION VALUE --static=S",
            "nettcp dump --static S BOTH",
            "nettcp check BOTH --static=S",
        ],
        settings: &[
            ("--payload", "4096|16777216"),
            ("--depth", "4|1024"),
            ("--dictionary", "0|65536"),
            ("--content", "65536|67108864"),
            ("--session", "24|281474976710656"),
            ("--reply-payload", "4096|16777216"),
            ("--reply-depth", "4|1024"),
            ("--reply-dictionary", "0|65536"),
            ("--reply-content", "65536|67108864"),
        ],
        row: Row {
            name: "a quota is one word or two",
            ..TAKEN
        },
    },
    Asked {
        forms: &[
            "nettcp check --static S --payload 8192 --depth 8 --dictionary 1000 \
--content 9000 --session 24",
            "nettcp dump --session=24 --content=9000 --dictionary=1000 --depth=8 \
--payload=8192 --static=S",
            "nettcp check --content 9000 --static=S --session 24 --payload=8192 \
--dictionary 1000 --depth=8",
        ],
        settings: NO_SETTING,
        row: Row {
            name: "options come in any order",
            ..TAKEN
        },
    },
    Asked {
        forms: &["nettcp check --session=1 --static=S"],
        settings: NO_SETTING,
        row: Row {
            name: "the shortest session quota",
            status: 10,
            output: &[b"offence frame 0 25 SessionTooLong\n"],
            ..TAKEN
        },
    },
    Asked {
        forms: &["nettcp check OPTION"],
        settings: &[("--static=-", "")],
        row: Row {
            name: "any name of a file behind an equals sign, but the empty one",
            status: 6,
            note: "-: not found\n",
            ..REFUSED_WORDS
        },
    },
    Asked {
        forms: &["nettcp check OPTION"],
        settings: &[("--static=--", "")],
        row: Row {
            name: "any name of a file behind an equals sign, but the empty one",
            status: 6,
            note: "--: not found\n",
            ..REFUSED_WORDS
        },
    },
];

const UNDERSTOOD_2: &[Asked] = &[
    Asked {
        forms: &["nettcp check OPTION"],
        settings: &[("--static=-S", "")],
        row: Row {
            name: "any name of a file behind an equals sign, but the empty one",
            status: 6,
            note: "-S: not found\n",
            ..REFUSED_WORDS
        },
    },
    Asked {
        forms: &["nettcp check OPTION"],
        settings: &[("--static=--depth=8", "")],
        row: Row {
            name: "any name of a file behind an equals sign, but the empty one",
            status: 6,
            note: "--depth=8: not found\n",
            ..REFUSED_WORDS
        },
    },
    Asked {
        forms: &["nettcp check OPTION"],
        settings: &[("--static==S", "")],
        row: Row {
            name: "any name of a file behind an equals sign, but the empty one",
            status: 6,
            note: "=S: not found\n",
            ..REFUSED_WORDS
        },
    },
    Asked {
        forms: &["nettcp check OPTION"],
        settings: &[("--static= ", "")],
        row: Row {
            name: "any name of a file behind an equals sign, but the empty one",
            status: 6,
            note: " : not found\n",
            ..REFUSED_WORDS
        },
    },
    Asked {
        forms: &[
            "nettcp check --content=8192 --static=S --dictionary=8192 --payload=8192",
            "nettcp check --content=1048577 --static=S --dictionary=1048576 --payload=1048577",
            "nettcp check --reply-dictionary=8192 --static=S --reply-payload=8192",
            "nettcp check --reply-payload=4096 --static=S --payload=16777216",
        ],
        settings: NO_SETTING,
        row: Row {
            name: "a dictionary quota is at most the payload's, which a content quota is at least",
            ..TAKEN
        },
    },
    Asked {
        forms: &[
            "nettcp check OPTION --static=S",
            "nettcp dump --static S OPTION",
        ],
        settings: &[
            ("--encoding=7", ""),
            ("--encoding=8", ""),
            ("--encoding=msbin1", ""),
            ("--encoding=msbinsession1", ""),
        ],
        row: Row {
            name: "an encoding has no effect on an initiator's stream",
            ..TAKEN
        },
    },
];

fn understood_rows() -> &'static [Asked] {
    UNDERSTOOD
}

fn understood_rows_2() -> &'static [Asked] {
    UNDERSTOOD_2
}

pub fn assert_all(
    rt: &(impl Abort + AllocGlobal + Threads + Wait + Sync),
) -> Result<(), AllocError> {
    assert_table(rt, understood_rows())?;
    assert_table(rt, understood_rows_2())
}
