// Words that ask for nothing: nothing is read or written.
use super::words::{Asked, NO_SETTING, assert_table};
use super::*;

const NO_NUMBERS: &str =
    "|+65536|-65536|065536|00| 65536|65536 |65_536|65.536|65536.0|0x10000|64k|S|\u{661}\
|18446744073709551616|99999999999999999999";

const OTHER_OPTIONS: &[Asked] = &[
    Asked {
        forms: &[
            "",
            "nettcp",
            "check",
            "nettcp ",
            "nettcp --help",
            "nettcp dump",
            "nettcp check",
            "nettcp check S",
            "nettcp check --static",
            "nettcp check --static=",
            "nettcp check --static ",
            "nettcp check --depth 8",
            "nettcp build --static S",
            "nettcp Check --static S",
            "nettcp --static S check",
        ],
        settings: NO_SETTING,
        row: Row {
            name: "other words",
            ..REFUSED_WORDS
        },
    },
    Asked {
        forms: &[
            "nettcp check --static S VALUE",
            "nettcp dump --static S VALUE",
            "nettcp check VALUE --static S",
            "nettcp dump VALUE --static S",
        ],
        settings: &[(
            "",
            "|-|--|S|check|help|-s|-h|-V|-S|-d8|--help|--version|--help=8\
|--=|--=8|---depth=8|-depth=8|--other|--other=8|--depth|--depth=",
        )],
        row: Row {
            name: "words that are no option",
            ..REFUSED_WORDS
        },
    },
    Asked {
        forms: &["nettcp check OPTION VALUE", "nettcp check BOTH"],
        settings: &[
            ("--stat", "S"),
            ("--static-", "S"),
            ("--statics", "S"),
            ("--Static", "S"),
            ("--s", "S"),
        ],
        row: Row {
            name: "names that are cut or go on, of the file",
            ..REFUSED_WORDS
        },
    },
    Asked {
        forms: &[
            "nettcp check --static S OPTION VALUE",
            "nettcp check --static S BOTH",
        ],
        settings: &[
            ("--dept", "8"),
            ("--depth-", "8"),
            ("--depths", "8"),
            ("--DEPTH", "8"),
            ("--pay", "8"),
            ("--d", "8"),
        ],
        row: Row {
            name: "names that are cut or go on, of a quota",
            ..REFUSED_WORDS
        },
    },
    Asked {
        forms: &[
            "nettcp rehearse",
            "nettcp rehearse --window 32",
            "nettcp rehearse --id",
            "nettcp rehearse --id=",
            "nettcp rehearse --id=\t\r\n",
            "nettcp rehearse --id u --window 0",
            "nettcp rehearse --id u --window 1025",
            "nettcp rehearse --id u --window 01",
            "nettcp rehearse --id u --window 4294967297",
            "nettcp rehearse --id u --id u",
            "nettcp rehearse --id u --static S",
            "nettcp rehearse --id u --session 100",
            "nettcp check --static S --window 32",
        ],
        settings: NO_SETTING,
        row: Row {
            name: "words that name no sequence",
            ..REFUSED_WORDS
        },
    },
];

const OTHER_OPTIONS_2: &[Asked] = &[
    Asked {
        forms: &[
            "nettcp check --static S OPTION VALUE",
            "nettcp dump --static S OPTION VALUE",
            "nettcp check BOTH --static=S",
            "nettcp dump BOTH --static=S",
        ],
        settings: &[
            ("--via", "net.tcp://h/e"),
            ("--mode", "duplex"),
            ("--endpoint", "net.tcp://h/e"),
            ("--actions", "S"),
            ("--listen", "127.0.0.1:1"),
            ("--connect", "127.0.0.1:1"),
            ("--connections", "1"),
            ("--second", "S"),
            ("--seed", "1"),
            ("--count", "1"),
        ],
        row: Row {
            name: "options of other commands",
            ..REFUSED_WORDS
        },
    },
    Asked {
        forms: &[
            "nettcp dump --static=S OPTION VALUE OPTION VALUE",
            "nettcp dump --static=S OPTION VALUE BOTH",
            "nettcp dump BOTH OPTION VALUE --static=S",
            "nettcp dump BOTH --static=S BOTH",
        ],
        settings: &[
            ("--replies", "duplex"),
            ("--encoding", "8"),
            ("--payload", "65536"),
            ("--depth", "8"),
            ("--dictionary", "8"),
            ("--content", "65536"),
            ("--session", "65536"),
            ("--static", "S"),
        ],
        row: Row {
            name: "options that are given twice, with one value too",
            ..REFUSED_WORDS
        },
    },
];

const OTHER_VALUES: &[Asked] = &[
    Asked {
        forms: &[
            "nettcp check --static VALUE",
            "nettcp check --static=S --depth VALUE",
        ],
        settings: &[("", "-|--|-S|--depth|--depth=8|-8")],
        row: Row {
            name: "values that look like options",
            ..REFUSED_WORDS
        },
    },
    Asked {
        forms: &[
            "nettcp check --static S OPTION VALUE",
            "nettcp check BOTH --static=S",
        ],
        settings: &[
            ("--payload", NO_NUMBERS),
            ("--depth", NO_NUMBERS),
            ("--dictionary", NO_NUMBERS),
            ("--content", NO_NUMBERS),
            ("--session", NO_NUMBERS),
        ],
        row: Row {
            name: "values that are no number",
            ..REFUSED_WORDS
        },
    },
    Asked {
        forms: &[
            "nettcp check --static S OPTION VALUE",
            "nettcp dump BOTH --static=S",
        ],
        settings: &[
            ("--payload", "4095|16777217|4294967296"),
            ("--depth", "3|1025|4294967304"),
            ("--dictionary", "65537"),
            ("--content", "65535|67108865"),
            ("--session", "0|281474976710657"),
            ("--reply-payload", "4095|16777217|4294967296"),
            ("--reply-depth", "3|1025|4294967304"),
            ("--reply-dictionary", "65537"),
            ("--reply-content", "65535|67108865"),
            ("--reply-session", "24"),
        ],
        row: Row {
            name: "quotas that may not be",
            ..REFUSED_WORDS
        },
    },
];

const OTHER_VALUES_2: &[Asked] = &[
    Asked {
        forms: &[
            "nettcp check --content=8192 --static=S --dictionary=8193 --payload=8192",
            "nettcp check --content=8191 --static=S --dictionary=8192 --payload=8192",
            "nettcp check --content=1048576 --static=S --dictionary=1048576 --payload=1048577",
            "nettcp check --static=S --payload=2097152 --dictionary=1048577",
            "nettcp check --static=S --dictionary=8192 --reply-payload=4096",
            "nettcp check --static=S --reply-content=65536 --reply-payload=65537",
        ],
        settings: NO_SETTING,
        row: Row {
            name: "quotas that may not be together",
            ..REFUSED_WORDS
        },
    },
    Asked {
        forms: &["nettcp check --static=S --replies VALUE"],
        settings: &[("", "Duplex|dup|request|2||duplex ")],
        row: Row {
            name: "modes of other names",
            ..REFUSED_WORDS
        },
    },
    Asked {
        forms: &[
            "nettcp dump --static=S --encoding VALUE",
            "nettcp dump --static=S --replies=duplex --encoding VALUE",
        ],
        settings: &[(
            "",
            "6|9|08|binary||+8|MSBIN1|msbin|msbin1+gzip|application/soap+msbin1",
        )],
        row: Row {
            name: "encodings of other names",
            ..REFUSED_WORDS
        },
    },
];

fn other_options_rows() -> &'static [Asked] {
    OTHER_OPTIONS
}

fn other_options_rows_2() -> &'static [Asked] {
    OTHER_OPTIONS_2
}

fn other_values_rows() -> &'static [Asked] {
    OTHER_VALUES
}

fn other_values_rows_2() -> &'static [Asked] {
    OTHER_VALUES_2
}

pub fn assert_all(
    rt: &(impl Abort + AllocGlobal + Threads + Wait + Sync),
) -> Result<(), AllocError> {
    assert_table(rt, other_options_rows())?;
    assert_table(rt, other_options_rows_2())?;
    assert_table(rt, other_values_rows())?;
    assert_table(rt, other_values_rows_2())
}
