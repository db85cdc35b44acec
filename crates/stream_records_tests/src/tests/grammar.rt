//! A grammar of replies, right and wrong.
//!
//! A capital letter is replaced by one of its forms, a digit ends a line, and anything else is the type byte of a reply.

/// What a capital letter stands for.
pub(crate) struct Rule {
    pub(crate) letter: u8,
    /// Whether its forms are bytes of a reply, and not letters again.
    pub(crate) is_bytes: bool,
    pub(crate) forms: &'static [&'static [u8]],
    /// Forms in letters that few replies have.
    pub(crate) odd_forms: &'static [&'static [u8]],
}

/// A reply to a read of streams.
pub(crate) const READ: u8 = b'T';

/// A reply of entries.
pub(crate) const ENTRIES: u8 = b'H';

/// A map of entries' fields, or an array in its place.
pub(crate) const ENTRY: u8 = b'E';

/// A map of texts, or an array in its place.
pub(crate) const TEXTS: u8 = b'P';

pub(crate) const RULES: &[Rule] = &[
    // Rows in standard form, in claim form, and with entries of both.
    Rule {
        letter: READ,
        is_bytes: false,
        forms: &[
            b"*1A", b"*2AA", b"*3AAA", b"%1KS", b"%2KSKS", b"*1B", b"*2BB", b"%1KC", b"%2KCKC",
            b"*1G", b"*2AA", b"*2BB",
        ],
        odd_forms: &[
            b"X", b"Z", b"S", b"C", b"*0", b"*2AB", b"*2BA", b"*2AG", b"%2KSKC", b"%2KCKS",
            b"*2AX", b"*2BX", b"~2AA", b"~2BB", b"|1LLT",
        ],
    },
    Rule {
        letter: b'A',
        is_bytes: false,
        forms: &[b"*2KS", b"*2KS", b"%1KS"],
        odd_forms: &[
            b"*4KSKS", b"%2KSKS", b"*1K", b"*3KSK", b"*2SK", b"*2XX", b"%1SK", b"*0", b"X", b"Z",
            b"|1LLA",
        ],
    },
    Rule {
        letter: b'B',
        is_bytes: false,
        forms: &[b"*2KC", b"*2KC", b"%1KC"],
        odd_forms: &[
            b"*4KCKC", b"%2KCKC", b"*1K", b"*3KCK", b"*2CK", b"*2XX", b"%1CK", b"*0", b"X", b"Z",
            b"|1LLB",
        ],
    },
    Rule {
        letter: b'G',
        is_bytes: false,
        forms: &[b"*2KM", b"%1KM"],
        odd_forms: &[b"X"],
    },
    // Entries in standard form, in claim form, and in both.
    Rule {
        letter: ENTRIES,
        is_bytes: false,
        forms: &[b"S", b"S", b"S", b"S", b"C", b"M"],
        odd_forms: &[b"X", b"T"],
    },
    Rule {
        letter: b'S',
        is_bytes: false,
        forms: &[
            b"*1E", b"*2EE", b"*2EE", b"*3EEE", b"%1IF", b"%2IFIF", b"*0",
        ],
        odd_forms: &[
            b"X", b"Z", b"*2EX", b"*2XE", b"*2ED", b"%2IFXX", b"~2EE", b"|1LLS",
        ],
    },
    Rule {
        letter: b'C',
        is_bytes: false,
        forms: &[b"*1D", b"*2DD", b"*3DDD"],
        odd_forms: &[
            b"X", b"Z", b"*2DX", b"*2XD", b"*2DE", b"%2IFUU", b"~2DD", b"|1LLC",
        ],
    },
    Rule {
        letter: b'M',
        is_bytes: false,
        forms: &[b"*2ED", b"*2DE", b"*3EDE", b"*3EED", b"*3DDE"],
        odd_forms: &[b"X"],
    },
    Rule {
        letter: ENTRY,
        is_bytes: false,
        forms: &[b"*2IF", b"*2IF", b"%1IF"],
        odd_forms: &[
            b"*4IFIF", b"%2IFIF", b"*1I", b"*3IFI", b"*2FI", b"%1FI", b"*2XX", b"*4IFUU",
            b"*4IFIU", b"*0", b"X", b"Z", b"|1LLE",
        ],
    },
    Rule {
        letter: b'D',
        is_bytes: false,
        forms: &[b"*4IFUU"],
        odd_forms: &[
            b"*4IFUF", b"*4IFIF", b"*4FIUU", b"*4XXXX", b"*3IFU", b"*5IFUUU", b"*2IF", b"%2IFUU",
            b"~4IFUU", b"*0", b"X", b"Z", b"|1LLD",
        ],
    },
    Rule {
        letter: b'F',
        is_bytes: false,
        forms: &[
            b"*2NV",
            b"*4NVNV",
            b"*6NVNVNV",
            b"%1NV",
            b"%2NVNV",
            b"*0",
            b"Z",
        ],
        odd_forms: &[b"*1N", b"*3NVN", b"~2NV", b"%0", b"X", b"|1LLF"],
    },
    Rule {
        letter: TEXTS,
        is_bytes: false,
        forms: &[b"*2NN", b"*4NNNN", b"*6NNNNNN", b"%1NN", b"%3NNNNNN"],
        odd_forms: &[
            b"*1N", b"*3NNN", b"*2NX", b"*2XX", b"*2XN", b"%2NNXN", b"~2NN", b"*0", b"X", b"Z",
            b"|1LLP",
        ],
    },
    Rule {
        letter: b'V',
        is_bytes: false,
        forms: &[b"L", b"L", b"L", b"X"],
        odd_forms: &[],
    },
    // Anything.
    Rule {
        letter: b'X',
        is_bytes: false,
        forms: &[
            b"L", b"L", b"L", b"L", b"Z", b"*1L", b"*2LL", b"*3LLL", b"*4LLLL", b"%1LL", b"%2LLLL",
            b"~2LL", b"~1L", b"*0", b"%0", b"|1LLL", b"|1LLX",
        ],
        odd_forms: &[],
    },
    Rule {
        letter: b'K',
        is_bytes: true,
        forms: &[b"$1\r\na\r\n", b"$1\r\nb\r\n", b"+c\r\n"],
        odd_forms: &[b"X"],
    },
    Rule {
        letter: b'I',
        is_bytes: true,
        forms: &[b"$3\r\n1-0\r\n", b"$3\r\n2-0\r\n", b"+3-0\r\n"],
        odd_forms: &[b"X"],
    },
    Rule {
        letter: b'N',
        is_bytes: true,
        forms: &[b"$1\r\nf\r\n", b"$1\r\ng\r\n", b"+h\r\n", b":1\r\n"],
        odd_forms: &[b"X"],
    },
    Rule {
        letter: b'U',
        is_bytes: true,
        forms: &[b":5\r\n", b":0\r\n", b"$2\r\n12\r\n", b":7\r\n", b"_\r\n"],
        odd_forms: &[b"X", b"Z"],
    },
    Rule {
        letter: b'Z',
        is_bytes: true,
        forms: &[b"_\r\n", b"$-1\r\n", b"*-1\r\n"],
        odd_forms: &[],
    },
    Rule {
        letter: b'L',
        is_bytes: true,
        forms: &[
            b"$1\r\nv\r\n",
            b"$0\r\n\r\n",
            b"$1\r\n\xff\r\n",
            b"$2\r\n\xc3\xa9\r\n",
            b"+w\r\n",
            b"+OK\r\n",
            b":9\r\n",
            b":-1\r\n",
            b"_\r\n",
            b"#t\r\n",
            b",1.5\r\n",
            b"(123456789012345678901234567890\r\n",
            b"=5\r\ntxt:x\r\n",
            b"-ERR no\r\n",
            b"!6\r\nERR no\r\n",
        ],
        odd_forms: &[],
    },
];
