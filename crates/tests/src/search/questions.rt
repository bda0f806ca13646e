//! Which questions a search asks its matcher.
use crate::search::searches::{search_reader, search_slice};
use grep_matcher::{LiteralMatcher, Matcher, Plain};
use grep_searcher::{ConfigError, SearchError, Searcher, SearcherBuilder};
use grep_testing::{Counting, Offers, Pieces, Taking, Unsure};
use std::alloc::Global;
use std::io;
use std::io::ErrorKind;

// A search for the literal `a`, and the haystacks that it asks its matcher about.
struct Row {
    input: &'static [u8],
    // a slice, or a reader that gives at most so many bytes at a read
    pieces: &'static [Option<usize>],
    // whether the matcher has a byte set, so that it may be asked about many lines at once
    has_byte_set: bool,
    // whether it confirms that a line among many matches, and isn't asked again about that line
    is_sure: bool,
    multi_line: bool,
    invert: bool,
    stop: bool,
    passthru: bool,
    // how many lines are selected at most
    max: Option<u64>,
    // both contexts, in lines
    near: usize,
    // which call of the sink returns false, counted from 1
    false_at: Option<u64>,
    // which lines in a row the sink takes, and how often it is offered some
    taking: Taking,
    offers: u64,
    asked: &'static [&'static [u8]],
    // how many of the last questions are about lines to which the search doesn't come:
    // they may fail
    unheard: usize,
}

// A search that asks about many lines at once. Each question finds a line that matches.
const AHEAD: Row = Row {
    input: b"b\na\nb\na\n",
    pieces: &[None, Some(0)],
    has_byte_set: true,
    is_sure: true,
    multi_line: false,
    invert: false,
    stop: false,
    passthru: false,
    max: None,
    near: 0,
    false_at: None,
    taking: Taking::Never,
    offers: 2,
    asked: &[b"b\na\nb\na\n", b"b\na\n"],
    unheard: 0,
};

// One question for each line that matches, and none past a limit or a call that returned false. In
// the context after the limit, and after a chosen line if the search stops, each line is asked
// about alone. In single bytes each line is a window of its own.
const AHEAD_ROWS: &[Row] = &[
    AHEAD,
    Row {
        invert: true,
        ..AHEAD
    },
    Row {
        near: 1,
        offers: 1,
        ..AHEAD
    },
    Row {
        input: b"a\nb\nb\na\n",
        near: 2,
        asked: &[b"a\nb\nb\na\n", b"b\nb\na\n"],
        ..AHEAD
    },
    Row {
        max: Some(1),
        near: 1,
        offers: 0,
        asked: &[b"b\na\nb\na\n", b"b"],
        ..AHEAD
    },
    Row {
        input: b"a\na\na\n",
        max: Some(2),
        offers: 0,
        asked: &[b"a\na\na\n", b"a\na\n"],
        ..AHEAD
    },
    Row {
        input: b"a\na\na\n",
        false_at: Some(2),
        offers: 1,
        asked: &[b"a\na\na\n"],
        ..AHEAD
    },
    Row {
        stop: true,
        offers: 1,
        asked: &[b"b\na\nb\na\n", b"b"],
        ..AHEAD
    },
    Row {
        pieces: &[Some(1)],
        asked: &[b"b\n", b"a\n", b"b\n", b"a\n"],
        ..AHEAD
    },
    Row {
        pieces: &[Some(1)],
        near: 1,
        offers: 1,
        asked: &[b"b\n", b"a\n", b"b\n", b"a\n"],
        ..AHEAD
    },
];

// A search whose matcher isn't sure of any line that it finds among many.
const UNSURE: Row = Row {
    is_sure: false,
    offers: 0,
    asked: &[b"b\na\nb\na\n", b"a", b"b\na\n", b"a"],
    ..AHEAD
};

// Each such line is asked about alone, and not among many again, also after lines of a context.
const UNSURE_ROWS: &[Row] = &[
    UNSURE,
    Row { near: 1, ..UNSURE },
    Row {
        input: b"a\nb\nb\na\n",
        near: 2,
        asked: &[b"a\nb\nb\na\n", b"a", b"b\nb\na\n", b"a"],
        ..UNSURE
    },
    Row {
        invert: true,
        offers: 2,
        ..UNSURE
    },
];

// A search of lines in a row, which the sink takes: the first alone, and then as many as match.
const IN_A_ROW: Row = Row {
    input: b"a\na\na\nb\na\na\na\n",
    taking: Taking::Always,
    offers: 3,
    asked: &[
        b"a\na\na\nb\na\na\na\n",
        b"a\na\nb\na\na\na\n",
        b"a\nb\na\na\na\n",
        b"b\na\na\na\n",
        b"a\na\n",
        b"a\n",
    ],
    ..AHEAD
};

// No question twice, also not where the sink took no lines, and none about the end. After an offer
// that it doesn't take the next is of one line, of those that were asked about all.
const IN_A_ROW_ROWS: &[Row] = &[
    IN_A_ROW,
    Row {
        taking: Taking::Unless(1),
        offers: 4,
        ..IN_A_ROW
    },
    Row {
        taking: Taking::Unless(2),
        offers: 5,
        ..IN_A_ROW
    },
    Row {
        taking: Taking::Never,
        offers: 6,
        ..IN_A_ROW
    },
    Row {
        taking: Taking::Unless(2),
        false_at: Some(2),
        offers: 2,
        asked: &[
            b"a\na\na\nb\na\na\na\n",
            b"a\na\nb\na\na\na\n",
            b"a\nb\na\na\na\n",
            b"b\na\na\na\n",
        ],
        unheard: 2,
        ..IN_A_ROW
    },
    Row {
        invert: true,
        offers: 1,
        ..IN_A_ROW
    },
    Row {
        stop: true,
        offers: 1,
        asked: &[b"a\na\na\nb\na\na\na\n", b"a", b"a", b"b"],
        ..IN_A_ROW
    },
    Row {
        max: Some(2),
        offers: 0,
        asked: &[b"a\na\na\nb\na\na\na\n", b"a\na\nb\na\na\na\n"],
        ..IN_A_ROW
    },
    Row {
        pieces: &[Some(1)],
        offers: 6,
        asked: &[b"a\n", b"a\n", b"a\n", b"b\n", b"a\n", b"a\n", b"a\n"],
        ..IN_A_ROW
    },
];

// A search that asks about each line alone, without its terminator.
const ALONE: Row = Row {
    input: b"1\na2\n3\na4\n5",
    pieces: &[None, Some(2)],
    has_byte_set: false,
    offers: 0,
    asked: &[b"1", b"a2", b"3", b"a4", b"5"],
    ..AHEAD
};

// No line is asked about twice, none out of order, none after the context of the last selected one
// that the limit allows, and none after false.
const ALONE_ROWS: &[Row] = &[
    ALONE,
    Row { near: 2, ..ALONE },
    Row {
        max: Some(2),
        near: 2,
        ..ALONE
    },
    Row {
        max: Some(1),
        asked: &[b"1", b"a2"],
        ..ALONE
    },
    Row {
        max: Some(1),
        near: 2,
        asked: &[b"1", b"a2", b"3", b"a4"],
        ..ALONE
    },
    Row {
        max: Some(1),
        passthru: true,
        asked: &[b"1", b"a2"],
        ..ALONE
    },
    Row {
        max: Some(0),
        asked: &[],
        ..ALONE
    },
    Row {
        invert: true,
        max: Some(1),
        asked: &[b"1"],
        ..ALONE
    },
    Row {
        stop: true,
        asked: &[b"1", b"a2", b"3"],
        ..ALONE
    },
    Row {
        false_at: Some(1),
        asked: &[],
        ..ALONE
    },
    Row {
        false_at: Some(2),
        asked: &[b"1", b"a2"],
        ..ALONE
    },
];

// A search across lines, which asks about all bytes, and then about those after each match.
const ACROSS: Row = Row {
    multi_line: true,
    asked: &[b"1\na2\n3\na4\n5", b"2\n3\na4\n5", b"4\n5"],
    ..ALONE
};

// No byte is searched twice, and nothing after the limit.
const ACROSS_ROWS: &[Row] = &[
    ACROSS,
    Row {
        max: Some(2),
        asked: &[b"1\na2\n3\na4\n5", b"2\n3\na4\n5"],
        ..ACROSS
    },
    Row {
        max: Some(1),
        asked: &[b"1\na2\n3\na4\n5"],
        ..ACROSS
    },
    Row {
        max: Some(0),
        asked: &[],
        ..ACROSS
    },
];

// The searcher of a row.
fn searcher(alloc: Global, row: &Row) -> Result<Searcher, ConfigError> {
    SearcherBuilder::new()
        .bom_sniffing(false)
        .multi_line(row.multi_line)
        .invert_match(row.invert)
        .stop_on_nonmatch(row.stop)
        .passthru(row.passthru)
        .max_matches(row.max)
        .before_context(row.near)
        .after_context(row.near)
        .build(alloc)
}

// Searches a slice, or a reader that gives at most so many bytes at a read.
fn search<M: Matcher + Drop>(
    searcher: &mut Searcher,
    matcher: M,
    bytes: &[u8],
    piece: Option<usize>,
    sink: &mut Offers,
) -> Result<(), SearchError> {
    match piece {
        None => search_slice(searcher, matcher, bytes, sink),
        Some(piece) => {
            let mut reader = Pieces::new(bytes, piece, None);
            search_reader(searcher, matcher, &mut reader, sink)
        }
    }
}

// Whether a search with this matcher, of which the question with this number fails if there is one,
// asks the row's questions, in order, and no other: it ends with that one's error.
fn asks<M: Matcher<Error = io::Error> + Drop>(
    searcher: &mut Searcher,
    row: &Row,
    matcher: M,
    piece: Option<usize>,
    failing: Option<u64>,
) -> bool {
    let fault = match failing {
        Some(number) => Some((number, io::Error::from(ErrorKind::TimedOut))),
        None => None,
    };
    let matcher = Counting::new(matcher, row.asked, fault);
    let mut sink = Offers::new(row.taking, row.false_at);
    let ended = search(searcher, &matcher, row.input, piece, &mut sink);
    if matcher.strays() > 0 {
        return false;
    }
    match failing {
        Some(number) => ended.is_err() && matcher.calls() == number,
        None => {
            ended.is_ok()
                && matcher.calls() == row.asked.len() as u64
                && sink.offers() == row.offers
        }
    }
}

// Whether it does with the row's matcher.
fn asks_of(alloc: Global, row: &Row, piece: Option<usize>, failing: Option<u64>) -> bool {
    let Ok(mut searcher) = searcher(alloc, row) else {
        return false;
    };
    let literal = LiteralMatcher::borrowed(b"a");
    if row.has_byte_set && row.is_sure {
        asks(&mut searcher, row, literal, piece, failing)
    } else if row.has_byte_set {
        asks(&mut searcher, row, Unsure(literal), piece, failing)
    } else {
        asks(&mut searcher, row, Plain(literal), piece, failing)
    }
}

// Whether it does if no question fails, and if each of those does to which the search comes.
fn asks_all(alloc: Global, row: &Row, piece: Option<usize>) -> bool {
    let heard = row.asked.len().saturating_sub(row.unheard) as u64;
    for number in 0..heard {
        if !asks_of(alloc, row, piece, Some(number + 1)) {
            return false;
        }
    }
    asks_of(alloc, row, piece, None)
}

// Whether each row's does, wherever its input is. An error is the index of a row.
fn ask_rows(alloc: Global, rows: &[Row]) -> Result<(), usize> {
    for (index, row) in rows.iter().enumerate() {
        for piece in row.pieces {
            if !asks_all(alloc, row, *piece) {
                return Err(index);
            }
        }
    }
    Ok(())
}

#[test]
fn many_lines_at_once(rt: HostRuntime) -> Result<(), usize> {
    ask_rows(rt.alloc(), AHEAD_ROWS)
}

#[test]
fn lines_that_may_match(rt: HostRuntime) -> Result<(), usize> {
    ask_rows(rt.alloc(), UNSURE_ROWS)
}

#[test]
fn lines_in_a_row(rt: HostRuntime) -> Result<(), usize> {
    ask_rows(rt.alloc(), IN_A_ROW_ROWS)
}

// Empty lines, each of which the empty literal matches.
const EMPTY_LINES: [u8; 16_400] = [b'\n'; 16_400];

// How many questions a search of empty lines asks whose sink takes the first, and declines those of
// the next offer, at the first of which it ends the search.
fn questions_up_to_an_offer(searcher: &mut Searcher) -> u64 {
    let matcher = Counting::new(LiteralMatcher::borrowed(b""), &[], None);
    let mut sink = Offers::new(Taking::Unless(2), Some(2));
    let _ = search_slice(searcher, &matcher, &EMPTY_LINES, &mut sink);
    matcher.calls()
}

// An offer is of 16 KiB at most, and none of the lines after these is asked about before it.
#[test]
fn sixteen_kibibytes_in_a_row(rt: HostRuntime) -> Result<(), u64> {
    let Ok(mut searcher) = Searcher::new(rt.alloc()) else {
        return Err(0);
    };
    match questions_up_to_an_offer(&mut searcher) {
        16_385 => Ok(()),
        count => Err(count),
    }
}

#[test]
fn line_by_line(rt: HostRuntime) -> Result<(), usize> {
    ask_rows(rt.alloc(), ALONE_ROWS)
}

#[test]
fn across_lines(rt: HostRuntime) -> Result<(), usize> {
    ask_rows(rt.alloc(), ACROSS_ROWS)
}
