//! The calls of the words, as a caller writes them.

ghost use Rattle.std.specs.Prelude.{◌<◌};
ghost use Rattle.cmh_rw.specs.Seats.{IsSeatOf, IsRwSeatAway};

use super::posting::post_two;
use super::{expect, expect_eq};
use crate::graphs::{TWO_IN_A_CYCLE, graph_of};
use cmh_graph::Verdict;
use cmh_rw::laws::{law_row_code_injective, law_step_lawful};
use cmh_rw::{
    BOARD_WORDS, Entry, FIRST_ROW, FIRST_VERDICT, MAX_SEATS, Row, RwSeat, RwWords, WRITER,
    verdict_from_code,
};
use std::process::Abort;
use std::test::Fail;

#[test]
fn constants(rt: HostRuntime) {
    law_step_lawful();
    law_row_code_injective();
    expect_eq(&rt, (WRITER, MAX_SEATS), (4_294_967_296, 64));
    let words = (FIRST_ROW, FIRST_VERDICT, BOARD_WORDS);
    expect_eq(&rt, words, (2, 4_098, 8_194));
}

#[test]
fn rows_and_verdicts_as_words(rt: HostRuntime) {
    let rows = [
        (0, (0, Verdict::Deadlocked, false)),
        (6, (1, Verdict::Deadlocked, true)),
        (10, (2, Verdict::Deadlocked, true)),
        (3, (0, Verdict::Free, true)),
        (16_383, (4_095, Verdict::Free, true)),
    ];
    for (code, wanted) in rows {
        assert!(rt; code < 17_179_869_184);
        let row = Row::from_code(code);
        expect_eq(&rt, (row.process, row.verdict, row.last), wanted);
    }
    expect_eq(&rt, verdict_from_code(0), None);
    expect_eq(&rt, verdict_from_code(1), Some(Verdict::Deadlocked));
    expect_eq(&rt, verdict_from_code(2), Some(Verdict::Free));
}

#[test]
fn calls_of_the_words(rt: HostRuntime) -> Result<(), Fail> {
    let alloc = rt.alloc();
    let graph = graph_of(alloc, &TWO_IN_A_CYCLE, &[])?;
    let all = graph.verdicts_plain(alloc)?;
    let (words, mut x) = RwWords::open(alloc, &graph)?;
    let Some(mut y) = words.split(&mut x) else {
        panic!(rt; "a seat with the whole share is split")
    };
    expect_eq(&rt, (words.share(&x), words.share(&y)), (63, 1));
    expect(&rt, words.split(&mut y).is_none());
    post_two(&words, &mut y, &graph, &all, 0, 1);
    let entry = words.try_read(&mut x);
    expect_eq(&rt, entry, Entry::Held);
    if entry == Entry::Held {
        expect_eq(&rt, words.load(&mut x, 1), 2);
        expect_eq(&rt, words.load(&mut x, FIRST_ROW + 1), 6);
        words.end_read(&mut x);
    }
    let entry = words.try_write(&mut y);
    expect_eq(&rt, entry, Entry::Held);
    if entry == Entry::Held {
        words.end_write(&mut y);
    }
    words.join(&mut x, y);
    expect_eq(&rt, words.share(&x), 64);
    let closed = words.close_with(x);
    expect_eq(&rt, closed.word(FIRST_VERDICT), Some(1));
    expect_eq(&rt, closed.word(BOARD_WORDS), None);
    Ok(())
}

/// Splits `others` seats off this one. Each reads while the next are split off, and what is left of this one tries to
/// write. Afterwards all are joined again.
fn read_together<R: Abort>(rt: &R, words: &RwWords, seat: RwSeat, others: u32) -> RwSeat
    requires own { IsSeatOf words.now seat }
    requires away { IsRwSeatAway seat }
    ensures own { IsSeatOf words.now result }
    ensures away { IsRwSeatAway result }
{
    let mut rest = seat;
    if others == 0 {
        assert!(rt; words.split(&mut rest).is_none());
        assert!(rt; words.try_write(&mut rest) == Entry::Busy(63));
        return rest;
    }
    let Some(mut one) = words.split(&mut rest) else {
        panic!(rt; "a seat with a share of two is split")
    };
    let Entry::Held = words.try_read(&mut one) else {
        panic!(rt; "nobody writes")
    };
    let mut rest = read_together(rt, words, rest, others - 1);
    words.end_read(&mut one);
    words.join(&mut rest, one);
    rest
}

#[test]
fn sixty_four_seats(rt: HostRuntime) -> Result<(), Fail> {
    let graph = graph_of(rt.alloc(), &TWO_IN_A_CYCLE, &[])?;
    let (words, x) = RwWords::open(rt.alloc(), &graph)?;
    let x = read_together(&rt, &words, x, 63);
    expect_eq(&rt, words.share(&x), 64);
    expect_eq(&rt, words.close_with(x).word(0), Some(0));
    Ok(())
}
