// The pager by value: a pager and an event go in, the pager comes back beside the answer. Public are `fresh`,
// `event` and `is_uproc`; the rest are their parts, each of which promises one rule of the rule book.
#![tactic(auto)]

ghost use Rattle.std.specs.Prelude.{◌≡◌, ◌≤◌, ◌<◌, ◌+◌, Some, None, MatchResult};
ghost use Rattle.rules.specs.Words.{first};
ghost use Rattle.pages.specs.Numbers.{u_procs, width, frames};
ghost use Rattle.pages.specs.Rules;
ghost use Rattle.pages.specs.Rules.{entry, entry_of, is_uproc, saying, refusing, refill, reads, evicts, wants, fault, lowest_free, marks, seats, closes, written, read, report, ends, step};
ghost use Rattle.pages.specs.Ruled.{Ruled, Page};
ghost use Rattle.paging.specs.Refusals.{refusal_of, Comes};

use pages::{
    Answer, BLANK, Cause, Event, FRAMES, FREE, Pager, Refusal, Row, Transfer, Turn, U_PROCS, Word,
    entry_at,
};
use pool::{frames_of, freed_rows, lowest_free};

const FIRST_PAGE: u32 = 0x80000;

const LAST_PAGE: u32 = 0x8001E;

const STACK_PAGE: u32 = 0xBFFFF;

const STACK_ENTRY: u8 = 31;

// "free at first, the hand at 0"
pub fn fresh() -> Pager
    ensures { result ≡ Rules.fresh }
{
    Pager {
        tables: [BLANK; U_PROCS],
        rows: [FREE; FRAMES],
        hand: 0,
        transfer: Transfer::Closed,
    }
}

// The entry of a page number, where it has one.
fn entry_number(page: u32) -> Option<u8>
    ensures { result ≡ first (entry_of page) None (λ e. Some e) }
{
    if page == STACK_PAGE {
        return Some(STACK_ENTRY);
    }
    if page < FIRST_PAGE {
        return None;
    }
    if LAST_PAGE < page {
        return None;
    }
    Some((page - FIRST_PAGE) as u8)
}

fn answered(p: Pager, w: Word) -> Turn
    ensures { result ≡ saying w p }
{
    Turn {
        answer: Answer {
            refusal: None,
            word: w,
        },
        pager: p,
    }
}

fn refused(p: Pager, r: Refusal) -> Turn
    ensures { result ≡ refusing r p }
{
    Turn {
        answer: Answer {
            refusal: Some(r),
            word: Word::None,
        },
        pager: p,
    }
}

fn refilled(p: Pager, u: u8, page: u32) -> Turn
    requires { (1 ≤ u) × (u ≤ u_procs) }
    ensures { result ≡ refill u page p }
{
    match entry_number(page) {
        Some(e) => answered(
            p,
            Word::Entry(u, e, entry_at(p.tables, u as usize, e as usize)),
        ),
        None => answered(p, Word::Trap(u)),
    }
}

// A read into a frame is asked for.
fn reading(p: Pager, f: u8, u: u8, e: u8) -> Turn
    ensures { result ≡ reads f u e p }
{
    let next = Pager {
        transfer: Transfer::Reading(f, u, e),
        ..p
    };
    answered(next, Word::Read(f, u, e))
}

// An entry is marked.
fn marked(p: Pager, u: usize, e: usize, v: u8) -> Pager
    requires { Page u e }
    ensures { result ≡ marks u e v p }
{
    let mut next = p;
    next.tables[u - 1].entries[e] = v;
    next
}

// The page at the hand is evicted.
fn evicting(p: Pager, u: u8, e: u8) -> Turn
    requires { Ruled p × (lowest_free p.rows ≡ None) }
    ensures { result ≡ evicts u e p }
{
    let f = p.hand;
    let old = p.rows[f];
    let mut next = marked(p, old.owner as usize, old.page as usize, 0);
    next.rows[f] = FREE;
    next.hand = (f + 1) % FRAMES;
    next.transfer = Transfer::Writing(f as u8, u, e, old);
    answered(next, Word::Write(f as u8, old.owner, old.page))
}

// A page of a U-proc is wanted: it is present, or a frame is taken for it.
fn wanted(p: Pager, u: u8, e: u8) -> Turn
    requires { Ruled p × Page u e }
    ensures { result ≡ wants (entry p.tables u e) u e p }
{
    let v = entry_at(p.tables, u as usize, e as usize);
    if v != 0 {
        return answered(p, Word::Refresh(u, e, v - 1));
    }
    match lowest_free(p.rows) {
        Some(f) => reading(p, f as u8, u, e),
        None => evicting(p, u, e),
    }
}

// A load or a store faulted at a page.
fn missed(p: Pager, u: u8, page: u32) -> Turn
    requires { Ruled p × (1 ≤ u) × (u ≤ u_procs) }
    ensures { result ≡ fault u page Cause.Load p }
{
    match entry_number(page) {
        Some(e) => wanted(p, u, e),
        None => answered(p, Word::Trap(u)),
    }
}

fn faulted(p: Pager, u: u8, page: u32, c: Cause) -> Turn
    requires { Ruled p × (1 ≤ u) × (u ≤ u_procs) }
    ensures { result ≡ fault u page c p }
{
    match c {
        Cause::Load => missed(p, u, page),
        Cause::Store => missed(p, u, page),
        Cause::Modification => answered(p, Word::Trap(u)),
    }
}

// A page lies in a frame, its row says so, and no transfer is open.
fn seated(p: Pager, f: u8, u: u8, e: u8) -> Pager
    requires { (f < frames) × Page u e }
    ensures { result ≡ seats f u e p }
{
    let mut next = marked(p, u as usize, e as usize, f + 1);
    next.rows[f as usize] = Row { owner: u, page: e };
    next.transfer = Transfer::Closed;
    next
}

// The transfer is over, and its frame free.
fn closing(p: Pager) -> Pager
    ensures { result ≡ closes p }
{
    Pager {
        transfer: Transfer::Closed,
        ..p
    }
}

// A write was done, or failed.
fn after_write(p: Pager, ok: bool, f: u8, u: u8, e: u8, old: Row) -> Turn
    requires { (f < frames) × Page old.owner old.page }
    ensures { result ≡ written ok f u e old p }
{
    if ok {
        return reading(p, f, u, e);
    }
    answered(seated(p, f, old.owner, old.page), Word::Trap(u))
}

// A read was done, or failed.
fn after_read(p: Pager, ok: bool, f: u8, u: u8, e: u8) -> Turn
    requires { (f < frames) × Page u e }
    ensures { result ≡ read ok f u e p }
{
    if ok {
        return answered(seated(p, f, u, e), Word::Resume(u, e, f));
    }
    answered(closing(p), Word::Trap(u))
}

fn reported(p: Pager, ok: bool) -> Result<Turn, Refusal>
    requires { Ruled p }
    ensures { Comes result (report p.transfer ok p) p }
{
    match p.transfer {
        Transfer::Closed => Err(Refusal::OutOfTurn),
        Transfer::Writing(f, u, e, old) => Ok(after_write(p, ok, f, u, e, old)),
        Transfer::Reading(f, u, e) => Ok(after_read(p, ok, f, u, e)),
    }
}

// "Ending a U-proc frees its frames"
fn ended(p: Pager, u: u8) -> Turn
    requires { (1 ≤ u) × (u ≤ u_procs) }
    ensures { result ≡ ends u p }
{
    let m = frames_of(p.rows, u);
    let mut next = p;
    next.tables[u as usize - 1] = BLANK;
    next.rows = freed_rows(p.rows, u);
    answered(next, Word::Freed(u, m))
}

// "U-procs 1 to 8"
pub fn is_uproc(u: u32) -> bool
    ensures { result ≡ is_uproc u }
{
    (1..=U_PROCS as u32).contains(&u)
}

// The U-proc that an event names, where the event is in turn: 9 before 11.
fn in_turn(t: Transfer, u: u32) -> Result<u8, Refusal>
    ensures { MatchResult result (λ n. (n ≡ u) × (refusal_of u t ≡ None)) (λ r. refusal_of u t ≡ Some r) }
{
    if !is_uproc(u) {
        return Err(Refusal::NoSuchUproc);
    }
    match t {
        Transfer::Closed => Ok(u as u8),
        Transfer::Writing(_, _, _, _) | Transfer::Reading(_, _, _) => Err(Refusal::OutOfTurn),
    }
}

// What an event comes to where it isn't refused.
fn served(p: Pager, v: Event) -> Result<Turn, Refusal>
    requires { Ruled p }
    ensures { Comes result (step v p) p }
{
    match v {
        Event::Refill(u, page) => Ok(refilled(p, in_turn(p.transfer, u)?, page)),
        Event::Fault(u, page, c) => Ok(faulted(p, in_turn(p.transfer, u)?, page, c)),
        Event::Report(ok) => reported(p, ok),
        Event::End(u) => Ok(ended(p, in_turn(p.transfer, u)?)),
    }
}

// One event: the answer, and the pager after it. `Ruled` is a premise and no invariant of the type, since the rule
// book's `step` and the laws of each event (`Laws`, `happens`) are said of any pager.
pub fn event(p: Pager, v: Event) -> Turn
    requires { Ruled p }
    ensures { result ≡ step v p }
{
    match served(p, v) {
        Ok(turn) => turn,
        Err(r) => refused(p, r),
    }
}
