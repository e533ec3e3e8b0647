//! The words of a line, and what an entry is in words.
ghost use Rattle.std.specs.Prelude.{◌≡◌, ◌≤◌, ◌+◌, ◌*◌, ◌++◌, List, [], ◌∷◌, length, map, ℕ, codes};
ghost use Rattle.std.specs.Fmt.{decimal};
ghost use Rattle.zp_model.specs.declared.constants.TheConstants.{LONGEST_LIST, LONGEST_NAME};
ghost use Rattle.zp_model.specs.Entries.{reply_of, request_of};
ghost use Rattle.zp_trace.specs.Spelling.{kind_word, mark_word, space};
ghost use Rattle.zp_text.specs.JournalText.{entry_line, is_low, reply_words, request_words, spaced};

use zp_info::{DIGITS, TextBuffer};
use zp_model::{Answered, Asked, Entry, LONGEST_LIST, LONGEST_NAME, Mark, MigrateType, PageNo};

/// The most bytes of a line: with the longest name, number and worker, and with as many pages in the request and in the reply as an
/// entry can have, it is shorter.
pub const ENTRY_LINE: usize = 1600;

/// The most bytes of a number and of the space before it.
const NUMBER: usize = DIGITS + 1;

/// The most bytes of an entry's request, or of its reply: a few short words, and all pages of a list.
const WORDS: usize = LONGEST_LIST * NUMBER + 48;

/// Appends an entry's line, with its number.
pub fn push_entry<const CAP: usize>(
    line: &mut TextBuffer<CAP>,
    name: &str,
    number: u32,
    entry: &Entry,
)
    requires name { length name.now ≤ LONGEST_NAME }
    requires room { length line.old + ENTRY_LINE ≤ CAP }
    ensures bytes { line.new ≡ line.old ++ entry_line name.now number entry.now }
    ensures len { length line.new ≤ length line.old + ENTRY_LINE }
{
    line.push(name);
    push_spaced_number(line, number);
    push_spaced_number(line, u32::from(entry.worker().number()));
    let (asked, answered, pages) = entry.parts();
    push_request(line, &asked, pages);
    push_answer(line, is_low(&asked), &answered, pages);
    line.push("\n");
}

/// Whether the lowest block is asked for.
fn is_low(asked: &Asked) -> bool
    ensures { (ps : List ℕ) → result ≡ is_low (request_of asked.now ps) }
{
    matches!(asked, Asked::AllocLow(_))
}

/// Appends the request, with these pages where a list of pages was freed.
fn push_request<const CAP: usize>(line: &mut TextBuffer<CAP>, asked: &Asked, given: &[PageNo])
    requires list { length given.now ≤ LONGEST_LIST }
    requires room { length line.old + WORDS ≤ CAP }
    ensures bytes { line.new ≡ line.old ++ spaced (request_words (request_of asked.now given.now)) }
    ensures len { length line.new ≤ length line.old + WORDS }
{
    match asked {
        Asked::Alloc(order, kind, mark) => {
            push_word(line, "alloc");
            push_spaced_number(line, u32::from(order.number()));
            push_word(line, kind_word(*kind));
            push_word(line, mark_word(*mark));
        }
        Asked::AllocLow(order) => {
            push_word(line, "low");
            push_spaced_number(line, u32::from(order.number()));
        }
        Asked::Free(page, order) => {
            push_word(line, "free");
            push_spaced_number(line, page.number());
            push_spaced_number(line, u32::from(order.number()));
        }
        Asked::Post(page, order, to) => {
            push_word(line, "post");
            push_spaced_number(line, page.number());
            push_spaced_number(line, u32::from(order.number()));
            push_spaced_number(line, u32::from(to.number()));
        }
        Asked::Collect => push_word(line, "collect"),
        Asked::Refill(kind, mark, count) => {
            push_word(line, "refill");
            push_word(line, kind_word(*kind));
            push_spaced_number(line, u32::from(*count));
            push_word(line, mark_word(*mark));
        }
        Asked::Drain(kind) => {
            push_word(line, "drain");
            push_word(line, kind_word(*kind));
            push_pages(line, given);
        }
        Asked::Isolate(pageblock) => {
            push_word(line, "isolate");
            push_spaced_number(line, *pageblock);
        }
        Asked::Release(pageblock, kind) => {
            push_word(line, "release");
            push_spaced_number(line, *pageblock);
            push_word(line, kind_word(*kind));
        }
        Asked::AllocRun(pages, align, mark) => {
            push_word(line, "run");
            push_spaced_number(line, *pages);
            push_spaced_number(line, u32::from(*align));
            push_word(line, mark_word(*mark));
        }
        Asked::AllocRunAt(page, pages) => {
            push_word(line, "runat");
            push_spaced_number(line, page.number());
            push_spaced_number(line, *pages);
        }
        Asked::FreeRun(page, pages) => {
            push_word(line, "freerun");
            push_spaced_number(line, page.number());
            push_spaced_number(line, *pages);
        }
    }
}

/// Appends the reply to a request for the lowest block or to another one, with these pages where a list
/// of pages was got.
fn push_answer<const CAP: usize>(
    line: &mut TextBuffer<CAP>,
    low: bool,
    answered: &Answered,
    taken: &[PageNo],
)
    requires list { length taken.now ≤ LONGEST_LIST }
    requires room { length line.old + WORDS ≤ CAP }
    ensures bytes { line.new ≡ line.old ++ spaced (reply_words low (reply_of answered.now taken.now)) }
    ensures len { length line.new ≤ length line.old + WORDS }
{
    match answered {
        Answered::Page(page) => push_page(line, *page),
        Answered::Block(block) if low => push_page(line, block.page),
        Answered::Block(block) => {
            push_word(line, "block");
            push_spaced_number(line, block.page.number());
            push_word(line, "order");
            push_spaced_number(line, u32::from(block.order.number()));
        }
        Answered::Freed | Answered::Drained => push_word(line, "freed"),
        Answered::Posted => push_word(line, "posted"),
        Answered::Pages => {
            push_word(line, "pages");
            push_pages(line, taken);
        }
        Answered::Isolated => push_word(line, "isolated"),
        Answered::Released => push_word(line, "released"),
        Answered::Refused(refused) => {
            push_word(line, "refused");
            push_spaced_number(line, u32::from(refused.number()));
        }
    }
}

/// Appends the one page of a reply.
fn push_page<const CAP: usize>(line: &mut TextBuffer<CAP>, page: PageNo)
    requires { length line.old + 5 + NUMBER ≤ CAP }
    ensures bytes { line.new ≡ line.old ++ spaced (codes "page" ∷ decimal page ∷ []) }
    ensures len { length line.new ≤ length line.old + 5 + NUMBER }
{
    push_word(line, "page");
    push_spaced_number(line, page.number());
}

/// Appends pages, in their order.
fn push_pages<const CAP: usize>(line: &mut TextBuffer<CAP>, pages: &[PageNo])
    requires list { length pages.now ≤ LONGEST_LIST }
    requires room { length line.old + LONGEST_LIST * NUMBER ≤ CAP }
    ensures bytes { line.new ≡ line.old ++ spaced (map decimal pages.now) }
    ensures len { length line.new ≤ length line.old + LONGEST_LIST * NUMBER }
{
    for page in pages {
        push_spaced_number(line, page.number());
    }
}

/// Appends a space and a number.
pub fn push_spaced_number<const CAP: usize>(line: &mut TextBuffer<CAP>, number: u32)
    requires { length line.old + NUMBER ≤ CAP }
    ensures bytes { line.new ≡ line.old ++ space ∷ decimal number }
    ensures len { length line.new ≤ length line.old + NUMBER }
{
    line.push(" ");
    line.push_number(number);
}

/// Appends a space and a word.
pub fn push_word<const CAP: usize>(line: &mut TextBuffer<CAP>, word: &str)
    requires { length line.old + 1 + length word.now ≤ CAP }
    ensures bytes { line.new ≡ line.old ++ space ∷ word.now }
    ensures len { length line.new ≡ length line.old + 1 + length word.now }
{
    line.push(" ");
    line.push(word);
}

fn kind_word(kind: MigrateType) -> &'static str
    ensures word { result.now ≡ kind_word kind }
    ensures short { length result.now ≡ 1 }
{
    match kind {
        MigrateType::Unmovable => "U",
        MigrateType::Reclaimable => "R",
        MigrateType::Movable => "M",
    }
}

fn mark_word(mark: Mark) -> &'static str
    ensures word { result.now ≡ mark_word mark }
    ensures short { length result.now ≡ 3 }
{
    match mark {
        Mark::Low => "low",
        Mark::Min => "min",
        Mark::Any => "any",
    }
}
